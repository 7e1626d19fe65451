// A run of KT of either strength, by the plain calls and by those with four leaves abreast.
ghost use Rattle.std.specs.Prelude.{◌≡◌, [], length};
ghost use Rattle.sponge.specs.Transcript.{Call};
ghost use Rattle.kangarootwelve.specs.Model.{fresh_of, answer_of, hash_status, hash_output};
ghost use Rattle.bench.specs.Pieces.{kt_at_with_none};

use bench::pieces::{TimedRun, accepted};
use hasher::Refusal;
use kangarootwelve::Kt;

// A run, fed by the plain calls. Kept: KT128 has such a run in `bench` too, but the edit kt256_pieces_first_byte needs this text in its own crate.
#[derive(Clone, Copy)]
pub(crate) struct Plain<K: Kt> {
    hasher: K,
}

// A run, fed with four leaves abreast. The words that the calls get are its own, so that status and output are the plain call's.
#[derive(Clone, Copy)]
pub(crate) struct Abreast<K: Kt> {
    hasher: K,
    states: [u64; 100],
}

impl<K: Kt> TimedRun for Plain<K> {
    ghost timed = { kt_at_with_none K.RATE K.CHAINING };

    ghost has_absorbed = { λ h m. K.run_of h.hasher ≡ (answer_of K.RATE K.CHAINING (fresh_of K.RATE K.CHAINING) (Call.absorb m)).run };

    fn begin() -> Self {
        Plain { hasher: K::fresh() }
    }

    fn feed(&mut self, piece: &[u8]) -> Result<(), Refusal> {
        let answered = self.hasher.absorb(piece);
        self.hasher = answered.hasher;
        accepted(answered.status)
    }

    fn read(self, out: &mut [u8]) -> u8 {
        self.hasher.finalize(b"").hasher.squeeze(out).status
    }
}

impl<K: Kt> TimedRun for Abreast<K> {
    ghost timed = { kt_at_with_none K.RATE K.CHAINING };

    ghost has_absorbed = { λ h m. K.run_of h.hasher ≡ (answer_of K.RATE K.CHAINING (fresh_of K.RATE K.CHAINING) (Call.absorb m)).run };

    fn begin() -> Self {
        let states = [0u64; 100];
        Abreast {
            hasher: K::fresh(),
            states,
        }
    }

    fn feed(&mut self, piece: &[u8]) -> Result<(), Refusal> {
        let fed = self.hasher.absorb_abreast(piece, &mut self.states);
        self.hasher = fed.hasher;
        accepted(fed.status)
    }

    fn read(self, out: &mut [u8]) -> u8 {
        self.hasher.finalize(b"").hasher.squeeze(out).status
    }
}

// In one go, with four leaves abreast. The words are a local, so that status and output are the plain call's.
pub(crate) fn hash_abreast<K: Kt>(message: &[u8], out: &mut [u8]) -> u8
    ensures value { result ≡ hash_status (length message.now) 0 (length out.old) }
    ensures out_after { out.new ≡ hash_output K.RATE K.CHAINING message.now [] out.old }
{
    let mut states = [0u64; 100];
    K::hash_abreast(message, b"", out, &mut states)
}
