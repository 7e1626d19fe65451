// KT128's exports.
ghost use Rattle.std.specs.Prelude.{◌≡◌, [], length};
ghost use Rattle.sponge.specs.Transcript.{Call};
ghost use Rattle.kangarootwelve.specs.Model.{answer_of, fresh_of, hash_status, hash_output};
ghost use Rattle.bench.specs.Pieces.{kt_with_none, pieces_status, pieces_output};

use crate::pieces::{TimedRun, accepted, hash_pieces};
use hasher::Refusal;
use kangarootwelve::{Kt, Kt128};

impl TimedRun for Kt128 {
    ghost timed = { kt_with_none };

    ghost has_absorbed = { λ h m. h.run ≡ (answer_of 168 32 (fresh_of 168 32) (Call.absorb m)).run };

    fn begin() -> Self {
        Kt128::fresh()
    }

    fn feed(&mut self, piece: &[u8]) -> Result<(), Refusal> {
        let answered = self.absorb(piece);
        *self = answered.hasher;
        accepted(answered.status)
    }

    fn read(self, out: &mut [u8]) -> u8 {
        self.finalize(b"").hasher.squeeze(out).status
    }
}

// KT128 of a message, with C empty, absorbed in pieces of `step` bytes and squeezed at once.
pub fn bench_kt_pieces(message: &[u8], step: usize, out: &mut [u8]) -> u8
    ensures value { result ≡ pieces_status kt_with_none step (length message.now) (length out.old) }
    ensures out_after { out.new ≡ pieces_output kt_with_none step message.now out.old }
{
    hash_pieces::<Kt128>(message, step, out)
}

// The same in one go.
pub fn bench_kt_one_go(message: &[u8], out: &mut [u8]) -> u8
    ensures value { result ≡ hash_status (length message.now) 0 (length out.old) }
    ensures out_after { out.new ≡ hash_output 168 32 message.now [] out.old }
{
    Kt128::hash(message, b"", out)
}
