// The exports of FIPS 202's SHA3-256 and SHAKE128.
ghost use Rattle.std.specs.Prelude.{◌≡◌, length};
ghost use Rattle.sponge.specs.Transcript.{Call};
ghost use Rattle.hasher.specs.Model.{answer, fresh_of, one_go_status, one_go_output};
ghost use Rattle.fips202.specs.Transcript as transcript;
ghost use Rattle.bench.specs.Pieces.{sha3_256, shake128, pieces_status, pieces_output};

use crate::pieces::{TimedRun, accepted, hash_pieces};
use fips202::{Fips202, Sha3_256, Shake128};
use hasher::{Hasher, Refusal};

impl TimedRun for Sha3_256 {
    ghost timed = { sha3_256 };

    ghost has_absorbed = { λ h m. h.run ≡ (answer transcript.sha3_256 fresh_of (Call.absorb m)).run };

    fn begin() -> Self {
        Sha3_256::fresh()
    }

    fn feed(&mut self, piece: &[u8]) -> Result<(), Refusal> {
        let answered = self.absorb(piece);
        *self = answered.hasher;
        accepted(answered.status)
    }

    fn read(self, out: &mut [u8]) -> u8 {
        self.finalize().hasher.squeeze(out).status
    }
}

// SHA3-256 of a message, absorbed in pieces of `step` bytes and squeezed at once.
pub fn bench_sha3_pieces(message: &[u8], step: usize, out: &mut [u8]) -> u8
    ensures value { result ≡ pieces_status sha3_256 step (length message.now) (length out.old) }
    ensures out_after { out.new ≡ pieces_output sha3_256 step message.now out.old }
{
    hash_pieces::<Sha3_256>(message, step, out)
}

// The same in one go.
pub fn bench_sha3_one_go(message: &[u8], out: &mut [u8]) -> u8
    ensures value { result ≡ one_go_status transcript.sha3_256 (length message.now) tt (length out.old) }
    ensures out_after { out.new ≡ one_go_output transcript.sha3_256 message.now tt out.old }
{
    Sha3_256::hash(message, out)
}

impl TimedRun for Shake128 {
    ghost timed = { shake128 };

    ghost has_absorbed = { λ h m. h.run ≡ (answer transcript.shake128 fresh_of (Call.absorb m)).run };

    fn begin() -> Self {
        Shake128::fresh()
    }

    fn feed(&mut self, piece: &[u8]) -> Result<(), Refusal> {
        let answered = self.absorb(piece);
        *self = answered.hasher;
        accepted(answered.status)
    }

    fn read(self, out: &mut [u8]) -> u8 {
        self.finalize().hasher.squeeze(out).status
    }
}

// SHAKE128 of a message, absorbed in pieces of `step` bytes and squeezed at once.
pub fn bench_shake_pieces(message: &[u8], step: usize, out: &mut [u8]) -> u8
    ensures value { result ≡ pieces_status shake128 step (length message.now) (length out.old) }
    ensures out_after { out.new ≡ pieces_output shake128 step message.now out.old }
{
    hash_pieces::<Shake128>(message, step, out)
}

// The same in one go.
pub fn bench_shake_one_go(message: &[u8], out: &mut [u8]) -> u8
    ensures value { result ≡ one_go_status transcript.shake128 (length message.now) tt (length out.old) }
    ensures out_after { out.new ≡ one_go_output transcript.shake128 message.now tt out.old }
{
    Shake128::hash(message, out)
}
