// The exports of SP 800-185's cSHAKE128, with N = "N" and S = "S", and KMAC128, with a key of 32 bytes and S = "S".
ghost use Rattle.std.specs.Prelude.{◌≡◌, true, length};
ghost use Rattle.sponge.specs.Transcript.{Call};
ghost use Rattle.sp800_185.specs.Cshake as cshake;
ghost use Rattle.sp800_185.specs.Function.{kmac_at};
ghost use Rattle.sp800_185.specs.Kmac as kmac;
ghost use Rattle.sp800_185.specs.Model as model;
ghost use Rattle.bench.specs.Pieces.{bench_name, bench_string, bench_key, cshake_with_strings, timed_kmac, pieces_status, pieces_output};

use crate::pieces::{TimedRun, accepted, hash_pieces};
use hasher::Refusal;
use sp800_185::{CShake, CShake128, Kmac, Kmac128};

const KEY: [u8; 32] = [0x40; 32];

impl TimedRun for CShake128 {
    ghost timed = { cshake_with_strings };

    ghost has_absorbed = { λ h m. record { run = h.run; shake = h.shake } ≡ (cshake.answer 168 199729 (cshake.start_answer 168 bench_name bench_string).customized (Call.absorb m)).customized };

    fn begin() -> Self {
        CShake128::start(b"N", b"S").hasher
    }

    fn feed(&mut self, piece: &[u8]) -> Result<(), Refusal> {
        let answered = self.absorb(piece);
        *self = answered.hasher;
        accepted(answered.status)
    }

    fn read(self, out: &mut [u8]) -> u8 {
        self.finalize().hasher.squeeze(out).status
    }
}

// cSHAKE128 of a message, absorbed in pieces of `step` bytes and squeezed at once.
pub fn bench_cshake_pieces(message: &[u8], step: usize, out: &mut [u8]) -> u8
    ensures value { result ≡ pieces_status cshake_with_strings step (length message.now) (length out.old) }
    ensures out_after { out.new ≡ pieces_output cshake_with_strings step message.now out.old }
{
    hash_pieces::<CShake128>(message, step, out)
}

// The same in one go.
pub fn bench_cshake_one_go(message: &[u8], out: &mut [u8]) -> u8
    ensures value { result ≡ cshake.one_go_status (length bench_name) (length bench_string) (length message.now) (length out.old) }
    ensures out_after { out.new ≡ cshake.one_go_output 168 message.now bench_name bench_string out.old }
{
    CShake128::hash(message, b"N", b"S", out)
}

impl TimedRun for Kmac128 {
    ghost timed = { timed_kmac };

    ghost has_absorbed = { λ h m. record { run = h.run; length = h.output_length } ≡ (model.answer (kmac_at 168 102360992) (kmac.start_answer 168 bench_key bench_string).keyed (Call.absorb m)).keyed };

    fn begin() -> Self {
        Kmac128::start(&KEY, b"S").hasher
    }

    fn feed(&mut self, piece: &[u8]) -> Result<(), Refusal> {
        let answered = self.absorb(piece);
        *self = answered.hasher;
        accepted(answered.status)
    }

    fn read(self, out: &mut [u8]) -> u8 {
        self.finalize(32).hasher.squeeze(out).status
    }
}

// KMAC128 of a message, absorbed in pieces of `step` bytes, with an output length of 32 bytes, squeezed at once.
pub fn bench_kmac_pieces(message: &[u8], step: usize, out: &mut [u8]) -> u8
    ensures value { result ≡ pieces_status timed_kmac step (length message.now) (length out.old) }
    ensures out_after { out.new ≡ pieces_output timed_kmac step message.now out.old }
{
    hash_pieces::<Kmac128>(message, step, out)
}

// KMAC128 in one go, with as many bytes of output as `out` holds.
pub fn bench_kmac_one_go(message: &[u8], out: &mut [u8]) -> u8
    ensures value { result ≡ kmac.one_go_status (length bench_key) (length bench_string) (length message.now) (length out.old) }
    ensures out_after { out.new ≡ kmac.one_go_output 168 true bench_key message.now bench_string out.old }
{
    Kmac128::tag(&KEY, message, b"S", out)
}
