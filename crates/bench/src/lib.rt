// What the benchmarks of bench/ time. The static library `bench_c` exports it through the C calling convention.
#![tactic(auto)]

pub mod fips;
pub mod four;
pub mod in_place;
pub mod keyed;
pub mod kt;
pub mod pieces;

ghost use Rattle.std.specs.Prelude.{◌≡◌, length};
ghost use Rattle.sponge.specs.Transcript.{Call};
ghost use Rattle.hasher.specs.Model.{answer, fresh_of, one_go_status, one_go_output};
ghost use Rattle.turboshake.specs.Transcript.{function};
ghost use Rattle.bench.specs.Pieces.{timed_turboshake, pieces_status, pieces_output};
ghost use Rattle.bench.specs.Repeat.{repeated};

use hasher::{Hasher, Refusal};
use pieces::{TimedRun, accepted, hash_pieces};
use turboshake::{TurboShake, TurboShake128};

const DOMAIN: u8 = 0x1F;

// Pieces of no bytes.
pub const BAD_STEP: u8 = 9;

// Permutes the lanes `count` times.
pub fn bench_permute(lanes: &mut [u64; 25], count: usize)
    ensures { lanes.new ≡ repeated count lanes.old }
{
    for _ in 0..count {
        keccak::permute_in_place(lanes, turboshake::ROUNDS);
    }
}

impl TimedRun for TurboShake128 {
    ghost timed = { timed_turboshake };

    ghost has_absorbed = { λ h m. h.run ≡ (answer (function 168) fresh_of (Call.absorb m)).run };

    fn begin() -> Self {
        TurboShake128::fresh()
    }

    fn feed(&mut self, piece: &[u8]) -> Result<(), Refusal> {
        let answered = self.absorb(piece);
        *self = answered.hasher;
        accepted(answered.status)
    }

    fn read(self, out: &mut [u8]) -> u8 {
        self.finalize(DOMAIN).hasher.squeeze(out).status
    }
}

// TurboSHAKE128 of a message, with D = 1F, absorbed in pieces of `step` bytes and squeezed at once.
pub fn bench_pieces(message: &[u8], step: usize, out: &mut [u8]) -> u8
    ensures value { result ≡ pieces_status timed_turboshake step (length message.now) (length out.old) }
    ensures out_after { out.new ≡ pieces_output timed_turboshake step message.now out.old }
{
    hash_pieces::<TurboShake128>(message, step, out)
}

// The same in one go.
pub fn bench_one_go(message: &[u8], out: &mut [u8]) -> u8
    ensures out_after { out.new ≡ one_go_output (function 168) message.now 0x1F out.old }
    ensures value { result ≡ one_go_status (function 168) (length message.now) 0x1F (length out.old) }
{
    TurboShake128::hash(message, DOMAIN, out)
}
