// Pieces by the calls on lent lanes.
ghost use Rattle.std.specs.Prelude.{◌≡◌, length};
ghost use Rattle.sponge.specs.Transcript.{Call};
ghost use Rattle.hasher.specs.Model.{answer, fresh_of, run_with};
ghost use Rattle.turboshake.specs.Transcript.{function};
ghost use Rattle.fips202.specs.Transcript as transcript;
ghost use Rattle.bench.specs.Pieces.{timed_turboshake, sha3_256, shake128, pieces_status, pieces_output};

use crate::DOMAIN;
use crate::pieces::{TimedRun, accepted, hash_pieces};
use fips202::{Fips202, Sha3_256, Shake128};
use hasher::{Hasher, Progress, Refusal};
use std::marker::PhantomData;
use turboshake::{TurboShake, TurboShake128};

// A run of H whose lanes each call borrows: none of them is copied between the pieces.
#[derive(Clone, Copy)]
struct Lent<H: Copy> {
    lanes: [u64; 25],
    at: Progress,
    of: PhantomData<H>,
}

impl<H: Hasher> Lent<H> {
    fn fresh() -> Self
        ensures { run_with result.lanes result.at ≡ fresh_of }
    {
        let run = H::fresh().run();
        let lanes = run.lanes;
        Lent {
            lanes,
            at: hasher::progress_of(run),
            of: PhantomData,
        }
    }
}

impl TimedRun for Lent<TurboShake128> {
    ghost timed = { timed_turboshake };

    ghost has_absorbed = { λ h m. run_with h.lanes h.at ≡ (answer (function 168) fresh_of (Call.absorb m)).run };

    fn begin() -> Self {
        Lent::fresh()
    }

    fn feed(&mut self, piece: &[u8]) -> Result<(), Refusal> {
        let moved = TurboShake128::absorb_in_place(&mut self.lanes, self.at, piece);
        self.at = moved.at;
        accepted(moved.status)
    }

    fn read(mut self, out: &mut [u8]) -> u8 {
        let finalized = TurboShake128::finalize_in_place(&mut self.lanes, self.at, DOMAIN);
        TurboShake128::squeeze_in_place(&mut self.lanes, finalized.at, out).status
    }
}

impl TimedRun for Lent<Sha3_256> {
    ghost timed = { sha3_256 };

    ghost has_absorbed = { λ h m. run_with h.lanes h.at ≡ (answer transcript.sha3_256 fresh_of (Call.absorb m)).run };

    fn begin() -> Self {
        Lent::fresh()
    }

    fn feed(&mut self, piece: &[u8]) -> Result<(), Refusal> {
        let moved = Sha3_256::absorb_in_place(&mut self.lanes, self.at, piece);
        self.at = moved.at;
        accepted(moved.status)
    }

    fn read(mut self, out: &mut [u8]) -> u8 {
        let finalized = Sha3_256::finalize_in_place(&mut self.lanes, self.at);
        Sha3_256::squeeze_in_place(&mut self.lanes, finalized.at, out).status
    }
}

impl TimedRun for Lent<Shake128> {
    ghost timed = { shake128 };

    ghost has_absorbed = { λ h m. run_with h.lanes h.at ≡ (answer transcript.shake128 fresh_of (Call.absorb m)).run };

    fn begin() -> Self {
        Lent::fresh()
    }

    fn feed(&mut self, piece: &[u8]) -> Result<(), Refusal> {
        let moved = Shake128::absorb_in_place(&mut self.lanes, self.at, piece);
        self.at = moved.at;
        accepted(moved.status)
    }

    fn read(mut self, out: &mut [u8]) -> u8 {
        let finalized = Shake128::finalize_in_place(&mut self.lanes, self.at);
        Shake128::squeeze_in_place(&mut self.lanes, finalized.at, out).status
    }
}

// TurboSHAKE128 of a message, with D = 1F.
pub fn bench_in_place(message: &[u8], step: usize, out: &mut [u8]) -> u8
    ensures value { result ≡ pieces_status timed_turboshake step (length message.now) (length out.old) }
    ensures out_after { out.new ≡ pieces_output timed_turboshake step message.now out.old }
{
    hash_pieces::<Lent<TurboShake128>>(message, step, out)
}

// SHA3-256.
pub fn bench_sha3_in_place(message: &[u8], step: usize, out: &mut [u8]) -> u8
    ensures value { result ≡ pieces_status sha3_256 step (length message.now) (length out.old) }
    ensures out_after { out.new ≡ pieces_output sha3_256 step message.now out.old }
{
    hash_pieces::<Lent<Sha3_256>>(message, step, out)
}

// SHAKE128.
pub fn bench_shake_in_place(message: &[u8], step: usize, out: &mut [u8]) -> u8
    ensures value { result ≡ pieces_status shake128 step (length message.now) (length out.old) }
    ensures out_after { out.new ≡ pieces_output shake128 step message.now out.old }
{
    hash_pieces::<Lent<Shake128>>(message, step, out)
}
