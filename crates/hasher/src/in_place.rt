// The calls on a run whose lanes are lent: no lane is copied. A call by value is one of these on a copy of the lanes.
ghost use Rattle.std.specs.Prelude.{◌≡◌, length};
ghost use Rattle.sponge.specs.Transcript.{Call};
ghost use Rattle.hasher.specs.Model.{function_of, run_with, answered, answer_of, output_of};

use crate::calls::{Taken, refused};
use crate::{Moved, Numbers, Progress};

// Absorbs a piece of the message.
pub fn absorb(numbers: Numbers, lanes: &mut [u64; 25], at: Progress, piece: &[u8]) -> Moved
    ensures { answered result lanes.new ≡ answer_of (function_of numbers) (run_with lanes.old at) (Call.absorb piece.now) }
{
    match Taken::of(numbers) {
        Ok(taken) => taken.absorb(lanes, at, piece),
        Err(refusal) => refused(refusal.status, at),
    }
}

// Ends the message with the byte `last`, whose own status is `refusal`.
pub fn finalize(
    numbers: Numbers,
    lanes: &mut [u64; 25],
    at: Progress,
    refusal: u8,
    last: u8,
) -> Moved
    ensures { answered result lanes.new ≡ answer_of (function_of numbers) (run_with lanes.old at) (Call.finalize (record { byte = last; status = refusal })) }
{
    match Taken::of(numbers) {
        Ok(taken) => taken.finalize(lanes, at, refusal, last),
        Err(of_numbers) => refused(of_numbers.status, at),
    }
}

// Squeezes as many bytes of output as `out` holds.
pub fn squeeze(numbers: Numbers, lanes: &mut [u64; 25], at: Progress, out: &mut [u8]) -> Moved
    ensures lanes_after { answered result lanes.new ≡ answer_of (function_of numbers) (run_with lanes.old at) (Call.squeeze (length out.old)) }
    ensures out_after { out.new ≡ output_of (function_of numbers) (run_with lanes.old at) out.old }
{
    match Taken::of(numbers) {
        Ok(taken) => taken.squeeze(lanes, at, out),
        Err(refusal) => refused(refusal.status, at),
    }
}
