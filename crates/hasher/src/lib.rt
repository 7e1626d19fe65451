// A hasher: the sponge as a run that is absorbed into, finalized and squeezed, and in one go. What the functions above differ in, their numbers and
// the byte that ends a message, each call is given; a type of such runs has them by the trait `Hasher`.
#![tactic(auto)]

mod calls;
mod function;
pub mod in_place;
mod outcome;

ghost use Rattle.std.specs.Prelude.{◌≡◌, length};
ghost use Rattle.sponge.specs.Transcript.{Call};
ghost use Rattle.hasher.specs.Model.{fresh_of, function_of, progress_of, run_with, answered, answer_of, output_of, hash_at_status, hash_at_output};

use calls::Taken;
pub use function::Hasher;
pub use outcome::{HasherAnswer, Refusal};

// The most bytes of a message.
pub const MESSAGE_LIMIT: u64 = 17179869183;

// The most bytes of output, where a function has no limit of its own. A read limit has 32 bits, so that no number of permutations overflows at any
// rate.
pub const LONG_OUTPUT: u32 = 4294967295;

// The numbers in which the functions differ: the rate in bytes, the rounds of the permutation, and the most bytes of output.
#[derive(Clone, Copy, Debug, PartialEq, Eq)]
pub struct Numbers {
    pub rate: usize,
    pub rounds: usize,
    pub limit: u32,
}

// A run: document 01's fixed-size state with its place, phase (0 absorbing, 1 squeezing), bytes fed and bytes read, and request Q-10's permutations
// of the definition so far.
// Kept: the phase is a number, since a run is taken from anywhere, and one whose phase is neither 0 nor 1 is refused with 5.
#[derive(Clone, Copy)]
pub struct Run {
    pub lanes: [u64; 25],
    pub position: usize,
    pub phase: u8,
    pub absorbed: u64,
    pub squeezed: u64,
    pub permutations: u64,
}

// What a run holds beside its lanes.
// Kept: its fields stand in a run too, where callers and theorems name them.
#[derive(Clone, Copy)]
pub struct Progress {
    pub position: usize,
    pub phase: u8,
    pub absorbed: u64,
    pub squeezed: u64,
    pub permutations: u64,
}

// What a call on lent lanes answers: the status, and what the run then holds beside them, which is what was given where the status is not 0.
// Kept: calls refuse by number, and a refusal hands the run back as it was.
#[derive(Clone, Copy)]
pub struct Moved {
    pub at: Progress,
    pub status: u8,
}

// What a call answers: the status, and the run, which is the one given where the status is not 0.
#[derive(Clone, Copy)]
pub struct Answer {
    pub run: Run,
    pub status: u8,
}

// A fresh run: nothing absorbed, nothing squeezed.
pub fn fresh() -> Run
    ensures { result ≡ fresh_of }
{
    let lanes = [0u64; 25];
    Run {
        lanes,
        position: 0,
        phase: 0,
        absorbed: 0,
        squeezed: 0,
        permutations: 0,
    }
}

// What the run holds beside its lanes.
// Kept: callers name these two conversions.
pub fn progress_of(run: Run) -> Progress
    ensures { result ≡ progress_of run }
{
    Progress {
        position: run.position,
        phase: run.phase,
        absorbed: run.absorbed,
        squeezed: run.squeezed,
        permutations: run.permutations,
    }
}

// The run of these lanes.
pub fn run_with(lanes: [u64; 25], at: Progress) -> Run
    ensures { result ≡ run_with lanes at }
{
    Run {
        lanes,
        position: at.position,
        phase: at.phase,
        absorbed: at.absorbed,
        squeezed: at.squeezed,
        permutations: at.permutations,
    }
}

fn answer_with(lanes: [u64; 25], moved: Moved) -> Answer
    ensures { result ≡ answered moved lanes }
{
    let run = run_with(lanes, moved.at);
    Answer {
        run,
        status: moved.status,
    }
}

// Absorbs a piece of the message.
pub fn absorb(numbers: Numbers, run: Run, piece: &[u8]) -> Answer
    ensures { result ≡ answer_of (function_of numbers) run (Call.absorb piece.now) }
{
    let mut lanes = run.lanes;
    let moved = in_place::absorb(numbers, &mut lanes, progress_of(run), piece);
    answer_with(lanes, moved)
}

// Ends the message with the byte `last`, whose own status is `refusal`.
// Kept: the two stay apart, as callers give them: the one is what they close with, the other their own test of it.
pub fn finalize(numbers: Numbers, run: Run, refusal: u8, last: u8) -> Answer
    ensures { result ≡ answer_of (function_of numbers) run (Call.finalize (record { byte = last; status = refusal })) }
{
    let mut lanes = run.lanes;
    let moved = in_place::finalize(numbers, &mut lanes, progress_of(run), refusal, last);
    answer_with(lanes, moved)
}

// Squeezes as many bytes of output as `out` holds.
pub fn squeeze(numbers: Numbers, run: Run, out: &mut [u8]) -> Answer
    ensures value { result ≡ answer_of (function_of numbers) run (Call.squeeze (length out.old)) }
    ensures out_after { out.new ≡ output_of (function_of numbers) run out.old }
{
    let mut lanes = run.lanes;
    let moved = in_place::squeeze(numbers, &mut lanes, progress_of(run), out);
    answer_with(lanes, moved)
}

// In one go: the message, the byte that follows it, with its own status, and as many bytes of output as `out` holds.
pub fn hash(numbers: Numbers, message: &[u8], refusal: u8, last: u8, out: &mut [u8]) -> u8
    ensures value { result ≡ hash_at_status numbers.rate numbers.rounds numbers.limit (length message.now) refusal (length out.old) }
    ensures out_after { out.new ≡ hash_at_output numbers.rate numbers.rounds numbers.limit message.now refusal last out.old }
{
    match Taken::of(numbers) {
        Ok(taken) => taken.hash(message, refusal, last, out),
        Err(of_numbers) => of_numbers.status,
    }
}
