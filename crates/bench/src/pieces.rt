// A message absorbed in pieces of one length, whose output is squeezed at once: one text for every function that is timed.
ghost use Rattle.std.specs.Prelude.{◌≡◌, List, ℕ, ◌++◌, ◌<◌, ◌≤◌, [], ◌⊎◌, IfOk, IfErr, length};
ghost use Rattle.sponge.specs.Status.{input_too_long};
ghost use Rattle.hasher.specs.Function.{message_limit};
ghost use Rattle.hasher.specs.Outcome.{result_of};
ghost use Rattle.bench.specs.Pieces.{Timed, bad_step, read_status, read_output, pieces_status, pieces_output};

use crate::BAD_STEP;
use hasher::Refusal;
use sponge::status;

// A run of a function that is timed, with what its start and its close are given.
pub trait TimedRun: Copy {
    ghost timed: { Timed };

    // Whether the run has absorbed the message, and nothing more.
    ghost has_absorbed: { Self → List ℕ → Type 0 };

    fn begin() -> Self
        ensures { has_absorbed result [] };

    // Absorbs a piece of the message.
    fn feed(&mut self, piece: &[u8]) -> Result<(), Refusal>
        ensures fits { (m : List ℕ) → has_absorbed self.old m → length (m ++ piece.now) ≤ message_limit → (result ≡ result_of tt 0) × has_absorbed self.new (m ++ piece.now) }
        ensures long { (m : List ℕ) → has_absorbed self.old m → length m ≤ message_limit → message_limit < length (m ++ piece.now) → result ≡ result_of tt input_too_long };

    // Closes the run, and squeezes as many bytes of output as `out` holds.
    fn read(self, out: &mut [u8]) -> u8
        ensures value { (m : List ℕ) → has_absorbed self m → length m ≤ message_limit → result ≡ read_status timed (length out.old) }
        ensures out_after { (m : List ℕ) → has_absorbed self m → length m ≤ message_limit → out.new ≡ read_output timed m out.old };
}

// Whether a call was done, by its status.
pub fn accepted(number: u8) -> Result<(), Refusal>
    ensures { result ≡ result_of tt number }
{
    if number != status::DONE {
        return Err(Refusal { status: number });
    }
    Ok(())
}

fn absorb_pieces<R: TimedRun>(message: &[u8], step: usize) -> Result<R, Refusal>
    ensures taken { IfOk result (λ run. (0 < step) × (length message.now ≤ message_limit) × R.has_absorbed run message.now) }
    ensures refused { IfErr result (λ refusal. ((step ≡ 0) × (refusal.status ≡ bad_step)) ⊎ ((0 < step) × (message_limit < length message.now) × (refusal.status ≡ input_too_long))) }
{
    if step == 0 {
        return Err(Refusal { status: BAD_STEP });
    }
    let mut run = R::begin();
    for piece in message.chunks(step) {
        run.feed(piece)?;
    }
    Ok(run)
}

// The message in pieces of `step` bytes, and the output at once; or the number of the first refusal.
pub fn hash_pieces<R: TimedRun>(message: &[u8], step: usize, out: &mut [u8]) -> u8
    ensures value { result ≡ pieces_status R.timed step (length message.now) (length out.old) }
    ensures out_after { out.new ≡ pieces_output R.timed step message.now out.old }
{
    match absorb_pieces::<R>(message, step) {
        Ok(run) => run.read(out),
        Err(refusal) => refusal.status,
    }
}
