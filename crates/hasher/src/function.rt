// The functions that are the sponge, each a type of its runs: what they share, over the numbers in which they differ. How a run is closed, and what a
// call in one go is given, is each function's own.
ghost use Rattle.std.specs.Prelude.{◌≡◌, ℕ, length};
ghost use Rattle.sponge.specs.Transcript.{Call};
ghost use Rattle.hasher.specs.Model.{fresh_of, numbers, answer_of, output_of, run_with, answered};
ghost use Rattle.hasher.specs.declared.Run.{Run};

use crate::{Answer, HasherAnswer, Moved, Numbers, Progress, Run, in_place};

pub trait Hasher: Copy {
    ghost run_of: { Self → Run };

    // The rate, in bytes: what is left of the 200 of a state once the capacity is taken off.
    ghost RATE: { ℕ };

    const RATE: usize;

    // The rounds of the permutation: 24 are Keccak-f[1600], fewer the last ones of it.
    ghost ROUNDS: { ℕ };

    const ROUNDS: usize;

    // The most bytes of output: the digest's, where the function has one.
    ghost LIMIT: { ℕ };

    const LIMIT: u32;

    fn run(self) -> Run
        ensures { result ≡ run_of self };

    fn from_run(run: Run) -> Self
        ensures { run_of result ≡ run };

    fn from_answer(answer: Answer) -> HasherAnswer<Self>
        ensures { record { run = run_of result.hasher; status = result.status } ≡ answer }
    {
        HasherAnswer {
            hasher: Self::from_run(answer.run),
            status: answer.status,
        }
    }

    fn numbers() -> Numbers
        ensures { result ≡ record { rate = RATE; rounds = ROUNDS; limit = LIMIT } }
    {
        Numbers {
            rate: Self::RATE,
            rounds: Self::ROUNDS,
            limit: Self::LIMIT,
        }
    }

    // A fresh run: nothing absorbed, nothing squeezed.
    fn fresh() -> Self
        ensures { run_of result ≡ fresh_of }
    {
        Self::from_run(crate::fresh())
    }

    // Absorbs a piece of the message.
    fn absorb(self, piece: &[u8]) -> HasherAnswer<Self>
        ensures { record { run = run_of result.hasher; status = result.status } ≡ answer_of (numbers RATE ROUNDS LIMIT) (run_of self) (Call.absorb piece.now) }
    {
        Self::from_answer(crate::absorb(Self::numbers(), self.run(), piece))
    }

    // Squeezes as many bytes of output as `out` holds.
    fn squeeze(self, out: &mut [u8]) -> HasherAnswer<Self>
        ensures value { record { run = run_of result.hasher; status = result.status } ≡ answer_of (numbers RATE ROUNDS LIMIT) (run_of self) (Call.squeeze (length out.old)) }
        ensures out_after { out.new ≡ output_of (numbers RATE ROUNDS LIMIT) (run_of self) out.old }
    {
        Self::from_answer(crate::squeeze(Self::numbers(), self.run(), out))
    }

    // The same on a run whose lanes are lent: no lane is copied. What the run holds beside them goes in and comes back by value.
    fn absorb_in_place(lanes: &mut [u64; 25], at: Progress, piece: &[u8]) -> Moved
        ensures { answered result lanes.new ≡ answer_of (numbers RATE ROUNDS LIMIT) (run_with lanes.old at) (Call.absorb piece.now) }
    {
        in_place::absorb(Self::numbers(), lanes, at, piece)
    }

    fn squeeze_in_place(lanes: &mut [u64; 25], at: Progress, out: &mut [u8]) -> Moved
        ensures lanes_after { answered result lanes.new ≡ answer_of (numbers RATE ROUNDS LIMIT) (run_with lanes.old at) (Call.squeeze (length out.old)) }
        ensures out_after { out.new ≡ output_of (numbers RATE ROUNDS LIMIT) (run_with lanes.old at) out.old }
    {
        in_place::squeeze(Self::numbers(), lanes, at, out)
    }
}
