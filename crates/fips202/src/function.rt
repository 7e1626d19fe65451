// The six functions: what they share beside what all functions of the sponge do. The close has no argument: each function has one byte that follows a
// message.
ghost use Rattle.std.specs.Prelude.{◌≡◌, ℕ, length};
ghost use Rattle.sponge.specs.Transcript.{Call};
ghost use Rattle.hasher.specs.Model.{answer, run_with, answered, one_go_status, one_go_output};
ghost use Rattle.fips202.specs.Transcript.{function};

use hasher::{Hasher, HasherAnswer, Moved, Progress, in_place};
use sponge::status;

pub trait Fips202: Hasher {
    // The capacity, in bytes: what the rate leaves of a state.
    ghost CAPACITY: { ℕ };

    const CAPACITY: usize;

    // The byte after a message.
    ghost LAST: { ℕ };

    const LAST: u8;

    // Ends the message.
    fn finalize(self) -> HasherAnswer<Self>
        ensures { record { run = Self.run_of result.hasher; status = result.status } ≡ answer (function Self.RATE LAST Self.LIMIT) (Self.run_of self) (Call.finalize tt) }
    {
        Self::from_answer(hasher::finalize(Self::numbers(), self.run(), status::DONE, Self::LAST))
    }

    // The same on a run whose lanes are lent.
    fn finalize_in_place(lanes: &mut [u64; 25], at: Progress) -> Moved
        ensures { answered result lanes.new ≡ answer (function Self.RATE LAST Self.LIMIT) (run_with lanes.old at) (Call.finalize tt) }
    {
        in_place::finalize(Self::numbers(), lanes, at, status::DONE, Self::LAST)
    }

    // In one go: the message, and as many bytes of output as `out` holds.
    fn hash(message: &[u8], out: &mut [u8]) -> u8
        ensures value { result ≡ one_go_status (function Self.RATE LAST Self.LIMIT) (length message.now) tt (length out.old) }
        ensures out_after { out.new ≡ one_go_output (function Self.RATE LAST Self.LIMIT) message.now tt out.old }
    {
        hasher::hash(Self::numbers(), message, status::DONE, Self::LAST, out)
    }

    // A function of FIPS 202 has all rounds of the permutation.
    ghost all_rounds: { Self.ROUNDS ≡ 24 };
}
