// The two functions: what they share beside what all functions of the sponge do, over the rate in which they differ.
ghost use Rattle.std.specs.Prelude.{◌≡◌, ℕ, length};
ghost use Rattle.sponge.specs.Transcript.{Call};
ghost use Rattle.hasher.specs.Model.{answer, run_with, answered, one_go_status, one_go_output};
ghost use Rattle.turboshake.specs.Transcript.{output_limit, function};
ghost use Rattle.turboshake.specs.Published.{turboshake_rounds};

use crate::{domain_status, hash_at_rate};
use hasher::{Hasher, HasherAnswer, Moved, Progress, in_place};

pub trait TurboShake: Hasher {
    // The capacity, in bytes.
    ghost CAPACITY: { ℕ };

    const CAPACITY: usize;

    // The bytes of a chaining value, in a tree above.
    ghost CHAINING: { ℕ };

    const CHAINING: usize;

    // Ends the message with the domain separation byte, 01 to 7F.
    fn finalize(self, domain: u8) -> HasherAnswer<Self>
        ensures { record { run = Self.run_of result.hasher; status = result.status } ≡ answer (function Self.RATE) (Self.run_of self) (Call.finalize domain) }
    {
        let refusal = domain_status(domain);
        Self::from_answer(hasher::finalize(Self::numbers(), self.run(), refusal, domain))
    }

    // The same on a run whose lanes are lent.
    fn finalize_in_place(lanes: &mut [u64; 25], at: Progress, domain: u8) -> Moved
        ensures { answered result lanes.new ≡ answer (function Self.RATE) (run_with lanes.old at) (Call.finalize domain) }
    {
        let refusal = domain_status(domain);
        in_place::finalize(Self::numbers(), lanes, at, refusal, domain)
    }

    // In one go: the message, the domain separation byte, and as many bytes of output as `out` holds.
    fn hash(message: &[u8], domain: u8, out: &mut [u8]) -> u8
        ensures value { result ≡ one_go_status (function Self.RATE) (length message.now) domain (length out.old) }
        ensures out_after { out.new ≡ one_go_output (function Self.RATE) message.now domain out.old }
    {
        hash_at_rate(Self::RATE, message, domain, out)
    }

    // The rounds are the draft's, and the output has no limit of its own: a type of TurboSHAKE's runs picks the rate alone.
    ghost rounds_and_limit: { (Self.ROUNDS ≡ turboshake_rounds) × (Self.LIMIT ≡ output_limit) };
}
