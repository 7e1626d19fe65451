// The calls on a run, and in one go, over numbers that the sponge takes.
ghost use Rattle.std.specs.Prelude.{◌≡◌, IfOk, IfErr, cond, suc, ◌+◌, ◌/◌, ◌<◌, ◌≤◌, eqb, length};
ghost use Rattle.sponge.specs.Waiting.{position_after};
ghost use Rattle.sponge.specs.Model.{call_status};
ghost use Rattle.sponge.specs.Count.{open_count, closed_count};
ghost use Rattle.sponge.specs.Transcript.{Call};
ghost use Rattle.keccak.specs.Permutation.{rounds_status};
ghost use Rattle.hasher.specs.Function.{message_limit, long_output};
ghost use Rattle.hasher.specs.Model.{reachable, numbers, run_with, answered, perform_of, written_of, hash_status, hash_output};

use crate::{MESSAGE_LIMIT, Moved, Numbers, Progress, Refusal};
use sponge::status;

const ABSORBING: u8 = 0;

const SQUEEZING: u8 = 1;

// Numbers that the sponge takes: a rate, and a number of rounds that the permutation has.
#[derive(Clone, Copy)]
pub(crate) struct Taken {
    rate: usize,
    rounds: usize,
    limit: u32,
    ghost taken: { (0 < rate) × (rate ≤ 200) × (rounds_status rounds ≡ 0) },
}

// The most bytes that a run in this phase has squeezed.
fn most_squeezed(limit: u32, at: Progress) -> u64
    ensures { (result ≡ cond (eqb at.phase 0) 0 limit) × (result ≤ limit) }
{
    if at.phase == ABSORBING {
        return 0;
    }
    limit as u64
}

// The bytes that tell the position: those absorbed, or those squeezed.
fn total_in_hand(at: Progress) -> u64
    ensures { (result ≡ cond (eqb at.phase 0) at.absorbed at.squeezed) × (result ≤ at.absorbed + at.squeezed) }
{
    if at.phase == ABSORBING {
        return at.absorbed;
    }
    at.squeezed
}

pub(crate) fn refused(number: u8, at: Progress) -> Moved
    ensures { result ≡ record { at = at; status = number } }
{
    Moved { at, status: number }
}

fn hash_status(limit: u32, message: u64, refusal: u8, asked: u64) -> u8
    ensures { result ≡ hash_status limit message refusal asked }
{
    if refusal != status::DONE {
        return refusal;
    }
    if MESSAGE_LIMIT < message {
        return status::INPUT_TOO_LONG;
    }
    if asked == 0 {
        return status::BAD_LENGTH;
    }
    if (limit as u64) < asked {
        return status::OUTPUT_TOO_LONG;
    }
    status::DONE
}

impl Taken {
    // These numbers, or the refusal of them.
    pub(crate) fn of(numbers: Numbers) -> Result<Taken, Refusal>
        ensures taken { IfOk result (λ taken. (record { rate = taken.rate; rounds = taken.rounds; limit = taken.limit } ≡ numbers) × (call_status numbers.rounds numbers.rate 0 ≡ 0)) }
        ensures refused { IfErr result (λ refusal. (refusal.status ≡ call_status numbers.rounds numbers.rate 0) × (refusal.status ≡ 0 → ⊥)) }
    {
        let number = sponge::call_status(numbers.rounds, numbers.rate, 0);
        if number != status::DONE {
            return Err(Refusal { status: number });
        }
        let Numbers {
            rate,
            rounds,
            limit,
        } = numbers;
        Ok(Taken {
            rate,
            rounds,
            limit,
        })
    }

    // The position after n bytes: a full block is left full.
    fn position_after(self, n: u64) -> usize
        ensures { result ≡ position_after self.rate n }
    {
        if n == 0 {
            return 0;
        }
        ((n - 1) % (self.rate as u64)) as usize + 1
    }

    // The permutations of n bytes absorbed, or of n bytes squeezed.
    fn open_count(self, n: u64) -> u64
        ensures { (result ≡ open_count self.rate n) × (result ≤ n) }
    {
        if n == 0 {
            return 0;
        }
        (n - 1) / (self.rate as u64)
    }

    // The permutations of m bytes absorbed, the padding and n bytes squeezed. At the limits the sum is far below 2^64, whatever the rate.
    fn closed_count(self, m: u64, n: u64) -> u64
        requires { (m ≤ message_limit) × (n ≤ long_output) }
        ensures { result ≡ closed_count self.rate m n }
    {
        m / (self.rate as u64) + 1 + self.open_count(n)
    }

    // The permutations once `total` bytes are absorbed. They stay as they were where the block in hand has room for the piece, so a short one needs
    // no division.
    fn count_after(self, at: Progress, total: u64) -> u64
        requires { (at.position ≡ position_after self.rate at.absorbed) × (at.permutations ≡ open_count self.rate at.absorbed) × (at.absorbed ≤ total) }
        ensures { result ≡ open_count self.rate total }
    {
        if total - at.absorbed <= (self.rate - at.position) as u64 {
            return at.permutations;
        }
        self.open_count(total)
    }

    // The permutations when the run was closed, 0 where it is open.
    fn count_at_close(self, at: Progress) -> u64
        requires { at.absorbed ≤ message_limit }
        ensures { (result ≡ cond (eqb at.phase 0) 0 (suc (at.absorbed / self.rate))) × (result ≤ at.absorbed + 1) }
    {
        if at.phase == ABSORBING {
            return 0;
        }
        at.absorbed / (self.rate as u64) + 1
    }

    // Whether a run reached from a fresh one has this phase, these totals, this position and these permutations. The phases share the division of the
    // bytes that tell the position.
    fn is_reachable(self, at: Progress) -> bool
        ensures { result ≡ reachable self.rate self.limit at.position at.phase at.absorbed at.squeezed at.permutations }
    {
        if MESSAGE_LIMIT < at.absorbed {
            return false;
        }
        if SQUEEZING < at.phase {
            return false;
        }
        if most_squeezed(self.limit, at) < at.squeezed {
            return false;
        }
        let n = total_in_hand(at);
        if at.position != self.position_after(n) {
            return false;
        }
        at.permutations == self.count_at_close(at) + self.open_count(n)
    }

    pub(crate) fn absorb(self, lanes: &mut [u64; 25], at: Progress, piece: &[u8]) -> Moved
        ensures { answered result lanes.new ≡ perform_of (numbers self.rate self.rounds self.limit) (run_with lanes.old at) (Call.absorb piece.now) }
    {
        if !self.is_reachable(at) {
            return refused(status::UNREACHABLE, at);
        }
        if at.phase != ABSORBING {
            return refused(status::WRONG_PHASE, at);
        }
        let total = at.absorbed + piece.len() as u64;
        if MESSAGE_LIMIT < total {
            return refused(status::INPUT_TOO_LONG, at);
        }
        let count = self.count_after(at, total);
        let taken = sponge::absorb(lanes, at.position, self.rate, self.rounds, piece);
        let mut next = at;
        next.position = taken.position;
        next.absorbed = total;
        next.permutations = count;
        Moved {
            at: next,
            status: taken.status,
        }
    }

    pub(crate) fn finalize(
        self,
        lanes: &mut [u64; 25],
        at: Progress,
        refusal: u8,
        last: u8,
    ) -> Moved
        ensures { answered result lanes.new ≡ perform_of (numbers self.rate self.rounds self.limit) (run_with lanes.old at) (Call.finalize (record { byte = last; status = refusal })) }
    {
        if !self.is_reachable(at) {
            return refused(status::UNREACHABLE, at);
        }
        if at.phase != ABSORBING {
            return refused(status::WRONG_PHASE, at);
        }
        if refusal != status::DONE {
            return refused(refusal, at);
        }
        let count = self.closed_count(at.absorbed, 0);
        let padded = sponge::pad(lanes, at.position, self.rate, self.rounds, last);
        let mut next = at;
        next.position = padded.position;
        next.phase = SQUEEZING;
        next.permutations = count;
        Moved {
            at: next,
            status: padded.status,
        }
    }

    pub(crate) fn squeeze(self, lanes: &mut [u64; 25], at: Progress, out: &mut [u8]) -> Moved
        ensures lanes_after { answered result lanes.new ≡ perform_of (numbers self.rate self.rounds self.limit) (run_with lanes.old at) (Call.squeeze (length out.old)) }
        ensures out_after { out.new ≡ written_of (numbers self.rate self.rounds self.limit) (run_with lanes.old at) out.old }
    {
        if !self.is_reachable(at) {
            return refused(status::UNREACHABLE, at);
        }
        if at.phase != SQUEEZING {
            return refused(status::WRONG_PHASE, at);
        }
        let asked = out.len() as u64;
        if self.limit as u64 - at.squeezed < asked {
            return refused(status::OUTPUT_TOO_LONG, at);
        }
        let total = at.squeezed + asked;
        let count = self.closed_count(at.absorbed, total);
        let given = sponge::squeeze(lanes, at.position, self.rate, self.rounds, out);
        let mut next = at;
        next.position = given.position;
        next.squeezed = total;
        next.permutations = count;
        Moved {
            at: next,
            status: given.status,
        }
    }

    pub(crate) fn hash(self, message: &[u8], refusal: u8, last: u8, out: &mut [u8]) -> u8
        ensures value { result ≡ hash_status self.limit (length message.now) refusal (length out.old) }
        ensures out_after { out.new ≡ hash_output self.rate self.rounds self.limit message.now refusal last out.old }
    {
        let number = hash_status(self.limit, message.len() as u64, refusal, out.len() as u64);
        if number != status::DONE {
            return number;
        }
        let mut lanes = [0u64; 25];
        let absorbed = sponge::absorb(&mut lanes, 0, self.rate, self.rounds, message);
        let padded = sponge::pad(&mut lanes, absorbed.position, self.rate, self.rounds, last);
        let squeezed = sponge::squeeze(&mut lanes, padded.position, self.rate, self.rounds, out);
        squeezed.status
    }
}
