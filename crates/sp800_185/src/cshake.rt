// cSHAKE at both strengths: a start, the calls after it, and in one go. With both strings of its start empty it is SHAKE.
ghost use Rattle.std.specs.Prelude.{◌≡◌, ℕ, Bool, true, false, ◌<◌, ◌≤◌, length};
ghost use Rattle.sponge.specs.Transcript.{Call};
ghost use Rattle.hasher.specs.Function.{long_output};
ghost use Rattle.hasher.specs.declared.Run.{Run};
ghost use Rattle.sp800_185.specs.Cshake.{start_status, start_answer, answer, written, one_go_status, one_go_output};
ghost use Rattle.sp800_185.specs.Published.{both_empty};
ghost use Rattle.std.proofs.Common.{rules};

use crate::numbers::Numbers;
use crate::{CShake128, CShake256, Keyed, ROUNDS, SHAKE_LAST, STRING_LIMIT, calls, no_run, prefix};
use hasher::{HasherAnswer, LONG_OUTPUT, Run};
use sponge::status;

fn both_empty(name: &[u8], string: &[u8]) -> bool
    ensures { result ≡ both_empty name.now string.now }
{
    if name.len() == 0 {
        return string.len() == 0;
    }
    false
}

// Kept: KMAC's differs in the limit and the status of the first string, so that one text for both would take these two as arguments.
#[tactic(auto, unfolding(crate::specs::Cshake::start_status))]
fn start_status(name: u64, string: u64) -> u8
    ensures { result ≡ start_status name string }
{
    if STRING_LIMIT < name {
        return status::CUSTOMIZATION_TOO_LONG;
    }
    if STRING_LIMIT < string {
        return status::CUSTOMIZATION_TOO_LONG;
    }
    status::DONE
}

// What SHAKE is to the hasher.
fn shake_numbers(rate: usize) -> hasher::Numbers
    ensures { result ≡ record { rate = rate; rounds = 24; limit = long_output } }
{
    hasher::Numbers {
        rate,
        rounds: ROUNDS,
        limit: LONG_OUTPUT,
    }
}

pub trait CShake: Copy {
    ghost run_of: { Self → Run };

    // Whether it is a run of SHAKE: both strings of its start were empty.
    ghost shake_of: { Self → Bool };

    // The rate and the capacity, in bytes.
    ghost RATE: { ℕ };

    const RATE: usize;

    ghost CAPACITY: { ℕ };

    const CAPACITY: usize;

    // The most blocks before a message: those of a name and a string of the most bytes.
    ghost PREFIX_BLOCKS: { ℕ };

    const PREFIX_BLOCKS: u64;

    // Kept: `run` and `from_run`, since a trait reads no field of its type.
    fn run(self) -> Run
        ensures { result ≡ run_of self };

    fn shake(self) -> bool
        ensures { result ≡ shake_of self };

    fn from_run(run: Run, shake: bool) -> Self
        ensures { (run_of result ≡ run) × (shake_of result ≡ shake) };

    // A start with the function's name and the customization string, whole. A refused one hands back a run that every call refuses.
    #[tactic(auto, unfolding(crate::specs::Cshake::start_answer, crate::specs::Published::cshake_prefix, crate::specs::Start::start_run, hasher::specs::Model::fresh_of))]
    fn start(name: &[u8], string: &[u8]) -> HasherAnswer<Self>
        ensures { record { customized = record { run = run_of result.hasher; shake = shake_of result.hasher }; status = result.status } ≡ start_answer RATE name.now string.now }
    {
        let number = start_status(name.len() as u64, string.len() as u64);
        if number != status::DONE {
            return HasherAnswer {
                hasher: Self::from_run(no_run(), false),
                status: number,
            };
        }
        if both_empty(name, string) {
            return HasherAnswer {
                hasher: Self::from_run(hasher::fresh(), true),
                status: status::DONE,
            };
        }
        let run = prefix::cshake_start(Self::RATE, name, string);
        HasherAnswer {
            hasher: Self::from_run(run, false),
            status: status::DONE,
        }
    }

    // Absorbs a piece of the message.
    #[tactic(auto, unfolding(crate::specs::Cshake::answer))]
    fn absorb(self, piece: &[u8]) -> HasherAnswer<Self>
        ensures { record { customized = record { run = run_of result.hasher; shake = shake_of result.hasher }; status = result.status } ≡ answer RATE PREFIX_BLOCKS (record { run = run_of self; shake = shake_of self }) (Call.absorb piece.now) }
    {
        let run = self.run();
        if self.shake() {
            let hashed = hasher::absorb(shake_numbers(Self::RATE), run, piece);
            return HasherAnswer {
                hasher: Self::from_run(hashed.run, true),
                status: hashed.status,
            };
        }
        let numbers = Numbers::cshake(Self::RATE, Self::PREFIX_BLOCKS);
        let answered = calls::absorb(numbers, Keyed { run, length: 0 }, piece);
        HasherAnswer {
            hasher: Self::from_run(answered.keyed.run, false),
            status: answered.status,
        }
    }

    // Ends the message.
    #[tactic(auto, unfolding(crate::specs::Cshake::answer))]
    fn finalize(self) -> HasherAnswer<Self>
        ensures { record { customized = record { run = run_of result.hasher; shake = shake_of result.hasher }; status = result.status } ≡ answer RATE PREFIX_BLOCKS (record { run = run_of self; shake = shake_of self }) (Call.finalize tt) }
    {
        let run = self.run();
        if self.shake() {
            let hashed = hasher::finalize(shake_numbers(Self::RATE), run, status::DONE, SHAKE_LAST);
            return HasherAnswer {
                hasher: Self::from_run(hashed.run, true),
                status: hashed.status,
            };
        }
        let numbers = Numbers::cshake(Self::RATE, Self::PREFIX_BLOCKS);
        let answered = calls::finalize(numbers, Keyed { run, length: 0 }, 0);
        HasherAnswer {
            hasher: Self::from_run(answered.keyed.run, false),
            status: answered.status,
        }
    }

    // Squeezes as many bytes of output as `out` holds.
    #[tactic(auto, unfolding(crate::specs::Cshake::answer, crate::specs::Cshake::written))]
    fn squeeze(self, out: &mut [u8]) -> HasherAnswer<Self>
        ensures status_value { record { customized = record { run = run_of result.hasher; shake = shake_of result.hasher }; status = result.status } ≡ answer RATE PREFIX_BLOCKS (record { run = run_of self; shake = shake_of self }) (Call.squeeze (length out.old)) }
        ensures out_after { out.new ≡ written RATE PREFIX_BLOCKS (record { run = run_of self; shake = shake_of self }) out.old }
    {
        let run = self.run();
        if self.shake() {
            let hashed = hasher::squeeze(shake_numbers(Self::RATE), run, out);
            return HasherAnswer {
                hasher: Self::from_run(hashed.run, true),
                status: hashed.status,
            };
        }
        let numbers = Numbers::cshake(Self::RATE, Self::PREFIX_BLOCKS);
        let answered = calls::squeeze(numbers, Keyed { run, length: 0 }, out);
        HasherAnswer {
            hasher: Self::from_run(answered.keyed.run, false),
            status: answered.status,
        }
    }

    // In one go: the message, the function's name, the customization string, and as many bytes of output as `out` holds.
    fn hash(message: &[u8], name: &[u8], string: &[u8], out: &mut [u8]) -> u8
        ensures value { result ≡ one_go_status (length name.now) (length string.now) (length message.now) (length out.old) }
        ensures out_after { out.new ≡ one_go_output RATE message.now name.now string.now out.old }
    {
        let refusal = start_status(name.len() as u64, string.len() as u64);
        let number = calls::one_go_status(refusal, message.len() as u64, out.len() as u64);
        if number != status::DONE {
            return number;
        }
        if both_empty(name, string) {
            return hasher::hash(
                shake_numbers(Self::RATE),
                message,
                status::DONE,
                SHAKE_LAST,
                out,
            );
        }
        let numbers = Numbers::cshake(Self::RATE, Self::PREFIX_BLOCKS);
        let run = prefix::cshake_start(Self::RATE, name, string);
        calls::digest(numbers, run, 0, message, out)
    }

    ghost in_range: { (0 < RATE) × (RATE ≤ 200) × (PREFIX_BLOCKS ≤ 4294967295) };
}

impl CShake for CShake128 {
    ghost run_of = { λ x. x.run };

    ghost shake_of = { λ x. x.shake };

    ghost RATE = { 168 };

    const RATE: usize = 168;

    ghost CAPACITY = { 32 };

    const CAPACITY: usize = 32;

    ghost PREFIX_BLOCKS = { 199729 };

    const PREFIX_BLOCKS: u64 = 199729;

    fn run(self) -> Run {
        self.run
    }

    fn shake(self) -> bool {
        self.shake
    }

    fn from_run(run: Run, shake: bool) -> Self {
        CShake128 { run, shake }
    }

    ghost in_range = { Prim.search rules };
}

impl CShake for CShake256 {
    ghost run_of = { λ x. x.run };

    ghost shake_of = { λ x. x.shake };

    ghost RATE = { 136 };

    const RATE: usize = 136;

    ghost CAPACITY = { 64 };

    const CAPACITY: usize = 64;

    ghost PREFIX_BLOCKS = { 246724 };

    const PREFIX_BLOCKS: u64 = 246724;

    fn run(self) -> Run {
        self.run
    }

    fn shake(self) -> bool {
        self.shake
    }

    fn from_run(run: Run, shake: bool) -> Self {
        CShake256 { run, shake }
    }

    ghost in_range = { Prim.search rules };
}
