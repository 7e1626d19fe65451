// KMAC at both strengths: a start, the calls after it, and in one go. What it shares with KMACXOF is over the numbers: the two differ in what the close
// says.
ghost use Rattle.std.specs.Prelude.{◌≡◌, ℕ, true, ◌<◌, ◌≤◌, length};
ghost use Rattle.std.proofs.Common.{rules};
ghost use Rattle.sponge.specs.Transcript.{Call};
ghost use Rattle.hasher.specs.declared.Run.{Run};
ghost use Rattle.sp800_185.specs.Function.{kmac_at};
ghost use Rattle.sp800_185.specs.Model as model;
ghost use Rattle.sp800_185.specs.Model.{says, fixes};
ghost use Rattle.sp800_185.specs.Kmac.{start_status, start_answer, one_go_status, one_go_output};

use crate::numbers::Numbers;
use crate::{Answer, Keyed, Kmac128, Kmac256, STRING_LIMIT, calls, no_run, prefix};
use hasher::{HasherAnswer, MESSAGE_LIMIT, Run};
use sponge::status;

// Kept: beside cSHAKE's, see there.
#[tactic(auto, unfolding(crate::specs::Kmac::start_status))]
fn start_status(key: u64, string: u64) -> u8
    ensures { result ≡ start_status key string }
{
    if MESSAGE_LIMIT < key {
        return status::INPUT_TOO_LONG;
    }
    if STRING_LIMIT < string {
        return status::CUSTOMIZATION_TOO_LONG;
    }
    status::DONE
}

// Kept: the bounds of the rate, as in `prefix`.
#[tactic(auto, unfolding(crate::specs::Kmac::start_answer))]
pub(crate) fn start(rate: usize, key: &[u8], string: &[u8]) -> Answer
    requires { (0 < rate) × (rate ≤ 200) }
    ensures { result ≡ start_answer rate key.now string.now }
{
    let number = start_status(key.len() as u64, string.len() as u64);
    if number != status::DONE {
        let run = no_run();
        let keyed = Keyed { run, length: 0 };
        return Answer {
            keyed,
            status: number,
        };
    }
    let run = prefix::kmac_start(rate, key, string);
    let keyed = Keyed { run, length: 0 };
    Answer {
        keyed,
        status: status::DONE,
    }
}

pub(crate) fn tag(numbers: Numbers, key: &[u8], message: &[u8], string: &[u8], out: &mut [u8]) -> u8
    requires { says numbers.closing ≡ true }
    ensures value { result ≡ one_go_status (length key.now) (length string.now) (length message.now) (length out.old) }
    ensures out_after { out.new ≡ one_go_output numbers.rate (fixes numbers.closing) key.now message.now string.now out.old }
{
    let asked = out.len() as u64;
    let refusal = start_status(key.len() as u64, string.len() as u64);
    let number = calls::one_go_status(refusal, message.len() as u64, asked);
    if number != status::DONE {
        return number;
    }
    let said = calls::said(numbers, asked);
    let run = prefix::kmac_start(numbers.rate, key, string);
    calls::digest(numbers, run, said, message, out)
}

pub trait Kmac: Copy {
    ghost run_of: { Self → Run };

    // 0 before the close, which fixes it.
    ghost output_length_of: { Self → ℕ };

    // The rate and the capacity, in bytes.
    ghost RATE: { ℕ };

    const RATE: usize;

    ghost CAPACITY: { ℕ };

    const CAPACITY: usize;

    // The most blocks before a message: those of a key and a string of the most bytes.
    ghost PREFIX_BLOCKS: { ℕ };

    const PREFIX_BLOCKS: u64;

    // Kept: `run` and `from_run`, since a trait reads no field of its type.
    fn run(self) -> Run
        ensures { result ≡ run_of self };

    fn output_length(self) -> u64
        ensures { result ≡ output_length_of self };

    fn from_run(run: Run, output_length: u64) -> Self
        ensures { (run_of result ≡ run) × (output_length_of result ≡ output_length) };

    // A start with the key and the customization string, whole. A refused one hands back a run that every call refuses.
    fn start(key: &[u8], string: &[u8]) -> HasherAnswer<Self>
        ensures { record { keyed = record { run = run_of result.hasher; length = output_length_of result.hasher }; status = result.status } ≡ start_answer RATE key.now string.now }
    {
        let answered = start(Self::RATE, key, string);
        HasherAnswer {
            hasher: Self::from_run(answered.keyed.run, answered.keyed.length),
            status: answered.status,
        }
    }

    // Absorbs a piece of the message.
    fn absorb(self, piece: &[u8]) -> HasherAnswer<Self>
        ensures { record { keyed = record { run = run_of result.hasher; length = output_length_of result.hasher }; status = result.status } ≡ model.answer (kmac_at RATE PREFIX_BLOCKS) (record { run = run_of self; length = output_length_of self }) (Call.absorb piece.now) }
    {
        let numbers = Numbers::kmac(Self::RATE, Self::PREFIX_BLOCKS);
        let keyed = Keyed {
            run: self.run(),
            length: self.output_length(),
        };
        let answered = calls::absorb(numbers, keyed, piece);
        HasherAnswer {
            hasher: Self::from_run(answered.keyed.run, answered.keyed.length),
            status: answered.status,
        }
    }

    // Ends the message, and fixes the output length in bytes: no more than that is ever squeezed.
    fn finalize(self, length: u64) -> HasherAnswer<Self>
        ensures { record { keyed = record { run = run_of result.hasher; length = output_length_of result.hasher }; status = result.status } ≡ model.answer (kmac_at RATE PREFIX_BLOCKS) (record { run = run_of self; length = output_length_of self }) (Call.finalize length) }
    {
        let numbers = Numbers::kmac(Self::RATE, Self::PREFIX_BLOCKS);
        let keyed = Keyed {
            run: self.run(),
            length: self.output_length(),
        };
        let answered = calls::finalize(numbers, keyed, length);
        HasherAnswer {
            hasher: Self::from_run(answered.keyed.run, answered.keyed.length),
            status: answered.status,
        }
    }

    // Squeezes as many bytes of output as `out` holds.
    fn squeeze(self, out: &mut [u8]) -> HasherAnswer<Self>
        ensures status_value { record { keyed = record { run = run_of result.hasher; length = output_length_of result.hasher }; status = result.status } ≡ model.answer (kmac_at RATE PREFIX_BLOCKS) (record { run = run_of self; length = output_length_of self }) (Call.squeeze (length out.old)) }
        ensures out_after { out.new ≡ model.written (kmac_at RATE PREFIX_BLOCKS) (record { run = run_of self; length = output_length_of self }) out.old }
    {
        let numbers = Numbers::kmac(Self::RATE, Self::PREFIX_BLOCKS);
        let keyed = Keyed {
            run: self.run(),
            length: self.output_length(),
        };
        let answered = calls::squeeze(numbers, keyed, out);
        HasherAnswer {
            hasher: Self::from_run(answered.keyed.run, answered.keyed.length),
            status: answered.status,
        }
    }

    // In one go: the key, the message, the customization string, and as many bytes of output as `out` holds: the output length.
    fn tag(key: &[u8], message: &[u8], string: &[u8], out: &mut [u8]) -> u8
        ensures value { result ≡ one_go_status (length key.now) (length string.now) (length message.now) (length out.old) }
        ensures out_after { out.new ≡ one_go_output RATE true key.now message.now string.now out.old }
    {
        tag(
            Numbers::kmac(Self::RATE, Self::PREFIX_BLOCKS),
            key,
            message,
            string,
            out,
        )
    }

    ghost in_range: { (0 < RATE) × (RATE ≤ 200) × (PREFIX_BLOCKS ≤ 4294967295) };
}

impl Kmac for Kmac128 {
    ghost run_of = { λ x. x.run };

    ghost output_length_of = { λ x. x.output_length };

    ghost RATE = { 168 };

    const RATE: usize = 168;

    ghost CAPACITY = { 32 };

    const CAPACITY: usize = 32;

    ghost PREFIX_BLOCKS = { 102360992 };

    const PREFIX_BLOCKS: u64 = 102360992;

    fn run(self) -> Run {
        self.run
    }

    fn output_length(self) -> u64 {
        self.output_length
    }

    fn from_run(run: Run, output_length: u64) -> Self {
        Kmac128 { run, output_length }
    }

    ghost in_range = { Prim.search rules };
}

impl Kmac for Kmac256 {
    ghost run_of = { λ x. x.run };

    ghost output_length_of = { λ x. x.output_length };

    ghost RATE = { 136 };

    const RATE: usize = 136;

    ghost CAPACITY = { 64 };

    const CAPACITY: usize = 64;

    ghost PREFIX_BLOCKS = { 126445930 };

    const PREFIX_BLOCKS: u64 = 126445930;

    fn run(self) -> Run {
        self.run
    }

    fn output_length(self) -> u64 {
        self.output_length
    }

    fn from_run(run: Run, output_length: u64) -> Self {
        Kmac256 { run, output_length }
    }

    ghost in_range = { Prim.search rules };
}
