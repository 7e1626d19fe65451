// KMACXOF at both strengths: KMAC on a run that keeps no length.
ghost use Rattle.std.specs.Prelude.{◌≡◌, ℕ, false, ◌<◌, ◌≤◌, length};
ghost use Rattle.std.proofs.Common.{rules};
ghost use Rattle.sponge.specs.Transcript.{Call};
ghost use Rattle.hasher.specs.declared.Run.{Run};
ghost use Rattle.sp800_185.specs.Kmac.{xof_start_answer, xof_answer, xof_written, one_go_status, one_go_output};

use crate::numbers::Numbers;
use crate::{Keyed, KmacXof128, KmacXof256, calls, kmac};
use hasher::{HasherAnswer, Run};

pub trait KmacXof: Copy {
    ghost run_of: { Self → Run };

    // The rate and the capacity, in bytes.
    ghost RATE: { ℕ };

    const RATE: usize;

    ghost CAPACITY: { ℕ };

    const CAPACITY: usize;

    // The most blocks before a message: those of a key and a string of the most bytes.
    ghost PREFIX_BLOCKS: { ℕ };

    const PREFIX_BLOCKS: u64;

    // Kept: `run` and `from_run`, since a trait reads no field of its type.
    fn run(self) -> Run
        ensures { result ≡ run_of self };

    fn from_run(run: Run) -> Self
        ensures { run_of result ≡ run };

    // A start with the key and the customization string, whole. A refused one hands back a run that every call refuses.
    fn start(key: &[u8], string: &[u8]) -> HasherAnswer<Self>
        ensures { record { run = run_of result.hasher; status = result.status } ≡ xof_start_answer RATE key.now string.now }
    {
        let answered = kmac::start(Self::RATE, key, string);
        HasherAnswer {
            hasher: Self::from_run(answered.keyed.run),
            status: answered.status,
        }
    }

    // Absorbs a piece of the message.
    fn absorb(self, piece: &[u8]) -> HasherAnswer<Self>
        ensures { record { run = run_of result.hasher; status = result.status } ≡ xof_answer RATE PREFIX_BLOCKS (run_of self) (Call.absorb piece.now) }
    {
        let numbers = Numbers::kmacxof(Self::RATE, Self::PREFIX_BLOCKS);
        let keyed = Keyed {
            run: self.run(),
            length: 0,
        };
        let answered = calls::absorb(numbers, keyed, piece);
        HasherAnswer {
            hasher: Self::from_run(answered.keyed.run),
            status: answered.status,
        }
    }

    // Ends the message.
    fn finalize(self) -> HasherAnswer<Self>
        ensures { record { run = run_of result.hasher; status = result.status } ≡ xof_answer RATE PREFIX_BLOCKS (run_of self) (Call.finalize tt) }
    {
        let numbers = Numbers::kmacxof(Self::RATE, Self::PREFIX_BLOCKS);
        let keyed = Keyed {
            run: self.run(),
            length: 0,
        };
        let answered = calls::finalize(numbers, keyed, 0);
        HasherAnswer {
            hasher: Self::from_run(answered.keyed.run),
            status: answered.status,
        }
    }

    // Squeezes as many bytes of output as `out` holds.
    fn squeeze(self, out: &mut [u8]) -> HasherAnswer<Self>
        ensures status_value { record { run = run_of result.hasher; status = result.status } ≡ xof_answer RATE PREFIX_BLOCKS (run_of self) (Call.squeeze (length out.old)) }
        ensures out_after { out.new ≡ xof_written RATE PREFIX_BLOCKS (run_of self) out.old }
    {
        let numbers = Numbers::kmacxof(Self::RATE, Self::PREFIX_BLOCKS);
        let keyed = Keyed {
            run: self.run(),
            length: 0,
        };
        let answered = calls::squeeze(numbers, keyed, out);
        HasherAnswer {
            hasher: Self::from_run(answered.keyed.run),
            status: answered.status,
        }
    }

    // In one go: the key, the message, the customization string, and as many bytes of output as `out` holds.
    fn tag(key: &[u8], message: &[u8], string: &[u8], out: &mut [u8]) -> u8
        ensures value { result ≡ one_go_status (length key.now) (length string.now) (length message.now) (length out.old) }
        ensures out_after { out.new ≡ one_go_output RATE false key.now message.now string.now out.old }
    {
        kmac::tag(
            Numbers::kmacxof(Self::RATE, Self::PREFIX_BLOCKS),
            key,
            message,
            string,
            out,
        )
    }

    ghost in_range: { (0 < RATE) × (RATE ≤ 200) × (PREFIX_BLOCKS ≤ 4294967295) };
}

impl KmacXof for KmacXof128 {
    ghost run_of = { λ x. x.run };

    ghost RATE = { 168 };

    const RATE: usize = 168;

    ghost CAPACITY = { 32 };

    const CAPACITY: usize = 32;

    ghost PREFIX_BLOCKS = { 102360992 };

    const PREFIX_BLOCKS: u64 = 102360992;

    fn run(self) -> Run {
        self.run
    }

    fn from_run(run: Run) -> Self {
        KmacXof128 { run }
    }

    ghost in_range = { Prim.search rules };
}

impl KmacXof for KmacXof256 {
    ghost run_of = { λ x. x.run };

    ghost RATE = { 136 };

    const RATE: usize = 136;

    ghost CAPACITY = { 64 };

    const CAPACITY: usize = 64;

    ghost PREFIX_BLOCKS = { 126445930 };

    const PREFIX_BLOCKS: u64 = 126445930;

    fn run(self) -> Run {
        self.run
    }

    fn from_run(run: Run) -> Self {
        KmacXof256 { run }
    }

    ghost in_range = { Prim.search rules };
}
