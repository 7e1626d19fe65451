// The keyed family of SP 800-185, for strings of whole bytes, in one go and in pieces: a type for each function, whose calls are those of the traits
// `CShake`, `Kmac` and `KmacXof`, over the rate. `calls` and `counts` are the calls on a run after a start, over `numbers`, what the functions differ in;
// `prefix` and `encode` are what a start and a close absorb.
#![tactic(auto)]

mod calls;
mod counts;
mod cshake;
mod encode;
mod kmac;
mod kmacxof;
mod numbers;
mod prefix;

ghost use Rattle.std.specs.Prelude.{◌≡◌};
ghost use Rattle.sp800_185.specs.Start.{no_run};

pub use cshake::CShake;
use hasher::Run;
pub use kmac::Kmac;
pub use kmacxof::KmacXof;

// The most bytes of a function's name and of a customization string. A key has as many as a message at most.
pub const STRING_LIMIT: u64 = 16777215;

const ROUNDS: usize = 24;

// The byte after a message: of SHAKE, and of cSHAKE.
const SHAKE_LAST: u8 = 0x1F;

const CSHAKE_LAST: u8 = 0x04;

// A run, and the output length that it keeps: 0 before the close, and where none is fixed.
#[derive(Clone, Copy)]
struct Keyed {
    run: Run,
    length: u64,
}

// What a call answers: the status, and the run, which is the one given where the status is not 0.
// Kept: calls refuse by number and hand the run back at once, and the clauses say both in one equation.
#[derive(Clone, Copy)]
struct Answer {
    keyed: Keyed,
    status: u8,
}

// The run that a refused start hands back: of no phase, so that every call answers 5.
fn no_run() -> Run
    ensures { result ≡ no_run }
{
    let lanes = [0u64; 25];
    Run {
        lanes,
        position: 0,
        phase: 3,
        absorbed: 0,
        squeezed: 0,
        permutations: 0,
    }
}

// A run of cSHAKE128, and whether it is one of SHAKE128: both strings of its start were empty.
#[derive(Clone, Copy)]
pub struct CShake128 {
    pub run: Run,
    pub shake: bool,
}

// A run of cSHAKE256, and whether it is one of SHAKE256.
#[derive(Clone, Copy)]
pub struct CShake256 {
    pub run: Run,
    pub shake: bool,
}

// A run of KMAC128, and its output length in bytes: 0 before the close, which fixes it.
#[derive(Clone, Copy)]
pub struct Kmac128 {
    pub run: Run,
    pub output_length: u64,
}

// A run of KMAC256, and its output length in bytes: 0 before the close, which fixes it.
#[derive(Clone, Copy)]
pub struct Kmac256 {
    pub run: Run,
    pub output_length: u64,
}

// A run of KMACXOF128.
#[derive(Clone, Copy)]
pub struct KmacXof128 {
    pub run: Run,
}

// A run of KMACXOF256.
#[derive(Clone, Copy)]
pub struct KmacXof256 {
    pub run: Run,
}
