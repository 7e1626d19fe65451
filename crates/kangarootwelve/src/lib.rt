// KT128 and KT256: draft-irtf-cfrg-kangarootwelve-16, section 3, in one go and in pieces. HopMAC128 and HopMAC256, section 4, in one go,
// and their tag check.
//
// A type for each strength, whose calls are those of the traits `Kt` and `HopMac`. What they call takes a `Strength`, the rate and the length of a chaining
// value.
#![tactic(auto)]

mod calls;
mod fours;
mod hopmac;
mod kt;
mod leaves;
mod one_go;
mod reached;
mod totals;
mod tree;

ghost use Rattle.std.specs.Prelude.{◌≡◌, ◌<◌, ◌≤◌, ◌%◌, drop};
ghost use Rattle.kangarootwelve.specs.Model.{encoding_of};
ghost use Rattle.kangarootwelve.specs.Mac.{same_bytes};

pub use hopmac::HopMac;
pub use kt::Kt;

// The phases of a run.
const ABSORBING: u8 = 0;

const SQUEEZING: u8 = 1;

const CUSTOMIZING: u8 = 2;

// The most bytes of a customization string.
pub const CUSTOMIZATION_LIMIT: u64 = 16777215;

// The draft's section 3.2, for crates that work on the nodes themselves: the length of a chunk, what follows S_0 in the final node, what ends it, and the
// domain separation bytes of the nodes.
pub const CHUNK: usize = tree::CHUNK;

pub const MARKER: [u8; 8] = tree::MARKER;

pub const TRAILER: [u8; 2] = tree::TRAILER;

pub const SINGLE_NODE: u8 = tree::SINGLE_NODE;

pub const INTERMEDIATE_NODE: u8 = tree::INTERMEDIATE_NODE;

pub const FINAL_NODE: u8 = tree::FINAL_NODE;

// The most bytes of a presented tag.
pub const TAG_LIMIT: u64 = 64;

// A sponge's state: document 01's 25 lanes and place within the block.
#[derive(Clone, Copy)]
pub struct State {
    pub lanes: [u64; 25],
    pub position: usize,
}

// A run: the state of the final node and of the leaf in hand, the phase (0 absorbing, 1 squeezing, 2 customizing), document 01's bytes fed,
// which are M's alone, request Q-2's customization bytes, document 01's bytes read, and request Q-10's permutations of the definition so far.
#[derive(Clone, Copy)]
pub struct Run {
    pub node: State,
    pub leaf: State,
    pub phase: u8,
    pub absorbed: u64,
    pub customized: u64,
    pub squeezed: u64,
    pub permutations: u64,
}

// What the strengths differ in: the rate and the length of a chaining value, in bytes. Both are whole words, and a value fits a block.
#[derive(Clone, Copy)]
struct Strength {
    rate: usize,
    chaining: usize,
    ghost bounds: { (0 < rate) × (rate ≤ 200) × (rate % 8 ≡ 0) × (0 < chaining) × (chaining ≤ 64) × (chaining % 8 ≡ 0) × (chaining ≤ rate) },
}

// What a run holds beside its lanes: the two positions, the phase, the totals and the permutations.
#[derive(Clone, Copy)]
struct Progress {
    node: usize,
    leaf: usize,
    phase: u8,
    absorbed: u64,
    customized: u64,
    squeezed: u64,
    permutations: u64,
}

// What a call leaves of a run beside its lanes, and its status. Kept: one equation says what a call answers, done or refused, which a Result would split.
#[derive(Clone, Copy)]
struct Moved {
    at: Progress,
    status: u8,
}

// Where the next byte of S goes: the two positions, the number of the chunk in hand, and the bytes of it that were absorbed.
#[derive(Clone, Copy)]
struct Place {
    node: usize,
    leaf: usize,
    index: u64,
    position: usize,
}

// The positions of the final node and of the leaf that four chunks leave, the last of them open.
#[derive(Clone, Copy)]
struct FourOpen {
    node: usize,
    leaf: usize,
}

// A run of KT128.
#[derive(Clone, Copy)]
pub struct Kt128 {
    pub run: Run,
}

// A run of KT256.
#[derive(Clone, Copy)]
pub struct Kt256 {
    pub run: Run,
}

// HopMAC128: the draft's section 4.
#[derive(Clone, Copy)]
pub struct HopMac128 {}

// HopMAC256.
#[derive(Clone, Copy)]
pub struct HopMac256 {}

// The draft's length_encode of a number: the bytes from `start` on. Those before them are zeros.
#[derive(Clone, Copy)]
pub struct LengthEncoding {
    pub bytes: [u8; 9],
    pub start: usize,
}

impl LengthEncoding {
    // The encoding itself: the bytes from `start` on.
    pub fn as_slice(&self) -> &[u8]
        ensures { result.now ≡ drop self.now.start self.now.bytes }
    {
        &self.bytes[self.start.min(9)..]
    }
}

// Kept: `verdict_of` in specs/Mac.antt fixes both fields.
// What the tag check answers: the status, and whether the presented tag is right, document 01's yes and no.
#[derive(Clone, Copy)]
pub struct Verdict {
    pub status: u8,
    pub valid: bool,
}

// The draft's length_encode, section 3.3.
pub fn length_encode(x: u64) -> LengthEncoding
    ensures { result ≡ encoding_of x }
{
    let mut bytes = [0u8; 9];
    let mut start = 8;
    let mut rest = x;
    // Kept: the loop counts no index; it takes the digits off the number, the last one first.
    while 0 < rest {
        start -= 1;
        bytes[start] = (rest % 256) as u8;
        rest /= 256;
    }
    bytes[8] = (8 - start) as u8;
    LengthEncoding { bytes, start }
}

// Whether two strings are equal. Of two of one length every byte is looked at, wherever the first difference is.
pub fn is_same(a: &[u8], b: &[u8]) -> bool
    ensures { result ≡ same_bytes a.now b.now }
{
    if a.len() != b.len() {
        return false;
    }
    hopmac::is_same(a, b)
}
