// The functions of FIPS 202, section 6, for messages of whole bytes, in one go and in pieces: a type for each, whose calls are those of the traits
// `Hasher` and `Fips202`. What each type is stands in `sha3` and `shake`.
#![tactic(auto)]

mod function;
mod sha3;
mod shake;

pub use function::Fips202;
use hasher::Run;

// The rounds of the permutation: Keccak-f[1600] has all of them.
pub const ROUNDS: usize = 24;

// The byte after a message of SHA-3: its two bits 01, and the first bit of the padding.
pub const SHA3_LAST: u8 = 0x06;

// The byte after a message of SHAKE: its four bits 1111, and the first bit of the padding.
pub const SHAKE_LAST: u8 = 0x1F;

// The most bytes of a message.
pub const MESSAGE_LIMIT: u64 = hasher::MESSAGE_LIMIT;

// The most bytes of SHAKE's output.
pub const OUTPUT_LIMIT: u64 = hasher::LONG_OUTPUT as u64;

// A run of SHA3-224.
#[derive(Clone, Copy)]
pub struct Sha3_224 {
    pub run: Run,
}

// A run of SHA3-256.
#[derive(Clone, Copy)]
pub struct Sha3_256 {
    pub run: Run,
}

// A run of SHA3-384.
#[derive(Clone, Copy)]
pub struct Sha3_384 {
    pub run: Run,
}

// A run of SHA3-512.
#[derive(Clone, Copy)]
pub struct Sha3_512 {
    pub run: Run,
}

// A run of SHAKE128.
#[derive(Clone, Copy)]
pub struct Shake128 {
    pub run: Run,
}

// A run of SHAKE256.
#[derive(Clone, Copy)]
pub struct Shake256 {
    pub run: Run,
}
