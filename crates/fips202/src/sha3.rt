// SHA3-224, SHA3-256, SHA3-384 and SHA3-512: FIPS 202, section 6.1. The digest's length is the most that is read.
ghost use Rattle.std.specs.Prelude.{refl};

use crate::{Fips202, ROUNDS, SHA3_LAST, Sha3_224, Sha3_256, Sha3_384, Sha3_512};
use hasher::{Hasher, Run};

impl Sha3_224 {
    // The digest, in bytes.
    pub const DIGEST: u32 = 28;
}

impl Hasher for Sha3_224 {
    ghost run_of = { λ hasher. hasher.run };

    ghost RATE = { 144 };

    const RATE: usize = 144;

    ghost ROUNDS = { 24 };

    const ROUNDS: usize = ROUNDS;

    ghost LIMIT = { 28 };

    const LIMIT: u32 = Self::DIGEST;

    fn run(self) -> Run {
        self.run
    }

    fn from_run(run: Run) -> Self {
        Sha3_224 { run }
    }
}

impl Fips202 for Sha3_224 {
    ghost CAPACITY = { 56 };

    const CAPACITY: usize = 56;

    ghost LAST = { 0x06 };

    const LAST: u8 = SHA3_LAST;

    ghost all_rounds = { refl };
}

impl Sha3_256 {
    // The digest, in bytes.
    pub const DIGEST: u32 = 32;
}

impl Hasher for Sha3_256 {
    ghost run_of = { λ hasher. hasher.run };

    ghost RATE = { 136 };

    const RATE: usize = 136;

    ghost ROUNDS = { 24 };

    const ROUNDS: usize = ROUNDS;

    ghost LIMIT = { 32 };

    const LIMIT: u32 = Self::DIGEST;

    fn run(self) -> Run {
        self.run
    }

    fn from_run(run: Run) -> Self {
        Sha3_256 { run }
    }
}

impl Fips202 for Sha3_256 {
    ghost CAPACITY = { 64 };

    const CAPACITY: usize = 64;

    ghost LAST = { 0x06 };

    const LAST: u8 = SHA3_LAST;

    ghost all_rounds = { refl };
}

impl Sha3_384 {
    // The digest, in bytes.
    pub const DIGEST: u32 = 48;
}

impl Hasher for Sha3_384 {
    ghost run_of = { λ hasher. hasher.run };

    ghost RATE = { 104 };

    const RATE: usize = 104;

    ghost ROUNDS = { 24 };

    const ROUNDS: usize = ROUNDS;

    ghost LIMIT = { 48 };

    const LIMIT: u32 = Self::DIGEST;

    fn run(self) -> Run {
        self.run
    }

    fn from_run(run: Run) -> Self {
        Sha3_384 { run }
    }
}

impl Fips202 for Sha3_384 {
    ghost CAPACITY = { 96 };

    const CAPACITY: usize = 96;

    ghost LAST = { 0x06 };

    const LAST: u8 = SHA3_LAST;

    ghost all_rounds = { refl };
}

impl Sha3_512 {
    // The digest, in bytes.
    pub const DIGEST: u32 = 64;
}

impl Hasher for Sha3_512 {
    ghost run_of = { λ hasher. hasher.run };

    ghost RATE = { 72 };

    const RATE: usize = 72;

    ghost ROUNDS = { 24 };

    const ROUNDS: usize = ROUNDS;

    ghost LIMIT = { 64 };

    const LIMIT: u32 = Self::DIGEST;

    fn run(self) -> Run {
        self.run
    }

    fn from_run(run: Run) -> Self {
        Sha3_512 { run }
    }
}

impl Fips202 for Sha3_512 {
    ghost CAPACITY = { 128 };

    const CAPACITY: usize = 128;

    ghost LAST = { 0x06 };

    const LAST: u8 = SHA3_LAST;

    ghost all_rounds = { refl };
}
