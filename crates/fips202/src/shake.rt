// SHAKE128 and SHAKE256: FIPS 202, section 6.2.
ghost use Rattle.std.specs.Prelude.{refl};
ghost use Rattle.hasher.specs.Function.{long_output};

use crate::{Fips202, ROUNDS, SHAKE_LAST, Shake128, Shake256};
use hasher::{Hasher, LONG_OUTPUT, Run};

impl Hasher for Shake128 {
    ghost run_of = { λ hasher. hasher.run };

    ghost RATE = { 168 };

    const RATE: usize = 168;

    ghost ROUNDS = { 24 };

    const ROUNDS: usize = ROUNDS;

    ghost LIMIT = { long_output };

    const LIMIT: u32 = LONG_OUTPUT;

    fn run(self) -> Run {
        self.run
    }

    fn from_run(run: Run) -> Self {
        Shake128 { run }
    }
}

impl Fips202 for Shake128 {
    ghost CAPACITY = { 32 };

    const CAPACITY: usize = 32;

    ghost LAST = { 0x1F };

    const LAST: u8 = SHAKE_LAST;

    ghost all_rounds = { refl };
}

impl Hasher for Shake256 {
    ghost run_of = { λ hasher. hasher.run };

    ghost RATE = { 136 };

    const RATE: usize = 136;

    ghost ROUNDS = { 24 };

    const ROUNDS: usize = ROUNDS;

    ghost LIMIT = { long_output };

    const LIMIT: u32 = LONG_OUTPUT;

    fn run(self) -> Run {
        self.run
    }

    fn from_run(run: Run) -> Self {
        Shake256 { run }
    }
}

impl Fips202 for Shake256 {
    ghost CAPACITY = { 64 };

    const CAPACITY: usize = 64;

    ghost LAST = { 0x1F };

    const LAST: u8 = SHAKE_LAST;

    ghost all_rounds = { refl };
}
