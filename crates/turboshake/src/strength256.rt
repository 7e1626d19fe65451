// TurboSHAKE256: the numbers of the draft's section 2 at this strength.
ghost use Rattle.std.specs.Prelude.{refl};
ghost use Rattle.turboshake.specs.Published.{turboshake_rounds};
ghost use Rattle.turboshake.specs.Transcript.{output_limit};

use crate::{ROUNDS, TurboShake, TurboShake256};
use hasher::{Hasher, LONG_OUTPUT, Run};

impl Hasher for TurboShake256 {
    ghost run_of = { λ hasher. hasher.run };

    ghost RATE = { 136 };

    const RATE: usize = 136;

    ghost ROUNDS = { turboshake_rounds };

    const ROUNDS: usize = ROUNDS;

    ghost LIMIT = { output_limit };

    const LIMIT: u32 = LONG_OUTPUT;

    fn run(self) -> Run {
        self.run
    }

    fn from_run(run: Run) -> Self {
        TurboShake256 { run }
    }
}

impl TurboShake for TurboShake256 {
    ghost CAPACITY = { 64 };

    const CAPACITY: usize = 64;

    ghost CHAINING = { 64 };

    const CHAINING: usize = 64;

    ghost rounds_and_limit = { (refl, refl) };
}
