// TurboSHAKE128: the numbers of the draft's section 2 at this strength.
ghost use Rattle.std.specs.Prelude.{refl};
ghost use Rattle.turboshake.specs.Published.{turboshake_rounds};
ghost use Rattle.turboshake.specs.Transcript.{output_limit};

use crate::{ROUNDS, TurboShake, TurboShake128};
use hasher::{Hasher, LONG_OUTPUT, Run};

impl Hasher for TurboShake128 {
    ghost run_of = { λ hasher. hasher.run };

    ghost RATE = { 168 };

    const RATE: usize = 168;

    ghost ROUNDS = { turboshake_rounds };

    const ROUNDS: usize = ROUNDS;

    ghost LIMIT = { output_limit };

    const LIMIT: u32 = LONG_OUTPUT;

    fn run(self) -> Run {
        self.run
    }

    fn from_run(run: Run) -> Self {
        TurboShake128 { run }
    }
}

impl TurboShake for TurboShake128 {
    ghost CAPACITY = { 32 };

    const CAPACITY: usize = 32;

    ghost CHAINING = { 32 };

    const CHAINING: usize = 32;

    ghost rounds_and_limit = { (refl, refl) };
}
