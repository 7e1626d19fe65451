// What the functions of SP 800-185 differ in.
ghost use Rattle.std.specs.Prelude.{◌<◌, ◌≤◌};

// What a close says after the message: nothing, the output length 0, or the output length that it is given, which it fixes.
#[derive(Clone, Copy)]
pub(crate) enum Closing {
    Nothing,
    Zero,
    Length,
}

// The rate, what a close says, and the fewest and the most blocks before a message.
#[derive(Clone, Copy)]
pub(crate) struct Numbers {
    pub rate: usize,
    pub closing: Closing,
    pub least: u64,
    pub most: u64,
    ghost usable: { (0 < rate) × (rate ≤ 200) × (1 ≤ least) × (least ≤ 2) × (most ≤ 4294967295) },
}

impl Numbers {
    ghost use Rattle.std.specs.Prelude.{◌≡◌};
    ghost use Rattle.sp800_185.specs.Function.{cshake_at, kmac_at, kmacxof_at};
    ghost use Rattle.sp800_185.specs.Model.{given, plain};

    // cSHAKE, of strings that are not both empty: the close says nothing.
    // Kept: the bounds, here and below, are what `usable` asks; the traits have them as a law.
    pub(crate) fn cshake(rate: usize, most: u64) -> Self
        requires { (0 < rate) × (rate ≤ 200) × (most ≤ 4294967295) }
        ensures { given result ≡ plain (cshake_at rate most) }
    {
        Numbers {
            rate,
            closing: Closing::Nothing,
            least: 1,
            most,
        }
    }

    // KMAC, whose close says and fixes the output length.
    pub(crate) fn kmac(rate: usize, most: u64) -> Self
        requires { (0 < rate) × (rate ≤ 200) × (most ≤ 4294967295) }
        ensures { given result ≡ plain (kmac_at rate most) }
    {
        Numbers {
            rate,
            closing: Closing::Length,
            least: 2,
            most,
        }
    }

    // KMACXOF, whose close says 0 and fixes nothing.
    pub(crate) fn kmacxof(rate: usize, most: u64) -> Self
        requires { (0 < rate) × (rate ≤ 200) × (most ≤ 4294967295) }
        ensures { given result ≡ plain (kmacxof_at rate most) }
    {
        Numbers {
            rate,
            closing: Closing::Zero,
            least: 2,
            most,
        }
    }
}
