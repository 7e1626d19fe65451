// What a call on a run answers, whatever the function, and the same for callers that write `?`.
ghost use Rattle.std.specs.Prelude.{◌≡◌};
ghost use Rattle.hasher.specs.Outcome.{result_of};

use std::error::Error;
use std::fmt;

// The status, and the run, which is the one given where the status is not 0.
#[derive(Clone, Copy)]
pub struct HasherAnswer<H: Copy> {
    pub hasher: H,
    pub status: u8,
}

// A refusal, by its number.
#[derive(Clone, Copy, Debug, PartialEq, Eq)]
pub struct Refusal {
    pub status: u8,
}

impl fmt::Display for Refusal {
    fn fmt<W: fmt::Write>(&self, f: &mut fmt::Formatter<W>) -> fmt::Result {
        write!(f, "refused with {}", self.status)
    }
}

impl Error for Refusal {}

impl<H: Copy> HasherAnswer<H> {
    // The run of a call that was done, or the refusal.
    pub fn done(self) -> Result<H, Refusal>
        ensures { result ≡ result_of self.hasher self.status }
    {
        if self.status == 0 {
            return Ok(self.hasher);
        }
        Err(Refusal {
            status: self.status,
        })
    }
}
