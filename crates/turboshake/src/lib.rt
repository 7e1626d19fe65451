// TurboSHAKE128 and TurboSHAKE256: draft-irtf-cfrg-kangarootwelve-16, section 2, in one go and in pieces: a type for each strength,
// whose calls are those of the traits `Hasher` and `TurboShake`.
#![tactic(auto)]

mod function;
mod strength128;
mod strength256;

ghost use Rattle.std.specs.Prelude.{◌≡◌, length};
ghost use Rattle.hasher.specs.Model.{one_go_status, one_go_output};
ghost use Rattle.turboshake.specs.Transcript.{domain_status, function};

pub use function::TurboShake;
use hasher::{LONG_OUTPUT, Numbers, Run};
use sponge::status;

// The rounds of the permutation: the draft's KP.
pub const ROUNDS: usize = 12;

// The most bytes of a message.
pub const MESSAGE_LIMIT: u64 = hasher::MESSAGE_LIMIT;

// The most bytes of output.
pub const OUTPUT_LIMIT: u64 = hasher::LONG_OUTPUT as u64;

// The status of a domain separation byte: 01 to 7F are taken.
pub fn domain_status(domain: u8) -> u8
    ensures { result ≡ domain_status domain }
{
    if domain < 1 {
        return status::BAD_DOMAIN;
    }
    if 0x7F < domain {
        return status::BAD_DOMAIN;
    }
    status::DONE
}

// A run of TurboSHAKE128.
#[derive(Clone, Copy)]
pub struct TurboShake128 {
    pub run: Run,
}

// A run of TurboSHAKE256.
#[derive(Clone, Copy)]
pub struct TurboShake256 {
    pub run: Run,
}

// In one go at a rate of 1 to 200 bytes, for the nodes of a tree above. Any other rate is refused with 5.
pub fn hash_at_rate(rate: usize, message: &[u8], domain: u8, out: &mut [u8]) -> u8
    ensures value { result ≡ one_go_status (function rate) (length message.now) domain (length out.old) }
    ensures out_after { out.new ≡ one_go_output (function rate) message.now domain out.old }
{
    let numbers = Numbers {
        rate,
        rounds: ROUNDS,
        limit: LONG_OUTPUT,
    };
    let refusal = domain_status(domain);
    hasher::hash(numbers, message, refusal, domain, out)
}
