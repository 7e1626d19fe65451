// The functions that are the sponge, for programs that choose one while they run: a function is its numbers, and each call is `hasher`'s, given them.
// `kt` does the same for KT, `keyed` for the functions of SP 800-185.
#![tactic(auto)]

pub mod keyed;
pub mod kt;

ghost use Rattle.std.specs.Prelude.{◌≡◌, length};
ghost use Rattle.sponge.specs.Transcript.{Call};
ghost use Rattle.hasher.specs.Model.{answer_of, output_of, one_go_status, one_go_output};
ghost use Rattle.turboshake.specs.Transcript as turbo;
ghost use Rattle.fips202.specs.Transcript as fips;
ghost use Rattle.functions.specs.Functions.{with_domain, with_last, given, ending, closing};

use fips202::{Fips202, Sha3_224, Sha3_256, Sha3_384, Sha3_512, Shake128, Shake256};
use hasher::{Answer, Hasher, Numbers, Run};
use sponge::status::DONE;
use turboshake::{TurboShake, TurboShake128, TurboShake256};

// Which byte follows a message: the one that the close is given, as TurboSHAKE's domain byte, or the function's own.
#[derive(Clone, Copy, Debug, PartialEq, Eq)]
pub enum Closing {
    Domain,
    Last(u8),
}

impl Closing {
    fn last(self, domain: u8) -> u8
        ensures { result ≡ (ending self domain).byte }
    {
        match self {
            Closing::Domain => domain,
            Closing::Last(last) => last,
        }
    }

    // The status of that byte.
    fn refusal(self, domain: u8) -> u8
        ensures { result ≡ (ending self domain).status }
    {
        match self {
            Closing::Domain => turboshake::domain_status(domain),
            Closing::Last(_) => DONE,
        }
    }
}

#[derive(Clone, Copy, Debug, PartialEq, Eq)]
pub struct Function {
    pub numbers: Numbers,
    pub closing: Closing,
}

fn turboshake<T: TurboShake>() -> Function
    ensures { result ≡ with_domain (turbo.function T.RATE) }
{
    Function {
        numbers: T::numbers(),
        closing: Closing::Domain,
    }
}

fn fips202<F: Fips202>() -> Function
    ensures { result ≡ with_last (fips.function F.RATE F.LAST F.LIMIT) }
{
    Function {
        numbers: F::numbers(),
        closing: Closing::Last(F::LAST),
    }
}

pub fn turboshake128() -> Function
    ensures { result ≡ with_domain (turbo.function 168) }
{
    turboshake::<TurboShake128>()
}

pub fn turboshake256() -> Function
    ensures { result ≡ with_domain (turbo.function 136) }
{
    turboshake::<TurboShake256>()
}

pub fn sha3_224() -> Function
    ensures { result ≡ with_last fips.sha3_224 }
{
    fips202::<Sha3_224>()
}

pub fn sha3_256() -> Function
    ensures { result ≡ with_last fips.sha3_256 }
{
    fips202::<Sha3_256>()
}

pub fn sha3_384() -> Function
    ensures { result ≡ with_last fips.sha3_384 }
{
    fips202::<Sha3_384>()
}

pub fn sha3_512() -> Function
    ensures { result ≡ with_last fips.sha3_512 }
{
    fips202::<Sha3_512>()
}

pub fn shake128() -> Function
    ensures { result ≡ with_last fips.shake128 }
{
    fips202::<Shake128>()
}

pub fn shake256() -> Function
    ensures { result ≡ with_last fips.shake256 }
{
    fips202::<Shake256>()
}

// Absorbs a piece of the message.
pub fn absorb(function: Function, run: Run, piece: &[u8]) -> Answer
    ensures { result ≡ answer_of (given function) run (Call.absorb piece.now) }
{
    hasher::absorb(function.numbers, run, piece)
}

// Ends the message, with the domain byte where the function has one.
pub fn finalize(function: Function, run: Run, domain: u8) -> Answer
    ensures { result ≡ answer_of (given function) run (Call.finalize (closing function domain)) }
{
    let refusal = function.closing.refusal(domain);
    hasher::finalize(
        function.numbers,
        run,
        refusal,
        function.closing.last(domain),
    )
}

// Squeezes as many bytes of output as `out` holds.
pub fn squeeze(function: Function, run: Run, out: &mut [u8]) -> Answer
    ensures value { result ≡ answer_of (given function) run (Call.squeeze (length out.old)) }
    ensures out_after { out.new ≡ output_of (given function) run out.old }
{
    hasher::squeeze(function.numbers, run, out)
}

// In one go: the message, the domain byte where the function has one, and as many bytes of output as `out` holds.
pub fn hash(function: Function, message: &[u8], domain: u8, out: &mut [u8]) -> u8
    ensures value { result ≡ one_go_status (given function) (length message.now) (closing function domain) (length out.old) }
    ensures out_after { out.new ≡ one_go_output (given function) message.now (closing function domain) out.old }
{
    let refusal = function.closing.refusal(domain);
    hasher::hash(
        function.numbers,
        message,
        refusal,
        function.closing.last(domain),
        out,
    )
}
