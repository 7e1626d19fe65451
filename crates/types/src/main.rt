// Runs each type's own calls: on a run of 32 or 64 bytes of output, of SHA-3 the digest, and one byte more, with a read before the close and a piece after it, which are refused, and in one go. Writes a line for each
// function: a digit for the status of each call, the bytes of the run, the byte that follows them, the bytes of the call in one go, and those of one that asks for a byte more. Each buffer held A5 in every byte before.
// Then a line for each function of the same run on lent lanes.
#![tactic(auto)]

mod by_value;
mod in_place;
mod line;

ghost use Rattle.std.specs.Prelude.{◌<◌, ◌≤◌, length};

use fips202::{Fips202, Sha3_224, Sha3_256, Sha3_384, Sha3_512, Shake128, Shake256};
use line::Statuses;
use std::{array, io};
use turboshake::{TurboShake, TurboShake128, TurboShake256};

// TurboSHAKE's domain byte.
const DOMAIN: u8 = 0x1f;

const BEFORE: u8 = 0xa5;

// What the calls of a function's type answered: on a run, and in one go of its output's length and of a byte more.
#[derive(Clone, Copy)]
struct Answered {
    run: Statuses,
    hashed: u8,
    longer: u8,
}

// The line of a function: `out` holds what was read of a run, `one` and `long` what the calls in one go gave.
fn write_line(
    rt: &impl Print,
    name: &str,
    answered: Answered,
    out: &[u8],
    one: &[u8],
    long: &[u8],
) -> io::Result<()>
    requires { 0 < length out.now }
{
    print!(rt; "{name} ")?;
    line::write_statuses(rt, &answered.run)?;
    line::write_statuses(rt, &[answered.hashed, answered.longer])?;
    print!(rt; " ")?;
    line::write_read(rt, out, " ")?;
    line::write_hashes(rt, one, long)
}

// The line of the run on lent lanes.
fn write_in_place(rt: &impl Print, name: &str, run: Statuses, out: &[u8]) -> io::Result<()>
    requires { 0 < length out.now }
{
    print!(rt; "{name} in place ")?;
    line::write_statuses(rt, &run)?;
    print!(rt; " ")?;
    line::write_read(rt, out, "\n")
}

// TurboSHAKE, of which `size` bytes of output are read.
fn turboshake<H: TurboShake>(
    rt: &impl Print,
    name: &str,
    size: usize,
    message: &[u8; 200],
) -> io::Result<()>
    requires { (10 ≤ size) × (size < 65) }
{
    let mut out = [BEFORE; 65];
    let mut one = [BEFORE; 65];
    let mut long = [BEFORE; 65];
    let run = by_value::calls(message, |run: H| run.finalize(DOMAIN), &mut out[..size + 1]);
    let hashed = H::hash(message, DOMAIN, &mut one[..size]);
    let longer = H::hash(message, DOMAIN, &mut long[..size + 1]);
    let answered = Answered {
        run,
        hashed,
        longer,
    };
    write_line(
        rt,
        name,
        answered,
        &out[..size + 1],
        &one[..size],
        &long[..size + 1],
    )
}

fn turboshake_in_place<H: TurboShake>(
    rt: &impl Print,
    name: &str,
    size: usize,
    message: &[u8; 200],
) -> io::Result<()>
    requires { (10 ≤ size) × (size < 65) }
{
    let mut out = [BEFORE; 65];
    let run = in_place::calls::<H, _>(
        message,
        |lanes, at| H::finalize_in_place(lanes, at, DOMAIN),
        &mut out[..size + 1],
    );
    write_in_place(rt, name, run, &out[..size + 1])
}

// A function of FIPS 202, of which `size` bytes of output are read.
fn fips202<H: Fips202>(
    rt: &impl Print,
    name: &str,
    size: usize,
    message: &[u8; 200],
) -> io::Result<()>
    requires { (10 ≤ size) × (size < 65) }
{
    let mut out = [BEFORE; 65];
    let mut one = [BEFORE; 65];
    let mut long = [BEFORE; 65];
    let run = by_value::calls(message, |run: H| run.finalize(), &mut out[..size + 1]);
    let hashed = H::hash(message, &mut one[..size]);
    let longer = H::hash(message, &mut long[..size + 1]);
    let answered = Answered {
        run,
        hashed,
        longer,
    };
    write_line(
        rt,
        name,
        answered,
        &out[..size + 1],
        &one[..size],
        &long[..size + 1],
    )
}

fn fips202_in_place<H: Fips202>(
    rt: &impl Print,
    name: &str,
    size: usize,
    message: &[u8; 200],
) -> io::Result<()>
    requires { (10 ≤ size) × (size < 65) }
{
    let mut out = [BEFORE; 65];
    let run = in_place::calls::<H, _>(
        message,
        |lanes, at| H::finalize_in_place(lanes, at),
        &mut out[..size + 1],
    );
    write_in_place(rt, name, run, &out[..size + 1])
}

fn main(rt: HostRuntime) -> io::Result<()> {
    let message: [u8; 200] = array::from_fn(|i| (i % 251) as u8);
    turboshake::<TurboShake128>(&rt, "TurboSHAKE128", 32, &message)?;
    turboshake::<TurboShake256>(&rt, "TurboSHAKE256", 64, &message)?;
    fips202::<Sha3_224>(&rt, "SHA3-224", 28, &message)?;
    fips202::<Sha3_256>(&rt, "SHA3-256", 32, &message)?;
    fips202::<Sha3_384>(&rt, "SHA3-384", 48, &message)?;
    fips202::<Sha3_512>(&rt, "SHA3-512", 64, &message)?;
    fips202::<Shake128>(&rt, "SHAKE128", 32, &message)?;
    fips202::<Shake256>(&rt, "SHAKE256", 64, &message)?;
    turboshake_in_place::<TurboShake128>(&rt, "TurboSHAKE128", 32, &message)?;
    turboshake_in_place::<TurboShake256>(&rt, "TurboSHAKE256", 64, &message)?;
    fips202_in_place::<Sha3_224>(&rt, "SHA3-224", 28, &message)?;
    fips202_in_place::<Sha3_256>(&rt, "SHA3-256", 32, &message)?;
    fips202_in_place::<Sha3_384>(&rt, "SHA3-384", 48, &message)?;
    fips202_in_place::<Sha3_512>(&rt, "SHA3-512", 64, &message)?;
    fips202_in_place::<Shake128>(&rt, "SHAKE128", 32, &message)?;
    fips202_in_place::<Shake256>(&rt, "SHAKE256", 64, &message)
}
