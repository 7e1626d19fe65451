// The lines that are written. Each buffer holds A5 in every byte before the calls.
ghost use Rattle.std.specs.Prelude.{◌≤◌};

use crate::pieces;
use crate::pieces::{Inputs, status_of};
use functions::keyed::KeyedFunction;
use hexadecimal::DigitsOf;
use std::io;

// The longest output: two blocks and a byte.
const LONGEST: usize = 337;

// Kept: the enum is of `functions`, which has no Display of it.
fn name(function: KeyedFunction) -> &'static str {
    match function {
        KeyedFunction::CShake128 => "cSHAKE128",
        KeyedFunction::CShake256 => "cSHAKE256",
        KeyedFunction::Kmac128 => "KMAC128",
        KeyedFunction::Kmac256 => "KMAC256",
        KeyedFunction::KmacXof128 => "KMACXOF128",
        KeyedFunction::KmacXof256 => "KMACXOF256",
    }
}

// In one go.
fn write_one(
    rt: &impl Print,
    function: KeyedFunction,
    inputs: Inputs,
    asked: usize,
) -> io::Result<()>
    requires { asked ≤ 337 }
{
    let mut buffer = [0xa5u8; LONGEST];
    let out = &mut buffer[..asked];
    let status = functions::keyed::hash(function, inputs.first, inputs.message, inputs.string, out);
    print!(rt; " one {status} {}", DigitsOf(out))
}

// In pieces, with one read more. A squeeze is tried after a refused close too: it must leave the buffer as it is.
fn write_cut(
    rt: &impl Print,
    function: KeyedFunction,
    inputs: Inputs,
    asked: usize,
) -> io::Result<()>
    requires { asked ≤ 337 }
{
    let mut buffer = [0xa5u8; LONGEST];
    let out = &mut buffer[..asked];
    let (mut run, closed) = pieces::closed(function, inputs, asked as u64);
    let squeezed = run.squeeze_pieces(out);
    let status = status_of(closed.and(squeezed));
    let mut byte = [0xa5u8; 1];
    let more = status_of(run.squeeze(&mut byte));
    print!(rt;
        " cut {status} {} more {more} {}",
        DigitsOf(out),
        DigitsOf(&byte)
    )
}

// Kept: what is asked is a plain number with a bound, since a type for it would be built and taken apart at each call.
pub fn write(
    rt: &impl Print,
    function: KeyedFunction,
    inputs: Inputs,
    asked: usize,
) -> io::Result<()>
    requires { asked ≤ 337 }
{
    let Inputs {
        first,
        string,
        message,
    } = inputs;
    print!(rt;
        "{} {} {} {} {asked}",
        name(function),
        first.len(),
        string.len(),
        message.len()
    )?;
    write_one(rt, function, inputs, asked)?;
    write_cut(rt, function, inputs, asked)?;
    println!(rt)
}

// The line of a close with this output length, and of a read of 32 bytes after it.
pub fn write_close(
    rt: &impl Print,
    function: KeyedFunction,
    inputs: Inputs,
    output: u64,
) -> io::Result<()> {
    let mut out = [0xa5u8; 32];
    let (mut run, closed) = pieces::closed(function, inputs, output);
    let read = status_of(run.squeeze(&mut out));
    let close = status_of(closed);
    println!(rt;
        "{} close {output} {close} {read} {}",
        name(function),
        DigitsOf(&out)
    )
}
