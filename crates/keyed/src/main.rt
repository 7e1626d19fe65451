// Runs the functions of SP 800-185, in one go and in pieces, on the inputs of NIST's sample values and at the edges of the encodings: N or the key, S and
// the message each of lengths around the first whose bits have two and three bytes, and around a block; and outputs around a block.
//
// Writes a line for each: the function, the lengths of N or the key, of S, of the message and of the output; `one` with the status and the buffer of the
// call in one go; `cut` with those of a run; `more` with the status and the byte of one read more. Then for KMAC a line for each of its output lengths:
// `close`, the length, the status of the close, and the status and the buffer of a read after it.
#![tactic(auto)]

mod line;
mod pieces;

ghost use Rattle.std.specs.Prelude.{◌≤◌};

use functions::keyed::KeyedFunction;
use pieces::Inputs;
use sp800_185::{CShake, CShake128, CShake256};
use std::{array, io};

// 128 and 8,193: the longest S ends with the buffer.
const SIZE: usize = 8321;

// Where N or the key, and S, begin in the pattern: NIST's keys are the 32 bytes from the first on. Messages begin where the pattern does.
const FIRST: usize = 64;

const STRING: usize = 128;

// Both sides of 32 and 8,192, the first whose bits have two and three bytes, and of 256, the first length that has two bytes itself.
const LENGTHS: [usize; 11] = [0, 1, 31, 32, 33, 255, 256, 257, 8191, 8192, 8193];

// KMAC's output lengths, on both sides of the first whose bits have two, three, four and five bytes; the first and the last are refused.
const OUTPUTS: [u64; 12] = [
    0, 1, 31, 32, 8191, 8192, 2097151, 2097152, 536870911, 536870912, 4294967295, 4294967296,
];

// The first n bytes, of which the buffer holds as many as are asked.
// Kept: three lines, as in edges.
fn pattern(buffer: &[u8], n: usize) -> &[u8] {
    &buffer[..n.min(buffer.len())]
}

// N or the key, S and the message, of these lengths.
fn inputs(buffer: &[u8; SIZE], first: usize, string: usize, message: usize) -> Inputs {
    Inputs {
        first: pattern(&buffer[FIRST..], first),
        string: pattern(&buffer[STRING..], string),
        message: pattern(buffer, message),
    }
}

// N or the key, S, and the message, of n bytes.
fn write_length(
    rt: &impl Print,
    function: KeyedFunction,
    buffer: &[u8; SIZE],
    n: usize,
) -> io::Result<()> {
    line::write(rt, function, inputs(buffer, n, 0, 3), 32)?;
    line::write(rt, function, inputs(buffer, 4, n, 3), 32)?;
    line::write(rt, function, inputs(buffer, 4, 5, n), 32)
}

// The lengths of the table, and 12 bytes less than a block to 5 more.
fn write_lengths(
    rt: &impl Print,
    function: KeyedFunction,
    rate: usize,
    buffer: &[u8; SIZE],
) -> io::Result<()>
    requires { (12 ≤ rate) × (rate ≤ 168) }
{
    for n in LENGTHS.into_iter().chain(rate - 12..rate + 6) {
        write_length(rt, function, buffer, n)?;
    }
    Ok(())
}

// Outputs of less than a block to two blocks and a byte.
fn write_outputs(
    rt: &impl Print,
    function: KeyedFunction,
    rate: usize,
    buffer: &[u8; SIZE],
) -> io::Result<()>
    requires { (12 ≤ rate) × (rate ≤ 168) }
{
    for asked in [
        0,
        1,
        rate - 1,
        rate,
        rate + 1,
        2 * rate - 1,
        2 * rate,
        2 * rate + 1,
    ] {
        line::write(rt, function, inputs(buffer, 4, 5, 3), asked)?;
    }
    Ok(())
}

fn write_edges(rt: &impl Print, buffer: &[u8; SIZE]) -> io::Result<()> {
    for (function, rate) in [
        (KeyedFunction::CShake128, CShake128::RATE),
        (KeyedFunction::CShake256, CShake256::RATE),
        (KeyedFunction::Kmac128, CShake128::RATE),
        (KeyedFunction::Kmac256, CShake256::RATE),
        (KeyedFunction::KmacXof128, CShake128::RATE),
        (KeyedFunction::KmacXof256, CShake256::RATE),
    ] {
        write_lengths(rt, function, rate, buffer)?;
        write_outputs(rt, function, rate, buffer)?;
    }
    Ok(())
}

fn write_closes(rt: &impl Print, function: KeyedFunction, buffer: &[u8; SIZE]) -> io::Result<()> {
    for output in OUTPUTS {
        line::write_close(rt, function, inputs(buffer, 32, 0, 3), output)?;
    }
    Ok(())
}

// One of NIST's samples: the pattern, but that S is a text.
fn write_sample(
    rt: &impl Print,
    function: KeyedFunction,
    pattern: Inputs,
    string: &[u8],
    asked: usize,
) -> io::Result<()>
    requires { asked ≤ 337 }
{
    line::write(rt, function, Inputs { string, ..pattern }, asked)
}

// NIST's samples of KMAC or KMACXOF, and of cSHAKE.
fn write_kmac_samples(
    rt: &impl Print,
    weaker: KeyedFunction,
    stronger: KeyedFunction,
    buffer: &[u8; SIZE],
) -> io::Result<()> {
    let string = b"My Tagged Application";
    let short = inputs(buffer, 32, 0, 4);
    let long = inputs(buffer, 32, 0, 200);
    write_sample(rt, weaker, short, b"", 32)?;
    write_sample(rt, weaker, short, string, 32)?;
    write_sample(rt, weaker, long, string, 32)?;
    write_sample(rt, stronger, short, string, 64)?;
    write_sample(rt, stronger, long, b"", 64)?;
    write_sample(rt, stronger, long, string, 64)
}

fn write_cshake_samples(rt: &impl Print, buffer: &[u8; SIZE]) -> io::Result<()> {
    for (function, asked) in [
        (KeyedFunction::CShake128, 32),
        (KeyedFunction::CShake256, 64),
    ] {
        for message in [4, 200] {
            write_sample(
                rt,
                function,
                inputs(buffer, 0, 0, message),
                b"Email Signature",
                asked,
            )?;
        }
    }
    Ok(())
}

fn main(rt: HostRuntime) -> io::Result<()> {
    // 00 to FA, over and over
    let buffer: [u8; SIZE] = array::from_fn(|i| (i % 251) as u8);
    write_kmac_samples(&rt, KeyedFunction::Kmac128, KeyedFunction::Kmac256, &buffer)?;
    write_kmac_samples(
        &rt,
        KeyedFunction::KmacXof128,
        KeyedFunction::KmacXof256,
        &buffer,
    )?;
    write_cshake_samples(&rt, &buffer)?;
    write_edges(&rt, &buffer)?;
    write_closes(&rt, KeyedFunction::Kmac128, &buffer)?;
    write_closes(&rt, KeyedFunction::Kmac256, &buffer)
}
