// Permutes the all-zero state and the state whose 200 bytes are ptn(200), and writes the lanes of
// each in hexadecimal: a line for each y, lane (0, y) first.
#![tactic(auto)]

ghost use Rattle.std.specs.Prelude.{◌<◌};

use std::{array, io};

// Byte i of the draft's test pattern ptn: 00 to FA, over and over.
fn pattern(i: usize) -> u8 {
    (i % 251) as u8
}

// Lane k of the state whose bytes are ptn: bytes 8 k to 8 k + 7, the least significant first.
fn pattern_lane(k: usize) -> u64
    requires { k < 25 }
{
    u64::from_le_bytes(array::from_fn(|j| pattern(8 * k + j)))
}

// Writes the 25 lanes, a row to a line, and stops at the first write that fails.
fn write_state(rt: &impl Print, a: [u64; 25]) -> io::Result<()> {
    for (k, lane) in a.iter().enumerate() {
        let then = if k % 5 == 4 { "\n" } else { " " };
        print!(rt; "{lane:016x}{then}")?;
    }
    Ok(())
}

// Writes a heading and the permuted state below it.
fn write_permuted(rt: &impl Print, heading: &str, a: [u64; 25]) -> io::Result<()> {
    println!(rt; "{heading}")?;
    let permuted = keccak::permute(a, 12);
    let lanes = permuted.lanes;
    write_state(rt, lanes)
}

fn main(rt: HostRuntime) -> io::Result<()> {
    write_permuted(&rt, "zero", [0u64; 25])?;
    write_permuted(&rt, "ptn(200)", array::from_fn(pattern_lane))
}
