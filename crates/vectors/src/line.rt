// The digest of a line.
ghost use Rattle.std.specs.Prelude.{◌≤◌};

use hasher::Refusal;
use hexadecimal::DigitsOf;
use std::io;

// The most bytes that a vector asks.
const LONGEST: usize = 10064;

// What the draft prints: of a long output not the first 10,000 bytes.
fn printed(out: &[u8]) -> &[u8] {
    if 10000 < out.len() {
        &out[10000..]
    } else {
        out
    }
}

// Writes a space and what a call puts into so many bytes, which no other call wrote to; or its status, where it is refused.
pub fn write_digest<F: FnOnce(&mut [u8]) -> Result<(), Refusal>>(
    rt: &impl Print,
    asked: usize,
    call: F,
) -> io::Result<()>
    requires fits { asked ≤ 10064 }
    requires callable { F.IsAlwaysCallable call }
{
    let mut buffer = [0u8; LONGEST];
    let out = &mut buffer[..asked];
    match call(out) {
        Ok(()) => print!(rt; " {}", DigitsOf(printed(out))),
        Err(refusal) => print!(rt; " status {}", refusal.status),
    }
}
