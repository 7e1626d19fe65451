// What each line ends with.
ghost use Rattle.std.specs.Prelude.{◌≤◌};

use hexadecimal::DigitsOf;
use std::io;

// Two blocks and a byte, the longest message of TurboSHAKE and the longest output.
pub const LONGEST: usize = 337;

// Writes the status of a call that is asked for so many bytes, and its buffer, which holds A5 in every byte before.
// Kept: the call answers a number, since the line has it.
pub fn write_answer<F: FnOnce(&mut [u8]) -> u8>(
    rt: &impl Print,
    asked: usize,
    call: F,
) -> io::Result<()>
    requires fits { asked ≤ 337 }
    requires callable { F.IsAlwaysCallable call }
{
    let mut buffer = [0xa5u8; LONGEST];
    let out = &mut buffer[..asked];
    let status = call(out);
    print!(rt; " {status} {}", DigitsOf(out))
}
