// The line of a function, and what stands in it.
ghost use Rattle.std.specs.Prelude.{◌<◌, ◌≤◌, length};

use hexadecimal::DigitsOf;
use std::io;

// The statuses of the calls on a run: a piece, a read before the close, the other piece, the close, a read, a piece after the close, and two
// reads more, the last of one byte.
pub type Statuses = [u8; 8];

fn digit(status: u8) -> u8 {
    if status < 10 { b'0' + status } else { b'?' }
}

// Writes a digit for each status.
pub fn write_statuses(rt: &impl Print, statuses: &[u8]) -> io::Result<()> {
    for status in statuses {
        rt.write_all(&[digit(*status)])?;
    }
    Ok(())
}

// Writes what was read of a run, and a space before its last byte, of which nothing was read.
pub fn write_read(rt: &impl Print, out: &[u8], then: &str) -> io::Result<()>
    requires { 0 < length out.now }
{
    let (read, past) = out.split_at(out.len() - 1);
    print!(rt; "{} {}{then}", DigitsOf(read), DigitsOf(past))
}

// Writes the bytes of the two calls in one go, and the line end.
pub fn write_hashes(rt: &impl Print, one: &[u8], long: &[u8]) -> io::Result<()> {
    println!(rt; "{} {}", DigitsOf(one), DigitsOf(long))
}
