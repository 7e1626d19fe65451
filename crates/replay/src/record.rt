// The records as they are read of the input.
ghost use Rattle.std.specs.Prelude.{◌≤◌, length, IfOk};

use crate::payload::Payload;
use std::io::{ErrorKind, Read};
use std::num::TryFromIntError;
use std::{fmt, io};

// The most bytes of a payload, and of an output.
pub const MOST: usize = 262_144;

// A record that is none of those at the head of main.rt, or that does not fit.
#[derive(Clone, Copy, Debug, PartialEq, Eq)]
pub struct BadRecord;

impl fmt::Display for BadRecord {
    fn fmt<W: fmt::Write>(&self, f: &mut fmt::Formatter<W>) -> fmt::Result {
        f.write_str("bad record")
    }
}

// Why no further record is read.
#[derive(Debug, Drop)]
pub enum Stop {
    Bad(BadRecord),
    Failed(io::Error),
}

// A value that the field's type cannot hold.
impl From<TryFromIntError> for BadRecord {
    fn from(_error: TryFromIntError) -> BadRecord {
        BadRecord
    }
}

impl From<BadRecord> for Stop {
    fn from(bad: BadRecord) -> Stop {
        Stop::Bad(bad)
    }
}

impl From<io::Error> for Stop {
    fn from(error: io::Error) -> Stop {
        Stop::Failed(error)
    }
}

// The op, the number after it, and the payload, of which op R has none.
#[derive(Drop)]
pub struct Record<'a> {
    pub op: u8,
    pub n: usize,
    pub payload: Payload<'a>,
}

// Reads until the buffer is full or the input ends, and answers how many bytes it put at the buffer's start. A read that a signal
// interrupted is asked again.
fn read_full(input: &mut impl Read, buffer: &mut [u8]) -> io::Result<usize>
    ensures { IfOk result (λ n. n ≤ length buffer.new) }
{
    let mut done = 0;
    for _ in 0..u64::MAX {
        if done == buffer.len() {
            break;
        }
        match input.read(&mut buffer[done..]) {
            Ok(0) => break,
            Ok(n) => done += n,
            Err(error) => {
                if error.kind() != ErrorKind::Interrupted {
                    return Err(error);
                }
            }
        }
    }
    Ok(done)
}

// A payload as long as the buffer.
fn read_payload<'a>(input: &mut impl Read, buffer: &'a mut [u8]) -> Result<Payload<'a>, Stop> {
    if read_full(input, buffer)? < buffer.len() {
        return Err(BadRecord.into());
    }
    Ok(Payload::of(buffer))
}

// The next record, its payload in the buffer; none where the input ends.
pub fn read<'a>(
    input: &mut impl Read,
    buffer: &'a mut [u8; MOST],
) -> Result<Option<Record<'a>>, Stop> {
    let mut head = [0u8; 5];
    let got = read_full(input, &mut head)?;
    if got == 0 {
        return Ok(None);
    }
    let mut head = Payload::of(&head[..got]);
    let op = head.byte()?;
    let n = head.four()? as usize;
    let size = if op == b'R' { 0 } else { n };
    if MOST < size {
        return Err(BadRecord.into());
    }
    let payload = read_payload(input, &mut buffer[..size])?;
    Ok(Some(Record { op, n, payload }))
}
