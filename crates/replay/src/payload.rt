// The payload of a record, taken from its front. Numbers have their most significant byte first.
use crate::record::{BadRecord, MOST};
use functions::{Closing, Function};

// What each byte of an output holds before the call, so that a byte which no call wrote can be told.
const BEFORE: u8 = 0xa5;

#[derive(Drop)]
pub struct Payload<'a> {
    rest: &'a [u8],
}

impl<'a> Payload<'a> {
    pub fn of(bytes: &'a [u8]) -> Payload<'a> {
        Payload { rest: bytes }
    }

    // The next bytes, as many as the array has.
    pub fn take<const N: usize>(&mut self) -> Result<[u8; N], BadRecord> {
        let (taken, rest) = self.rest.split_first_chunk::<N>().ok_or(BadRecord)?;
        self.rest = rest;
        Ok(*taken)
    }

    pub fn byte(&mut self) -> Result<u8, BadRecord> {
        let (byte, rest) = self.rest.split_first().ok_or(BadRecord)?;
        self.rest = rest;
        Ok(*byte)
    }

    // A length, or how many bytes are asked.
    pub fn four(&mut self) -> Result<u32, BadRecord> {
        Ok(u32::from_be_bytes(self.take()?))
    }

    // The domain byte where the function has one, else nothing, and 0 for it.
    pub fn domain(&mut self, function: Function) -> Result<u8, BadRecord> {
        match function.closing {
            Closing::Domain => self.byte(),
            Closing::Last(_) => Ok(0),
        }
    }

    // The bytes that have their length before them.
    pub fn part(&mut self) -> Result<&'a [u8], BadRecord> {
        let n = self.four()? as usize;
        let (part, rest) = self.rest.split_at_checked(n).ok_or(BadRecord)?;
        self.rest = rest;
        Ok(part)
    }

    // As many bytes of output as the number here asks.
    pub fn output<'b>(&mut self, buffer: &'b mut [u8; MOST]) -> Result<&'b mut [u8], BadRecord> {
        let size = self.four()? as usize;
        output(buffer, size)
    }

    // All that is left.
    pub fn rest(&self) -> &'a [u8] {
        self.rest
    }

    // Nothing is left.
    pub fn end(&self) -> Result<(), BadRecord> {
        if self.rest.is_empty() {
            return Ok(());
        }
        Err(BadRecord)
    }
}

// So many bytes of output, at most as many as the buffer has.
pub fn output(buffer: &mut [u8; MOST], size: usize) -> Result<&mut [u8], BadRecord> {
    if MOST < size {
        return Err(BadRecord);
    }
    let out = &mut buffer[..size];
    out.fill(BEFORE);
    Ok(out)
}
