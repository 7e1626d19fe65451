// The records for the run in hand.
use crate::line::Line;
use crate::payload::Payload;
use crate::record::BadRecord;

// A field of a run by its number, and the value that op S writes to it.
#[derive(Clone, Copy)]
pub struct Field {
    pub number: u8,
    pub value: u64,
}

impl Field {
    fn read(mut payload: Payload) -> Result<Field, BadRecord> {
        let number = payload.byte()?;
        let value = u64::from_be_bytes(payload.take()?);
        payload.end()?;
        Ok(Field { number, value })
    }
}

// A call leaves in hand the run that was handed back, and its answer is the status.
pub trait Calls {
    fn absorb(&mut self, piece: &[u8]) -> u8;

    fn finalize(&mut self, payload: Payload) -> Result<u8, BadRecord>;

    fn squeeze(&mut self, out: &mut [u8]) -> u8;

    fn set(&mut self, field: Field) -> Result<(), BadRecord>;

    fn line(&self) -> Line<'static>;

    // With words lent: of KT alone.
    fn absorb_abreast(&mut self, _payload: Payload) -> Result<Line<'static>, BadRecord> {
        Err(BadRecord)
    }

    // Of KT and of a day.
    fn customize(&mut self, _piece: &[u8]) -> Result<u8, BadRecord> {
        Err(BadRecord)
    }

    // Of KT and of a day.
    fn finish(&mut self) -> Result<u8, BadRecord> {
        Err(BadRecord)
    }

    final fn answer(&mut self, op: u8, payload: Payload) -> Result<Line<'static>, BadRecord> {
        match op {
            b'A' => Ok(Line::Status(self.absorb(payload.rest()))),
            b'a' => self.absorb_abreast(payload),
            b'C' => Ok(Line::Status(self.customize(payload.rest())?)),
            b'F' => Ok(Line::Status(self.finalize(payload)?)),
            b'E' => {
                payload.end()?;
                Ok(Line::Status(self.finish()?))
            }
            b'S' => {
                self.set(Field::read(payload)?)?;
                Ok(Line::Set)
            }
            b'D' => {
                payload.end()?;
                Ok(self.line())
            }
            _ => Err(BadRecord),
        }
    }
}
