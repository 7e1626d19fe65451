// A run of SP 800-185, in hand.
use crate::calls::{Calls, Field};
use crate::line::Line;
use crate::payload::Payload;
use crate::record::BadRecord;
use crate::sponge_run;
use functions::keyed::{KeyedAnswer, KeyedFunction, KeyedRun};

#[derive(Clone, Copy)]
pub struct KeyedInHand {
    pub function: KeyedFunction,
    pub run: KeyedRun,
}

impl KeyedInHand {
    fn keep(&mut self, answer: KeyedAnswer) -> u8 {
        self.run = answer.keyed;
        answer.status
    }
}

// What a run has beside the fields of every run.
#[derive(Clone, Copy)]
enum OwnField {
    Bit,
    Length,
}

fn own_field(function: KeyedFunction) -> Option<OwnField> {
    match function {
        KeyedFunction::CShake128 | KeyedFunction::CShake256 => Some(OwnField::Bit),
        KeyedFunction::Kmac128 | KeyedFunction::Kmac256 => Some(OwnField::Length),
        KeyedFunction::KmacXof128 | KeyedFunction::KmacXof256 => None,
    }
}

impl Calls for KeyedInHand {
    fn absorb(&mut self, piece: &[u8]) -> u8 {
        self.keep(functions::keyed::absorb(self.function, self.run, piece))
    }

    // An output length where the function fixes it, else nothing.
    fn finalize(&mut self, mut payload: Payload) -> Result<u8, BadRecord> {
        let length = match own_field(self.function) {
            Some(OwnField::Length) => u64::from_be_bytes(payload.take()?),
            Some(OwnField::Bit) | None => 0,
        };
        payload.end()?;
        Ok(self.keep(functions::keyed::finalize(self.function, self.run, length)))
    }

    fn squeeze(&mut self, out: &mut [u8]) -> u8 {
        self.keep(functions::keyed::squeeze(self.function, self.run, out))
    }

    // A run of KMAC has its output length as 7, one of cSHAKE as 8 the bit that says SHAKE.
    fn set(&mut self, field: Field) -> Result<(), BadRecord> {
        match (own_field(self.function), field.number) {
            (Some(OwnField::Length), 7) => self.run.output_length = field.value,
            (Some(OwnField::Bit), 8) => match field.value {
                0 => self.run.shake = false,
                1 => self.run.shake = true,
                _ => return Err(BadRecord),
            },
            _ => return sponge_run::write(&mut self.run.run, field),
        }
        Ok(())
    }

    fn line(&self) -> Line<'static> {
        match own_field(self.function) {
            Some(OwnField::Bit) => Line::CShake(self.run.run, self.run.shake),
            Some(OwnField::Length) => Line::Kmac(self.run.run, self.run.output_length),
            None => Line::Sponge(self.run.run),
        }
    }
}
