// A day, in hand: its run is one of KT.
use crate::calls::{Calls, Field};
use crate::kt_run;
use crate::line::Line;
use crate::payload::Payload;
use crate::record::BadRecord;
use journal::{Answer, Journal};

fn keep(day: &mut Journal, answer: Answer) -> u8 {
    *day = answer.journal;
    answer.status
}

impl Calls for Journal {
    fn absorb(&mut self, event: &[u8]) -> u8 {
        keep(self, Journal::append(*self, event))
    }

    fn customize(&mut self, piece: &[u8]) -> Result<u8, BadRecord> {
        Ok(keep(self, Journal::customize(*self, piece)))
    }

    // The payload is the station's name.
    fn finalize(&mut self, payload: Payload) -> Result<u8, BadRecord> {
        Ok(keep(self, Journal::finalize(*self, payload.rest())))
    }

    fn finish(&mut self) -> Result<u8, BadRecord> {
        Ok(keep(self, Journal::finish(*self)))
    }

    fn squeeze(&mut self, out: &mut [u8]) -> u8 {
        keep(self, Journal::squeeze(*self, out))
    }

    fn set(&mut self, field: Field) -> Result<(), BadRecord> {
        kt_run::write(&mut self.run, field)
    }

    fn line(&self) -> Line<'static> {
        Line::Kt(self.run)
    }
}
