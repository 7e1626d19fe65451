// A run of KT, in hand.
use crate::calls::{Calls, Field};
use crate::lent;
use crate::lent::{BEFORE, MOST_WORDS, Words};
use crate::line::Line;
use crate::payload::Payload;
use crate::record::BadRecord;
use functions::kt::{KtAnswer, KtFunction};
use kangarootwelve::Run;

#[derive(Clone, Copy)]
pub struct KtInHand {
    function: KtFunction,
    run: Run,
}

impl KtInHand {
    pub fn fresh(function: KtFunction) -> Self {
        KtInHand {
            function,
            run: functions::kt::fresh(function),
        }
    }

    fn keep(&mut self, answer: KtAnswer) -> u8 {
        self.run = answer.run;
        answer.status
    }
}

impl Calls for KtInHand {
    fn absorb(&mut self, piece: &[u8]) -> u8 {
        self.keep(functions::kt::absorb(self.function, self.run, piece))
    }

    fn absorb_abreast(&mut self, mut payload: Payload) -> Result<Line<'static>, BadRecord> {
        let mut words = [BEFORE; MOST_WORDS];
        let words = lent::take(&mut words, u16::from_be_bytes(payload.take()?))?;
        let answer = functions::kt::absorb_abreast(self.function, self.run, payload.rest(), words);
        Ok(Line::Lent(self.keep(answer), Words::of(words)))
    }

    fn customize(&mut self, piece: &[u8]) -> Result<u8, BadRecord> {
        Ok(self.keep(functions::kt::customize(self.function, self.run, piece)))
    }

    // The payload is the customization string.
    fn finalize(&mut self, payload: Payload) -> Result<u8, BadRecord> {
        Ok(self.keep(functions::kt::finalize(self.function, self.run, payload.rest())))
    }

    fn finish(&mut self) -> Result<u8, BadRecord> {
        Ok(self.keep(functions::kt::finish(self.function, self.run)))
    }

    fn squeeze(&mut self, out: &mut [u8]) -> u8 {
        self.keep(functions::kt::squeeze(self.function, self.run, out))
    }

    fn set(&mut self, field: Field) -> Result<(), BadRecord> {
        write(&mut self.run, field)
    }

    fn line(&self) -> Line<'static> {
        Line::Kt(self.run)
    }
}

// Writes a field by its number, as of a run of the sponge: the position and the lanes are the final node's; 4 is the leaf's position, 5 the
// customization bytes, and 96 + i lane i of the leaf.
pub fn write(run: &mut Run, field: Field) -> Result<(), BadRecord> {
    let Field { number, value } = field;
    match number {
        0 => run.phase = u8::try_from(value)?,
        1 => run.absorbed = value,
        2 => run.squeezed = value,
        3 => run.node.position = value as usize,
        4 => run.leaf.position = value as usize,
        5 => run.customized = value,
        6 => run.permutations = value,
        64..=88 => run.node.lanes[(number - 64) as usize] = value,
        96..=120 => run.leaf.lanes[(number - 96) as usize] = value,
        _ => return Err(BadRecord),
    }
    Ok(())
}
