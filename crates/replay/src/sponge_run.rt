// A run of TurboSHAKE or of FIPS 202, in hand.
use crate::calls::{Calls, Field};
use crate::line::Line;
use crate::payload::Payload;
use crate::record::BadRecord;
use functions::Function;
use hasher::{Answer, Run};

#[derive(Clone, Copy)]
pub struct SpongeInHand {
    function: Function,
    run: Run,
}

impl SpongeInHand {
    pub fn fresh(function: Function) -> Self {
        SpongeInHand {
            function,
            run: hasher::fresh(),
        }
    }

    // Kept: once for each kind of run, since `functions` has an answer of its own for each.
    fn keep(&mut self, answer: Answer) -> u8 {
        self.run = answer.run;
        answer.status
    }
}

impl Calls for SpongeInHand {
    fn absorb(&mut self, piece: &[u8]) -> u8 {
        self.keep(functions::absorb(self.function, self.run, piece))
    }

    fn finalize(&mut self, mut payload: Payload) -> Result<u8, BadRecord> {
        let domain = payload.domain(self.function)?;
        payload.end()?;
        Ok(self.keep(functions::finalize(self.function, self.run, domain)))
    }

    fn squeeze(&mut self, out: &mut [u8]) -> u8 {
        self.keep(functions::squeeze(self.function, self.run, out))
    }

    fn set(&mut self, field: Field) -> Result<(), BadRecord> {
        write(&mut self.run, field)
    }

    fn line(&self) -> Line<'static> {
        Line::Sponge(self.run)
    }
}

// Writes a field by its number: phase, bytes absorbed, bytes squeezed, position; 6 is the permutations; 64 + i is lane i.
// Kept: the fields stay the numbers of the records, which name lanes by a sum.
pub fn write(run: &mut Run, field: Field) -> Result<(), BadRecord> {
    let Field { number, value } = field;
    match number {
        0 => run.phase = u8::try_from(value)?,
        1 => run.absorbed = value,
        2 => run.squeezed = value,
        3 => run.position = value as usize,
        6 => run.permutations = value,
        64..=88 => run.lanes[(number - 64) as usize] = value,
        _ => return Err(BadRecord),
    }
    Ok(())
}
