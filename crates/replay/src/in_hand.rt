// The run in hand, and the records that ask for another.
use crate::by_number::Named;
use crate::calls::Calls;
use crate::keyed_run::KeyedInHand;
use crate::kt_run::KtInHand;
use crate::line::Line;
use crate::payload;
use crate::payload::Payload;
use crate::record::{BadRecord, MOST};
use crate::sponge_run::SpongeInHand;
use journal::Journal;
use sponge::status::DONE;

#[derive(Clone, Copy)]
pub enum InHand {
    Sponge(SpongeInHand),
    Kt(KtInHand),
    Day(Journal),
    Keyed(KeyedInHand),
}

impl InHand {
    fn fresh(function: Named) -> Result<InHand, BadRecord> {
        match function {
            Named::Sponge(function) => Ok(InHand::Sponge(SpongeInHand::fresh(function))),
            Named::Kt(function) => Ok(InHand::Kt(KtInHand::fresh(function))),
            Named::Journal => Ok(InHand::Day(Journal::fresh())),
            Named::Keyed(_) => Err(BadRecord),
        }
    }

    // Kept: two matches, since `rt ci` refuses a function that hands out a `dyn Calls` of the run.
    fn answer(&mut self, op: u8, payload: Payload) -> Result<Line<'static>, BadRecord> {
        match self {
            InHand::Sponge(run) => run.answer(op, payload),
            InHand::Kt(run) => run.answer(op, payload),
            InHand::Day(run) => run.answer(op, payload),
            InHand::Keyed(run) => run.answer(op, payload),
        }
    }

    fn squeeze(&mut self, out: &mut [u8]) -> u8 {
        match self {
            InHand::Sponge(run) => run.squeeze(out),
            InHand::Kt(run) => run.squeeze(out),
            InHand::Day(run) => Calls::squeeze(run, out),
            InHand::Keyed(run) => run.squeeze(out),
        }
    }
}

// Op N.
pub fn fresh(
    in_hand: &mut Option<InHand>,
    mut payload: Payload,
) -> Result<Line<'static>, BadRecord> {
    let function = Named::try_from(payload.byte()?)?;
    payload.end()?;
    *in_hand = Some(InHand::fresh(function)?);
    Ok(Line::Fresh)
}

// Op n. A refused start leaves the run in hand.
pub fn start(
    in_hand: &mut Option<InHand>,
    mut payload: Payload,
) -> Result<Line<'static>, BadRecord> {
    let Named::Keyed(function) = Named::try_from(payload.byte()?)? else {
        return Err(BadRecord);
    };
    let first = payload.part()?;
    let string = payload.part()?;
    payload.end()?;
    let answer = functions::keyed::start(function, first, string);
    if answer.status == DONE {
        let run = answer.keyed;
        *in_hand = Some(InHand::Keyed(KeyedInHand { function, run }));
    }
    Ok(Line::Status(answer.status))
}

// Op R.
pub fn squeeze<'a>(
    in_hand: &mut Option<InHand>,
    size: usize,
    buffer: &'a mut [u8; MOST],
) -> Result<Line<'a>, BadRecord> {
    let Some(run) = in_hand else {
        return Err(BadRecord);
    };
    let out = payload::output(buffer, size)?;
    let status = run.squeeze(out);
    Ok(Line::Output(status, out))
}

// The other records, which are for the run in hand.
pub fn answer(
    in_hand: &mut Option<InHand>,
    op: u8,
    payload: Payload,
) -> Result<Line<'static>, BadRecord> {
    let Some(run) = in_hand else {
        return Err(BadRecord);
    };
    run.answer(op, payload)
}
