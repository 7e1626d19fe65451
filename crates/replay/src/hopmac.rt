// The records of HopMAC: op H, a tag in one go, and op V, the tag check.
use crate::by_number::Strength;
use crate::line::Line;
use crate::payload::Payload;
use crate::record::{BadRecord, MOST};
use kangarootwelve::{HopMac, HopMac128, HopMac256};

// Op H.
pub fn tag<'a>(mut payload: Payload, buffer: &'a mut [u8; MOST]) -> Result<Line<'a>, BadRecord> {
    let strength = Strength::try_from(payload.byte()?)?;
    let out = payload.output(buffer)?;
    let key = payload.part()?;
    let customization = payload.part()?;
    let message = payload.rest();
    let status = match strength {
        Strength::Bits128 => HopMac128::tag(key, message, customization, out),
        Strength::Bits256 => HopMac256::tag(key, message, customization, out),
    };
    Ok(Line::Output(status, out))
}

// Op V.
pub fn verify(mut payload: Payload) -> Result<Line<'static>, BadRecord> {
    let strength = Strength::try_from(payload.byte()?)?;
    let presented = payload.part()?;
    let key = payload.part()?;
    let customization = payload.part()?;
    let message = payload.rest();
    let verdict = match strength {
        Strength::Bits128 => HopMac128::verify(key, message, customization, presented),
        Strength::Bits256 => HopMac256::verify(key, message, customization, presented),
    };
    Ok(Line::Verdict(verdict.status, verdict.valid))
}
