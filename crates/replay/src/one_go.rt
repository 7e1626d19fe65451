// The records that ask for a hash in one go.
//
// Kept: the payload and the buffer of the output are two parameters, since parts of the one are given to the call beside what is lent of the other.
use crate::by_number::Named;
use crate::line::Line;
use crate::payload::Payload;
use crate::record::{BadRecord, MOST};
use functions::kt::KtFunction;
use functions::{Closing, Function};

// Op T: of a function that has a domain byte.
pub fn with_domain<'a>(
    mut payload: Payload,
    buffer: &'a mut [u8; MOST],
) -> Result<Line<'a>, BadRecord> {
    match Named::try_from(payload.byte()?)? {
        Named::Sponge(function) if matches!(function.closing, Closing::Domain) => {
            let domain = payload.byte()?;
            hash(function, domain, payload, buffer)
        }
        _ => Err(BadRecord),
    }
}

// Op B: of one that has none.
pub fn without_domain<'a>(
    mut payload: Payload,
    buffer: &'a mut [u8; MOST],
) -> Result<Line<'a>, BadRecord> {
    match Named::try_from(payload.byte()?)? {
        Named::Sponge(function) if matches!(function.closing, Closing::Last(_)) => {
            hash(function, 0, payload, buffer)
        }
        _ => Err(BadRecord),
    }
}

fn hash<'a>(
    function: Function,
    domain: u8,
    mut payload: Payload,
    buffer: &'a mut [u8; MOST],
) -> Result<Line<'a>, BadRecord> {
    let out = payload.output(buffer)?;
    let status = functions::hash(function, payload.rest(), domain, out);
    Ok(Line::Output(status, out))
}

// The payload of K, and of k after its number of words.
#[derive(Drop)]
pub struct KtAsked<'p, 'o> {
    pub function: KtFunction,
    pub message: &'p [u8],
    pub customization: &'p [u8],
    pub out: &'o mut [u8],
}

impl<'p, 'o> KtAsked<'p, 'o> {
    pub fn read(
        mut payload: Payload<'p>,
        buffer: &'o mut [u8; MOST],
    ) -> Result<KtAsked<'p, 'o>, BadRecord> {
        let Named::Kt(function) = Named::try_from(payload.byte()?)? else {
            return Err(BadRecord);
        };
        let out = payload.output(buffer)?;
        let customization = payload.part()?;
        let message = payload.rest();
        Ok(KtAsked {
            function,
            message,
            customization,
            out,
        })
    }
}

// Op K.
pub fn kt<'a>(payload: Payload, buffer: &'a mut [u8; MOST]) -> Result<Line<'a>, BadRecord> {
    let KtAsked {
        function,
        message,
        customization,
        out,
    } = KtAsked::read(payload, buffer)?;
    let status = functions::kt::hash(function, message, customization, out);
    Ok(Line::Output(status, out))
}

// Op M: of a function of SP 800-185.
pub fn keyed<'a>(mut payload: Payload, buffer: &'a mut [u8; MOST]) -> Result<Line<'a>, BadRecord> {
    let Named::Keyed(function) = Named::try_from(payload.byte()?)? else {
        return Err(BadRecord);
    };
    let out = payload.output(buffer)?;
    let first = payload.part()?;
    let string = payload.part()?;
    let status = functions::keyed::hash(function, first, payload.rest(), string, out);
    Ok(Line::Output(status, out))
}
