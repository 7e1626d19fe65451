// The records that permute a state, or undo that.
use crate::line::Line;
use crate::payload::Payload;
use crate::record::{BadRecord, MOST};

// The bytes of a state, and so the rate at which all of them are absorbed and squeezed before anything is permuted.
const BYTES: usize = 200;

// Ops P and I: the number of rounds, and the state that the call is given.
pub fn answer<'a, F: FnOnce(&mut [u64; 25], usize) -> u8 + Drop>(
    mut payload: Payload,
    buffer: &'a mut [u8; MOST],
    call: F,
) -> Result<Line<'a>, BadRecord>
    requires { F.IsAlwaysCallable call }
{
    let rounds = payload.byte()? as usize;
    let bytes = payload.rest();
    if bytes.len() != BYTES {
        return Err(BadRecord);
    }
    let mut lanes = [0u64; 25];
    sponge::absorb(&mut lanes, 0, BYTES, 0, bytes);
    let status = call(&mut lanes, rounds);
    let out = &mut buffer[..BYTES];
    sponge::squeeze(&mut lanes, 0, BYTES, 0, out);
    Ok(Line::Output(status, out))
}
