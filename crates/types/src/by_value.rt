// The calls of a function's type on a run by value.
ghost use Rattle.std.specs.Prelude.{◌<◌, ◌≤◌, length};

use crate::BEFORE;
use crate::line::Statuses;
use hasher::{Hasher, HasherAnswer};

// The message goes in as two pieces, and `out` is read in three parts, of which the last is its last byte. `close` ends the message.
pub fn calls<H: Hasher, F: FnOnce(H) -> HasherAnswer<H>>(
    message: &[u8; 200],
    close: F,
    out: &mut [u8],
) -> Statuses
    requires callable { F.IsAlwaysCallable close }
    requires long_enough { 10 < length out.old }
{
    let (first, second) = message.split_at(67);
    let last = out.len() - 1;
    let mut byte = [BEFORE; 1];
    let begun = H::fresh().absorb(first);
    let early = begun.hasher.squeeze(&mut byte);
    let open = early.hasher.absorb(second);
    let closed = close(open.hasher);
    let given = closed.hasher.squeeze(&mut out[..10]);
    let late = given.hasher.absorb(second);
    let rest = late.hasher.squeeze(&mut out[10..last]);
    let more = rest.hasher.squeeze(&mut out[last..]);
    [
        begun.status,
        early.status,
        open.status,
        closed.status,
        given.status,
        late.status,
        rest.status,
        more.status,
    ]
}
