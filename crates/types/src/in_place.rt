// The same calls on lent lanes.
ghost use Rattle.std.specs.Prelude.{◌<◌, ◌≤◌, length};

use crate::BEFORE;
use crate::line::Statuses;
use hasher::{Hasher, Moved, Progress};

// As `by_value::calls`.
pub fn calls<H: Hasher, F: FnOnce(&mut [u64; 25], Progress) -> Moved>(
    message: &[u8; 200],
    close: F,
    out: &mut [u8],
) -> Statuses
    requires callable { F.IsAlwaysCallable close }
    requires long_enough { 10 < length out.old }
{
    let (first, second) = message.split_at(67);
    let last = out.len() - 1;
    let mut byte = [BEFORE; 1];
    let fresh = H::fresh().run();
    let mut lanes = fresh.lanes;
    let begun = H::absorb_in_place(&mut lanes, hasher::progress_of(fresh), first);
    let early = H::squeeze_in_place(&mut lanes, begun.at, &mut byte);
    let open = H::absorb_in_place(&mut lanes, early.at, second);
    let closed = close(&mut lanes, open.at);
    let given = H::squeeze_in_place(&mut lanes, closed.at, &mut out[..10]);
    let late = H::absorb_in_place(&mut lanes, given.at, second);
    let rest = H::squeeze_in_place(&mut lanes, late.at, &mut out[10..last]);
    let more = H::squeeze_in_place(&mut lanes, rest.at, &mut out[last..]);
    [
        begun.status,
        early.status,
        open.status,
        closed.status,
        given.status,
        late.status,
        rest.status,
        more.status,
    ]
}
