// The test of status 5, which looks at phase, totals, positions and permutations, and at no lane.
ghost use Rattle.std.specs.Prelude.{◌≡◌, false, cond, ◌+◌, ◌<◌, ◌≤◌, eqb};
ghost use Rattle.turboshake.specs.Transcript.{message_limit};
ghost use Rattle.kangarootwelve.specs.Transcript.{customization_limit};
ghost use Rattle.kangarootwelve.specs.Inside.{open_due, reached_at};

use crate::{
    ABSORBING, CUSTOMIZATION_LIMIT, CUSTOMIZING, Progress, SQUEEZING, Strength, totals, tree,
};
use sponge::status;
use turboshake::{MESSAGE_LIMIT, OUTPUT_LIMIT};

// The most customization bytes of a run in this phase.
fn customized_most(phase: u8) -> u64
    ensures { result ≡ cond (eqb phase 0) 0 customization_limit }
{
    if phase == ABSORBING {
        return 0;
    }
    CUSTOMIZATION_LIMIT
}

// Whether an open run has the positions and the permutations that its bytes of M and C tell. `reached` is the position due in the node that the
// chunk in hand goes into.
fn is_due(strength: Strength, at: Progress) -> bool
    requires { at.absorbed + at.customized ≤ message_limit + customization_limit }
    ensures { result ≡ open_due strength.rate strength.chaining at }
{
    let total = at.absorbed + at.customized;
    let index = totals::index_after(total);
    let position = totals::position_after(tree::CHUNK, total) as u64;
    if at.permutations != totals::tree_count(strength, index, position) {
        return false;
    }
    let reached = totals::position_after(strength.rate, position);
    if index == 0 {
        if at.leaf != 0 {
            return false;
        }
        return at.node == reached;
    }
    if at.leaf != reached {
        return false;
    }
    at.node == totals::position_after(strength.rate, totals::node_bytes(strength, index - 1))
}

// Whether a run reached from a fresh one that is not closed has this phase, these totals, positions and permutations.
pub(crate) fn is_open(strength: Strength, at: Progress) -> bool
    ensures { result ≡ cond (eqb at.phase 1) false (reached_at strength.rate strength.chaining at) }
{
    if MESSAGE_LIMIT < at.absorbed {
        return false;
    }
    if customized_most(at.phase) < at.customized {
        return false;
    }
    if at.phase == SQUEEZING {
        return false;
    }
    if CUSTOMIZING < at.phase {
        return false;
    }
    if at.squeezed != 0 {
        return false;
    }
    is_due(strength, at)
}

// The same of a run that is closed.
pub(crate) fn is_closed(strength: Strength, at: Progress) -> bool
    ensures { result ≡ cond (eqb at.phase 1) (reached_at strength.rate strength.chaining at) false }
{
    if at.phase != SQUEEZING {
        return false;
    }
    if MESSAGE_LIMIT < at.absorbed {
        return false;
    }
    if CUSTOMIZATION_LIMIT < at.customized {
        return false;
    }
    if OUTPUT_LIMIT < at.squeezed {
        return false;
    }
    if at.node != totals::position_after(strength.rate, at.squeezed) {
        return false;
    }
    let total = at.absorbed + at.customized;
    if at.permutations != totals::closed_kt(strength, total, at.customized, at.squeezed) {
        return false;
    }
    at.leaf == 0
}

// The status of a call that needs an open run, on a run that is none: 3 for a closed one that was reached, else 5.
pub(crate) fn status_if_not_open(strength: Strength, at: Progress) -> u8
    ensures { result ≡ cond (cond (eqb at.phase 1) (reached_at strength.rate strength.chaining at) false) 3 5 }
{
    if is_closed(strength, at) {
        return status::WRONG_PHASE;
    }
    status::UNREACHABLE
}

// The status of a squeeze, which needs a closed run, on a run that is none: 3 for an open one that was reached, else 5.
pub(crate) fn status_if_not_closed(strength: Strength, at: Progress) -> u8
    ensures { result ≡ cond (cond (eqb at.phase 1) false (reached_at strength.rate strength.chaining at)) 3 5 }
{
    if is_open(strength, at) {
        return status::WRONG_PHASE;
    }
    status::UNREACHABLE
}
