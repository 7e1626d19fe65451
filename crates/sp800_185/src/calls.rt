// The calls on a run after a start, over the numbers of its function; and what a call in one go does after its start.
ghost use Rattle.std.specs.Prelude.{◌≡◌, cond, ◌≤◌, length};
ghost use Rattle.keccak.specs.Permutation.{last_rounds};
ghost use Rattle.sponge.specs.Model.{absorb_bytes};
ghost use Rattle.sponge.specs.Transcript.{Call};
ghost use Rattle.hasher.specs.Function.{long_output};
ghost use Rattle.sp800_185.specs.Function.{length_status, argument, whole_status, ending};
ghost use Rattle.sp800_185.specs.Model.{fixes, given, answer_of, written_of, output_after};

use crate::numbers::{Closing, Numbers};
use crate::{Answer, CSHAKE_LAST, Keyed, ROUNDS, counts, encode};
use hasher::{LONG_OUTPUT, MESSAGE_LIMIT, Run};
use sponge::status;

fn refused(number: u8, keyed: Keyed) -> Answer
    ensures { result ≡ record { keyed = keyed; status = number } }
{
    Answer {
        keyed,
        status: number,
    }
}

fn answered(run: Run, length: u64, number: u8) -> Answer
    ensures { result ≡ record { keyed = record { run = run; length = length }; status = number } }
{
    let keyed = Keyed { run, length };
    Answer {
        keyed,
        status: number,
    }
}

pub(crate) fn absorb(numbers: Numbers, keyed: Keyed, piece: &[u8]) -> Answer
    ensures { result ≡ answer_of (given numbers) keyed (Call.absorb piece.now) }
{
    if !counts::is_reachable(numbers, keyed) {
        return refused(status::UNREACHABLE, keyed);
    }
    let run = keyed.run;
    if run.phase != counts::ABSORBING {
        return refused(status::WRONG_PHASE, keyed);
    }
    let total = run.absorbed + piece.len() as u64;
    if MESSAGE_LIMIT < total {
        return refused(status::INPUT_TOO_LONG, keyed);
    }
    let before = run.permutations - counts::open_own(numbers, run.absorbed);
    let count = before + counts::open_own(numbers, total);
    let mut next = run;
    let taken = sponge::absorb(&mut next.lanes, run.position, numbers.rate, ROUNDS, piece);
    next.position = taken.position;
    next.absorbed = total;
    next.permutations = count;
    answered(next, keyed.length, taken.status)
}

// The status of an output length.
fn length_status(length: u64) -> u8
    ensures { result ≡ length_status length }
{
    if length == 0 {
        return status::BAD_LENGTH;
    }
    if (LONG_OUTPUT as u64) < length {
        return status::OUTPUT_TOO_LONG;
    }
    status::DONE
}

// The status of the output length that a close is given: it is looked at where it is fixed.
fn close_status(numbers: Numbers, length: u64) -> u8
    ensures { result ≡ argument (given numbers) length }
{
    match numbers.closing {
        Closing::Length => length_status(length),
        _ => status::DONE,
    }
}

// The output length that a close says and the run then keeps.
pub(crate) fn said(numbers: Numbers, length: u64) -> u64
    ensures { result ≡ cond (fixes numbers.closing) length 0 }
{
    match numbers.closing {
        Closing::Length => length,
        _ => 0,
    }
}

// Absorbs what the close puts after the message.
fn absorb_ending(lanes: &mut [u64; 25], position: usize, numbers: Numbers, kept: u64) -> usize
    requires { (position ≤ numbers.rate) × (kept ≤ long_output) }
    ensures result_after { record { value = lanes.new; position = result } ≡ absorb_bytes (last_rounds 24) numbers.rate (record { value = lanes.old; position = position }) (ending (given numbers) kept) }
    ensures upper_bound { result ≤ numbers.rate }
{
    match numbers.closing {
        Closing::Nothing => position,
        _ => encode::absorb_right(lanes, position, numbers.rate, 8 * kept),
    }
}

pub(crate) fn finalize(numbers: Numbers, keyed: Keyed, length: u64) -> Answer
    ensures { result ≡ answer_of (given numbers) keyed (Call.finalize length) }
{
    if !counts::is_reachable(numbers, keyed) {
        return refused(status::UNREACHABLE, keyed);
    }
    let run = keyed.run;
    if run.phase != counts::ABSORBING {
        return refused(status::WRONG_PHASE, keyed);
    }
    let refusal = close_status(numbers, length);
    if refusal != status::DONE {
        return refused(refusal, keyed);
    }
    let kept = said(numbers, length);
    let before = run.permutations - counts::open_own(numbers, run.absorbed);
    let count = before + counts::closed_own(numbers, kept, run.absorbed, 0);
    let mut next = run;
    let position = absorb_ending(&mut next.lanes, run.position, numbers, kept);
    let padded = sponge::pad(&mut next.lanes, position, numbers.rate, ROUNDS, CSHAKE_LAST);
    next.position = padded.position;
    next.phase = counts::SQUEEZING;
    next.permutations = count;
    answered(next, kept, padded.status)
}

pub(crate) fn squeeze(numbers: Numbers, keyed: Keyed, out: &mut [u8]) -> Answer
    ensures value { result ≡ answer_of (given numbers) keyed (Call.squeeze (length out.old)) }
    ensures out_after { out.new ≡ written_of (given numbers) keyed out.old }
{
    if !counts::is_reachable(numbers, keyed) {
        return refused(status::UNREACHABLE, keyed);
    }
    let run = keyed.run;
    if run.phase != counts::SQUEEZING {
        return refused(status::WRONG_PHASE, keyed);
    }
    let kept = keyed.length;
    let asked = out.len() as u64;
    if counts::read_limit(numbers, kept) - run.squeezed < asked {
        return refused(status::OUTPUT_TOO_LONG, keyed);
    }
    let total = run.squeezed + asked;
    let before = run.permutations - counts::closed_own(numbers, kept, run.absorbed, run.squeezed);
    let count = before + counts::closed_own(numbers, kept, run.absorbed, total);
    let mut next = run;
    let given = sponge::squeeze(&mut next.lanes, run.position, numbers.rate, ROUNDS, out);
    next.position = given.position;
    next.squeezed = total;
    next.permutations = count;
    answered(next, kept, given.status)
}

// The status of a call in one go, by that of its start, the message's length and the bytes asked.
pub(crate) fn one_go_status(start: u8, message: u64, asked: u64) -> u8
    ensures { result ≡ whole_status start message asked }
{
    if MESSAGE_LIMIT < message {
        return status::INPUT_TOO_LONG;
    }
    if start != status::DONE {
        return start;
    }
    length_status(asked)
}

// What a call in one go does after its start: the message, what the close puts after it, and as many bytes of output as `out` holds.
pub(crate) fn digest(numbers: Numbers, start: Run, said: u64, message: &[u8], out: &mut [u8]) -> u8
    requires { (start.position ≤ numbers.rate) × (said ≤ long_output) }
    ensures value { result ≡ 0 }
    ensures out_after { out.new ≡ output_after (given numbers) (record { value = start.lanes; position = start.position }) message.now said (length out.old) }
{
    let mut lanes = start.lanes;
    let taken = sponge::absorb(&mut lanes, start.position, numbers.rate, ROUNDS, message);
    let position = absorb_ending(&mut lanes, taken.position, numbers, said);
    let padded = sponge::pad(&mut lanes, position, numbers.rate, ROUNDS, CSHAKE_LAST);
    let squeezed = sponge::squeeze(&mut lanes, padded.position, numbers.rate, ROUNDS, out);
    squeezed.status
}
