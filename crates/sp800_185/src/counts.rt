// The test of status 5: what a run holds beside its lanes, and the permutations that its totals tell.
ghost use Rattle.std.specs.Prelude.{◌≡◌, ◌+◌, ◌*◌, ◌<◌, ◌≤◌, length};
ghost use Rattle.sponge.specs.Waiting.{position_after};
ghost use Rattle.sponge.specs.Count.{open_count};
ghost use Rattle.hasher.specs.Function.{message_limit, long_output};
ghost use Rattle.sp800_185.specs.Function.{ending, keeps, limit};
ghost use Rattle.sp800_185.specs.Model.{open_own, closed_own, blocks_fit, is_open, is_closed, reachable, given};

use crate::numbers::{Closing, Numbers};
use crate::{Keyed, encode};
use hasher::{LONG_OUTPUT, MESSAGE_LIMIT};

pub(crate) const ABSORBING: u8 = 0;

pub(crate) const SQUEEZING: u8 = 1;

// The position after n bytes: a full block is left full.
// Kept: hasher has the same two functions. They divide by the rate, so they ask that it is not 0, which a public function may not ask.
fn position_after(rate: usize, n: u64) -> usize
    requires { (0 < rate) × (rate ≤ 200) }
    ensures { result ≡ position_after rate n }
{
    if n == 0 {
        return 0;
    }
    ((n - 1) % (rate as u64)) as usize + 1
}

// The permutations of n bytes absorbed, or of n bytes squeezed.
fn open_count(rate: usize, n: u64) -> u64
    requires { (0 < rate) × (rate ≤ 200) }
    ensures { (result ≡ open_count rate n) × (result ≤ n) }
{
    if n == 0 {
        return 0;
    }
    (n - 1) / (rate as u64)
}

// The permutations of an open run whose prefix has one block.
pub(crate) fn open_own(numbers: Numbers, absorbed: u64) -> u64
    requires { absorbed ≤ message_limit }
    ensures { (result ≡ open_own (given numbers) absorbed) × (result ≤ 200 + absorbed) }
{
    open_count(numbers.rate, numbers.rate as u64 + absorbed)
}

// The bytes that the close puts after the message.
fn ending_length(numbers: Numbers, said: u64) -> u64
    requires { said ≤ long_output }
    ensures { (result ≡ length (ending (given numbers) said)) × (result ≤ 9) }
{
    match numbers.closing {
        Closing::Nothing => 0,
        _ => encode::right_length(8 * said),
    }
}

// The permutations of a closed run whose prefix has one block.
pub(crate) fn closed_own(numbers: Numbers, said: u64, absorbed: u64, squeezed: u64) -> u64
    requires { (said ≤ long_output) × (absorbed ≤ message_limit) × (squeezed ≤ long_output) }
    ensures { (result ≡ closed_own (given numbers) said absorbed squeezed) × (result ≤ 210 + absorbed + squeezed) }
{
    let n = numbers.rate as u64 + absorbed + ending_length(numbers, said);
    n / (numbers.rate as u64) + 1 + open_count(numbers.rate, squeezed)
}

// Whether a prefix of some number of blocks gives this many permutations, of which `own` are those of one block.
fn blocks_fit(numbers: Numbers, own: u64, permutations: u64) -> bool
    requires { own ≤ 1099511627776 }
    ensures { result ≡ blocks_fit (given numbers) numbers.least numbers.most own permutations }
{
    if permutations < own + numbers.least - 1 {
        return false;
    }
    permutations < own + numbers.most
}

// Whether a closed run keeps such a length.
fn keeps_length(numbers: Numbers, kept: u64) -> bool
    ensures { result ≡ keeps (given numbers) kept }
{
    match numbers.closing {
        Closing::Length => 0 < kept && kept <= LONG_OUTPUT as u64,
        _ => kept == 0,
    }
}

// The read limit of a closed run.
pub(crate) fn read_limit(numbers: Numbers, kept: u64) -> u64
    ensures { result ≡ limit (given numbers) kept }
{
    match numbers.closing {
        Closing::Length => kept,
        _ => LONG_OUTPUT as u64,
    }
}

fn is_open(numbers: Numbers, keyed: Keyed) -> bool
    requires { keyed.run.absorbed ≤ message_limit }
    ensures { result ≡ is_open (given numbers) numbers.least numbers.most keyed.run.position keyed.length keyed.run.absorbed keyed.run.squeezed keyed.run.permutations }
{
    let run = keyed.run;
    if run.squeezed != 0 {
        return false;
    }
    if keyed.length != 0 {
        return false;
    }
    if run.position != position_after(numbers.rate, numbers.rate as u64 + run.absorbed) {
        return false;
    }
    blocks_fit(numbers, open_own(numbers, run.absorbed), run.permutations)
}

fn is_closed(numbers: Numbers, keyed: Keyed) -> bool
    requires { keyed.run.absorbed ≤ message_limit }
    ensures { result ≡ is_closed (given numbers) numbers.least numbers.most keyed.run.position keyed.length keyed.run.absorbed keyed.run.squeezed keyed.run.permutations }
{
    let run = keyed.run;
    if !keeps_length(numbers, keyed.length) {
        return false;
    }
    if read_limit(numbers, keyed.length) < run.squeezed {
        return false;
    }
    if run.position != position_after(numbers.rate, run.squeezed) {
        return false;
    }
    let own = closed_own(numbers, keyed.length, run.absorbed, run.squeezed);
    blocks_fit(numbers, own, run.permutations)
}

// Whether some start within the limits, and calls after it, reach a run with this phase, these totals, this position and these permutations.
#[tactic(auto, unfolding(crate::specs::Model::reachable))]
pub(crate) fn is_reachable(numbers: Numbers, keyed: Keyed) -> bool
    ensures { result ≡ reachable (given numbers) numbers.least numbers.most keyed.run.position keyed.length keyed.run.phase keyed.run.absorbed keyed.run.squeezed keyed.run.permutations }
{
    let phase = keyed.run.phase;
    if MESSAGE_LIMIT < keyed.run.absorbed {
        return false;
    }
    if phase == ABSORBING {
        return is_open(numbers, keyed);
    }
    if phase != SQUEEZING {
        return false;
    }
    is_closed(numbers, keyed)
}
