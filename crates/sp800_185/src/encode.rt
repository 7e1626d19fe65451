// The encodings of section 2.3, absorbed where their strings lie.
ghost use Rattle.std.specs.Prelude.{◌≡◌, ◌<◌, ◌≤◌, length};
ghost use Rattle.keccak.specs.Permutation.{last_rounds};
ghost use Rattle.sponge.specs.Model.{absorb_bytes};
ghost use Rattle.sp800_185.specs.Published.{bytes_of, left_encode, right_encode, encode_string};

use crate::ROUNDS;

// How many bytes x has: at least one.
fn byte_count(x: u64) -> usize
    ensures { (result ≡ length (bytes_of x)) × (1 ≤ result) × (result ≤ 8) }
{
    if x == 0 {
        return 1;
    }
    8 - x.leading_zeros() as usize / 8
}

// Absorbs left_encode(x).
// Kept: the bounds of the rate, here and below: the rate stands alone, and the position changes at each call.
pub(crate) fn absorb_left(lanes: &mut [u64; 25], position: usize, rate: usize, x: u64) -> usize
    requires { (0 < rate) × (rate ≤ 200) × (position ≤ rate) }
    ensures result_after { record { value = lanes.new; position = result } ≡ absorb_bytes (last_rounds 24) rate (record { value = lanes.old; position = position }) (left_encode x) }
    ensures upper_bound { result ≤ rate }
{
    let count = byte_count(x);
    let bytes = x.to_be_bytes();
    let number = sponge::absorb(lanes, position, rate, ROUNDS, &[count as u8]);
    let taken = sponge::absorb(lanes, number.position, rate, ROUNDS, &bytes[8 - count..]);
    taken.position
}

// Absorbs encode_string(s).
pub(crate) fn absorb_string(lanes: &mut [u64; 25], position: usize, rate: usize, s: &[u8]) -> usize
    requires rate_nonzero { (0 < rate) × (rate ≤ 200) × (position ≤ rate) }
    requires s_len_bound { length s.now < 17179869184 }
    ensures result_after { record { value = lanes.new; position = result } ≡ absorb_bytes (last_rounds 24) rate (record { value = lanes.old; position = position }) (encode_string s.now) }
    ensures upper_bound { result ≤ rate }
{
    let bits = 8 * s.len() as u64;
    let next = absorb_left(lanes, position, rate, bits);
    let taken = sponge::absorb(lanes, next, rate, ROUNDS, s);
    taken.position
}

// Absorbs right_encode(x).
pub(crate) fn absorb_right(lanes: &mut [u64; 25], position: usize, rate: usize, x: u64) -> usize
    requires { (0 < rate) × (rate ≤ 200) × (position ≤ rate) }
    ensures result_after { record { value = lanes.new; position = result } ≡ absorb_bytes (last_rounds 24) rate (record { value = lanes.old; position = position }) (right_encode x) }
    ensures upper_bound { result ≤ rate }
{
    let count = byte_count(x);
    let bytes = x.to_be_bytes();
    let taken = sponge::absorb(lanes, position, rate, ROUNDS, &bytes[8 - count..]);
    let number = sponge::absorb(lanes, taken.position, rate, ROUNDS, &[count as u8]);
    number.position
}

// The bytes of right_encode(x). left_encode(x) has as many.
#[tactic(auto, unfolding(crate::specs::Published::right_encode))]
pub(crate) fn right_length(x: u64) -> u64
    ensures { result ≡ length (right_encode x) }
{
    byte_count(x) as u64 + 1
}
