// The sponge over Keccak-p[1600, n] for any rate from 1 to 200 bytes and up to 24 rounds, on lent lanes and a position.
//
// The position is the number of bytes of the block in hand that were absorbed or squeezed. A full block is permuted when its
// next byte arrives or at the padding, and on squeezing when a byte past it is asked: a position equal to the rate is one.
// `four` has the blocks of four sponges whose states stand in one slice.
#![tactic(auto)]

mod block;
pub mod four;
pub mod status;

ghost use Rattle.std.specs.Prelude.{◌≡◌, ◌<◌, ◌≤◌, min, length};
ghost use Rattle.keccak.specs.Permutation.{last_rounds};
ghost use Rattle.sponge.specs.Waiting.{ready};
ghost use Rattle.sponge.specs.Model.{absorb_bytes, squeeze_bytes, after_bytes, valid, call_status};
ghost use Rattle.sponge.specs.Model as model;

// What a call answers: its status and the position that it leaves. Kept: a public answer, which refuses by number.
#[derive(Clone, Copy)]
pub struct Answer {
    pub status: u8,
    pub position: usize,
}

// A rate is 1 to 200, a position 0 to the rate.
#[tactic(auto, unfolding(crate::specs::Model::valid))]
fn is_valid(rate: usize, position: usize) -> bool
    ensures { result ≡ valid rate position }
{
    1 <= rate && rate <= 200 && position <= rate
}

// 16 for more than 24 rounds, then 5 for what is no rate or no position.
pub fn call_status(rounds: usize, rate: usize, position: usize) -> u8
    ensures { result ≡ call_status rounds rate position }
{
    if 24 < rounds {
        return status::TOO_MANY_ROUNDS;
    }
    if !is_valid(rate, position) {
        return status::UNREACHABLE;
    }
    status::DONE
}

// What is refused is left as it is.
fn refused(number: u8, position: usize) -> Answer
    ensures { result ≡ record { status = number; position = position } }
{
    Answer {
        status: number,
        position,
    }
}

// Permutes a full block, and answers the position of the next byte.
// Kept: the bounds of rate and position, here and below. The public calls take the numbers apart (docs/API.md), and the position changes at each
// block: a type that holds the fact would be made anew at each step.
fn next_position(lanes: &mut [u64; 25], position: usize, rate: usize, rounds: usize) -> usize
    requires { (position ≤ rate) × (0 < rate) }
    ensures upper_bound { result < rate }
    ensures result_after { record { value = lanes.new; position = result } ≡ ready (last_rounds rounds) rate (record { value = lanes.old; position = position }) }
{
    if position == rate {
        keccak::permute_in_place(lanes, rounds);
        return 0;
    }
    position
}

// Absorbs a piece a block at a time, and answers the position after it.
fn absorb_blocks(
    lanes: &mut [u64; 25],
    position: usize,
    rate: usize,
    rounds: usize,
    piece: &[u8],
) -> usize
    requires { (position ≤ rate) × (0 < rate) × (rate ≤ 200) }
    ensures { record { value = lanes.new; position = result } ≡ absorb_bytes (last_rounds rounds) rate (record { value = lanes.old; position = position }) piece.now }
{
    let mut p = position;
    let mut rest = piece;
    while 0 < rest.len() {
        let at = next_position(lanes, p, rate, rounds);
        let (part, others) = rest.split_at((rate - at).min(rest.len()));
        block::xor_part(lanes, at, part);
        p = at + part.len();
        rest = others;
    }
    p
}

// The same: a piece of up to eight bytes that leaves room in its block touches one lane or two, and permutes nothing. The loop is called from two
// places, since from one the compiler would put it in here, and a short piece would save registers for it.
fn absorb_piece(
    lanes: &mut [u64; 25],
    position: usize,
    rate: usize,
    rounds: usize,
    piece: &[u8],
) -> usize
    requires { (position ≤ rate) × (0 < rate) × (rate ≤ 200) }
    ensures { record { value = lanes.new; position = result } ≡ absorb_bytes (last_rounds rounds) rate (record { value = lanes.old; position = position }) piece.now }
{
    if 8 < piece.len() {
        return absorb_blocks(lanes, position, rate, rounds, piece);
    }
    if rate - position <= piece.len() {
        return absorb_blocks(lanes, position, rate, rounds, piece);
    }
    block::xor_bytes(lanes, position, piece);
    position + piece.len()
}

// Squeezes into a lent output a block at a time, and answers the position after it.
fn squeeze_blocks(
    lanes: &mut [u64; 25],
    position: usize,
    rate: usize,
    rounds: usize,
    out: &mut [u8],
) -> usize
    requires { (position ≤ rate) × (0 < rate) × (rate ≤ 200) }
    ensures out_after { out.new ≡ squeeze_bytes (last_rounds rounds) rate (length out.old) (record { value = lanes.old; position = position }) }
    ensures result_after { record { value = lanes.new; position = result } ≡ after_bytes (last_rounds rounds) rate (length out.old) (record { value = lanes.old; position = position }) }
{
    let mut p = position;
    let mut i = 0;
    // Kept: the index. Where `split_at_mut` cuts off what is left at each turn, the proof knows the length of `out` at the end, and no byte.
    while i < out.len() {
        let at = next_position(lanes, p, rate, rounds);
        let k = (rate - at).min(out.len() - i);
        block::read_part(lanes, at, &mut out[i..i + k]);
        p = at + k;
        i += k;
    }
    p
}

// Puts the last byte of the input and the padding into the block, and permutes it.
fn pad_block(lanes: &mut [u64; 25], position: usize, rate: usize, rounds: usize, last: u8)
    requires { (position ≤ rate) × (0 < rate) × (rate ≤ 200) }
    ensures { record { value = lanes.new; position = 0 } ≡ model.pad (last_rounds rounds) rate (record { value = lanes.old; position = position }) last }
{
    let at = next_position(lanes, position, rate, rounds);
    block::xor_byte(lanes, at, last);
    block::xor_byte(lanes, rate - 1, 0x80);
    keccak::permute_in_place(lanes, rounds);
}

// Absorbs a piece.
pub fn absorb(
    lanes: &mut [u64; 25],
    position: usize,
    rate: usize,
    rounds: usize,
    piece: &[u8],
) -> Answer
    ensures { record { status = result.status; state = record { value = lanes.new; position = result.position } } ≡ model.absorb_call rounds rate (record { value = lanes.old; position = position }) piece.now }
{
    let refusal = call_status(rounds, rate, position);
    if refusal != status::DONE {
        return refused(refusal, position);
    }
    let after = absorb_piece(lanes, position, rate, rounds, piece);
    Answer {
        status: status::DONE,
        position: after,
    }
}

// Ends the input with the byte `last` and the padding, and permutes: the state is then ready to be squeezed.
pub fn pad(lanes: &mut [u64; 25], position: usize, rate: usize, rounds: usize, last: u8) -> Answer
    ensures { record { status = result.status; state = record { value = lanes.new; position = result.position } } ≡ model.pad_call rounds rate (record { value = lanes.old; position = position }) last }
{
    let refusal = call_status(rounds, rate, position);
    if refusal != status::DONE {
        return refused(refusal, position);
    }
    pad_block(lanes, position, rate, rounds, last);
    Answer {
        status: status::DONE,
        position: 0,
    }
}

// Squeezes as many bytes as the lent output holds.
pub fn squeeze(
    lanes: &mut [u64; 25],
    position: usize,
    rate: usize,
    rounds: usize,
    out: &mut [u8],
) -> Answer
    ensures position_after { record { status = result.status; state = record { value = lanes.new; position = result.position } } ≡ model.squeeze_call rounds rate (record { value = lanes.old; position = position }) (length out.old) }
    ensures out_after { out.new ≡ model.squeeze_output rounds rate (record { value = lanes.old; position = position }) out.old }
{
    let refusal = call_status(rounds, rate, position);
    if refusal != status::DONE {
        return refused(refusal, position);
    }
    let read = squeeze_blocks(lanes, position, rate, rounds, out);
    Answer {
        status: status::DONE,
        position: read,
    }
}
