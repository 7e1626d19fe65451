// Four leaves at once. Their chunks lie in a row in the lent bytes; their sponges stand in the lent slice of 100 words, which is zero before and after.
// The sponge's calls and the permutation get 100 words, whole words of a chunk and positions within their blocks here, so each is proved to answer 0,
// and no status is looked at.
ghost use Rattle.std.specs.Prelude.{◌≡◌, ◌<◌, ◌≤◌, ◌%◌, length};
ghost use Rattle.keccak.specs.Permutation.{permuted};
ghost use Rattle.abreast.specs.Four.{state_at};
ghost use Rattle.abreast.specs.Inside.{One, Each};
ghost use Rattle.sponge.specs.Published.{xor_byte};
ghost use Rattle.sponge.specs.Waiting.{ready};
ghost use Rattle.sponge.specs.Model.{fresh, absorb_bytes};
ghost use Rattle.sponge.specs.Model as model;
ghost use Rattle.kangarootwelve.specs.Published.{intermediate_domain};
ghost use Rattle.kangarootwelve.specs.Leaves.{chunk_at, Sponges, states_bytes, open_values, values_of, cleared};

use crate::{FourOpen, Strength, tree};

// Absorbs a chunk into each sponge, a block at a time, and answers the position after them.
fn absorb_chunks(states: &mut [u64], strength: Strength, chunks: &[u8]) -> usize
    requires { (length states.old ≡ 100) × (length chunks.now ≡ 32768) }
    ensures upper_bound { result ≤ strength.rate }
    ensures sponges { Sponges (λ k s. absorb_bytes permuted strength.rate s (chunk_at k chunks.now)) states.old 0 states.new result }
{
    let first = sponge::four::xor_block(states, chunks, 0, strength.rate);
    let mut p = strength.rate;
    let mut i = strength.rate;
    // Kept: the last block is shorter, so that `step_by` would give the offsets, and their lengths would be worked out all the same.
    while i < tree::CHUNK {
        let full = abreast::permute_in_place(states, turboshake::ROUNDS);
        p = strength.rate.min(tree::CHUNK - i);
        let next = sponge::four::xor_block(states, chunks, i, p);
        i += p;
    }
    p
}

fn wide(x: u8) -> u64
    ensures { (result ≡ x) × (result < 256) }
{
    x as u64
}

// XORs a byte into state j.
fn xor_byte(states: &mut [u64], j: usize, at: usize, b: u8)
    requires { (length states.old ≡ 100) × (j < 4) × (at < 200) }
    ensures { One j (λ l. xor_byte l at b) states.old states.new }
{
    let q = at / 8;
    let s = 8 * (at % 8);
    states[4 * q + j] = states[4 * q + j] ^ (wide(b) << s);
}

// XORs a byte into each state.
fn xor_bytes(states: &mut [u64], at: usize, b: u8)
    requires { (length states.old ≡ 100) × (at < 200) }
    ensures { Each (λ _ l. xor_byte l at b) states.old states.new }
{
    for j in 0..4 {
        xor_byte(states, j, at, b);
    }
}

// Permutes full blocks, and answers the position of the next byte.
fn next_position(states: &mut [u64], position: usize, strength: Strength) -> usize
    requires { (length states.old ≡ 100) × (position ≤ strength.rate) }
    ensures upper_bound { result < strength.rate }
    ensures sponges { Sponges (λ _. ready permuted strength.rate) states.old position states.new result }
{
    if position == strength.rate {
        let full = abreast::permute_in_place(states, turboshake::ROUNDS);
        return 0;
    }
    position
}

// Ends each chunk: its domain separation byte and the padding go into the block, and the permutation follows.
fn pad(states: &mut [u64], position: usize, strength: Strength)
    requires { (length states.old ≡ 100) × (position ≤ strength.rate) }
    ensures { Sponges (λ _ s. model.pad permuted strength.rate s intermediate_domain) states.old position states.new 0 }
{
    let at = next_position(states, position, strength);
    xor_bytes(states, at, tree::INTERMEDIATE_NODE);
    xor_bytes(states, strength.rate - 1, 0x80);
    let padded = abreast::permute_in_place(states, turboshake::ROUNDS);
}

// State j by itself.
fn state(states: &[u64], j: usize) -> [u64; 25]
    requires { (length states.now ≡ 100) × (j < 4) }
    ensures { result ≡ state_at j states.now }
{
    let mut lanes = [0u64; 25];
    for i in 0..25 {
        lanes[i] = states[4 * i + j];
    }
    lanes
}

// Absorbs as many bytes of each of the first `count` states as `value` holds into the final node, and answers its position.
fn absorb_values(
    strength: Strength,
    node: &mut [u64; 25],
    position: usize,
    states: &[u64],
    count: usize,
    value: &mut [u8],
) -> usize
    requires position_bound { (position ≤ strength.rate) × (length states.now ≡ 100) × (count ≤ 4) }
    requires value_len_bound { (length value.old ≤ 200) × (length value.old % 8 ≡ 0) }
    ensures upper_bound { result ≤ strength.rate }
    ensures result_after { record { value = node.new; position = result } ≡ absorb_bytes permuted strength.rate (record { value = node.old; position = position }) (states_bytes (length value.entry.now) states.now count 0) }
{
    let mut p = position;
    for j in 0..count {
        let read = sponge::four::read(states, j, value);
        let absorbed = sponge::absorb(node, p, strength.rate, turboshake::ROUNDS, value);
        p = absorbed.position;
    }
    p
}

// Ends four leaves, absorbs the chaining values of the first `count`, each as long as `value`, into the final node, clears the slice, and answers the
// final node's position.
fn close(
    strength: Strength,
    node: &mut [u64; 25],
    position: usize,
    states: &mut [u64],
    at: usize,
    count: usize,
    value: &mut [u8],
) -> usize
    requires position_bound { (position ≤ strength.rate) × (at ≤ strength.rate) × (length states.old ≡ 100) × (count ≤ 4) }
    requires value_len_bound { (length value.old ≤ strength.rate) × (length value.old % 8 ≡ 0) }
    ensures states_after { (states.new ≡ cleared) × (result ≤ strength.rate) }
    ensures result_after { record { value = node.new; position = result } ≡ absorb_bytes permuted strength.rate (record { value = node.old; position = position }) (open_values strength.rate (length value.entry.now) states.old at count 0) }
{
    pad(states, at, strength);
    let valued = absorb_values(strength, node, position, states, count, value);
    abreast::clear(states);
    valued
}

// Absorbs the chaining values of four chunks in a row, each as long as `value`, into the final node, and answers its position.
pub(crate) fn absorb_four(
    strength: Strength,
    node: &mut [u64; 25],
    position: usize,
    chunks: &[u8],
    states: &mut [u64],
    value: &mut [u8],
) -> usize
    requires position_bound { position ≤ strength.rate }
    requires chunks_len { (length chunks.now ≡ 32768) × (states.old ≡ cleared) × (length value.old ≤ strength.rate) × (length value.old % 8 ≡ 0) }
    ensures upper_bound { (result ≤ strength.rate) × (states.new ≡ cleared) }
    ensures result_after { record { value = node.new; position = result } ≡ absorb_bytes permuted strength.rate (record { value = node.old; position = position }) (values_of strength.rate (length value.entry.now) 4 chunks.now) }
{
    let at = absorb_chunks(states, strength, chunks);
    close(strength, node, position, states, at, 4, value)
}

// The same where nothing may follow the four chunks: three values go into the final node, and the fourth chunk stays open in the leaf. Its state is
// taken out of the slice before the padding.
pub(crate) fn absorb_open(
    strength: Strength,
    node: &mut [u64; 25],
    position: usize,
    leaf: &mut [u64; 25],
    chunks: &[u8],
    states: &mut [u64],
    value: &mut [u8],
) -> FourOpen
    requires position_bound { position ≤ strength.rate }
    requires chunks_len { (length chunks.now ≡ 32768) × (states.old ≡ cleared) × (length value.old ≤ strength.rate) × (length value.old % 8 ≡ 0) }
    ensures leaf_after { record { value = leaf.new; position = result.leaf } ≡ absorb_bytes permuted strength.rate fresh (chunk_at 3 chunks.now) }
    ensures node_le_rate { (result.node ≤ strength.rate) × (result.leaf ≤ strength.rate) × (states.new ≡ cleared) }
    ensures node_after { record { value = node.new; position = result.node } ≡ absorb_bytes permuted strength.rate (record { value = node.old; position = position }) (values_of strength.rate (length value.entry.now) 3 chunks.now) }
{
    let at = absorb_chunks(states, strength, chunks);
    let lanes = state(states, 3);
    *leaf = lanes;
    let valued = close(strength, node, position, states, at, 3, value);
    FourOpen {
        node: valued,
        leaf: at,
    }
}
