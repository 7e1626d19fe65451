// The tree over lent lanes: S goes into the final node and the leaf in hand, a chunk at a time. The sponge's calls get positions within
// their blocks here, so each is proved to answer 0, and no status is looked at.
ghost use Rattle.std.specs.Prelude.{◌≡◌, ◌<◌, ◌≤◌, ◌+◌, ◌^◌, length};
ghost use Rattle.keccak.specs.Permutation.{permuted};
ghost use Rattle.sponge.specs.Waiting.{ready};
ghost use Rattle.sponge.specs.Model.{absorb_bytes, pad, squeeze_bytes};
ghost use Rattle.kangarootwelve.specs.Published.{chunk, intermediate_domain};
ghost use Rattle.kangarootwelve.specs.Tree.{put_to, end_chunk, absorb_tree, close_to, finish_tree, finalize_tree};
ghost use Rattle.kangarootwelve.specs.Inside.{tree_of, Fits};

use crate::{Place, Strength};

pub(crate) const CHUNK: usize = 8192;

// What follows S_0 in the final node, and what ends it.
pub(crate) const MARKER: [u8; 8] = [0x03, 0, 0, 0, 0, 0, 0, 0];

pub(crate) const TRAILER: [u8; 2] = [0xFF, 0xFF];

// The domain separation bytes of the nodes.
pub(crate) const SINGLE_NODE: u8 = 0x07;

pub(crate) const INTERMEDIATE_NODE: u8 = 0x0B;

pub(crate) const FINAL_NODE: u8 = 0x06;

// Absorbs the chaining value of the leaf, as long as `value`, into the final node, and answers the final node's position.
fn absorb_value(
    strength: Strength,
    node: &mut [u64; 25],
    position: usize,
    leaf: &mut [u64; 25],
    reached: usize,
    value: &mut [u8],
) -> usize
    requires { (position ≤ strength.rate) × (reached ≤ strength.rate) }
    ensures { record { value = node.new; position = result } ≡ absorb_bytes permuted strength.rate (record { value = node.old; position = position }) (squeeze_bytes permuted strength.rate (length value.entry.now) (pad permuted strength.rate (record { value = leaf.old; position = reached }) intermediate_domain)) }
{
    let padded = sponge::pad(
        leaf,
        reached,
        strength.rate,
        turboshake::ROUNDS,
        INTERMEDIATE_NODE,
    );
    let squeezed = sponge::squeeze(
        leaf,
        padded.position,
        strength.rate,
        turboshake::ROUNDS,
        value,
    );
    let absorbed = sponge::absorb(node, position, strength.rate, turboshake::ROUNDS, value);
    absorbed.position
}

// The place of the first byte of a new chunk.
pub(crate) fn opened(node: usize, index: u64) -> Place
    ensures { result ≡ record { node = node; leaf = 0; index = index; position = 0 } }
{
    Place {
        node,
        leaf: 0,
        index,
        position: 0,
    }
}

// Ends a full chunk, of which another follows: the final node gets the marker or the leaf's chaining value, and the leaf is fresh.
pub(crate) fn end_chunk(
    strength: Strength,
    node: &mut [u64; 25],
    leaf: &mut [u64; 25],
    at: Place,
) -> Place
    requires { Fits strength.rate (tree_of node.old leaf.old at) × (at.index < 2 ^ 63) }
    ensures { tree_of node.new leaf.new result ≡ record { value = end_chunk strength.rate strength.chaining (tree_of node.old leaf.old at).value; position = 0 } }
{
    let fresh = [0u64; 25];
    if at.index == 0 {
        let marker = MARKER;
        let marked = sponge::absorb(node, at.node, strength.rate, turboshake::ROUNDS, &marker);
        *leaf = fresh;
        return opened(marked.position, 1);
    }
    let mut value = [0u8; 64];
    let valued = absorb_value(
        strength,
        node,
        at.node,
        leaf,
        at.leaf,
        &mut value[0..strength.chaining],
    );
    *leaf = fresh;
    opened(valued, at.index + 1)
}

// Where the next byte goes: a full chunk is ended first.
fn next_byte(strength: Strength, node: &mut [u64; 25], leaf: &mut [u64; 25], at: Place) -> Place
    requires { Fits strength.rate (tree_of node.old leaf.old at) × (at.index < 2 ^ 63) }
    ensures { tree_of node.new leaf.new result ≡ ready (end_chunk strength.rate strength.chaining) chunk (tree_of node.old leaf.old at) }
{
    if at.position == CHUNK {
        return end_chunk(strength, node, leaf, at);
    }
    at
}

// Absorbs a part of the chunk in hand.
fn absorb_part(
    strength: Strength,
    node: &mut [u64; 25],
    leaf: &mut [u64; 25],
    at: Place,
    part: &[u8],
) -> Place
    requires { Fits strength.rate (tree_of node.old leaf.old at) × (at.position + length part.now ≤ chunk) }
    ensures { tree_of node.new leaf.new result ≡ record { value = put_to strength.rate at.index (record { value = node.old; position = at.node }) (record { value = leaf.old; position = at.leaf }) part.now; position = at.position + length part.now } }
{
    let mut next = at;
    next.position = at.position + part.len();
    if at.index == 0 {
        let absorbed = sponge::absorb(node, at.node, strength.rate, turboshake::ROUNDS, part);
        next.node = absorbed.position;
        return next;
    }
    let absorbed = sponge::absorb(leaf, at.leaf, strength.rate, turboshake::ROUNDS, part);
    next.leaf = absorbed.position;
    next
}

// Absorbs bytes of S a chunk at a time.
pub(crate) fn absorb(
    strength: Strength,
    node: &mut [u64; 25],
    leaf: &mut [u64; 25],
    at: Place,
    piece: &[u8],
) -> Place
    requires { Fits strength.rate (tree_of node.old leaf.old at) × (at.index + length piece.now < 2 ^ 63) }
    ensures fits { Fits strength.rate (tree_of node.new leaf.new result) }
    ensures index_bound { result.index ≤ at.index + length piece.now }
    ensures result_after { tree_of node.new leaf.new result ≡ absorb_tree strength.rate strength.chaining (tree_of node.old leaf.old at) piece.now }
{
    let mut place = at;
    let mut rest = piece;
    while !rest.is_empty() {
        let next = next_byte(strength, node, leaf, place);
        let k = (CHUNK - next.position).min(rest.len());
        let (part, after) = rest.split_at(k);
        place = absorb_part(strength, node, leaf, next, part);
        rest = after;
    }
    place
}

// Closes the tree once all of S is in: the final node is ready to be squeezed.
fn close(strength: Strength, node: &mut [u64; 25], leaf: &mut [u64; 25], at: Place)
    requires { Fits strength.rate (tree_of node.old leaf.old at) }
    ensures { record { value = node.new; position = 0 } ≡ close_to strength.rate strength.chaining at.index (record { value = node.old; position = at.node }) (record { value = leaf.old; position = at.leaf }) }
{
    if at.index == 0 {
        let single = sponge::pad(
            node,
            at.node,
            strength.rate,
            turboshake::ROUNDS,
            SINGLE_NODE,
        );
        return;
    }
    let mut value = [0u8; 64];
    let valued = absorb_value(
        strength,
        node,
        at.node,
        leaf,
        at.leaf,
        &mut value[0..strength.chaining],
    );
    let encoded = crate::length_encode(at.index);
    let counted = sponge::absorb(
        node,
        valued,
        strength.rate,
        turboshake::ROUNDS,
        encoded.as_slice(),
    );
    let trailer = TRAILER;
    let ended = sponge::absorb(
        node,
        counted.position,
        strength.rate,
        turboshake::ROUNDS,
        &trailer,
    );
    let padded = sponge::pad(
        node,
        ended.position,
        strength.rate,
        turboshake::ROUNDS,
        FINAL_NODE,
    );
}

// The length of the customization string follows it, and the tree is closed.
pub(crate) fn finish(
    strength: Strength,
    node: &mut [u64; 25],
    leaf: &mut [u64; 25],
    at: Place,
    length: u64,
)
    requires { Fits strength.rate (tree_of node.old leaf.old at) × (at.index + 9 < 2 ^ 63) }
    ensures { record { value = node.new; position = 0 } ≡ finish_tree strength.rate strength.chaining (tree_of node.old leaf.old at) length }
{
    let encoded = crate::length_encode(length);
    let whole = absorb(strength, node, leaf, at, encoded.as_slice());
    close(strength, node, leaf, whole);
}

// The customization string and its length follow the message, and the tree is closed.
pub(crate) fn finalize(
    strength: Strength,
    node: &mut [u64; 25],
    leaf: &mut [u64; 25],
    at: Place,
    customization: &[u8],
)
    requires { Fits strength.rate (tree_of node.old leaf.old at) × (at.index + length customization.now + 9 < 2 ^ 63) }
    ensures { record { value = node.new; position = 0 } ≡ finalize_tree strength.rate strength.chaining (tree_of node.old leaf.old at) customization.now }
{
    let named = absorb(strength, node, leaf, at, customization);
    finish(strength, node, leaf, named, customization.len() as u64);
}
