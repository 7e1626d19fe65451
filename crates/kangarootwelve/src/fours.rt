// The tree with every four leaves that lie whole in a piece abreast, in a lent slice of 100 words. The slice is zero before and after. A leaf is ended
// when the next one's first byte arrives, as in `tree`: so four that end where the piece ends leave the last of them open.
ghost use Rattle.std.specs.Prelude.{◌≡◌, ◌<◌, ◌≤◌, ◌+◌, ◌^◌, ◌%◌, length, replicate};
ghost use Rattle.kangarootwelve.specs.Tree.{absorb_tree};
ghost use Rattle.kangarootwelve.specs.Inside.{tree_of, Fits};
ghost use Rattle.kangarootwelve.specs.Leaves.{cleared};

use crate::{Place, Strength, leaves, tree};

// The bytes of four chunks.
const FOUR_CHUNKS: usize = 4 * tree::CHUNK;

// Absorbs up to four chunks from the first byte of a leaf on: four whole ones abreast, of which the last stays open, and fewer as the tree does.
fn absorb_last(
    strength: Strength,
    node: &mut [u64; 25],
    leaf: &mut [u64; 25],
    at: Place,
    chunks: &[u8],
    states: &mut [u64],
    value: &mut [u8],
) -> Place
    requires value_len { length value.old ≡ strength.chaining }
    requires leaf_begins { (at.node ≤ strength.rate) × (at.leaf ≡ 0) × (0 < at.index) × (at.position ≡ 0) × (at.index + length chunks.now < 2 ^ 63) × (leaf.old ≡ replicate 25 0) × (states.old ≡ cleared) }
    ensures fits { Fits strength.rate (tree_of node.new leaf.new result) × (states.new ≡ cleared) }
    ensures index_bound { result.index ≤ at.index + length chunks.now }
    ensures result_after { tree_of node.new leaf.new result ≡ absorb_tree strength.rate strength.chaining (tree_of node.old leaf.old at) chunks.now }
{
    if chunks.len() == FOUR_CHUNKS {
        let open = leaves::absorb_open(strength, node, at.node, leaf, chunks, states, value);
        return Place {
            node: open.node,
            leaf: open.leaf,
            index: at.index + 3,
            position: tree::CHUNK,
        };
    }
    tree::absorb(strength, node, leaf, at, chunks)
}

// Absorbs chunks from the first byte of a leaf on.
fn absorb_leaves(
    strength: Strength,
    node: &mut [u64; 25],
    leaf: &mut [u64; 25],
    at: Place,
    chunks: &[u8],
    states: &mut [u64],
    value: &mut [u8],
) -> Place
    requires value_len { length value.old ≡ strength.chaining }
    requires leaf_begins { (at.node ≤ strength.rate) × (at.leaf ≡ 0) × (0 < at.index) × (at.position ≡ 0) × (at.index + length chunks.now < 2 ^ 63) × (leaf.old ≡ replicate 25 0) × (states.old ≡ cleared) × (0 < length chunks.now) }
    ensures fits { Fits strength.rate (tree_of node.new leaf.new result) × (states.new ≡ cleared) }
    ensures index_bound { result.index ≤ at.index + length chunks.now }
    ensures result_after { tree_of node.new leaf.new result ≡ absorb_tree strength.rate strength.chaining (tree_of node.old leaf.old at) chunks.now }
{
    let mut place = at;
    let mut rest = chunks;
    while FOUR_CHUNKS < rest.len() {
        let (four, _) = rest.split_at(FOUR_CHUNKS);
        let position = leaves::absorb_four(strength, node, place.node, four, states, value);
        place = tree::opened(position, place.index + 4);
        let (_, after) = rest.split_at(FOUR_CHUNKS);
        rest = after;
    }
    absorb_last(strength, node, leaf, place, rest, states, value)
}

// Absorbs bytes of S. What comes before the first leaf that begins in the piece, and the leaves after the last four whole ones, go through the tree.
pub(crate) fn absorb(
    strength: Strength,
    node: &mut [u64; 25],
    leaf: &mut [u64; 25],
    at: Place,
    piece: &[u8],
    states: &mut [u64],
) -> Place
    requires place_fits { Fits strength.rate (tree_of node.old leaf.old at) × (at.index + length piece.now + 1 < 2 ^ 63) }
    requires states_cleared { states.old ≡ cleared }
    ensures fits { Fits strength.rate (tree_of node.new leaf.new result) × (states.new ≡ cleared) }
    ensures index_bound { result.index ≤ at.index + length piece.now + 1 }
    ensures result_after { tree_of node.new leaf.new result ≡ absorb_tree strength.rate strength.chaining (tree_of node.old leaf.old at) piece.now }
{
    let lead = tree::CHUNK - at.position;
    if piece.len() < lead + FOUR_CHUNKS {
        return tree::absorb(strength, node, leaf, at, piece);
    }
    let full = tree::absorb(strength, node, leaf, at, &piece[..lead]);
    let next = tree::end_chunk(strength, node, leaf, full);
    let mut value = [0u8; 64];
    absorb_leaves(
        strength,
        node,
        leaf,
        next,
        &piece[lead..],
        states,
        &mut value[0..strength.chaining],
    )
}
