// What the totals tell, in constant time: positions, the chunk in hand, and the permutations of the definition so far, of both nodes.
ghost use Rattle.std.specs.Prelude.{◌≡◌, ◌+◌, ◌*◌, ◌^◌, ◌<◌, ◌≤◌, length};
ghost use Rattle.sponge.specs.Waiting.{position_after, index_after};
ghost use Rattle.sponge.specs.Count.{open_count, closed_count};
ghost use Rattle.turboshake.specs.Transcript.{message_limit, output_limit};
ghost use Rattle.kangarootwelve.specs.Published.{chunk, length_encode};
ghost use Rattle.kangarootwelve.specs.Transcript.{customization_limit};
ghost use Rattle.kangarootwelve.specs.Count.{tree_count, closed_tree, open_kt, closed_kt};

use crate::{Strength, tree};

// The position after n bytes in pieces of r: a full piece is left full.
pub(crate) fn position_after(r: usize, n: u64) -> usize
    requires { 0 < r }
    ensures { result ≡ position_after r n }
{
    if n == 0 {
        return 0;
    }
    ((n - 1) % (r as u64)) as usize + 1
}

// The number of the chunk in hand after n bytes.
pub(crate) fn index_after(n: u64) -> u64
    ensures { result ≡ index_after chunk n }
{
    if n == 0 {
        return 0;
    }
    (n - 1) / (tree::CHUNK as u64)
}

// The permutations of a node that absorbed n bytes: a full block is permuted when its next byte arrives.
fn open_count(strength: Strength, n: u64) -> u64
    ensures { (result ≡ open_count strength.rate n) × (result ≤ n) }
{
    if n == 0 {
        return 0;
    }
    (n - 1) / (strength.rate as u64)
}

// Those of one that is closed after m bytes, with n squeezed.
fn closed_count(strength: Strength, m: u64, n: u64) -> u64
    requires { (m ≤ 2 ^ 40) × (n ≤ 2 ^ 40) }
    ensures { (result ≡ closed_count strength.rate m n) × (result ≤ m + n + 1) }
{
    m / (strength.rate as u64) + 1 + open_count(strength, n)
}

// The bytes of length_encode of a number of 24 bits.
fn encoded_bytes(x: u64) -> u64
    requires { x ≤ customization_limit }
    ensures { (result ≡ length (length_encode x)) × (result ≤ 4) }
{
    if x == 0 {
        return 1;
    }
    if x < 256 {
        return 2;
    }
    if x < 65536 {
        return 3;
    }
    4
}

// The bytes of the final node once k chaining values are in.
pub(crate) fn node_bytes(strength: Strength, k: u64) -> u64
    requires { k ≤ customization_limit }
    ensures { (result ≡ chunk + 8 + k * strength.chaining) × (result ≤ 2 ^ 39) }
{
    tree::CHUNK as u64 + 8 + k * (strength.chaining as u64)
}

// Those of k leaves that are closed.
fn leaves_count(strength: Strength, k: u64) -> u64
    requires { k ≤ customization_limit }
    ensures { (result ≡ k * closed_count strength.rate chunk strength.chaining) × (result ≤ 2 ^ 40) }
{
    k * closed_count(strength, tree::CHUNK as u64, strength.chaining as u64)
}

// Those of a tree with o bytes of chunk q in hand.
pub(crate) fn tree_count(strength: Strength, q: u64, o: u64) -> u64
    requires { (q ≤ customization_limit) × (o ≤ 8192) }
    ensures { result ≡ tree_count strength.rate strength.chaining q o }
{
    if q == 0 {
        return open_count(strength, o);
    }
    open_count(strength, node_bytes(strength, q - 1))
        + leaves_count(strength, q - 1)
        + open_count(strength, o)
}

// Those of one closed so, with j bytes squeezed.
fn closed_tree(strength: Strength, q: u64, o: u64, j: u64) -> u64
    requires { (q ≤ customization_limit) × (o ≤ 8192) × (j ≤ output_limit) }
    ensures { result ≡ closed_tree strength.rate strength.chaining q o j }
{
    if q == 0 {
        return closed_count(strength, o, j);
    }
    let node = node_bytes(strength, q) + encoded_bytes(q) + 2;
    closed_count(strength, node, j)
        + leaves_count(strength, q - 1)
        + closed_count(strength, o, strength.chaining as u64)
}

// Those of a run with n bytes of M and C, which is not closed.
pub(crate) fn open_kt(strength: Strength, n: u64) -> u64
    requires { n ≤ message_limit + customization_limit }
    ensures { result ≡ open_kt strength.rate strength.chaining n }
{
    tree_count(
        strength,
        index_after(n),
        position_after(tree::CHUNK, n) as u64,
    )
}

// Those of one that is closed, with j bytes squeezed: C has `customized` of the n bytes.
pub(crate) fn closed_kt(strength: Strength, n: u64, customized: u64, j: u64) -> u64
    requires { (n ≤ message_limit + customization_limit) × (customized ≤ customization_limit) × (j ≤ output_limit) }
    ensures { result ≡ closed_kt strength.rate strength.chaining n customized j }
{
    let whole = n + encoded_bytes(customized);
    closed_tree(
        strength,
        index_after(whole),
        position_after(tree::CHUNK, whole) as u64,
        j,
    )
}
