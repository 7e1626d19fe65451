// KT in one go. A chunk that lies wholly in the message is hashed where it lies; the chunks that the customization string and its
// length touch go through the tree, and where words are lent also S_0 and the leaves that are left over of fours.
ghost use Rattle.std.specs.Prelude.{◌≡◌, suc, ◌<◌, ◌≤◌, ◌*◌, ◌%◌, length};
ghost use Rattle.keccak.specs.Permutation.{permuted};
ghost use Rattle.sponge.specs.Model.{fresh, absorb_bytes};
ghost use Rattle.turboshake.specs.Published.{turboshake};
ghost use Rattle.kangarootwelve.specs.Published.{intermediate_domain};
ghost use Rattle.kangarootwelve.specs.Model.{hash_status, hash_output, abreast_status, abreast_output, states_after};
ghost use Rattle.kangarootwelve.specs.Inside.{ended_chunk, ended_chunks};

use crate::{CUSTOMIZATION_LIMIT, Place, Strength, fours, tree};
use sponge::status;
use turboshake::{MESSAGE_LIMIT, OUTPUT_LIMIT};

pub(crate) fn hash_status(message: u64, customization: u64, asked: u64) -> u8
    ensures { result ≡ hash_status message customization asked }
{
    if MESSAGE_LIMIT < message {
        return status::INPUT_TOO_LONG;
    }
    if CUSTOMIZATION_LIMIT < customization {
        return status::CUSTOMIZATION_TOO_LONG;
    }
    if asked == 0 {
        return status::BAD_LENGTH;
    }
    if OUTPUT_LIMIT < asked {
        return status::OUTPUT_TOO_LONG;
    }
    status::DONE
}

// Absorbs the chaining value of a chunk, as long as `value`, into the final node, and answers the final node's position.
fn absorb_leaf(
    strength: Strength,
    node: &mut [u64; 25],
    position: usize,
    leaf: &[u8],
    value: &mut [u8],
) -> usize
    requires { (position ≤ strength.rate) × (length leaf.now ≤ 8192) × (0 < length value.old) × (length value.old ≤ 64) }
    ensures { record { value = node.new; position = result } ≡ absorb_bytes permuted strength.rate (record { value = node.old; position = position }) (turboshake strength.rate leaf.now intermediate_domain (length value.entry.now)) }
{
    let hashed = turboshake::hash_at_rate(strength.rate, leaf, tree::INTERMEDIATE_NODE, value);
    let absorbed = sponge::absorb(node, position, strength.rate, turboshake::ROUNDS, value);
    absorbed.position
}

// Absorbs chunk `index` of the message, of which another follows, and answers the final node's position.
fn absorb_chunk(
    strength: Strength,
    node: &mut [u64; 25],
    position: usize,
    index: usize,
    part: &[u8],
) -> usize
    requires { (position ≤ strength.rate) × (length part.now ≤ 8192) }
    ensures upper_bound { result ≤ strength.rate }
    ensures index_after { record { final = record { value = node.new; position = result }; leaf = fresh; index = suc index } ≡ ended_chunk strength.rate strength.chaining (record { final = record { value = node.old; position = position }; leaf = fresh; index = index }) part.now }
{
    if index == 0 {
        let first = sponge::absorb(node, position, strength.rate, turboshake::ROUNDS, part);
        let marker = tree::MARKER;
        let marked = sponge::absorb(
            node,
            first.position,
            strength.rate,
            turboshake::ROUNDS,
            &marker,
        );
        return marked.position;
    }
    let mut value = [0u8; 64];
    absorb_leaf(
        strength,
        node,
        position,
        part,
        &mut value[0..strength.chaining],
    )
}

// Absorbs the first chunks of the message, `count` of them, each where it lies, and answers the final node's position.
fn absorb_chunks(strength: Strength, node: &mut [u64; 25], message: &[u8], count: usize) -> usize
    requires { count * 8192 ≤ length message.now }
    ensures upper_bound { result ≤ strength.rate }
    ensures count_after { record { final = record { value = node.new; position = result }; leaf = fresh; index = count } ≡ ended_chunks strength.rate strength.chaining count (record { final = record { value = node.old; position = 0 }; leaf = fresh; index = 0 }) message.now }
{
    let mut p = 0;
    for i in 0..count {
        let from = i * tree::CHUNK;
        p = absorb_chunk(strength, node, p, i, &message[from..from + tree::CHUNK]);
    }
    p
}

pub(crate) fn hash(strength: Strength, message: &[u8], customization: &[u8], out: &mut [u8]) -> u8
    ensures value { result ≡ hash_status (length message.now) (length customization.now) (length out.old) }
    ensures out_after { out.new ≡ hash_output strength.rate strength.chaining message.now customization.now out.old }
{
    let refusal = hash_status(
        message.len() as u64,
        customization.len() as u64,
        out.len() as u64,
    );
    if refusal != status::DONE {
        return refusal;
    }
    let whole = message.len() / tree::CHUNK;
    let mut node = [0u64; 25];
    let mut leaf = [0u64; 25];
    let position = absorb_chunks(strength, &mut node, message, whole);
    let at = Place {
        node: position,
        leaf: 0,
        index: whole as u64,
        position: 0,
    };
    let from = whole * tree::CHUNK;
    let last = tree::absorb(strength, &mut node, &mut leaf, at, &message[from..]);
    tree::finalize(strength, &mut node, &mut leaf, last, customization);
    let squeezed = sponge::squeeze(&mut node, 0, strength.rate, turboshake::ROUNDS, out);
    squeezed.status
}

// The same with every four leaves that lie whole in the message, from S_1 on, abreast in the lent words.
pub(crate) fn hash_abreast(
    strength: Strength,
    message: &[u8],
    customization: &[u8],
    out: &mut [u8],
    states: &mut [u64],
) -> u8
    ensures value { result ≡ abreast_status (length states.old) (length message.now) (length customization.now) (length out.old) }
    ensures out_after { out.new ≡ abreast_output strength.rate strength.chaining (length states.old) message.now customization.now out.old }
    ensures states_after { states.new ≡ states_after result states.old }
{
    if states.len() != 100 {
        return status::BAD_STATES;
    }
    let refusal = hash_status(
        message.len() as u64,
        customization.len() as u64,
        out.len() as u64,
    );
    if refusal != status::DONE {
        return refusal;
    }
    abreast::clear(states);
    let mut node = [0u64; 25];
    let mut leaf = [0u64; 25];
    let first = tree::opened(0, 0);
    let last = fours::absorb(strength, &mut node, &mut leaf, first, message, states);
    tree::finalize(strength, &mut node, &mut leaf, last, customization);
    let squeezed = sponge::squeeze(&mut node, 0, strength.rate, turboshake::ROUNDS, out);
    squeezed.status
}
