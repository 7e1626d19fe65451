// HopMAC in one go: KT of the key, with the KT of the message and the customization string as customization string. And its tag check.
ghost use Rattle.std.specs.Prelude.{◌≡◌, ℕ, ◌&&◌, ◌<◌, ◌≤◌, length, eqb};
ghost use Rattle.std.proofs.Common.{rules};
ghost use Rattle.kangarootwelve.specs.Published.{hopmac};
ghost use Rattle.kangarootwelve.specs.Mac.{mac_status, mac_output, check_status, same_bytes, verdict_of};

use crate::{
    CUSTOMIZATION_LIMIT, HopMac128, HopMac256, Kt, Kt128, Kt256, Strength, TAG_LIMIT, Verdict,
    one_go,
};
use sponge::status;
use turboshake::MESSAGE_LIMIT;

fn mac_status(key: u64, message: u64, customization: u64, asked: u64) -> u8
    ensures { result ≡ mac_status key message customization asked }
{
    if MESSAGE_LIMIT < key {
        return status::INPUT_TOO_LONG;
    }
    one_go::hash_status(message, customization, asked)
}

// Writes the inner digest to `digest` and the tag to `out`.
fn mac_over(
    strength: Strength,
    key: &[u8],
    message: &[u8],
    customization: &[u8],
    digest: &mut [u8],
    out: &mut [u8],
) -> u8
    requires { (0 < length digest.old) × (length digest.old ≤ 64) × (mac_status (length key.now) (length message.now) (length customization.now) (length out.old) ≡ 0) }
    ensures value { result ≡ 0 }
    ensures out_after { out.new ≡ hopmac strength.rate strength.chaining (length digest.old) key.now message.now customization.now (length out.old) }
{
    let hashed = one_go::hash(strength, message, customization, digest);
    one_go::hash(strength, key, digest, out)
}

pub(crate) fn tag(
    strength: Strength,
    inner: usize,
    key: &[u8],
    message: &[u8],
    customization: &[u8],
    out: &mut [u8],
) -> u8
    requires { (0 < inner) × (inner ≤ 64) }
    ensures value { result ≡ mac_status (length key.now) (length message.now) (length customization.now) (length out.old) }
    ensures out_after { out.new ≡ mac_output strength.rate strength.chaining inner key.now message.now customization.now out.old }
{
    let refusal = mac_status(
        key.len() as u64,
        message.len() as u64,
        customization.len() as u64,
        out.len() as u64,
    );
    if refusal != status::DONE {
        return refusal;
    }
    let mut digest = [0u8; 64];
    mac_over(
        strength,
        key,
        message,
        customization,
        &mut digest[0..inner],
        out,
    )
}

fn check_status(key: u64, message: u64, customization: u64, presented: u64) -> u8
    ensures { result ≡ check_status key message customization presented }
{
    if MESSAGE_LIMIT < key {
        return status::INPUT_TOO_LONG;
    }
    if MESSAGE_LIMIT < message {
        return status::INPUT_TOO_LONG;
    }
    if CUSTOMIZATION_LIMIT < customization {
        return status::CUSTOMIZATION_TOO_LONG;
    }
    if presented == 0 {
        return status::BAD_LENGTH;
    }
    if presented <= TAG_LIMIT {
        return status::DONE;
    }
    status::BAD_LENGTH
}

// The difference gathered: 0 exactly where it was 0 and the two bytes are equal.
fn gather(difference: u8, x: u8, y: u8) -> u8
    ensures { eqb result 0 ≡ (eqb difference 0 && eqb x y) }
{
    difference | (x ^ y)
}

// Whether all bytes are equal. Every byte is looked at, wherever the first difference is.
pub(crate) fn is_same(expected: &[u8], presented: &[u8]) -> bool
    requires { length expected.now ≡ length presented.now }
    ensures { result ≡ same_bytes expected.now presented.now }
{
    let mut difference = 0u8;
    for (x, y) in expected.iter().zip(presented) {
        difference = gather(difference, *x, *y);
    }
    difference == 0
}

// Writes as many bytes of the tag as were presented to `expected`, and compares.
fn is_tag(
    strength: Strength,
    inner: usize,
    key: &[u8],
    message: &[u8],
    customization: &[u8],
    presented: &[u8],
    expected: &mut [u8],
) -> bool
    requires { (0 < inner) × (inner ≤ 64) × (length expected.old ≡ length presented.now) × (mac_status (length key.now) (length message.now) (length customization.now) (length presented.now) ≡ 0) }
    ensures { result ≡ same_bytes (hopmac strength.rate strength.chaining inner key.now message.now customization.now (length presented.now)) presented.now }
{
    let written = tag(strength, inner, key, message, customization, expected);
    is_same(expected, presented)
}

pub(crate) fn verify(
    strength: Strength,
    inner: usize,
    key: &[u8],
    message: &[u8],
    customization: &[u8],
    presented: &[u8],
) -> Verdict
    requires { (0 < inner) × (inner ≤ 64) }
    ensures { result ≡ verdict_of strength.rate strength.chaining inner key.now message.now customization.now presented.now }
{
    let refusal = check_status(
        key.len() as u64,
        message.len() as u64,
        customization.len() as u64,
        presented.len() as u64,
    );
    if refusal != status::DONE {
        return Verdict {
            status: refusal,
            valid: false,
        };
    }
    let mut expected = [0u8; 64];
    let valid = is_tag(
        strength,
        inner,
        key,
        message,
        customization,
        presented,
        &mut expected[0..presented.len()],
    );
    Verdict {
        status: refusal,
        valid,
    }
}

// A strength: its KT, and the bytes of the inner digest.
pub trait HopMac {
    type Hash: Kt;

    // The numbers of its KT, which the clauses cite, so that another strength's type for `Hash` is refused.
    ghost RATE: { ℕ };

    ghost CHAINING: { ℕ };

    ghost strength: { (Self.Hash.RATE ≡ RATE) × (Self.Hash.CHAINING ≡ CHAINING) };

    ghost INNER: { ℕ };

    const INNER: usize;

    // An inner digest fits a block.
    ghost bounds: { (0 < INNER) × (INNER ≤ 64) × (INNER ≤ Self.Hash.RATE) };

    // The tag of a message and a customization string under the key: as many bytes as `out` holds.
    final fn tag(key: &[u8], message: &[u8], customization: &[u8], out: &mut [u8]) -> u8
        ensures value { result ≡ mac_status (length key.now) (length message.now) (length customization.now) (length out.old) }
        ensures out_after { out.new ≡ mac_output RATE CHAINING INNER key.now message.now customization.now out.old }
    {
        tag(
            Strength::of::<Self::Hash>(),
            Self::INNER,
            key,
            message,
            customization,
            out,
        )
    }

    // Whether the presented tag, of 1 to 64 bytes, is that of the message and the customization string under the key.
    final fn verify(key: &[u8], message: &[u8], customization: &[u8], presented: &[u8]) -> Verdict
        ensures { result ≡ verdict_of RATE CHAINING INNER key.now message.now customization.now presented.now }
    {
        verify(
            Strength::of::<Self::Hash>(),
            Self::INNER,
            key,
            message,
            customization,
            presented,
        )
    }
}

impl HopMac for HopMac128 {
    type Hash = Kt128;

    ghost RATE = { 168 };

    ghost CHAINING = { 32 };

    ghost strength = { Prim.search rules };

    ghost INNER = { 32 };

    const INNER: usize = 32;

    ghost bounds = { Prim.search rules };
}

impl HopMac for HopMac256 {
    type Hash = Kt256;

    ghost RATE = { 136 };

    ghost CHAINING = { 64 };

    ghost strength = { Prim.search rules };

    ghost INNER = { 64 };

    const INNER: usize = 64;

    ghost bounds = { Prim.search rules };
}
