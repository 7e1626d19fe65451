// What goes before a message, absorbed where its strings lie. The zeros of bytepad change no lane, so that a start sets the position to the rate:
// the last block waits, full.
ghost use Rattle.std.specs.Prelude.{◌≡◌, ◌++◌, ◌+◌, ◌<◌, ◌≤◌, length};
ghost use Rattle.sp800_185.specs.Published.{encode_string, bytepad};
ghost use Rattle.sp800_185.specs.Start.{string_limit, key_limit, kmac_prefix, start_run, encoded_length, padded_blocks};

use crate::encode;
use hasher::Run;

// The bytes of encode_string of n bytes.
fn encoded_length(n: u64) -> u64
    requires { n ≤ key_limit }
    ensures { (result ≡ encoded_length n) × (result ≤ n + 9) }
{
    encode::right_length(8 * n) + n
}

// The blocks of bytepad of n bytes.
// Kept: the bounds of the rate, here and below: a start takes no other number of its function.
fn padded_blocks(rate: usize, n: u64) -> u64
    requires { (0 < rate) × (rate ≤ 200) × (n ≤ key_limit + key_limit) }
    ensures { (result ≡ padded_blocks rate n) × (0 < result) × (result ≤ n + 9) }
{
    let total = encode::right_length(rate as u64) + n;
    (total + (rate as u64 - 1)) / (rate as u64)
}

// The run after bytepad(encode_string(name) || encode_string(string), rate).
pub(crate) fn cshake_start(rate: usize, name: &[u8], string: &[u8]) -> Run
    requires { (0 < rate) × (rate ≤ 200) × (length name.now ≤ string_limit) × (length string.now ≤ string_limit) }
    ensures { result ≡ start_run rate (bytepad (encode_string name.now ++ encode_string string.now) rate) }
{
    let mut lanes = [0u64; 25];
    let first = encode::absorb_left(&mut lanes, 0, rate, rate as u64);
    let second = encode::absorb_string(&mut lanes, first, rate, name);
    encode::absorb_string(&mut lanes, second, rate, string);
    let bytes = encoded_length(name.len() as u64) + encoded_length(string.len() as u64);
    let blocks = padded_blocks(rate, bytes);
    Run {
        lanes,
        position: rate,
        phase: 0,
        absorbed: 0,
        squeezed: 0,
        permutations: blocks - 1,
    }
}

// The run after the prefix of cSHAKE with the name KMAC, and bytepad(encode_string(key), rate).
pub(crate) fn kmac_start(rate: usize, key: &[u8], string: &[u8]) -> Run
    requires { (0 < rate) × (rate ≤ 200) × (length key.now ≤ key_limit) × (length string.now ≤ string_limit) }
    ensures { result ≡ start_run rate (kmac_prefix rate key.now string.now) }
{
    let run = cshake_start(rate, b"KMAC", string);
    let mut lanes = run.lanes;
    let first = encode::absorb_left(&mut lanes, rate, rate, rate as u64);
    encode::absorb_string(&mut lanes, first, rate, key);
    let blocks = padded_blocks(rate, encoded_length(key.len() as u64));
    let mut next = run;
    next.lanes = lanes;
    next.permutations = run.permutations + blocks;
    next
}
