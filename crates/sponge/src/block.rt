// Bytes in and out of one block of the state: whole lanes at once, and what is ragged at both ends apart.
ghost use Rattle.std.specs.Prelude.{◌≡◌, ◌+◌, ◌*◌, ◌^◌, ◌<◌, ◌≤◌, length, take, drop};
ghost use Rattle.keccak.specs.State.{byte_at, word};
ghost use Rattle.sponge.specs.Cut.{puts};
ghost use Rattle.sponge.specs.Published.{xor_byte, bytes_from};
ghost use Rattle.sponge.specs.Words.{with_word};

fn wide(x: u8) -> u64
    ensures { (result ≡ x) × (result < 256) }
{
    x as u64
}

pub(crate) fn xor_byte(lanes: &mut [u64; 25], at: usize, b: u8)
    requires { at < 200 }
    ensures { lanes.new ≡ xor_byte lanes.old at b }
{
    let q = at / 8;
    let s = 8 * (at % 8);
    lanes[q] = lanes[q] ^ (wide(b) << s);
}

// Four bytes from index i on as a number, the least significant first.
fn half_word_at(s: &[u8], i: usize) -> u64
    requires { i + 4 ≤ length s.now }
    ensures { (result ≡ word (take 4 (drop i s.now))) × (result < 2 ^ 32) }
{
    u64::from(u32::from_le_bytes([s[i], s[i + 1], s[i + 2], s[i + 3]]))
}

// The same of eight bytes.
pub(crate) fn word_at(s: &[u8], i: usize) -> u64
    requires { i + 8 ≤ length s.now }
    ensures { result ≡ word (take 8 (drop i s.now)) }
{
    u64::from_le_bytes([
        s[i],
        s[i + 1],
        s[i + 2],
        s[i + 3],
        s[i + 4],
        s[i + 5],
        s[i + 6],
        s[i + 7],
    ])
}

// The same of all bytes from index i on, fewer than four: a case for each count costs less than a loop.
// Kept: std has no call for a part of a word.
fn word_from(s: &[u8], i: usize) -> u64
    requires { (i ≤ length s.now) × (length s.now < i + 4) }
    ensures { (result ≡ word (drop i s.now)) × (result < 2 ^ 24) }
{
    let n = s.len() - i;
    if n == 0 {
        return 0;
    }
    if n == 1 {
        return wide(s[i]);
    }
    if n == 2 {
        return wide(s[i]) + wide(s[i + 1]) * 0x100;
    }
    wide(s[i]) + wide(s[i + 1]) * 0x100 + wide(s[i + 2]) * 0x1_0000
}

// Up to eight bytes as a number, the least significant first.
fn word_of(s: &[u8]) -> u64
    requires { length s.now ≤ 8 }
    ensures { result ≡ word s.now }
{
    if s.len() < 4 {
        return word_from(s, 0);
    }
    if s.len() < 8 {
        return half_word_at(s, 0) + word_from(s, 4) * 0x1_0000_0000;
    }
    word_at(s, 0)
}

// Up to eight bytes XORed into the state from byte `at` on, into one lane or two.
pub(crate) fn xor_bytes(lanes: &mut [u64; 25], at: usize, s: &[u8])
    requires { (at < 200) × (at + length s.now ≤ 200) × (length s.now ≤ 8) }
    ensures { lanes.new ≡ puts xor_byte lanes.old at s.now }
{
    let q = at / 8;
    let shift = 8 * (at % 8);
    let w = word_of(s);
    lanes[q] = lanes[q] ^ (w << shift);
    if 8 < at % 8 + s.len() {
        lanes[q + 1] = lanes[q + 1] ^ (w >> (64 - shift));
    }
}

// Bytes XORed into the state from the start of lane `first` on: whole lanes, and what is left.
// Kept: beside `four::xor_words`, as `read_words` is. This goes from any lane to a ragged end, that over four states: a text for both is no plainer.
fn xor_words(lanes: &mut [u64; 25], first: usize, s: &[u8])
    requires { 8 * first + length s.now ≤ 200 }
    ensures { lanes.new ≡ puts xor_byte lanes.old (8 * first) s.now }
{
    let words = s.len() / 8;
    for q in 0..words {
        lanes[first + q] = lanes[first + q] ^ word_at(s, 8 * q);
    }
    if 8 * words < s.len() {
        xor_bytes(lanes, 8 * (first + words), &s[8 * words..]);
    }
}

// The same from any byte on.
pub(crate) fn xor_part(lanes: &mut [u64; 25], at: usize, s: &[u8])
    requires { (at < 200) × (at + length s.now ≤ 200) }
    ensures { lanes.new ≡ puts xor_byte lanes.old at s.now }
{
    if s.len() <= 8 {
        xor_bytes(lanes, at, s);
    } else {
        let h = (8 - at % 8) % 8;
        xor_bytes(lanes, at, &s[..h]);
        xor_words(lanes, (at + h) / 8, &s[h..]);
    }
}

fn byte_of(lanes: &[u64; 25], at: usize) -> u8
    requires { at < 200 }
    ensures { result ≡ byte_at lanes.now at }
{
    let q = at / 8;
    let s = 8 * (at % 8);
    let w = (lanes[q] >> s) % 256;
    w as u8
}

// A word's eight bytes, the least significant first, at index i.
pub(crate) fn put_word(out: &mut [u8], i: usize, w: u64)
    requires { i + 8 ≤ length out.old }
    ensures { out.new ≡ with_word out.old i w }
{
    out[i..i + 8].copy_from_slice(&w.to_le_bytes());
}

// The bytes of the state from byte `at` on, one by one.
fn read_bytes(lanes: &[u64; 25], at: usize, out: &mut [u8])
    requires { at + length out.old ≤ 200 }
    ensures { out.new ≡ bytes_from lanes.now at (length out.old) }
{
    for (i, byte) in out.iter_mut().enumerate() {
        *byte = byte_of(lanes, at + i);
    }
}

// The same from the start of lane `first` on, in words, and what is left one by one.
fn read_words(lanes: &[u64; 25], first: usize, out: &mut [u8])
    requires { 8 * first + length out.old ≤ 200 }
    ensures { out.new ≡ bytes_from lanes.now (8 * first) (length out.old) }
{
    let words = out.len() / 8;
    for q in 0..words {
        put_word(out, 8 * q, lanes[first + q]);
    }
    read_bytes(lanes, 8 * (first + words), &mut out[8 * words..]);
}

// The same from any byte on.
pub(crate) fn read_part(lanes: &[u64; 25], at: usize, out: &mut [u8])
    requires { at + length out.old ≤ 200 }
    ensures { out.new ≡ bytes_from lanes.now at (length out.old) }
{
    let h = (8 - at % 8) % 8;
    if out.len() <= h {
        read_bytes(lanes, at, out);
    } else {
        read_bytes(lanes, at, &mut out[..h]);
        read_words(lanes, (at + h) / 8, &mut out[h..]);
    }
}
