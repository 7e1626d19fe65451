// Bytes as text: two lower-case hex digits each.
#![tactic(auto)]

mod display;

ghost use Rattle.std.specs.Prelude.{◌≡◌, ◌+◌, ◌/◌, ◌%◌, ◌<◌, length, set};
ghost use Rattle.hexadecimal.specs.Hex.{fits, with_hex};
ghost use Rattle.hexadecimal.specs.Hex.{digit as Hex·digit};

pub use display::DigitsOf;

fn digit(d: u8) -> u8
    requires { d < 16 }
    ensures { result ≡ Hex·digit d }
{
    if d < 10 { b'0' + d } else { b'a' - 10 + d }
}

// Puts a byte's two digits into the text.
fn put_byte(text: &mut [u8], at: usize, byte: u8)
    requires { at + 1 < length text.old }
    ensures { text.new ≡ set (set text.old at (Hex·digit (byte / 16))) (at + 1) (Hex·digit (byte % 16)) }
{
    text[at] = digit(byte / 16);
    text[at + 1] = digit(byte % 16);
}

// Whether the digits of n bytes fit. Nothing is added or doubled, so that nothing can overflow.
fn has_room(size: usize, at: usize, n: usize) -> bool
    ensures { result ≡ fits size at n }
{
    at <= size && n <= (size - at) / 2
}

// Puts the lower-case digits of the bytes into the text from `at` on; where they do not fit, puts nothing and answers false.
pub fn put(text: &mut [u8], at: usize, bytes: &[u8]) -> bool
    ensures value { result ≡ fits (length text.old) at (length bytes.now) }
    ensures text_after { text.new ≡ with_hex text.old at bytes.now }
{
    if !has_room(text.len(), at, bytes.len()) {
        return false;
    }
    for (i, byte) in bytes.iter().enumerate() {
        put_byte(text, at + 2 * i, *byte);
    }
    true
}
