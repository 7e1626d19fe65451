// The lines that are written, one for each record.
//
// Runs and outputs are nearly all that is written, so their digits are put together in a text, and that is written, of a long output a part at a time.
// Formatted by `Display` each character goes by itself: a run of KT took twice as long, and a long output nine times (docs/LOOK-BACK.md).
ghost use Rattle.std.specs.Prelude.{◌+◌, ◌*◌, ◌≤◌, length};

use crate::lent::Words;
use std::io;

#[derive(Clone, Copy)]
pub enum Line<'a> {
    Fresh,
    Set,
    Status(u8),
    // The status, and the output.
    Output(u8, &'a [u8]),
    // The status, and the words that were lent.
    Lent(u8, Words),
    LentOutput(u8, &'a [u8], Words),
    // The status, and whether the tag is right.
    Verdict(u8, bool),
    Sponge(hasher::Run),
    // With the bit that says SHAKE.
    CShake(hasher::Run, bool),
    // With the output length.
    Kmac(hasher::Run, u64),
    Kt(kangarootwelve::Run),
}

// As many bytes of an output have their digits put together at a time.
const PART: usize = 16_384;

// The digits of a part, and the character that follows an output.
pub const TEXT: usize = 2 * PART + 1;

// Puts the bytes' digits, for which there is room.
fn put_digits(text: &mut [u8], at: usize, bytes: &[u8])
    requires { at + 2 * length bytes.now ≤ length text.old }
{
    let fits = hexadecimal::put(text, at, bytes);
    prove!(fits);
}

// Puts numbers of 16 digits, each after a byte that the text has.
fn put_numbers(text: &mut [u8], at: usize, numbers: &[u64])
    requires { at + 17 * length numbers.now ≤ length text.old }
{
    for (i, number) in numbers.iter().enumerate() {
        put_digits(text, at + 17 * i + 1, &number.to_be_bytes());
    }
}

// Two digits, numbers of a space and 16 digits each, and a line end: 29 numbers and 496 bytes, and before the position, at byte 53, a space and two
// digits for each byte of `own`.
//
// The phase, the bytes absorbed, the bytes squeezed and the permutations; what a run of SP 800-185 has of its own, which is its bit or its output length;
// the position and the lanes.
fn write_run(rt: &impl Print, run: hasher::Run, own: &[u8]) -> io::Result<()>
    requires { length own.now ≤ 8 }
{
    let hasher::Run {
        lanes,
        position,
        phase,
        absorbed,
        squeezed,
        permutations,
    } = run;
    let mut text = [b' '; 513];
    let place = 53 + own.len().min(1) + 2 * own.len();
    put_digits(&mut text, 0, &[phase]);
    put_numbers(&mut text, 2, &[absorbed, squeezed, permutations]);
    put_digits(&mut text, 54, own);
    put_numbers(&mut text, place, &[position as u64]);
    put_numbers(&mut text, place + 17, &lanes);
    text[place + 442] = b'\n';
    rt.write_all(&text[..place + 443])
}

// As of a run of the sponge, but after the bytes squeezed come the customization bytes and the permutations; the positions of the final
// node and of the leaf, then the lanes of each: 56 numbers and 955 bytes.
fn write_tree(rt: &impl Print, run: kangarootwelve::Run) -> io::Result<()> {
    let kangarootwelve::Run {
        node,
        leaf,
        phase,
        absorbed,
        customized,
        squeezed,
        permutations,
    } = run;
    let mut text = [b' '; 955];
    put_digits(&mut text, 0, &[phase]);
    put_numbers(
        &mut text,
        2,
        &[absorbed, squeezed, customized, permutations],
    );
    put_numbers(&mut text, 70, &[node.position as u64, leaf.position as u64]);
    put_numbers(&mut text, 104, &node.lanes);
    put_numbers(&mut text, 529, &leaf.lanes);
    text[954] = b'\n';
    rt.write_all(&text)
}

// The digits of a part of an output.
fn write_part(rt: &impl Print, part: &[u8], text: &mut [u8; TEXT]) -> io::Result<()>
    requires { length part.now ≤ 16384 }
{
    put_digits(text, 0, part);
    rt.write_all(&text[..2 * part.len()])
}

// Those of its last bytes, and the character that follows them.
fn write_rest(rt: &impl Print, rest: &[u8], last: u8, text: &mut [u8; TEXT]) -> io::Result<()>
    requires { length rest.now ≤ 16384 }
{
    let end = 2 * rest.len();
    put_digits(text, 0, rest);
    text[end] = last;
    rt.write_all(&text[..end + 1])
}

// The digits of an output, and the character that follows them.
fn write_ended(rt: &impl Print, out: &[u8], last: u8, text: &mut [u8; TEXT]) -> io::Result<()> {
    let (parts, rest) = out.split_at(out.len() - out.len() % PART);
    for part in parts.chunks(PART) {
        write_part(rt, part, text)?;
    }
    write_rest(rt, rest, last, text)
}

impl Line<'_> {
    // `text` may hold anything before.
    pub fn write(self, rt: &impl Print, text: &mut [u8; TEXT]) -> io::Result<()> {
        match self {
            Line::Fresh => println!(rt; "fresh"),
            Line::Set => println!(rt; "set"),
            Line::Status(status) => println!(rt; "{status}"),
            Line::Output(status, out) => {
                print!(rt; "{status} ")?;
                write_ended(rt, out, b'\n', text)
            }
            Line::Lent(status, words) => println!(rt; "{status} {words}"),
            Line::LentOutput(status, out, words) => {
                print!(rt; "{status} ")?;
                write_ended(rt, out, b' ', text)?;
                println!(rt; "{words}")
            }
            Line::Verdict(status, true) => println!(rt; "{status} yes"),
            Line::Verdict(status, false) => println!(rt; "{status} no"),
            Line::Sponge(run) => write_run(rt, run, &[]),
            Line::CShake(run, shake) => write_run(rt, run, &[u8::from(shake)]),
            Line::Kmac(run, length) => write_run(rt, run, &length.to_be_bytes()),
            Line::Kt(run) => write_tree(rt, run),
        }
    }
}
