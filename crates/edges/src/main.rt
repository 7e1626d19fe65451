// Runs TurboSHAKE with messages and outputs that end around the ends of the first two blocks, and with domain bytes on both
// sides of those that are taken, in one go and cut into small pieces. Writes a line for each: the function, `one` or `cut`, the
// message's length, the domain byte, the bytes asked, the status and the output buffer. Messages are the draft's test pattern
// ptn; the buffer holds A5 in every byte before the calls. Then the same for KT.
#![tactic(auto)]

mod kt;
mod line;
mod pieces;

ghost use Rattle.std.specs.Prelude.{◌≤◌, All};

use functions::Function;
use hasher::{Answer, Hasher, Refusal, Run};
use line::{LONGEST, write_answer};
use pieces::{Pieces, done};
use std::{fmt, io};
use turboshake::{TurboShake128, TurboShake256};

const DOMAIN: u8 = 0x1f;

// Two that are taken, three that are refused.
const DOMAINS: [u8; 5] = [0x01, 0x7f, 0x00, 0x80, 0xff];

// Kept: edges and vectors share it, and a crate with its contract and edits would be longer.
#[derive(Clone, Copy)]
enum TurboShake {
    Bits128,
    Bits256,
}

impl TurboShake {
    fn function(self) -> Function {
        match self {
            TurboShake::Bits128 => functions::turboshake128(),
            TurboShake::Bits256 => functions::turboshake256(),
        }
    }

    fn rate(self) -> usize
        ensures { (2 ≤ result) × (result ≤ 168) }
    {
        match self {
            TurboShake::Bits128 => TurboShake128::RATE,
            TurboShake::Bits256 => TurboShake256::RATE,
        }
    }
}

impl fmt::Display for TurboShake {
    fn fmt<W: fmt::Write>(&self, f: &mut fmt::Formatter<W>) -> fmt::Result {
        f.write_str(match self {
            TurboShake::Bits128 => "TurboSHAKE128",
            TurboShake::Bits256 => "TurboSHAKE256",
        })
    }
}

// A run, with the function and the domain byte that it is closed with.
#[derive(Clone, Copy)]
struct TurboShakeRun {
    function: Function,
    domain: u8,
    run: Run,
}

impl TurboShakeRun {
    // Kept: `functions` answers its calls by a type for each kind of run.
    fn keep(&mut self, answer: Answer) -> Result<(), Refusal> {
        self.run = answer.run;
        done(answer.status)
    }
}

impl Pieces for TurboShakeRun {
    fn absorb(&mut self, piece: &[u8]) -> Result<(), Refusal> {
        self.keep(functions::absorb(self.function, self.run, piece))
    }

    fn finalize(&mut self) -> Result<(), Refusal> {
        self.keep(functions::finalize(self.function, self.run, self.domain))
    }

    fn squeeze(&mut self, out: &mut [u8]) -> Result<(), Refusal> {
        self.keep(functions::squeeze(self.function, self.run, out))
    }
}

// Fills the buffer with ptn: 00 to FA, over and over. The buffer is lent, since an array that is handed out lies on the stack twice.
fn fill_ptn(buffer: &mut [u8]) {
    for (i, byte) in buffer.iter_mut().enumerate() {
        *byte = (i % 251) as u8;
    }
}

// The first n bytes, of which the buffer holds as many as are asked.
// Kept: three lines, as in keyed.
fn pattern(buffer: &[u8], n: usize) -> &[u8] {
    &buffer[..n.min(buffer.len())]
}

// Kept: what is asked is a plain number with a bound, since a type for it would be built and taken apart at each call.
fn write_both(
    rt: &impl Print,
    turboshake: TurboShake,
    message: &[u8],
    domain: u8,
    asked: usize,
) -> io::Result<()>
    requires { asked ≤ 337 }
{
    let function = turboshake.function();
    let length = message.len();
    print!(rt; "{turboshake} one {length} {domain:02x} {asked}")?;
    write_answer(
        rt,
        asked,
        |out| functions::hash(function, message, domain, out),
    )?;
    print!(rt; "\n{turboshake} cut {length} {domain:02x} {asked}")?;
    let mut run = TurboShakeRun {
        function,
        domain,
        run: hasher::fresh(),
    };
    write_answer(rt, asked, |out| run.hash(message, out))?;
    println!(rt)
}

// Both ends of the first two blocks, and their neighbours.
fn write_messages(rt: &impl Print, turboshake: TurboShake, buffer: &[u8]) -> io::Result<()> {
    let rate = turboshake.rate();
    for n in [
        0,
        1,
        rate - 2,
        rate - 1,
        rate,
        rate + 1,
        2 * rate - 1,
        2 * rate,
        2 * rate + 1,
    ] {
        write_both(rt, turboshake, pattern(buffer, n), DOMAIN, 32)?;
    }
    Ok(())
}

fn write_outputs(rt: &impl Print, turboshake: TurboShake, buffer: &[u8]) -> io::Result<()> {
    let rate = turboshake.rate();
    for asked in output_lengths(rate) {
        write_both(rt, turboshake, b"", DOMAIN, asked)?;
        write_both(rt, turboshake, pattern(buffer, rate), DOMAIN, asked)?;
    }
    Ok(())
}

// What is asked around the ends of the first two blocks.
fn output_lengths(rate: usize) -> [usize; 7]
    requires { (2 ≤ rate) × (rate ≤ 168) }
    ensures { All (λ n. n ≤ 337) result }
{
    [
        1,
        rate - 1,
        rate,
        rate + 1,
        2 * rate - 1,
        2 * rate,
        2 * rate + 1,
    ]
}

fn write_domains(rt: &impl Print, turboshake: TurboShake, message: &[u8]) -> io::Result<()> {
    for domain in DOMAINS {
        write_both(rt, turboshake, message, domain, 32)?;
    }
    Ok(())
}

fn write_edges(rt: &impl Print, turboshake: TurboShake, buffer: &[u8]) -> io::Result<()> {
    write_messages(rt, turboshake, buffer)?;
    write_outputs(rt, turboshake, buffer)?;
    write_domains(rt, turboshake, pattern(buffer, 3))
}

fn main(rt: HostRuntime) -> io::Result<()> {
    let mut buffer = [0u8; LONGEST];
    fill_ptn(&mut buffer);
    write_edges(&rt, TurboShake::Bits128, &buffer)?;
    write_edges(&rt, TurboShake::Bits256, &buffer)?;
    kt::write_edges(&rt)
}
