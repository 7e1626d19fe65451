// Runs the vectors of draft-irtf-cfrg-kangarootwelve-16, each message absorbed and each output squeezed in pieces. Writes a line
// for each: the function, the message's kind and length, the domain byte (KT: the customization string's length), the bytes
// asked, and the bytes that the draft prints, or the status of the call that was refused. The last eight vectors of each KT function
// have these bytes three times: by a finalize with the whole customization string, by pieces of it and a finish, and in one go.
#![tactic(auto)]

mod kt;
mod line;
mod message;
mod pieces;

ghost use Rattle.std.specs.Prelude.{◌≤◌};

use functions::Function;
use hasher::{Answer, Refusal, Run};
use line::write_digest;
use message::Message;
use pieces::{Pieces, done};
use std::{fmt, io};

// The lengths of the longer messages: 17**0 to 17**6.
const POWERS: [usize; 7] = [1, 17, 289, 4913, 83521, 1419857, 24137569];

// The domain byte of the vectors whose message is ptn.
const DOMAIN: u8 = 0x1f;

// The lengths of the messages of FF bytes, and the domain byte of each.
const FF: [(usize, u8); 6] = [
    (3, 0x01),
    (1, 0x06),
    (3, 0x07),
    (7, 0x0b),
    (1, 0x30),
    (3, 0x7f),
];

// Kept: edges and vectors share it, and a crate with its contract and edits would be longer.
#[derive(Clone, Copy)]
enum TurboShake {
    Bits128,
    Bits256,
}

impl TurboShake {
    fn function(self) -> Function {
        match self {
            TurboShake::Bits128 => functions::turboshake128(),
            TurboShake::Bits256 => functions::turboshake256(),
        }
    }

    // The bytes that most vectors ask.
    fn output(self) -> usize
        ensures { result ≤ 64 }
    {
        match self {
            TurboShake::Bits128 => 32,
            TurboShake::Bits256 => 64,
        }
    }
}

impl fmt::Display for TurboShake {
    fn fmt<W: fmt::Write>(&self, f: &mut fmt::Formatter<W>) -> fmt::Result {
        f.write_str(match self {
            TurboShake::Bits128 => "TurboSHAKE128",
            TurboShake::Bits256 => "TurboSHAKE256",
        })
    }
}

#[derive(Clone, Copy)]
struct TurboShakeRun {
    function: Function,
    run: Run,
}

impl TurboShakeRun {
    // Kept: `functions` answers its calls by a type for each kind of run.
    fn keep(&mut self, answer: Answer) -> Result<(), Refusal> {
        self.run = answer.run;
        done(answer.status)
    }

    fn finalize(&mut self, domain: u8) -> Result<(), Refusal> {
        self.keep(functions::finalize(self.function, self.run, domain))
    }
}

impl Pieces for TurboShakeRun {
    fn absorb(&mut self, piece: &[u8]) -> Result<(), Refusal> {
        self.keep(functions::absorb(self.function, self.run, piece))
    }

    fn squeeze(&mut self, out: &mut [u8]) -> Result<(), Refusal> {
        self.keep(functions::squeeze(self.function, self.run, out))
    }
}

// Computes the vector's output, up to the first call that is refused.
fn digest(
    turboshake: TurboShake,
    message: Message,
    domain: u8,
    out: &mut [u8],
) -> Result<(), Refusal> {
    let mut run = TurboShakeRun {
        function: turboshake.function(),
        run: hasher::fresh(),
    };
    run.absorb_message(message)?;
    run.finalize(domain)?;
    run.squeeze_halves(out)
}

// Kept: what is asked is a plain number with a bound, since a type for it would be built and taken apart at each call.
fn write_vector(
    rt: &impl Print,
    turboshake: TurboShake,
    message: Message,
    domain: u8,
    asked: usize,
) -> io::Result<()>
    requires { asked ≤ 10064 }
{
    print!(rt; "{turboshake} {message} {domain:02x} {asked}")?;
    write_digest(rt, asked, |out| digest(turboshake, message, domain, out))?;
    println!(rt)
}

fn write_empty(rt: &impl Print, turboshake: TurboShake, asked: usize) -> io::Result<()>
    requires { asked ≤ 10064 }
{
    write_vector(rt, turboshake, Message::Pattern(0), DOMAIN, asked)
}

fn write_powers(rt: &impl Print, turboshake: TurboShake) -> io::Result<()> {
    for length in POWERS {
        write_vector(
            rt,
            turboshake,
            Message::Pattern(length),
            DOMAIN,
            turboshake.output(),
        )?;
    }
    Ok(())
}

fn write_ff(rt: &impl Print, turboshake: TurboShake) -> io::Result<()> {
    for (length, domain) in FF {
        write_vector(
            rt,
            turboshake,
            Message::Ff(length),
            domain,
            turboshake.output(),
        )?;
    }
    Ok(())
}

fn write_vectors(rt: &impl Print, turboshake: TurboShake) -> io::Result<()> {
    write_empty(rt, turboshake, 64)?;
    write_empty(rt, turboshake, 10032)?;
    write_powers(rt, turboshake)?;
    write_ff(rt, turboshake)
}

fn main(rt: HostRuntime) -> io::Result<()> {
    write_empty(&rt, TurboShake::Bits128, 32)?;
    write_vectors(&rt, TurboShake::Bits128)?;
    write_vectors(&rt, TurboShake::Bits256)?;
    kt::write_vectors(&rt)
}
