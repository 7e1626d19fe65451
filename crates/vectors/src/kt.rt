// The KT vectors: the customization string is ptn too.
ghost use Rattle.std.specs.Prelude.{◌≤◌};

use crate::POWERS;
use crate::line::write_digest;
use crate::message::{Message, fill_pattern};
use crate::pieces::{PIECE, Pieces, done};
use functions::kt::{KtAnswer, KtFunction};
use hasher::Refusal;
use kangarootwelve::Run;
use std::io;

// The vectors that follow the powers of 17: the message, and the customization string's length.
const CUSTOMIZED: [(Message, usize); 8] = [
    (Message::Pattern(0), 1),
    (Message::Ff(1), 41),
    (Message::Ff(3), 1681),
    (Message::Ff(7), 68921),
    (Message::Pattern(8191), 0),
    (Message::Pattern(8192), 0),
    (Message::Pattern(8192), 8189),
    (Message::Pattern(8192), 8190),
];

// Kept: the enum is of `functions`, which has no Display of it.
fn name(function: KtFunction) -> &'static str {
    match function {
        KtFunction::Kt128 => "KT128",
        KtFunction::Kt256 => "KT256",
    }
}

// The bytes that most vectors ask.
fn output(function: KtFunction) -> usize
    ensures { result ≤ 64 }
{
    match function {
        KtFunction::Kt128 => 32,
        KtFunction::Kt256 => 64,
    }
}

#[derive(Clone, Copy)]
struct KtRun {
    function: KtFunction,
    run: Run,
}

impl KtRun {
    fn fresh(function: KtFunction) -> KtRun {
        let run = functions::kt::fresh(function);
        KtRun { function, run }
    }

    // Kept: `functions` answers its calls by a type for each kind of run.
    fn keep(&mut self, answer: KtAnswer) -> Result<(), Refusal> {
        self.run = answer.run;
        done(answer.status)
    }

    fn customize(&mut self, piece: &[u8]) -> Result<(), Refusal> {
        self.keep(functions::kt::customize(self.function, self.run, piece))
    }

    // An empty string is one empty piece: a first piece there must be, or the run would not leave the message.
    fn customize_pieces(&mut self, customization: &[u8]) -> Result<(), Refusal> {
        let (first, rest) = customization.split_at(PIECE.min(customization.len()));
        self.customize(first)?;
        for piece in rest.chunks(PIECE) {
            self.customize(piece)?;
        }
        Ok(())
    }

    fn finalize(&mut self, customization: &[u8]) -> Result<(), Refusal> {
        self.keep(functions::kt::finalize(self.function, self.run, customization))
    }

    fn finish(&mut self) -> Result<(), Refusal> {
        self.keep(functions::kt::finish(self.function, self.run))
    }
}

impl Pieces for KtRun {
    fn absorb(&mut self, piece: &[u8]) -> Result<(), Refusal> {
        self.keep(functions::kt::absorb(self.function, self.run, piece))
    }

    fn squeeze(&mut self, out: &mut [u8]) -> Result<(), Refusal> {
        self.keep(functions::kt::squeeze(self.function, self.run, out))
    }
}

// The output by a finalize with the whole customization string, up to the first call that is refused.
fn digest(
    function: KtFunction,
    message: Message,
    customization: &[u8],
    out: &mut [u8],
) -> Result<(), Refusal> {
    let mut run = KtRun::fresh(function);
    run.absorb_message(message)?;
    run.finalize(customization)?;
    run.squeeze_halves(out)
}

// The same by pieces of the customization string and a finish.
fn digest_by_pieces(
    function: KtFunction,
    message: Message,
    customization: &[u8],
    out: &mut [u8],
) -> Result<(), Refusal> {
    let mut run = KtRun::fresh(function);
    run.absorb_message(message)?;
    run.customize_pieces(customization)?;
    run.finish()?;
    run.squeeze_halves(out)
}

// The same in one go, for a message no longer than the buffer.
fn digest_in_one_go(
    function: KtFunction,
    message: Message,
    customization: &[u8],
    out: &mut [u8],
) -> Result<(), Refusal> {
    let mut buffer = [0u8; 8192];
    message.fill(&mut buffer);
    let whole = &buffer[..message.length().min(8192)];
    done(functions::kt::hash(function, whole, customization, out))
}

// Writes what was asked, and the digest by a finalize.
fn write_asked(
    rt: &impl Print,
    function: KtFunction,
    message: Message,
    customization: &[u8],
    asked: usize,
) -> io::Result<()>
    requires { asked ≤ 10064 }
{
    print!(rt;
        "{} {message} {} {asked}",
        name(function),
        customization.len()
    )?;
    write_digest(
        rt,
        asked,
        |out| digest(function, message, customization, out),
    )
}

// A message of ptn, with no customization string.
fn write_pattern(
    rt: &impl Print,
    function: KtFunction,
    length: usize,
    asked: usize,
) -> io::Result<()>
    requires { asked ≤ 10064 }
{
    write_asked(rt, function, Message::Pattern(length), b"", asked)?;
    println!(rt)
}

fn write_powers(rt: &impl Print, function: KtFunction) -> io::Result<()> {
    for length in POWERS {
        write_pattern(rt, function, length, output(function))?;
    }
    Ok(())
}

// A line with the digest three times.
fn write_customized(
    rt: &impl Print,
    function: KtFunction,
    message: Message,
    customization: &[u8],
) -> io::Result<()> {
    let asked = output(function);
    write_asked(rt, function, message, customization, asked)?;
    write_digest(
        rt,
        asked,
        |out| digest_by_pieces(function, message, customization, out),
    )?;
    write_digest(
        rt,
        asked,
        |out| digest_in_one_go(function, message, customization, out),
    )?;
    println!(rt)
}

fn write_all_customized(rt: &impl Print, function: KtFunction, pattern: &[u8]) -> io::Result<()> {
    for (message, n) in CUSTOMIZED {
        write_customized(rt, function, message, &pattern[..n.min(pattern.len())])?;
    }
    Ok(())
}

pub fn write_vectors(rt: &impl Print) -> io::Result<()> {
    let mut pattern = [0u8; 68921];
    fill_pattern(&mut pattern);
    for function in [KtFunction::Kt128, KtFunction::Kt256] {
        let asked = output(function);
        write_pattern(rt, function, 0, asked)?;
        write_pattern(rt, function, 0, 2 * asked)?;
        write_pattern(rt, function, 0, 10000 + asked)?;
        write_powers(rt, function)?;
        write_all_customized(rt, function, &pattern)?;
    }
    Ok(())
}
