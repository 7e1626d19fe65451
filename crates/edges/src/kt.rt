// The edges of KT: messages that end around the ends of a block and of the first three chunks, each with every customization
// string; pairs of the two whose nodes end where the padding is short; and outputs that end around the ends of a block.
//
// Writes a line for each: the function, the lengths of the message and of the customization string, the bytes asked, `one` with
// the status and the buffer of the call in one go, and `cut` with those of a run. Both strings are ptn.
ghost use Rattle.std.specs.Prelude.{◌≤◌};

use crate::line::write_answer;
use crate::pieces::{Pieces, done};
use crate::{fill_ptn, output_lengths, pattern};
use functions::kt::{KtAnswer, KtFunction};
use hasher::Refusal;
use kangarootwelve::{Kt, Kt128, Kt256, Run};
use std::io;

const MESSAGES: [usize; 25] = [
    0, 1, 133, 134, 135, 136, 137, 165, 166, 167, 168, 169, 8190, 8191, 8192, 8193, 8194, 16382,
    16383, 16384, 16385, 16386, 24575, 24576, 24577,
];

// Both sides of the lengths at which the length encoding grows by a byte.
const CUSTOMIZATIONS: [usize; 6] = [0, 1, 255, 256, 65535, 65536];

// The lengths of a message and of a customization string. In the tables first those of one, two, two and three chunks; then three
// single nodes and four leaves that are one byte short of whole blocks, leaves of a block and of a block and a byte, and a final node
// that ends as near to a block's end as one can.
const PAIRS_128: [(usize, usize); 14] = [
    (8191, 0),
    (8192, 0),
    (8192, 8189),
    (8192, 8190),
    (166, 0),
    (0, 165),
    (8062, 0),
    (8358, 0),
    (8192, 165),
    (8526, 0),
    (16550, 0),
    (8359, 0),
    (8360, 0),
    (49152, 0),
];

const PAIRS_256: [(usize, usize); 14] = [
    (8191, 0),
    (8192, 0),
    (8192, 8189),
    (8192, 8190),
    (134, 0),
    (0, 133),
    (8158, 0),
    (8326, 0),
    (8192, 133),
    (8462, 0),
    (16518, 0),
    (8327, 0),
    (8328, 0),
    (32767, 65535),
];

// A run, with the function and the customization string that it is closed with.
#[derive(Clone, Copy)]
struct KtRun<'a> {
    function: KtFunction,
    customization: &'a [u8],
    run: Run,
}

impl KtRun<'_> {
    // Kept: `functions` answers its calls by a type for each kind of run.
    fn keep(&mut self, answer: KtAnswer) -> Result<(), Refusal> {
        self.run = answer.run;
        done(answer.status)
    }
}

impl Pieces for KtRun<'_> {
    fn absorb(&mut self, piece: &[u8]) -> Result<(), Refusal> {
        self.keep(functions::kt::absorb(self.function, self.run, piece))
    }

    fn finalize(&mut self) -> Result<(), Refusal> {
        self.keep(functions::kt::finalize(self.function, self.run, self.customization))
    }

    fn squeeze(&mut self, out: &mut [u8]) -> Result<(), Refusal> {
        self.keep(functions::kt::squeeze(self.function, self.run, out))
    }
}

// Kept: the enum is of `functions`, which has no Display of it.
fn name(function: KtFunction) -> &'static str {
    match function {
        KtFunction::Kt128 => "KT128",
        KtFunction::Kt256 => "KT256",
    }
}

fn write_line(
    rt: &impl Print,
    function: KtFunction,
    message: &[u8],
    customization: &[u8],
    asked: usize,
) -> io::Result<()>
    requires { asked ≤ 337 }
{
    print!(rt;
        "{} {} {} {asked} one",
        name(function),
        message.len(),
        customization.len()
    )?;
    write_answer(
        rt,
        asked,
        |out| functions::kt::hash(function, message, customization, out),
    )?;
    print!(rt; " cut")?;
    let mut run = KtRun {
        function,
        customization,
        run: functions::kt::fresh(function),
    };
    write_answer(rt, asked, |out| run.hash(message, out))?;
    println!(rt)
}

fn write_customizations(
    rt: &impl Print,
    function: KtFunction,
    message: &[u8],
    buffer: &[u8],
) -> io::Result<()> {
    for n in CUSTOMIZATIONS {
        write_line(rt, function, message, pattern(buffer, n), 32)?;
    }
    Ok(())
}

fn write_messages(rt: &impl Print, function: KtFunction, buffer: &[u8]) -> io::Result<()> {
    for n in MESSAGES {
        write_customizations(rt, function, pattern(buffer, n), buffer)?;
    }
    Ok(())
}

fn write_pairs(
    rt: &impl Print,
    function: KtFunction,
    pairs: [(usize, usize); 14],
    buffer: &[u8],
) -> io::Result<()> {
    for (message, customization) in pairs {
        write_line(
            rt,
            function,
            pattern(buffer, message),
            pattern(buffer, customization),
            32,
        )?;
    }
    Ok(())
}

fn write_outputs(
    rt: &impl Print,
    function: KtFunction,
    rate: usize,
    message: &[u8],
) -> io::Result<()>
    requires { (2 ≤ rate) × (rate ≤ 168) }
{
    for asked in output_lengths(rate) {
        write_line(rt, function, message, b"", asked)?;
    }
    Ok(())
}

pub fn write_edges(rt: &impl Print) -> io::Result<()> {
    let mut buffer = [0u8; 65536];
    fill_ptn(&mut buffer);
    for (function, rate, pairs) in [
        (KtFunction::Kt128, Kt128::RATE, PAIRS_128),
        (KtFunction::Kt256, Kt256::RATE, PAIRS_256),
    ] {
        write_messages(rt, function, &buffer)?;
        write_pairs(rt, function, pairs, &buffer)?;
        write_outputs(rt, function, rate, pattern(&buffer, 8192))?;
    }
    Ok(())
}
