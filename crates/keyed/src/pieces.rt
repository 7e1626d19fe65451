// A run in pieces.
use functions::keyed::{KeyedAnswer, KeyedFunction, KeyedRun};
use hasher::{HasherAnswer, Refusal};
use sponge::status::DONE;

const PIECE: usize = 7;

const OUTPUT_PIECE: usize = 5;

// N or the key, S, and the message.
#[derive(Clone, Copy)]
pub struct Inputs<'a> {
    pub first: &'a [u8],
    pub string: &'a [u8],
    pub message: &'a [u8],
}

// Kept: a crate with its contract and edits for what the programs share would be longer.
fn done(status: u8) -> Result<(), Refusal> {
    HasherAnswer { hasher: (), status }.done()
}

// The status of the first call that was refused, or 0.
// Kept: a number, since the line has it.
pub fn status_of(calls: Result<(), Refusal>) -> u8 {
    match calls {
        Ok(()) => DONE,
        Err(refusal) => refusal.status,
    }
}

#[derive(Clone, Copy)]
pub struct Run {
    function: KeyedFunction,
    keyed: KeyedRun,
}

impl Run {
    fn keep(&mut self, answer: KeyedAnswer) -> Result<(), Refusal> {
        self.keyed = answer.keyed;
        done(answer.status)
    }

    fn absorb(&mut self, piece: &[u8]) -> Result<(), Refusal> {
        self.keep(functions::keyed::absorb(self.function, self.keyed, piece))
    }

    fn finalize(&mut self, output: u64) -> Result<(), Refusal> {
        self.keep(functions::keyed::finalize(self.function, self.keyed, output))
    }

    pub fn squeeze(&mut self, out: &mut [u8]) -> Result<(), Refusal> {
        self.keep(functions::keyed::squeeze(self.function, self.keyed, out))
    }

    fn close(&mut self, message: &[u8], output: u64) -> Result<(), Refusal> {
        for piece in message.chunks(PIECE) {
            self.absorb(piece)?;
        }
        self.finalize(output)
    }

    pub fn squeeze_pieces(&mut self, out: &mut [u8]) -> Result<(), Refusal> {
        for piece in out.chunks_mut(OUTPUT_PIECE) {
            self.squeeze(piece)?;
        }
        Ok(())
    }
}

// The run that has absorbed the message and is closed for so many bytes of output; or that of the first call that is refused.
pub fn closed(function: KeyedFunction, inputs: Inputs, output: u64) -> (Run, Result<(), Refusal>) {
    let started = functions::keyed::start(function, inputs.first, inputs.string);
    let mut run = Run {
        function,
        keyed: started.keyed,
    };
    let calls = done(started.status).and_then(|()| run.close(inputs.message, output));
    (run, calls)
}
