// A run that is fed a vector's message in pieces and read in halves, whichever function it is of.
use crate::message::Message;
use hasher::{HasherAnswer, Refusal};

// The longest piece of a message: 32 times the pattern, so that the next piece begins with 00 again.
pub const PIECE: usize = 8032;

// Kept: a crate with its contract and edits for what the programs share would be longer.
pub fn done(status: u8) -> Result<(), Refusal> {
    HasherAnswer { hasher: (), status }.done()
}

pub trait Pieces {
    fn absorb(&mut self, piece: &[u8]) -> Result<(), Refusal>;

    fn squeeze(&mut self, out: &mut [u8]) -> Result<(), Refusal>;

    // Each piece from the start of a buffer that has 8,192 zero bytes before it is filled (docs/PROOFS.md names it).
    fn absorb_message(&mut self, message: Message) -> Result<(), Refusal> {
        let mut buffer = [0u8; 8192];
        message.fill(&mut buffer);
        let length = message.length();
        for start in (0..length).step_by(PIECE) {
            self.absorb(&buffer[..PIECE.min(length - start)])?;
        }
        Ok(())
    }

    fn squeeze_halves(&mut self, out: &mut [u8]) -> Result<(), Refusal> {
        let (first, rest) = out.split_at_mut(out.len() / 2);
        self.squeeze(first)?;
        self.squeeze(rest)
    }
}
