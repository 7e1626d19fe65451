// A run that is fed and read in small pieces, whichever function it is of.
use hasher::{HasherAnswer, Refusal};
use sponge::status::DONE;

const PIECE: usize = 7;

const OUTPUT_PIECE: usize = 5;

// Kept: a crate with its contract and edits for what the programs share would be longer.
pub fn done(status: u8) -> Result<(), Refusal> {
    HasherAnswer { hasher: (), status }.done()
}

pub trait Pieces {
    fn absorb(&mut self, piece: &[u8]) -> Result<(), Refusal>;

    // Ends the message, with what the run was made to give there.
    fn finalize(&mut self) -> Result<(), Refusal>;

    fn squeeze(&mut self, out: &mut [u8]) -> Result<(), Refusal>;

    fn squeeze_pieces(&mut self, out: &mut [u8]) -> Result<(), Refusal> {
        for piece in out.chunks_mut(OUTPUT_PIECE) {
            self.squeeze(piece)?;
        }
        Ok(())
    }

    // A squeeze is tried after a refused finalize too: it must leave `out` as it is.
    fn hash_pieces(&mut self, message: &[u8], out: &mut [u8]) -> Result<(), Refusal> {
        for piece in message.chunks(PIECE) {
            self.absorb(piece)?;
        }
        let finalized = self.finalize();
        let squeezed = self.squeeze_pieces(out);
        finalized.and(squeezed)
    }

    // The status of the first call that is refused, or 0.
    // Kept: a number, since the line has it.
    fn hash(&mut self, message: &[u8], out: &mut [u8]) -> u8 {
        match self.hash_pieces(message, out) {
            Ok(()) => DONE,
            Err(refusal) => refusal.status,
        }
    }
}
