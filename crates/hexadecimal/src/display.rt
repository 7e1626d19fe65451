// Bytes that print as their digits, with no text of their own.
ghost use Rattle.std.specs.Prelude.{Some};
ghost use Rattle.hexadecimal.specs.Hex.{hex_of};

use crate::digit;
use std::fmt;

#[derive(Clone, Copy)]
pub struct DigitsOf<'a>(pub &'a [u8]);

impl fmt::Display for DigitsOf<'_> {
    ghost output = { λ d. Some (hex_of d.0.now) };

    fn fmt<W: fmt::Write>(&self, f: &mut fmt::Formatter<W>) -> fmt::Result {
        for byte in self.0 {
            f.write_char(char::from(digit(*byte / 16)))?;
            f.write_char(char::from(digit(*byte % 16)))?;
        }
        Ok(())
    }
}
