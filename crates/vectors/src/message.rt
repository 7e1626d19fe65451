// The messages of the vectors.
use std::fmt;

// So many bytes of the draft's test pattern ptn, 00 to FA over and over, or of FF.
#[derive(Clone, Copy)]
pub enum Message {
    Pattern(usize),
    Ff(usize),
}

impl Message {
    pub fn length(self) -> usize {
        match self {
            Message::Pattern(length) | Message::Ff(length) => length,
        }
    }

    // Fills the buffer as a message of this kind begins.
    pub fn fill(self, buffer: &mut [u8]) {
        match self {
            Message::Pattern(_) => fill_pattern(buffer),
            Message::Ff(_) => buffer.fill(0xff),
        }
    }
}

impl fmt::Display for Message {
    fn fmt<W: fmt::Write>(&self, f: &mut fmt::Formatter<W>) -> fmt::Result {
        match self {
            Message::Pattern(length) => write!(f, "ptn {length}"),
            Message::Ff(length) => write!(f, "ff {length}"),
        }
    }
}

pub fn fill_pattern(buffer: &mut [u8]) {
    for (i, byte) in buffer.iter_mut().enumerate() {
        *byte = (i % 251) as u8;
    }
}
