// Why there is no digest of the input, or no line of it.
use std::fmt::{Display, Formatter};
use std::io::{Cursor, Error, Write};
use std::{fmt, str};

// Why the input has no digest. As text it is the line on standard output.
#[derive(Clone, Copy)]
pub enum Failure {
    TooLong,
    Read(Error),
    // It went on for as many reads as a program can count.
    Endless,
}

impl Display for Failure {
    fn fmt<W: fmt::Write>(&self, f: &mut Formatter<W>) -> fmt::Result {
        match self {
            Failure::TooLong => f.write_str("too long"),
            Failure::Read(_) | Failure::Endless => f.write_str("read failed"),
        }
    }
}

// The system's reason for an error: its text without the reason's number, which stands after it in brackets.
#[derive(Clone, Copy)]
pub struct Reason(pub Error);

impl Display for Reason {
    fn fmt<W: fmt::Write>(&self, f: &mut Formatter<W>) -> fmt::Result {
        let mut text = Cursor::new([0u8; 128]);
        let _ = write!(text, "{}", self.0);
        let bytes = text.into_inner();
        let text = str::from_utf8(&bytes).unwrap_or("");
        f.write_str(without_number(text.trim_end_matches('\0')))
    }
}

fn without_number(text: &str) -> &str {
    match text.split_once(" (os error ") {
        Some((reason, _)) => reason,
        None => text,
    }
}
