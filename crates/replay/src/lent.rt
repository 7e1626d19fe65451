// The words that a record lends for four leaves of KT abreast.
use crate::line::Line;
use crate::one_go::KtAsked;
use crate::payload::Payload;
use crate::record::{BadRecord, MOST};
use std::fmt;

// The most words that a record lends.
pub const MOST_WORDS: usize = 300;

// What each word holds before the call, so that a word which no call wrote can be told.
pub const BEFORE: u64 = 0xa5a5_a5a5_a5a5_a5a5;

// What the words hold after the call.
#[derive(Clone, Copy)]
pub enum Words {
    Kept,
    Zero,
    Other,
}

impl Words {
    pub fn of(words: &[u64]) -> Words {
        if words.iter().all(|word| *word == BEFORE) {
            return Words::Kept;
        }
        if words.iter().all(|word| *word == 0) {
            return Words::Zero;
        }
        Words::Other
    }
}

impl fmt::Display for Words {
    fn fmt<W: fmt::Write>(&self, f: &mut fmt::Formatter<W>) -> fmt::Result {
        f.write_str(match self {
            Words::Kept => "kept",
            Words::Zero => "zero",
            Words::Other => "other",
        })
    }
}

// So many of the words.
pub fn take(words: &mut [u64; MOST_WORDS], count: u16) -> Result<&mut [u64], BadRecord> {
    let count = count as usize;
    if MOST_WORDS < count {
        return Err(BadRecord);
    }
    Ok(&mut words[..count])
}

// Op k: the number of words, then as K.
pub fn hash<'a>(mut payload: Payload, buffer: &'a mut [u8; MOST]) -> Result<Line<'a>, BadRecord> {
    let mut words = [BEFORE; MOST_WORDS];
    let words = take(&mut words, u16::from_be_bytes(payload.take()?))?;
    let KtAsked {
        function,
        message,
        customization,
        out,
    } = KtAsked::read(payload, buffer)?;
    let status = functions::kt::hash_abreast(function, message, customization, out, words);
    Ok(Line::LentOutput(status, out, Words::of(words)))
}
