//! Rows of words with blanks between them. The first word is the language, or `variant` for the operators of Visual Basic 6
//! on values in Variants. Behind it stands `OPERATOR VALUE`, `VALUE OPERATOR VALUE` or `VALUE to TYPE`. A value is its type
//! and its number, as `Currency:25000`, or a text in quotes that has no blanks, `True`, `False`, `Nothing` or `Empty`.
use crate::{source, written};
use std::alloc::{AllocError, Global};
use up_base::{Mem, Wide};

/// What a row asks for.
#[derive(Clone, Copy)]
pub(crate) enum Asked<'a> {
    /// An operator and its one operand.
    Unary(&'a str, &'a str),
    /// An operator and its two operands.
    Binary(&'a str, &'a str, &'a str),
    /// A value and the type that it is converted to.
    Converted(&'a str, &'a str),
}

/// Why a row has no answer.
#[derive(Debug, Drop)]
pub(crate) enum RowFail {
    /// Its words are none of a row.
    NoRow,
    /// Out of memory.
    Mem,
}

impl From<AllocError> for RowFail {
    fn from(_: AllocError) -> RowFail {
        RowFail::Mem
    }
}

impl From<Mem> for RowFail {
    fn from(_: Mem) -> RowFail {
        RowFail::Mem
    }
}

/// The answer of a row, as it is printed.
pub(crate) fn answer(alloc: Global, row: &str) -> Result<String, RowFail> {
    let Some((language, words)) = row.split_once(" ") else {
        return Err(RowFail::NoRow);
    };
    let asked = what_is_asked(words)?;
    if language == "vb6" {
        source::answer(alloc, false, asked)
    } else if language == "variant" {
        source::answer(alloc, true, asked)
    } else if language == "net" {
        written::answer(alloc, asked)
    } else {
        Err(RowFail::NoRow)
    }
}

fn what_is_asked(words: &str) -> Result<Asked<'_>, RowFail> {
    let Some((first, rest)) = words.split_once(" ") else {
        return Err(RowFail::NoRow);
    };
    match rest.split_once(" ") {
        None => Ok(Asked::Unary(first, rest)),
        Some(("to", ty)) => Ok(Asked::Converted(first, ty)),
        Some((operator, second)) => Ok(Asked::Binary(operator, first, second)),
    }
}

/// What stands beside a word in a table.
pub(crate) fn found<T: Copy>(table: &[(&'static str, T)], word: &str) -> Result<T, RowFail> {
    for (text, value) in table {
        if *text == word {
            return Ok(*value);
        }
    }
    Err(RowFail::NoRow)
}

/// The type and the number of a value.
pub(crate) fn parts(word: &str) -> Result<(&str, &str), RowFail> {
    word.split_once(":").ok_or(RowFail::NoRow)
}

/// The text between quotes.
pub(crate) fn quoted(word: &str) -> Option<&str> {
    word.strip_prefix("\"")?.strip_suffix("\"")
}

/// The units of an ASCII text.
pub(crate) fn units(alloc: Global, text: &str) -> Result<Wide, Mem> {
    let mut units = Wide::new(alloc);
    for byte in text.as_bytes() {
        units.push(u16::from(*byte))?;
    }
    Ok(units)
}

/// A text in quotes; units past ASCII are shown as `?`.
pub(crate) fn in_quotes(alloc: Global, units: &[u16]) -> Result<String, AllocError> {
    let mut text = String::from_str(alloc, "\"")?;
    for unit in units {
        let byte = u8::try_from(*unit).unwrap_or(b'?');
        text.push(char::from(byte))?;
    }
    text.push('"')?;
    Ok(text)
}
