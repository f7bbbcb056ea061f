//! The lines of a text, and its parts.
ghost use Rattle.std.specs.Prelude.{◌≡◌, ◌==◌, true, ◌<◌, ◌∷◌, length, reverse, nat_eq, IfOk};
ghost use Rattle.std.specs.List.{list_all, zip};
ghost use Rattle.std.specs.Char.{to_ascii_lowercase};
ghost use Rattle.std.specs.Cmp.Lexicographic.{pointwise};
ghost use Rattle.up_base.specs.Names.{is_printable};
ghost use Rattle.vb_tree.specs.ProjectLines.{lines_of, is_blank, past_blanks, trimmed, parted, is_key};
ghost use Rattle.project_file.specs.Lines.{is_line_end, past_line_end, both_now};

use std::alloc::Global;
use up_base::{Mem, Sequence, Wide};

pub(crate) const LINE_FEED: u16 = b'\n' as u16;

pub(crate) const CARRIAGE_RETURN: u16 = b'\r' as u16;

// The first line of a text without its end, and the text after that end.
pub(crate) fn first_line(text: &[u16]) -> (&[u16], &[u16])
    requires { 0 < length text.now }
    ensures lines { lines_of text.now ≡ result.0.now ∷ lines_of result.1.now }
    ensures shorter { length result.1.now < length text.now }
{
    let end = text
        .iter()
        .position(|c| is_line_end(*c))
        .unwrap_or(text.len());
    let (line, rest) = text.split_at(end);
    (line, past_line_end(rest))
}

fn is_line_end(unit: u16) -> bool
    ensures { result ≡ is_line_end unit }
{
    unit == LINE_FEED || unit == CARRIAGE_RETURN
}

// A text without the line end that it begins with. CR and LF in this order are one line end.
fn past_line_end(text: &[u16]) -> &[u16]
    ensures { result.now ≡ past_line_end text.now }
{
    match text {
        [] => text,
        [CARRIAGE_RETURN, LINE_FEED, rest @ ..] => rest,
        [_, rest @ ..] => rest,
    }
}

// A text without the blanks at its ends.
pub(crate) fn trimmed(text: &[u16]) -> &[u16]
    ensures { result.now ≡ trimmed text.now }
{
    before_blanks(past_blanks(text))
}

fn is_blank(unit: u16) -> bool
    ensures { result ≡ is_blank unit }
{
    unit == u16::from(b' ') || unit == u16::from(b'\t')
}

fn past_blanks(text: &[u16]) -> &[u16]
    ensures { result.now ≡ past_blanks text.now }
{
    let mut rest = text;
    while let Some((first, after)) = rest.split_first() {
        if !is_blank(*first) {
            return rest;
        }
        rest = after;
    }
    rest
}

fn before_blanks(text: &[u16]) -> &[u16]
    ensures { result.now ≡ reverse (past_blanks (reverse text.now)) }
{
    let mut rest = text;
    while let Some((last, before)) = rest.split_last() {
        if !is_blank(*last) {
            return rest;
        }
        rest = before;
    }
    rest
}

// What stands before the first such sign and after it.
pub(crate) fn parted(text: &[u16], sign: u8) -> Option<(&[u16], &[u16])>
    ensures { both_now result ≡ parted sign text.now }
{
    let sign = u16::from(sign);
    let at = text.iter().position(|c| *c == sign)?;
    Some((&text[..at], &text[at + 1..]))
}

// Whether the units are the bytes of a text.
pub(crate) fn is_text(units: &[u16], text: &[u8]) -> bool
    ensures { result ≡ pointwise nat_eq units.now text.now }
{
    units.len() == text.len() && each_same(units, text)
}

// Whether the units are the bytes of a word in small letters, in any case.
pub(crate) fn is_key(units: &[u16], word: &[u8]) -> bool
    ensures { result ≡ is_key units.now word.now }
{
    units.len() == word.len() && each_small_same(units, word)
}

fn each_same(units: &[u16], text: &[u8]) -> bool
    ensures { result ≡ list_all (λ p. p.0 == p.1) (zip units.now text.now) }
{
    units
        .iter()
        .zip(text)
        .all(|(unit, byte)| *unit == u16::from(*byte))
}

fn each_small_same(units: &[u16], word: &[u8]) -> bool
    ensures { result ≡ list_all (λ p. to_ascii_lowercase p.0 == p.1) (zip units.now word.now) }
{
    units
        .iter()
        .zip(word)
        .all(|(unit, byte)| small(*unit) == u16::from(*byte))
}

// A unit with a capital letter made small.
fn small(unit: u16) -> u16
    ensures { result ≡ to_ascii_lowercase unit }
{
    if u16::from(b'A') <= unit && unit <= u16::from(b'Z') {
        unit + 32
    } else {
        unit
    }
}

// The bytes of the same numbers.
pub(crate) fn bytes_of(alloc: Global, units: &[u16]) -> Result<Vec<u8>, Mem>
    requires { list_all is_printable units.now ≡ true }
    ensures { IfOk result (λ bytes. bytes.items ≡ units.now) }
{
    let mut bytes = Vec::new(alloc);
    for unit in units {
        bytes.push(*unit as u8)?;
    }
    Ok(bytes)
}

// The bytes as UTF-16 units of the same numbers.
pub(crate) fn wide(alloc: Global, bytes: &[u8]) -> Result<Wide, Mem>
    ensures { IfOk result (λ units. units ≡ bytes.now) }
{
    let units = bytes.iter().map(|b| u16::from(*b)).collect(alloc)?;
    Ok(Sequence::from_vec(units))
}
