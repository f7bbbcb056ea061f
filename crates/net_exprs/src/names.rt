//! Reads names, paths and labels.
ghost use Rattle.std.specs.Prelude.{◌≡◌, ◌<◌, true, false, length, IfOk, OnOk, IsErrOf};
ghost use Rattle.net_exprs.specs.Answers.{Answers};
ghost use Rattle.net_exprs.specs.Fitting.{fits_label, fits_name, fits_path};
ghost use Rattle.net_exprs.specs.Names.{begins_digit, bracketed_name, label_at, name_at, path_at, plain_name};
ghost use Rattle.net_exprs.specs.Readers.{word_at};

use crate::characters::{after, begins_digit, word_at};
use crate::fail::PhraseFail;
use crate::numerals::numeral;
use net_tree::{NetLabel, Path};
use std::alloc::Global;
use up_base::{Name, NameFail};

// The name that a word makes.
fn named(alloc: Global, word: &[u8]) -> Result<Name, PhraseFail>
    ensures name { IfOk result (λ name. name ≡ word.now) }
    ensures misfits { IsErrOf result PhraseFail.NotNet → fits_name word.now ≡ false }
    ensures held { IfOk result (λ name. fits_name name ≡ true) }
{
    match Name::make(alloc, word) {
        Ok(name) => Ok(name),
        Err(NameFail::NotName) => Err(PhraseFail::NotNet),
        Err(NameFail::Mem) => Err(PhraseFail::Mem),
    }
}

fn plain_name(alloc: Global, text: &[u8]) -> Result<(Name, &[u8]), PhraseFail>
    ensures answers { Answers (λ name. name) fits_name (plain_name (word_at text.now).0 (word_at text.now).1) result }
    ensures shorter { IfOk result (λ read. length read.1.now < length text.now) }
    ensures held { IfOk result (λ read. fits_name read.0 ≡ true) }
{
    let (word, rest) = word_at(text);
    if word.is_empty() {
        return Err(PhraseFail::NotNet);
    }
    match named(alloc, word) {
        Ok(name) => Ok((name, rest)),
        Err(e) => Err(e),
    }
}

// What stands behind an opening bracket.
fn bracketed_name(alloc: Global, text: &[u8]) -> Result<(Name, &[u8]), PhraseFail>
    ensures answers { Answers (λ name. name) fits_name (bracketed_name (word_at text.now).0 (word_at text.now).1) result }
    ensures shorter { IfOk result (λ read. length read.1.now < length text.now) }
    ensures held { IfOk result (λ read. fits_name read.0 ≡ true) }
{
    let (word, rest) = word_at(text);
    let Some(rest) = after(b"]", rest) else {
        return Err(PhraseFail::NotNet);
    };
    match named(alloc, word) {
        Ok(name) => Ok((name, rest)),
        Err(e) => Err(e),
    }
}

/// Reads a name, plain or in brackets. It fails with `NotNet` where none stands there, or one of more than 512
/// characters.
pub fn read_name(alloc: Global, text: &[u8]) -> Result<(Name, &[u8]), PhraseFail>
    ensures answers { Answers (λ name. name) fits_name (name_at text.now) result }
    ensures shorter { IfOk result (λ read. length read.1.now < length text.now) }
    ensures held { IfOk result (λ read. fits_name read.0 ≡ true) }
{
    match text {
        [b'[', inner @ ..] => bracketed_name(alloc, inner),
        _ => plain_name(alloc, text),
    }
}

/// Reads names joined by full stops.
pub(crate) fn read_path(alloc: Global, text: &[u8]) -> Result<(Path, &[u8]), PhraseFail>
    ensures answers { Answers (λ path. path) fits_path (path_at text.now) result }
    ensures shorter { IfOk result (λ read. length read.1.now < length text.now) }
    ensures held { IfOk result (λ read. fits_path read.0 ≡ true) }
{
    let mut names = Path::new(alloc);
    let mut rest = text;
    'names: loop {
        let (name, behind) = read_name(alloc, rest)?;
        names.push(name)?;
        let Some(more) = after(b".", behind) else {
            return Ok((names, behind));
        };
        rest = more;
    }
}

#[tactic(auto, using(crate::proofs::Fronts::numeral_shorter))]
fn read_number(text: &[u8]) -> Result<(NetLabel, &[u8]), PhraseFail>
    requires { begins_digit text.now ≡ true }
    ensures answers { Answers (λ label. label) fits_label (label_at text.now) result }
    ensures shorter { IfOk result (λ read. length read.1.now < length text.now) }
    ensures held { IfOk result (λ read. fits_label read.0 ≡ true) }
{
    let Some((number, rest)) = numeral(10, text) else {
        return Err(PhraseFail::NotNet);
    };
    match u32::try_from(number) {
        Ok(number) => Ok((NetLabel::Number(number), rest)),
        Err(_) => Err(PhraseFail::NotNet),
    }
}

/// Reads a label: a whole number in decimal digits, or a name. It fails with `NotNet` where none stands there, or a
/// number that isn't below 2 to the 32nd, or a name of more than 512 characters.
pub fn read_label(alloc: Global, text: &[u8]) -> Result<(NetLabel, &[u8]), PhraseFail>
    ensures answers { Answers (λ label. label) fits_label (label_at text.now) result }
    ensures shorter { IfOk result (λ read. length read.1.now < length text.now) }
    ensures held { IfOk result (λ read. fits_label read.0 ≡ true) }
{
    if begins_digit(text) {
        return read_number(text);
    }
    match read_name(alloc, text) {
        Ok((name, rest)) => Ok((NetLabel::Word(name), rest)),
        Err(e) => Err(e),
    }
}
