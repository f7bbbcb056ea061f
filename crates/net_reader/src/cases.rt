//! Reads what a Case asks for.
ghost use Rattle.std.specs.Prelude.{◌≡◌, ◌<◌, ◌≤◌, true, None, length, option_map, IfOk};
ghost use Rattle.net_tree.specs.View.{case_item_of, exp_of, line_of};
ghost use Rattle.net_exprs.specs.Answers.{Answers};
ghost use Rattle.net_exprs.specs.Readers.{look_up};
ghost use Rattle.net_reader.specs.Answers.{AnswersWhole};
ghost use Rattle.net_exprs.specs.Fitting.{fits_exp};
ghost use Rattle.net_reader.specs.Fits.{fits_case, fits_line};
ghost use Rattle.net_reader.specs.LineReader.{case_is_at, case_item_by, case_of, case_value_of, comparisons};
ghost use Rattle.net_reader.specs.WordView.{word_of};

use crate::characters::{before_blank, begins_with, behind, is};
use crate::expressions::expression;
use crate::items::{Item, items};
use crate::words::{Word, keyword_at};
use net_exprs::PhraseFail;
use net_tree::{NetBin, NetCase, NetExpr, NetLine};
use std::alloc::Global;
use up_base::Sequence;

// The comparison that a sign is.
fn comparison(sign: &[u8]) -> Option<NetBin>
    ensures { result ≡ look_up sign.now comparisons }
{
    if is(sign, b"=") {
        Some(NetBin::Equal)
    } else if is(sign, b"<>") {
        Some(NetBin::NotEqual)
    } else if is(sign, b"<") {
        Some(NetBin::Less)
    } else if is(sign, b">") {
        Some(NetBin::Greater)
    } else if is(sign, b"<=") {
        Some(NetBin::LessEqual)
    } else if is(sign, b">=") {
        Some(NetBin::GreaterEqual)
    } else {
        None
    }
}

// A comparison, behind its `Is`.
fn case_is(alloc: Global, text: &[u8]) -> Result<(NetCase, &[u8]), PhraseFail>
    ensures answers { Answers case_item_of fits_case (case_is_at text.now) result }
    ensures shorter { IfOk result (λ read. length read.1.now < length text.now) }
    ensures held { IfOk result (λ read. fits_case (case_item_of read.0) ≡ true) }
{
    let sign = before_blank(text);
    let Some(op) = comparison(sign) else {
        return Err(PhraseFail::NotNet);
    };
    match expression(alloc, behind(1, behind(sign.len(), text))) {
        Ok((e, rest)) => Ok((NetCase::Is(op, e), rest)),
        Err(e) => Err(e),
    }
}

// A value, or a range where a To follows.
fn case_value(alloc: Global, value: NetExpr, text: &[u8]) -> Result<(NetCase, &[u8]), PhraseFail>
    requires { fits_exp (exp_of value) ≡ true }
    ensures answers { Answers case_item_of fits_case (case_value_of (exp_of value) text.now) result }
    ensures shorter { IfOk result (λ read. length read.1.now ≤ length text.now) }
    ensures held { IfOk result (λ read. fits_case (case_item_of read.0) ≡ true) }
{
    if !begins_with(b' ', text) {
        return Ok((NetCase::Value(value), text));
    }
    match expression(alloc, behind(4, text)) {
        Ok((upper, rest)) => Ok((NetCase::Range(value, upper), rest)),
        Err(e) => Err(e),
    }
}

// A value or a range.
fn plain_case(alloc: Global, text: &[u8]) -> Result<(NetCase, &[u8]), PhraseFail>
    ensures answers { Answers case_item_of fits_case (case_item_by None text.now) result }
    ensures shorter { IfOk result (λ read. length read.1.now < length text.now) }
    ensures held { IfOk result (λ read. fits_case (case_item_of read.0) ≡ true) }
{
    let (value, rest) = expression(alloc, text)?;
    case_value(alloc, value, rest)
}

fn case_item(alloc: Global, word: Option<Word>, text: &[u8]) -> Result<(NetCase, &[u8]), PhraseFail>
    ensures answers { Answers case_item_of fits_case (case_item_by (option_map word_of word) text.now) result }
    ensures shorter { IfOk result (λ read. length read.1.now < length text.now) }
    ensures held { IfOk result (λ read. fits_case (case_item_of read.0) ≡ true) }
{
    match word {
        None => plain_case(alloc, text),
        Some(Word::Is) => case_is(alloc, behind(3, text)),
        Some(_) => Err(PhraseFail::NotNet),
    }
}

impl Item for NetCase {
    ghost use Rattle.net_tree.specs.Tree.{CaseItem};
    ghost use Rattle.net_tree.specs.View.{case_item_of};
    ghost use Rattle.net_reader.specs.Fits.{fits_case};
    ghost use Rattle.net_reader.specs.LineReader.{case_item_at};

    ghost Plain = { CaseItem };

    ghost view = { case_item_of };

    ghost fits = { fits_case };

    ghost item_at = { case_item_at };

    fn read(alloc: Global, text: &[u8]) -> Result<(NetCase, &[u8]), PhraseFail> {
        case_item(alloc, keyword_at(text), text)
    }
}

fn case_line(alloc: Global, text: &[u8]) -> Result<NetLine, PhraseFail>
    ensures answers { AnswersWhole line_of fits_line (case_of None text.now) result }
    ensures held { IfOk result (λ line. fits_line (line_of line) ≡ true) }
{
    match items(alloc, text) {
        Ok((items, _)) => Ok(NetLine::Case(Sequence::from_vec(items))),
        Err(e) => Err(e),
    }
}

/// Reads a Case, by the word behind it and the text there.
pub(crate) fn case_of(alloc: Global, word: Option<Word>, text: &[u8]) -> Result<NetLine, PhraseFail>
    ensures answers { AnswersWhole line_of fits_line (case_of (option_map word_of word) text.now) result }
    ensures held { IfOk result (λ line. fits_line (line_of line) ≡ true) }
{
    match word {
        Some(Word::Else) => Ok(NetLine::CaseElse),
        _ => case_line(alloc, text),
    }
}
