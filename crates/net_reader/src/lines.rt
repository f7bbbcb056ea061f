//! Reads a line of a procedure.
ghost use Rattle.std.specs.Prelude.{◌≡◌, ℕ, true, List, option_and_then, option_map, IfOk};
ghost use Rattle.net_tree.specs.Tree as tree;
ghost use Rattle.net_tree.specs.Tree.{Exp};
ghost use Rattle.net_tree.specs.View.{exp_of, line_of};
ghost use Rattle.net_reader.specs.Answers.{AnswersWhole};
ghost use Rattle.net_reader.specs.FileLines.{units_in};
ghost use Rattle.net_exprs.specs.Fitting.{fits_exp};
ghost use Rattle.net_reader.specs.Fits.{fits_line};
ghost use Rattle.net_reader.specs.LineReader as model;
ghost use Rattle.net_reader.specs.LineReader.{call_in, exp_at, exp_in, line_at, line_of_word, plain_line, statement_of};
ghost use Rattle.net_reader.specs.WordView.{word_of};

use crate::cases::case_of;
use crate::characters::{begins_with, behind, behind_word, ends_with};
use crate::expressions::{boxed, expression};
use crate::jumps::{exit_of, goto, label, on_error_of, resume_of};
use crate::loops::{do_of, for_head, loop_of};
use crate::redims::redim_by;
use crate::texts::units;
use crate::words::{Word, keyword_at};
use net_exprs::PhraseFail;
use net_tree::{NetExpr, NetLine};
use std::alloc::Global;
use up_base::Sequence;

fn if_head(alloc: Global, text: &[u8]) -> Result<NetLine, PhraseFail>
    ensures answers { AnswersWhole line_of fits_line (option_map tree.if_head (exp_in text.now)) result }
    ensures held { IfOk result (λ line. fits_line (line_of line) ≡ true) }
{
    match boxed(alloc, text) {
        Ok(condition) => Ok(NetLine::If(condition)),
        Err(e) => Err(e),
    }
}

fn else_if(alloc: Global, text: &[u8]) -> Result<NetLine, PhraseFail>
    ensures answers { AnswersWhole line_of fits_line (option_map tree.else_if (exp_in text.now)) result }
    ensures held { IfOk result (λ line. fits_line (line_of line) ≡ true) }
{
    match boxed(alloc, text) {
        Ok(condition) => Ok(NetLine::ElseIf(condition)),
        Err(e) => Err(e),
    }
}

fn select(alloc: Global, text: &[u8]) -> Result<NetLine, PhraseFail>
    ensures answers { AnswersWhole line_of fits_line (option_map tree.select (exp_in text.now)) result }
    ensures held { IfOk result (λ line. fits_line (line_of line) ≡ true) }
{
    match boxed(alloc, text) {
        Ok(value) => Ok(NetLine::Select(value)),
        Err(e) => Err(e),
    }
}

fn while_head(alloc: Global, text: &[u8]) -> Result<NetLine, PhraseFail>
    ensures answers { AnswersWhole line_of fits_line (option_map tree.while_head (exp_in text.now)) result }
    ensures held { IfOk result (λ line. fits_line (line_of line) ≡ true) }
{
    match boxed(alloc, text) {
        Ok(condition) => Ok(NetLine::While(condition)),
        Err(e) => Err(e),
    }
}

fn with_head(alloc: Global, text: &[u8]) -> Result<NetLine, PhraseFail>
    ensures answers { AnswersWhole line_of fits_line (option_map tree.with_head (exp_in text.now)) result }
    ensures held { IfOk result (λ line. fits_line (line_of line) ≡ true) }
{
    match boxed(alloc, text) {
        Ok(object) => Ok(NetLine::With(object)),
        Err(e) => Err(e),
    }
}

// The line of an End, by the word behind it.
fn end_of(word: Option<Word>) -> Result<NetLine, PhraseFail>
    ensures answers { AnswersWhole line_of fits_line (model.end_of (option_map word_of word)) result }
    ensures held { IfOk result (λ line. fits_line (line_of line) ≡ true) }
{
    match word {
        Some(Word::If) => Ok(NetLine::EndIf),
        Some(Word::Select) => Ok(NetLine::EndSelect),
        Some(Word::While) => Ok(NetLine::EndWhile),
        Some(Word::With) => Ok(NetLine::EndWith),
        _ => Err(PhraseFail::NotNet),
    }
}

// The line that a word begins, from behind the blank that follows it.
fn worded(alloc: Global, word: Word, text: &[u8]) -> Result<NetLine, PhraseFail>
    ensures answers { AnswersWhole line_of fits_line (line_of_word (word_of word) text.now) result }
    ensures held { IfOk result (λ line. fits_line (line_of line) ≡ true) }
{
    match word {
        Word::If => if_head(alloc, text),
        Word::ElseIf => else_if(alloc, text),
        Word::Else => Ok(NetLine::Else),
        Word::End => end_of(keyword_at(text)),
        Word::Select => select(alloc, behind(5, text)),
        Word::Case => case_of(alloc, keyword_at(text), text),
        Word::For => for_head(alloc, text),
        Word::Next => Ok(NetLine::Next),
        Word::Do => do_of(alloc, keyword_at(text), behind(6, text)),
        Word::Loop => loop_of(alloc, keyword_at(text), behind(6, text)),
        Word::While => while_head(alloc, text),
        Word::With => with_head(alloc, text),
        Word::GoTo => goto(alloc, text),
        Word::On => on_error_of(alloc, keyword_at(behind(6, text)), behind(11, text)),
        Word::Resume => resume_of(alloc, keyword_at(text), text),
        Word::Exit => exit_of(keyword_at(text)),
        Word::ReDim => redim_by(alloc, keyword_at(text), text),
        _ => Err(PhraseFail::NotNet),
    }
}

// A call, which was read as an expression.
#[tactic(auto, using(net_tree::proofs::Views::exps_hidden))]
fn call(e: NetExpr) -> Result<NetLine, PhraseFail>
    requires { fits_exp (exp_of e) ≡ true }
    ensures answers { AnswersWhole line_of fits_line (call_in (exp_of e)) result }
    ensures held { IfOk result (λ line. fits_line (line_of line) ≡ true) }
{
    match e {
        NetExpr::Call(callee, arguments) => {
            Ok(NetLine::Call(callee, Sequence::from_vec(arguments)))
        }
        _ => Err(PhraseFail::NotNet),
    }
}

// A call, or an assignment where text follows its first expression.
fn statement(alloc: Global, e: NetExpr, text: &[u8]) -> Result<NetLine, PhraseFail>
    requires { fits_exp (exp_of e) ≡ true }
    ensures answers { AnswersWhole line_of fits_line (statement_of (exp_of e) text.now) result }
    ensures held { IfOk result (λ line. fits_line (line_of line) ≡ true) }
{
    if text.is_empty() {
        return call(e);
    }
    let target = Box::new(alloc, e)?;
    match boxed(alloc, behind(3, text)) {
        Ok(value) => Ok(NetLine::Assign(target, value)),
        Err(e) => Err(e),
    }
}

// A statement from its first expression on.
fn plain_statement(alloc: Global, text: &[u8]) -> Result<NetLine, PhraseFail>
    ensures answers { AnswersWhole line_of fits_line (option_and_then (λ (r : Exp × List ℕ). statement_of r.0 r.1) (exp_at text.now)) result }
    ensures held { IfOk result (λ line. fits_line (line_of line) ≡ true) }
{
    let (e, rest) = expression(alloc, text)?;
    statement(alloc, e, rest)
}

// The line that no word begins: a label has a colon at its end.
fn plain_line(alloc: Global, text: &[u8]) -> Result<NetLine, PhraseFail>
    ensures answers { AnswersWhole line_of fits_line (plain_line text.now) result }
    ensures held { IfOk result (λ line. fits_line (line_of line) ≡ true) }
{
    if ends_with(b':', text) {
        return label(alloc, text);
    }
    plain_statement(alloc, text)
}

fn comment(alloc: Global, text: &[u8]) -> Result<NetLine, PhraseFail>
    ensures answers { AnswersWhole line_of fits_line (option_map tree.comment (units_in text.now)) result }
    ensures held { IfOk result (λ line. fits_line (line_of line) ≡ true) }
{
    match units(alloc, text) {
        Ok(units) => Ok(NetLine::Comment(units)),
        Err(e) => Err(e),
    }
}

/// Reads a line of a procedure from its text, which may go on behind what the line needs. It fails with `NotNet` where
/// no line begins there, or one with a part that `net_exprs` doesn't read.
pub fn read_line(alloc: Global, text: &[u8]) -> Result<NetLine, PhraseFail>
    ensures answers { AnswersWhole line_of fits_line (line_at text.now) result }
    ensures held { IfOk result (λ line. fits_line (line_of line) ≡ true) }
{
    if begins_with(b'\'', text) {
        return comment(alloc, behind(1, text));
    }
    match keyword_at(text) {
        Some(word) => worded(alloc, word, behind(1, behind_word(text))),
        None => plain_line(alloc, text),
    }
}
