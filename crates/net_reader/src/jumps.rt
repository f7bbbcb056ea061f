//! Reads jumps and labels.
ghost use Rattle.std.specs.Prelude.{◌≡◌, true, None, option_map, IfOk};
ghost use Rattle.net_tree.specs.Tree as tree;
ghost use Rattle.net_tree.specs.View.{line_of};
ghost use Rattle.net_exprs.specs.Fitting.{fits_label};
ghost use Rattle.net_reader.specs.Answers.{AnswersWhole};
ghost use Rattle.net_reader.specs.Fits.{fits_line};
ghost use Rattle.net_reader.specs.LineReader as model;
ghost use Rattle.net_reader.specs.LineReader.{exit_of, handler_of};
ghost use Rattle.net_reader.specs.WordView.{word_of};

use crate::expressions::label_in;
use crate::words::Word;
use net_exprs::PhraseFail;
use net_tree::{NetExit, NetLabel, NetLine};
use std::alloc::Global;

/// Reads a label's line.
pub(crate) fn label(alloc: Global, text: &[u8]) -> Result<NetLine, PhraseFail>
    ensures answers { AnswersWhole line_of fits_line (option_map tree.label (model.label_in text.now)) result }
    ensures held { IfOk result (λ line. fits_line (line_of line) ≡ true) }
{
    match label_in(alloc, text) {
        Ok(label) => Ok(NetLine::Label(label)),
        Err(e) => Err(e),
    }
}

/// Reads a GoTo from behind its word.
pub(crate) fn goto(alloc: Global, text: &[u8]) -> Result<NetLine, PhraseFail>
    ensures answers { AnswersWhole line_of fits_line (option_map tree.goto (model.label_in text.now)) result }
    ensures held { IfOk result (λ line. fits_line (line_of line) ≡ true) }
{
    match label_in(alloc, text) {
        Ok(label) => Ok(NetLine::GoTo(label)),
        Err(e) => Err(e),
    }
}

// Where an error is sent to: the label 0 is none.
fn handler(label: NetLabel) -> NetLine
    ensures line { line_of result ≡ handler_of label }
    ensures held { fits_label label ≡ true → fits_line (line_of result) ≡ true }
{
    match label {
        NetLabel::Number(0) => NetLine::OnErrorGoToZero,
        _ => NetLine::OnErrorGoTo(label),
    }
}

fn on_error_goto(alloc: Global, text: &[u8]) -> Result<NetLine, PhraseFail>
    ensures answers { AnswersWhole line_of fits_line (option_map handler_of (model.label_in text.now)) result }
    ensures held { IfOk result (λ line. fits_line (line_of line) ≡ true) }
{
    match label_in(alloc, text) {
        Ok(label) => Ok(handler(label)),
        Err(e) => Err(e),
    }
}

/// Reads an On Error, by the word behind it and what follows that.
pub(crate) fn on_error_of(
    alloc: Global,
    word: Option<Word>,
    text: &[u8],
) -> Result<NetLine, PhraseFail>
    ensures answers { AnswersWhole line_of fits_line (model.on_error_of (option_map word_of word) text.now) result }
    ensures held { IfOk result (λ line. fits_line (line_of line) ≡ true) }
{
    match word {
        Some(Word::GoTo) => on_error_goto(alloc, text),
        Some(Word::Resume) => Ok(NetLine::OnErrorResumeNext),
        _ => Err(PhraseFail::NotNet),
    }
}

fn resume_at(alloc: Global, text: &[u8]) -> Result<NetLine, PhraseFail>
    ensures answers { AnswersWhole line_of fits_line (option_map tree.resume_at (model.label_in text.now)) result }
    ensures held { IfOk result (λ line. fits_line (line_of line) ≡ true) }
{
    match label_in(alloc, text) {
        Ok(label) => Ok(NetLine::ResumeAt(label)),
        Err(e) => Err(e),
    }
}

// A Resume behind which no word of lines stands.
fn plain_resume(alloc: Global, text: &[u8]) -> Result<NetLine, PhraseFail>
    ensures answers { AnswersWhole line_of fits_line (model.resume_of None text.now) result }
    ensures held { IfOk result (λ line. fits_line (line_of line) ≡ true) }
{
    if text.is_empty() {
        return Ok(NetLine::Resume);
    }
    resume_at(alloc, text)
}

/// Reads a Resume, by the word behind it and the text there.
pub(crate) fn resume_of(
    alloc: Global,
    word: Option<Word>,
    text: &[u8],
) -> Result<NetLine, PhraseFail>
    ensures answers { AnswersWhole line_of fits_line (model.resume_of (option_map word_of word) text.now) result }
    ensures held { IfOk result (λ line. fits_line (line_of line) ≡ true) }
{
    match word {
        None => plain_resume(alloc, text),
        Some(Word::Next) => Ok(NetLine::ResumeNext),
        Some(_) => Err(PhraseFail::NotNet),
    }
}

// What an Exit leaves.
fn left_by(word: Option<Word>) -> Option<NetExit>
    ensures { result ≡ exit_of (option_map word_of word) }
{
    match word {
        Some(Word::Sub) => Some(NetExit::Sub),
        Some(Word::Function) => Some(NetExit::Function),
        Some(Word::Property) => Some(NetExit::Property),
        Some(Word::For) => Some(NetExit::For),
        Some(Word::Do) => Some(NetExit::Do),
        _ => None,
    }
}

/// Reads an Exit, by the word behind it.
pub(crate) fn exit_of(word: Option<Word>) -> Result<NetLine, PhraseFail>
    ensures answers { AnswersWhole line_of fits_line (option_map tree.exit (exit_of (option_map word_of word))) result }
    ensures held { IfOk result (λ line. fits_line (line_of line) ≡ true) }
{
    match left_by(word) {
        Some(what) => Ok(NetLine::Exit(what)),
        None => Err(PhraseFail::NotNet),
    }
}
