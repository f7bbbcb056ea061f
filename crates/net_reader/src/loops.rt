//! Reads the heads and ends of loops.
ghost use Rattle.std.specs.Prelude.{◌≡◌, true, option_map, IfOk};
ghost use Rattle.net_tree.specs.Tree as tree;
ghost use Rattle.net_tree.specs.View.{exp_of, line_of};
ghost use Rattle.net_reader.specs.Answers.{AnswersWhole};
ghost use Rattle.net_reader.specs.Fits.{fits_line, fits_option};
ghost use Rattle.net_reader.specs.LineReader as model;
ghost use Rattle.net_reader.specs.LineReader.{exp_in, for_in, step_in};
ghost use Rattle.net_reader.specs.WordView.{word_of};

use crate::characters::behind;
use crate::expressions::{boxed, expression, expression_in};
use crate::words::Word;
use net_exprs::PhraseFail;
use net_tree::{NetCounting, NetExpr, NetLine};
use std::alloc::Global;

fn step(alloc: Global, text: &[u8]) -> Result<Option<NetExpr>, PhraseFail>
    ensures answers { AnswersWhole (option_map exp_of) fits_option (step_in text.now) result }
    ensures held { IfOk result (λ step. fits_option (option_map exp_of step) ≡ true) }
{
    if text.is_empty() {
        return Ok(None);
    }
    match expression_in(alloc, behind(6, text)) {
        Ok(e) => Ok(Some(e)),
        Err(e) => Err(e),
    }
}

/// Reads a For from behind its word: a counter, its limits and its step.
pub(crate) fn for_head(alloc: Global, text: &[u8]) -> Result<NetLine, PhraseFail>
    ensures answers { AnswersWhole line_of fits_line (for_in text.now) result }
    ensures held { IfOk result (λ line. fits_line (line_of line) ≡ true) }
{
    let (counter, rest) = expression(alloc, text)?;
    let (start, rest) = expression(alloc, behind(3, rest))?;
    let (limit, rest) = expression(alloc, behind(4, rest))?;
    let step = step(alloc, rest)?;
    let counting = NetCounting {
        counter,
        start,
        limit,
        step,
    };
    Ok(NetLine::For(Box::new(alloc, counting)?))
}

fn do_while(alloc: Global, text: &[u8]) -> Result<NetLine, PhraseFail>
    ensures answers { AnswersWhole line_of fits_line (option_map tree.do_while (exp_in text.now)) result }
    ensures held { IfOk result (λ line. fits_line (line_of line) ≡ true) }
{
    match boxed(alloc, text) {
        Ok(condition) => Ok(NetLine::DoWhile(condition)),
        Err(e) => Err(e),
    }
}

fn do_until(alloc: Global, text: &[u8]) -> Result<NetLine, PhraseFail>
    ensures answers { AnswersWhole line_of fits_line (option_map tree.do_until (exp_in text.now)) result }
    ensures held { IfOk result (λ line. fits_line (line_of line) ≡ true) }
{
    match boxed(alloc, text) {
        Ok(condition) => Ok(NetLine::DoUntil(condition)),
        Err(e) => Err(e),
    }
}

fn loop_while(alloc: Global, text: &[u8]) -> Result<NetLine, PhraseFail>
    ensures answers { AnswersWhole line_of fits_line (option_map tree.loop_while (exp_in text.now)) result }
    ensures held { IfOk result (λ line. fits_line (line_of line) ≡ true) }
{
    match boxed(alloc, text) {
        Ok(condition) => Ok(NetLine::LoopWhile(condition)),
        Err(e) => Err(e),
    }
}

fn loop_until(alloc: Global, text: &[u8]) -> Result<NetLine, PhraseFail>
    ensures answers { AnswersWhole line_of fits_line (option_map tree.loop_until (exp_in text.now)) result }
    ensures held { IfOk result (λ line. fits_line (line_of line) ≡ true) }
{
    match boxed(alloc, text) {
        Ok(condition) => Ok(NetLine::LoopUntil(condition)),
        Err(e) => Err(e),
    }
}

/// Reads a Do, by the word behind it and what follows that.
pub(crate) fn do_of(alloc: Global, word: Option<Word>, text: &[u8]) -> Result<NetLine, PhraseFail>
    ensures answers { AnswersWhole line_of fits_line (model.do_of (option_map word_of word) text.now) result }
    ensures held { IfOk result (λ line. fits_line (line_of line) ≡ true) }
{
    match word {
        None => Ok(NetLine::Do),
        Some(Word::While) => do_while(alloc, text),
        Some(Word::Until) => do_until(alloc, text),
        Some(_) => Err(PhraseFail::NotNet),
    }
}

/// Reads a Loop, by the word behind it and what follows that.
pub(crate) fn loop_of(alloc: Global, word: Option<Word>, text: &[u8]) -> Result<NetLine, PhraseFail>
    ensures answers { AnswersWhole line_of fits_line (model.loop_of (option_map word_of word) text.now) result }
    ensures held { IfOk result (λ line. fits_line (line_of line) ≡ true) }
{
    match word {
        None => Ok(NetLine::Loop),
        Some(Word::While) => loop_while(alloc, text),
        Some(Word::Until) => loop_until(alloc, text),
        Some(_) => Err(PhraseFail::NotNet),
    }
}
