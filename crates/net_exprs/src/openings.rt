//! Reads what an expression begins with.
ghost use Rattle.std.specs.Prelude.{◌≡◌, ◌<◌, ◌≤◌, true, false, length, IfOk, Some};
ghost use Rattle.net_exprs.specs.Answers.{Answers};
ghost use Rattle.net_exprs.specs.Expressions as model;
ghost use Rattle.net_exprs.specs.Expressions.{keyword_of, opening_at};
ghost use Rattle.net_exprs.specs.Openings.{fits_opening, opening_view};
ghost use Rattle.net_exprs.specs.Readers.{after, word_at};
ghost use Rattle.net_tree.specs.View.{exp_of};

use crate::characters::{after, word_at};
use crate::fail::PhraseFail;
use crate::literals::read_literal;
use crate::names::{read_name, read_path};
use crate::starts::{Front, Keyword, Start, front_of, keyword_of, start_of};
use crate::types::read_base;
use net_tree::{CastWord, NetExpr, NetLit, NetType, NetUn};
use std::alloc::Global;

/// What an expression is nested in.
#[derive(Clone, Copy)]
pub enum Nest {
    Cast(CastWord),
    /// `CType(e, t)`
    Convert,
    Unary(NetUn),
    /// `(TypeOf e Is t)`
    TypeTest,
    Parentheses,
}

/// What an expression begins with: what needs no other expression, or what stands before one that is nested.
#[derive(Drop)]
pub enum Opening {
    Leaf(NetExpr),
    /// `New` and a type
    Made(NetType),
    Nested(Nest),
}

fn literal(alloc: Global, text: &[u8]) -> Result<(Opening, &[u8]), PhraseFail>
    ensures answers { Answers opening_view fits_opening (model.literal_opening text.now) result }
    ensures shorter { IfOk result (λ read. length read.1.now < length text.now) }
    ensures held { IfOk result (λ read. fits_opening (opening_view read.0) ≡ true) }
{
    match read_literal(alloc, text) {
        Ok((literal, rest)) => Ok((Opening::Leaf(NetExpr::Lit(literal)), rest)),
        Err(e) => Err(e),
    }
}

fn path(alloc: Global, text: &[u8]) -> Result<(Opening, &[u8]), PhraseFail>
    ensures answers { Answers opening_view fits_opening (model.path_opening text.now) result }
    ensures shorter { IfOk result (λ read. length read.1.now < length text.now) }
    ensures held { IfOk result (λ read. fits_opening (opening_view read.0) ≡ true) }
{
    match read_path(alloc, text) {
        Ok((path, rest)) => Ok((Opening::Leaf(NetExpr::Path(path)), rest)),
        Err(e) => Err(e),
    }
}

// A member of the innermost With's object, behind its full stop.
fn with_dot(alloc: Global, text: &[u8]) -> Result<(Opening, &[u8]), PhraseFail>
    ensures answers { Answers opening_view fits_opening (model.point_opening text.now) result }
    ensures shorter { IfOk result (λ read. length read.1.now < length text.now) }
    ensures held { IfOk result (λ read. fits_opening (opening_view read.0) ≡ true) }
{
    match read_name(alloc, text) {
        Ok((name, rest)) => Ok((Opening::Leaf(NetExpr::WithDot(name)), rest)),
        Err(e) => Err(e),
    }
}

// A type behind `New`.
fn creation(alloc: Global, text: &[u8]) -> Result<(Opening, &[u8]), PhraseFail>
    ensures answers { Answers opening_view fits_opening (model.new_opening text.now) result }
    ensures shorter { IfOk result (λ read. length read.1.now < length text.now) }
    ensures held { IfOk result (λ read. fits_opening (opening_view read.0) ≡ true) }
{
    let Some(text) = after(b" ", text) else {
        return Err(PhraseFail::NotNet);
    };
    match read_base(alloc, text) {
        Ok((ty, rest)) => Ok((Opening::Made(ty), rest)),
        Err(e) => Err(e),
    }
}

// What an expression is nested in, where a text stands at the front.
fn nested<'a>(nest: Nest, front: &[u8], text: &'a [u8]) -> Result<(Opening, &'a [u8]), PhraseFail>
    ensures answers { Answers opening_view fits_opening (model.nested_past nest (after front.now text.now)) result }
    ensures shorter { IfOk result (λ read. length read.1.now ≤ length text.now) }
    ensures held { IfOk result (λ read. fits_opening (opening_view read.0) ≡ true) }
{
    match after(front, text) {
        Some(rest) => Ok((Opening::Nested(nest), rest)),
        None => Err(PhraseFail::NotNet),
    }
}

// What stands behind an opening parenthesis.
fn parenthesized(text: &[u8]) -> Result<(Opening, &[u8]), PhraseFail>
    ensures answers { Answers opening_view fits_opening (model.parenthesized text.now (model.front_of text.now)) result }
    ensures shorter { IfOk result (λ read. length read.1.now ≤ length text.now) }
    ensures held { IfOk result (λ read. fits_opening (opening_view read.0) ≡ true) }
{
    match front_of(text) {
        Front::Closing => Err(PhraseFail::NotNet),
        Front::Comma => Err(PhraseFail::NotNet),
        Front::Minus => nested(Nest::Unary(NetUn::Neg), b"-", text),
        Front::Negation => nested(Nest::Unary(NetUn::Not), b"Not ", text),
        Front::TypeTest => nested(Nest::TypeTest, b"TypeOf ", text),
        Front::Operand => Ok((Opening::Nested(Nest::Parentheses), text)),
    }
}

// What stands behind a word of the language.
fn keyworded<'a>(
    alloc: Global,
    keyword: Keyword,
    rest: &'a [u8],
) -> Result<(Opening, &'a [u8]), PhraseFail>
    ensures answers { Answers opening_view fits_opening (model.worded rest.now rest.now (Some keyword)) result }
    ensures shorter { IfOk result (λ read. length read.1.now ≤ length rest.now) }
    ensures held { IfOk result (λ read. fits_opening (opening_view read.0) ≡ true) }
{
    match keyword {
        Keyword::Nothing => Ok((Opening::Leaf(NetExpr::Nothing), rest)),
        Keyword::Me => Ok((Opening::Leaf(NetExpr::Me), rest)),
        Keyword::True => Ok((Opening::Leaf(NetExpr::Lit(NetLit::Boolean(true))), rest)),
        Keyword::False => Ok((Opening::Leaf(NetExpr::Lit(NetLit::Boolean(false))), rest)),
        Keyword::Cast(word) => nested(Nest::Cast(word), b"(", rest),
        Keyword::CType => nested(Nest::Convert, b"(", rest),
        Keyword::New => creation(alloc, rest),
    }
}

// A word of the language, or a path.
fn worded(alloc: Global, text: &[u8]) -> Result<(Opening, &[u8]), PhraseFail>
    ensures answers { Answers opening_view fits_opening (model.worded (word_at text.now).1 text.now (keyword_of (word_at text.now).0)) result }
    ensures shorter { IfOk result (λ read. length read.1.now < length text.now) }
    ensures held { IfOk result (λ read. fits_opening (opening_view read.0) ≡ true) }
{
    let (word, rest) = word_at(text);
    match keyword_of(word) {
        Some(keyword) => keyworded(alloc, keyword, rest),
        None => path(alloc, text),
    }
}

// The bound -1, behind its sign.
fn minus(text: &[u8]) -> Result<(Opening, &[u8]), PhraseFail>
    ensures answers { Answers opening_view fits_opening (model.minus_opening text.now) result }
    ensures shorter { IfOk result (λ read. length read.1.now < length text.now) }
    ensures held { IfOk result (λ read. fits_opening (opening_view read.0) ≡ true) }
{
    match after(b"1", text) {
        Some(rest) => Ok((
            Opening::Leaf(NetExpr::Lit(NetLit::Integer(-1, false))),
            rest,
        )),
        None => Err(PhraseFail::NotNet),
    }
}

/// Reads what an expression begins with.
pub(crate) fn read_opening(alloc: Global, text: &[u8]) -> Result<(Opening, &[u8]), PhraseFail>
    ensures answers { Answers opening_view fits_opening (opening_at text.now) result }
    ensures shorter { IfOk result (λ read. length read.1.now < length text.now) }
    ensures held { IfOk result (λ read. fits_opening (opening_view read.0) ≡ true) }
{
    let [first, rest @ ..] = text else {
        return Err(PhraseFail::NotNet);
    };
    match start_of(*first) {
        Start::Literal => literal(alloc, text),
        Start::Word => worded(alloc, text),
        Start::Bracket => path(alloc, text),
        Start::Point => with_dot(alloc, rest),
        Start::Opening => parenthesized(rest),
        Start::Minus => minus(rest),
        Start::Other => Err(PhraseFail::NotNet),
    }
}
