//! Closes what an expression is nested in.
ghost use Rattle.std.specs.Prelude.{◌≡◌, ℕ, suc, ◌+◌, ◌<◌, ◌≤◌, true, codes, length, IfOk};
ghost use Rattle.net_tree.specs.Depth.{depth_exp};
ghost use Rattle.net_tree.specs.Tree.{binary, cast, ctype, paren, type_of, unary};
ghost use Rattle.net_tree.specs.View.{exp_of, type_name_of};
ghost use Rattle.net_exprs.specs.Answers.{Answers};
ghost use Rattle.net_exprs.specs.Expressions.{closed, closed_type, type_behind, whole};
ghost use Rattle.net_exprs.specs.Fitting.{fits_exp, fits_type};
ghost use Rattle.net_exprs.specs.Stages.{Leaves, StageLeaves, fits_stage, read_view, stage_view};

use crate::characters::after;
use crate::fail::PhraseFail;
use crate::stages::{ReadExpr, Stage};
use crate::types::read_type;
use net_tree::{CastWord, NetBin, NetExpr, NetType, NetUn};
use std::alloc::Global;
use up_base::Mem;

// The closing parenthesis behind an expression.
fn closed(expr: NetExpr, left: u16, text: &[u8]) -> Result<(Stage, &[u8]), PhraseFail>
    ensures answers { Answers stage_view fits_stage (closed (λ e. e) (exp_of expr) text.now) result }
    ensures shorter { IfOk result (λ read. length read.1.now ≤ length text.now) }
    ensures held { fits_exp (exp_of expr) ≡ true → IfOk result (λ read. fits_stage (stage_view read.0) ≡ true) }
    ensures left { (room : ℕ) → left + depth_exp (exp_of expr) ≡ suc room → IfOk result (λ read. StageLeaves room read.0) }
{
    match after(b")", text) {
        Some(rest) => Ok((Stage::Whole(ReadExpr { expr, room: left }), rest)),
        None => Err(PhraseFail::NotNet),
    }
}

/// An expression in parentheses.
pub(crate) fn paren(alloc: Global, inner: ReadExpr) -> Result<Stage, Mem>
    ensures stage { IfOk result (λ stage. stage_view stage ≡ whole (paren (read_view inner))) }
    ensures left { (room : ℕ) → Leaves room inner → IfOk result (λ stage. StageLeaves room stage) }
{
    Ok(Stage::Whole(ReadExpr {
        expr: NetExpr::Paren(Box::new(alloc, inner.expr)?),
        room: inner.room,
    }))
}

/// A conversion, up to its closing parenthesis.
pub(crate) fn cast(
    alloc: Global,
    word: CastWord,
    operand: ReadExpr,
    text: &[u8],
) -> Result<(Stage, &[u8]), PhraseFail>
    ensures answers { Answers stage_view fits_stage (closed (cast word) (read_view operand) text.now) result }
    ensures shorter { IfOk result (λ read. length read.1.now ≤ length text.now) }
    ensures held { fits_exp (read_view operand) ≡ true → IfOk result (λ read. fits_stage (stage_view read.0) ≡ true) }
    ensures left { (room : ℕ) → Leaves room operand → IfOk result (λ read. StageLeaves room read.0) }
{
    let expr = NetExpr::Cast(word, Box::new(alloc, operand.expr)?);
    closed(expr, operand.room, text)
}

/// An operator with its operand, up to the closing parenthesis.
pub(crate) fn unary(
    alloc: Global,
    op: NetUn,
    operand: ReadExpr,
    text: &[u8],
) -> Result<(Stage, &[u8]), PhraseFail>
    ensures answers { Answers stage_view fits_stage (closed (unary op) (read_view operand) text.now) result }
    ensures shorter { IfOk result (λ read. length read.1.now ≤ length text.now) }
    ensures held { fits_exp (read_view operand) ≡ true → IfOk result (λ read. fits_stage (stage_view read.0) ≡ true) }
    ensures left { (room : ℕ) → Leaves room operand → IfOk result (λ read. StageLeaves room read.0) }
{
    let expr = NetExpr::Unary(op, Box::new(alloc, operand.expr)?);
    closed(expr, operand.room, text)
}

/// An operator with both operands, up to the closing parenthesis.
pub(crate) fn binary(
    alloc: Global,
    op: NetBin,
    left: ReadExpr,
    right: ReadExpr,
    text: &[u8],
) -> Result<(Stage, &[u8]), PhraseFail>
    ensures answers { Answers stage_view fits_stage (closed (binary op (read_view left)) (read_view right) text.now) result }
    ensures shorter { IfOk result (λ read. length read.1.now ≤ length text.now) }
    ensures held { fits_exp (read_view left) ≡ true → fits_exp (read_view right) ≡ true → IfOk result (λ read. fits_stage (stage_view read.0) ≡ true) }
    ensures left { (room : ℕ) → Leaves room left → Leaves room right → IfOk result (λ read. StageLeaves room read.0) }
{
    let room = left.room.min(right.room);
    let left = Box::new(alloc, left.expr)?;
    let right = right.expr;
    let expr = NetExpr::Binary(op, left, Box::new(alloc, right)?);
    closed(expr, room, text)
}

// A text and a type, up to the closing parenthesis.
#[tactic(auto, using(crate::proofs::Nesting::type_behind_fails))]
fn type_behind<'a>(
    alloc: Global,
    front: &[u8],
    text: &'a [u8],
) -> Result<(NetType, &'a [u8]), PhraseFail>
    ensures answers { Answers type_name_of fits_type (type_behind front.now text.now) result }
    ensures shorter { IfOk result (λ read. length read.1.now < length text.now) }
    ensures held { IfOk result (λ read. fits_type (type_name_of read.0) ≡ true) }
{
    let Some(text) = after(front, text) else {
        return Err(PhraseFail::NotNet);
    };
    match read_type(alloc, text) {
        Ok((ty, rest)) => match after(b")", rest) {
            Some(rest) => Ok((ty, rest)),
            None => Err(PhraseFail::NotNet),
        },
        Err(e) => Err(e),
    }
}

/// A conversion to a type, from behind its operand.
pub(crate) fn conversion(
    alloc: Global,
    operand: ReadExpr,
    text: &[u8],
) -> Result<(Stage, &[u8]), PhraseFail>
    ensures answers { Answers stage_view fits_stage (closed_type (codes ", ") ctype (read_view operand) text.now) result }
    ensures shorter { IfOk result (λ read. length read.1.now ≤ length text.now) }
    ensures held { fits_exp (read_view operand) ≡ true → IfOk result (λ read. fits_stage (stage_view read.0) ≡ true) }
    ensures left { (room : ℕ) → Leaves room operand → IfOk result (λ read. StageLeaves room read.0) }
{
    let room = operand.room;
    let inner = Box::new(alloc, operand.expr)?;
    match type_behind(alloc, b", ", text) {
        Ok((ty, rest)) => {
            let expr = NetExpr::CType(inner, ty);
            Ok((Stage::Whole(ReadExpr { expr, room }), rest))
        }
        Err(e) => Err(e),
    }
}

/// A test of a type, from behind its operand.
pub(crate) fn type_test(
    alloc: Global,
    operand: ReadExpr,
    text: &[u8],
) -> Result<(Stage, &[u8]), PhraseFail>
    ensures answers { Answers stage_view fits_stage (closed_type (codes " Is ") type_of (read_view operand) text.now) result }
    ensures shorter { IfOk result (λ read. length read.1.now ≤ length text.now) }
    ensures held { fits_exp (read_view operand) ≡ true → IfOk result (λ read. fits_stage (stage_view read.0) ≡ true) }
    ensures left { (room : ℕ) → Leaves room operand → IfOk result (λ read. StageLeaves room read.0) }
{
    let room = operand.room;
    let inner = Box::new(alloc, operand.expr)?;
    match type_behind(alloc, b" Is ", text) {
        Ok((ty, rest)) => {
            let expr = NetExpr::TypeOf(inner, ty);
            Ok((Stage::Whole(ReadExpr { expr, room }), rest))
        }
        Err(e) => Err(e),
    }
}
