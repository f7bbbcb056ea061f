//! Operators, by their rows.
ghost use Rattle.std.specs.Prelude.{◌≡◌, []};
ghost use Rattle.vb_tree.specs.declared.value.Value6.TheVariants as v;
ghost use Rattle.vb6_meaning.specs.Results.{IsAnswer};
ghost use Rattle.vb6_meaning.specs.Rows.{test_of};
ghost use Rattle.vb6_meaning.specs.Values.{added, same_object, typed, typed_unary, held_sum, held_order, held, held_unary, compared, operate};

use crate::Op6Fail;
use crate::answer::Making;
use crate::arithmetic::{Division, difference, divide, negative, product, sum};
use crate::bits::{BitRule, logical, negation};
use crate::comparisons::{Comparison, compared, held_compared, same_object};
use crate::texts::{join, joined, text};
use crate::values::{held_number, number_of};
use std::alloc::Global;
use vb_tree::{BinOp, Op6, UnOp, Value6};

// `+` on values of declared types.
fn added(alloc: Global, a: &Value6, b: &Value6) -> Result<Value6, Op6Fail>
    ensures { IsAnswer (added a.now b.now) result }
{
    if let Value6::Str(s) = a
        && let Value6::Str(t) = b
    {
        return join(alloc, s.as_slice(), t.as_slice());
    }
    sum(Making::Checked, number_of(a), number_of(b))
}

fn typed(alloc: Global, op: BinOp, a: &Value6, b: &Value6) -> Result<Value6, Op6Fail>
    ensures { IsAnswer (typed op a.now b.now) result }
{
    match op {
        BinOp::Pow => Err(Op6Fail::Outside),
        BinOp::Mul => product(Making::Checked, number_of(a), number_of(b)),
        BinOp::Div => Err(Op6Fail::Outside),
        BinOp::IntDiv => divide(Division::Quotient, number_of(a), number_of(b)),
        BinOp::Mod => divide(Division::Remainder, number_of(a), number_of(b)),
        BinOp::Add => added(alloc, a, b),
        BinOp::Sub => difference(Making::Checked, number_of(a), number_of(b)),
        BinOp::Concat => joined(alloc, a, b),
        BinOp::Equal => compared(Comparison::Equal, a, b),
        BinOp::NotEqual => compared(Comparison::NotEqual, a, b),
        BinOp::Less => compared(Comparison::Less, a, b),
        BinOp::Greater => compared(Comparison::Greater, a, b),
        BinOp::LessEqual => compared(Comparison::LessEqual, a, b),
        BinOp::GreaterEqual => compared(Comparison::GreaterEqual, a, b),
        BinOp::Is => same_object(a, b),
        BinOp::Like => Err(Op6Fail::Outside),
        BinOp::And => logical(BitRule::Both, a, b),
        BinOp::Or => logical(BitRule::Either, a, b),
        BinOp::Xor => logical(BitRule::OneAlone, a, b),
        BinOp::Eqv => logical(BitRule::Alike, a, b),
        BinOp::Imp => logical(BitRule::Implies, a, b),
    }
}

fn typed_unary(op: UnOp, a: &Value6) -> Result<Value6, Op6Fail>
    ensures { IsAnswer (typed_unary op a.now) result }
{
    match op {
        UnOp::Neg => negative(Making::Checked, number_of(a)),
        UnOp::Not => negation(a),
    }
}

// `+` on the empty Variant and another.
fn empty_sum(alloc: Global, b: &Value6) -> Result<Value6, Op6Fail>
    ensures { IsAnswer (held_sum v.Empty b.now) result }
{
    match b {
        Value6::Str(t) => text(alloc, t.as_slice()),
        _ => sum(
            Making::Promoted,
            held_number(&Value6::Empty),
            held_number(b),
        ),
    }
}

// `+` on a text in a Variant and another.
fn text_sum(alloc: Global, s: &[u16], b: &Value6) -> Result<Value6, Op6Fail>
    ensures { IsAnswer (held_sum (v.Str s.now) b.now) result }
{
    match b {
        Value6::Str(t) => join(alloc, s, t.as_slice()),
        Value6::Empty => text(alloc, s),
        _ => Err(Op6Fail::Outside),
    }
}

// `+` on Variants.
fn held_sum(alloc: Global, a: &Value6, b: &Value6) -> Result<Value6, Op6Fail>
    ensures { IsAnswer (held_sum a.now b.now) result }
{
    match a {
        Value6::Str(s) => text_sum(alloc, s.as_slice(), b),
        Value6::Empty => empty_sum(alloc, b),
        _ => sum(Making::Promoted, held_number(a), held_number(b)),
    }
}

// Eqv on Variants is Not of Xor.
fn held_alike(a: &Value6, b: &Value6) -> Result<Value6, Op6Fail>
    ensures { IsAnswer (held BinOp.Eqv a.now b.now) result }
{
    let unlike = logical(BitRule::OneAlone, a, b)?;
    negation(&unlike)
}

// Imp on Variants is Not of the first, then Or.
fn held_implies(a: &Value6, b: &Value6) -> Result<Value6, Op6Fail>
    ensures { IsAnswer (held BinOp.Imp a.now b.now) result }
{
    let turned = negation(a)?;
    logical(BitRule::Either, &turned, b)
}

fn held(alloc: Global, op: BinOp, a: &Value6, b: &Value6) -> Result<Value6, Op6Fail>
    ensures { IsAnswer (held op a.now b.now) result }
{
    match op {
        BinOp::Pow => Err(Op6Fail::Outside),
        BinOp::Mul => product(Making::Promoted, held_number(a), held_number(b)),
        BinOp::Div => Err(Op6Fail::Outside),
        BinOp::IntDiv => divide(Division::Quotient, held_number(a), held_number(b)),
        BinOp::Mod => divide(Division::Remainder, held_number(a), held_number(b)),
        BinOp::Add => held_sum(alloc, a, b),
        BinOp::Sub => difference(Making::Promoted, held_number(a), held_number(b)),
        BinOp::Concat => joined(alloc, a, b),
        BinOp::Equal => held_compared(Comparison::Equal, a, b),
        BinOp::NotEqual => held_compared(Comparison::NotEqual, a, b),
        BinOp::Less => held_compared(Comparison::Less, a, b),
        BinOp::Greater => held_compared(Comparison::Greater, a, b),
        BinOp::LessEqual => held_compared(Comparison::LessEqual, a, b),
        BinOp::GreaterEqual => held_compared(Comparison::GreaterEqual, a, b),
        BinOp::Is => Err(Op6Fail::Outside),
        BinOp::Like => Err(Op6Fail::Outside),
        BinOp::And => logical(BitRule::Both, a, b),
        BinOp::Or => logical(BitRule::Either, a, b),
        BinOp::Xor => logical(BitRule::OneAlone, a, b),
        BinOp::Eqv => held_alike(a, b),
        BinOp::Imp => held_implies(a, b),
    }
}

fn held_unary(op: UnOp, a: &Value6) -> Result<Value6, Op6Fail>
    ensures { IsAnswer (held_unary op a.now) result }
{
    match op {
        UnOp::Neg => negative(Making::Promoted, held_number(a)),
        UnOp::Not => negation(a),
    }
}

/// The answer of an operator on two values; a unary one passes over the second.
///
/// `Raise(6)` is overflow and `Raise(11)` division by zero; `Outside` where the operator isn't defined on the two values.
pub fn operate6(alloc: Global, op: Op6, a: &Value6, b: &Value6) -> Result<Value6, Op6Fail>
    ensures exact { IsAnswer (operate op a.now b.now) result }
{
    match op {
        Op6::Typed(op) => typed(alloc, op, a, b),
        Op6::Variant(op) => held(alloc, op, a, b),
        Op6::TypedUn(op) => typed_unary(op, a),
        Op6::VariantUn(op) => held_unary(op, a),
    }
}
