//! The values of constant expressions, by the rows of the language's meaning.
ghost use Rattle.std.specs.Prelude.{◌≡◌, IfOk};
ghost use Rattle.vb_tree.specs.BoundView.{type_of};
ghost use Rattle.vb6_meaning.specs.Values.{coerce, operate};
ghost use Rattle.bound_tree.specs.View.{expr_of};
ghost use Rattle.bound_facts.specs.Folded.{binary_row, binary_value, converted_value, folded, given_value, unary_row, unary_value};

use crate::node::is_variant;
use bound_tree::{BoundExpr, BoundNode};
use std::alloc::Global;
use up_base::{Mem, Wide};
use vb_tree::{BinOp, Op6, Type6, UnOp, Value6};
use vb6_meaning::{Op6Fail, coerce6, operate6};

/// The value of an expression of constants, operators and conversions. It has none where it has another part, and where
/// an operator or a conversion raises or lies outside of the language's meaning. Want of memory is its only failure.
pub fn folded(alloc: Global, e: &BoundExpr) -> Result<Option<Value6>, Mem>
    ensures { IfOk result (λ value. value ≡ folded (expr_of e.now)) }
{
    match &e.node {
        BoundNode::Const(value, _) => Ok(Some(copy(alloc, value)?)),
        BoundNode::Unary(op, a) => {
            let value = folded(alloc, a)?;
            Ok(unary_value(alloc, unary_row(&a.ty, *op), value)?)
        }
        BoundNode::Binary(op, a, b) => {
            let first = folded(alloc, a)?;
            let second = folded(alloc, b)?;
            Ok(binary_value(alloc, binary_row(&a.ty, &b.ty, *op), first, second)?)
        }
        BoundNode::Convert(to, a) => {
            let value = folded(alloc, a)?;
            Ok(converted_value(alloc, to, value)?)
        }
        _ => Ok(None),
    }
}

fn copy(alloc: Global, value: &Value6) -> Result<Value6, Mem>
    ensures { IfOk result (λ copy. copy ≡ value.now) }
{
    match value {
        Value6::Boolean(b) => Ok(Value6::Boolean(*b)),
        Value6::Byte(n) => Ok(Value6::Byte(*n)),
        Value6::Int(n) => Ok(Value6::Int(*n)),
        Value6::Long(n) => Ok(Value6::Long(*n)),
        Value6::Cur(n) => Ok(Value6::Cur(*n)),
        Value6::Str(units) => Ok(Value6::Str(Wide::from_slice(alloc, units.as_slice())?)),
        Value6::Nothing => Ok(Value6::Nothing),
        Value6::Object(number) => Ok(Value6::Object(*number)),
        Value6::Empty => Ok(Value6::Empty),
    }
}

fn unary_row(ty: &Type6, op: UnOp) -> Op6
    ensures { result ≡ unary_row (type_of ty.now) op }
{
    if is_variant(ty) {
        Op6::VariantUn(op)
    } else {
        Op6::TypedUn(op)
    }
}

fn binary_row(first: &Type6, second: &Type6, op: BinOp) -> Op6
    ensures { result ≡ binary_row (type_of first.now) (type_of second.now) op }
{
    if is_variant(first) || is_variant(second) {
        Op6::Variant(op)
    } else {
        Op6::Typed(op)
    }
}

// The value that an operator gives.
fn operated(alloc: Global, op: Op6, a: &Value6, b: &Value6) -> Result<Option<Value6>, Mem>
    ensures { IfOk result (λ value. value ≡ given_value (operate op a.now b.now)) }
{
    match operate6(alloc, op, a, b) {
        Ok(value) => Ok(Some(value)),
        Err(Op6Fail::Raise(_)) => Ok(None),
        Err(Op6Fail::Outside) => Ok(None),
        Err(Op6Fail::Mem) => Err(Mem),
    }
}

// The value that a conversion gives.
fn converted(alloc: Global, value: &Value6, to: &Type6) -> Result<Option<Value6>, Mem>
    ensures { IfOk result (λ value_there. value_there ≡ given_value (coerce value.now (type_of to.now))) }
{
    match coerce6(alloc, value, to) {
        Ok(value) => Ok(Some(value)),
        Err(Op6Fail::Raise(_)) => Ok(None),
        Err(Op6Fail::Outside) => Ok(None),
        Err(Op6Fail::Mem) => Err(Mem),
    }
}

fn unary_value(alloc: Global, op: Op6, value: Option<Value6>) -> Result<Option<Value6>, Mem>
    ensures { IfOk result (λ answer. answer ≡ unary_value op value) }
{
    match value {
        None => Ok(None),
        Some(x) => Ok(operated(alloc, op, &x, &x)?),
    }
}

fn binary_value(
    alloc: Global,
    op: Op6,
    first: Option<Value6>,
    second: Option<Value6>,
) -> Result<Option<Value6>, Mem>
    ensures { IfOk result (λ answer. answer ≡ binary_value op first second) }
{
    match first {
        None => Ok(None),
        Some(x) => match second {
            None => Ok(None),
            Some(y) => Ok(operated(alloc, op, &x, &y)?),
        },
    }
}

fn converted_value(alloc: Global, to: &Type6, value: Option<Value6>) -> Result<Option<Value6>, Mem>
    ensures { IfOk result (λ answer. answer ≡ converted_value (type_of to.now) value) }
{
    match value {
        None => Ok(None),
        Some(x) => Ok(converted(alloc, &x, to)?),
    }
}
