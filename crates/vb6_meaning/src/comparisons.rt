//! Comparisons.
ghost use Rattle.std.specs.Prelude.{◌≡◌};
ghost use Rattle.std.specs.Cmp.Lexicographic.{slice_cmp};
ghost use Rattle.std.specs.Ordering.{nat_cmp};
ghost use Rattle.vb6_meaning.specs.Results.{IsAnswer};
ghost use Rattle.vb6_meaning.specs.Rows.{test_of};
ghost use Rattle.vb6_meaning.specs.Values.{on_numbers, number_order, order, held_order, compared, same_object};

use crate::values::{held_number, number_of};
use crate::{Number, Op6Fail};
use std::cmp::Ordering;
use vb_tree::Value6;

/// What a comparison asks of an order.
#[derive(Clone, Copy)]
pub(crate) enum Comparison {
    Equal,
    NotEqual,
    Less,
    Greater,
    LessEqual,
    GreaterEqual,
}

impl Comparison {
    fn holds(self, order: Ordering) -> bool
        ensures { result ≡ test_of self order }
    {
        match self {
            Comparison::Equal => order.is_eq(),
            Comparison::NotEqual => order.is_ne(),
            Comparison::Less => order.is_lt(),
            Comparison::Greater => order.is_gt(),
            Comparison::LessEqual => order.is_le(),
            Comparison::GreaterEqual => order.is_ge(),
        }
    }
}

fn number_order(x: Option<Number>, y: Option<Number>) -> Result<Ordering, Op6Fail>
    ensures { IsAnswer (on_numbers number_order x y) result }
{
    let Some(x) = x else {
        return Err(Op6Fail::Outside);
    };
    let Some(y) = y else {
        return Err(Op6Fail::Outside);
    };
    let kind = x.kind.wider(y.kind);
    Ok(x.amount_in(kind).cmp(&y.amount_in(kind)))
}

fn text_order(s: &[u16], t: &[u16]) -> Ordering
    ensures { result ≡ slice_cmp nat_cmp s.now t.now }
{
    s.cmp(&t)
}

fn order(a: &Value6, b: &Value6) -> Result<Ordering, Op6Fail>
    ensures { IsAnswer (order a.now b.now) result }
{
    if let Value6::Str(s) = a
        && let Value6::Str(t) = b
    {
        return Ok(text_order(s.as_slice(), t.as_slice()));
    }
    number_order(number_of(a), number_of(b))
}

/// A comparison of values of declared types.
pub(crate) fn compared(test: Comparison, a: &Value6, b: &Value6) -> Result<Value6, Op6Fail>
    ensures { IsAnswer (compared (test_of test) (order a.now b.now)) result }
{
    let order = order(a, b)?;
    Ok(Value6::Boolean(test.holds(order)))
}

fn held_order(a: &Value6, b: &Value6) -> Result<Ordering, Op6Fail>
    ensures { IsAnswer (held_order a.now b.now) result }
{
    if let Value6::Str(s) = a {
        if let Value6::Str(t) = b {
            return Ok(text_order(s.as_slice(), t.as_slice()));
        }
        if let Value6::Empty = b {
            return Ok(text_order(s.as_slice(), &[]));
        }
    }
    if let Value6::Empty = a
        && let Value6::Str(t) = b
    {
        return Ok(text_order(&[], t.as_slice()));
    }
    number_order(held_number(a), held_number(b))
}

/// A comparison of Variants.
pub(crate) fn held_compared(test: Comparison, a: &Value6, b: &Value6) -> Result<Value6, Op6Fail>
    ensures { IsAnswer (compared (test_of test) (held_order a.now b.now)) result }
{
    let order = held_order(a, b)?;
    Ok(Value6::Boolean(test.holds(order)))
}

/// Whether two objects are the same.
pub(crate) fn same_object(a: &Value6, b: &Value6) -> Result<Value6, Op6Fail>
    ensures { IsAnswer (same_object a.now b.now) result }
{
    match a {
        Value6::Nothing => match b {
            Value6::Nothing => Ok(Value6::Boolean(true)),
            Value6::Object(_) => Ok(Value6::Boolean(false)),
            _ => Err(Op6Fail::Outside),
        },
        Value6::Object(first) => match b {
            Value6::Nothing => Ok(Value6::Boolean(false)),
            Value6::Object(second) => Ok(Value6::Boolean(first == second)),
            _ => Err(Op6Fail::Outside),
        },
        _ => Err(Op6Fail::Outside),
    }
}
