//! Sums, differences, products, quotients and remainders.
ghost use Rattle.std.specs.Prelude.{◌≡◌, ◌≤◌, ◌^◌, ◌&&◌, pos, unsigned_abs, ◌*ℤ◌, neg_ℤ, negsuc, int_div, int_rem, IsTrue, false};
ghost use Rattle.std.specs.Ordering.{int_eq};
ghost use Rattle.vb6_meaning.specs.Kinds.{least, fits};
ghost use Rattle.vb6_meaning.specs.Results.{IsAnswer};
ghost use Rattle.vb6_meaning.specs.Rows.{made_by, division_by, divided_by, division};
ghost use Rattle.vb6_meaning.specs.Values.{on_numbers, sum, difference, product, negative, are_currencies, divided};

use crate::answer::{Making, checked, common_whole, made};
use crate::{Number, NumberKind, Op6Fail};
use vb_tree::Value6;

// The number of the error `Division by zero`.
const DIVISION_BY_ZERO: u32 = 11;

pub(crate) fn sum(making: Making, x: Option<Number>, y: Option<Number>) -> Result<Value6, Op6Fail>
    ensures { IsAnswer (on_numbers (sum (made_by making)) x y) result }
{
    let Some(x) = x else {
        return Err(Op6Fail::Outside);
    };
    let Some(y) = y else {
        return Err(Op6Fail::Outside);
    };
    let kind = x.kind.wider(y.kind);
    made(making, kind, x.amount_in(kind) + y.amount_in(kind))
}

pub(crate) fn difference(
    making: Making,
    x: Option<Number>,
    y: Option<Number>,
) -> Result<Value6, Op6Fail>
    ensures { IsAnswer (on_numbers (difference (made_by making)) x y) result }
{
    let Some(x) = x else {
        return Err(Op6Fail::Outside);
    };
    let Some(y) = y else {
        return Err(Op6Fail::Outside);
    };
    let kind = x.kind.wider(y.kind);
    made(making, kind, x.amount_in(kind) - y.amount_in(kind))
}

fn are_currencies(x: NumberKind, y: NumberKind) -> bool
    ensures { result ≡ are_currencies x y }
{
    match x {
        NumberKind::Byte | NumberKind::Integer | NumberKind::Long => false,
        NumberKind::Currency => y == NumberKind::Currency,
    }
}

fn times(x: i64, y: i64) -> i128
    ensures { result ≡ x *ℤ y }
{
    i128::from(x) * i128::from(y)
}

pub(crate) fn product(
    making: Making,
    x: Option<Number>,
    y: Option<Number>,
) -> Result<Value6, Op6Fail>
    ensures { IsAnswer (on_numbers (product (made_by making)) x y) result }
{
    let Some(x) = x else {
        return Err(Op6Fail::Outside);
    };
    let Some(y) = y else {
        return Err(Op6Fail::Outside);
    };
    if are_currencies(x.kind, y.kind) {
        return Err(Op6Fail::Outside);
    }
    made(making, x.kind.wider(y.kind), times(x.amount, y.amount))
}

fn minus(x: i64) -> i128
    ensures { result ≡ neg_ℤ x }
{
    -i128::from(x)
}

/// Minus a number that isn't a Byte.
pub(crate) fn negative(making: Making, x: Option<Number>) -> Result<Value6, Op6Fail>
    ensures { IsAnswer (negative (made_by making) x) result }
{
    let Some(x) = x else {
        return Err(Op6Fail::Outside);
    };
    if x.kind.is_byte() {
        return Err(Op6Fail::Outside);
    }
    made(making, x.kind, minus(x.amount))
}

/// What a division gives.
#[derive(Clone, Copy)]
pub(crate) enum Division {
    Quotient,
    Remainder,
}

fn is_zero(x: i128) -> bool
    ensures { result ≡ int_eq x (pos 0) }
{
    x == 0
}

// Whether a quotient is the least value by -1.
fn is_least_by_minus_one(kind: NumberKind, x: i128, y: i128) -> bool
    ensures { result ≡ (int_eq y (negsuc 0) && int_eq x (least kind)) }
{
    y == -1 && x == kind.least()
}

#[tactic(auto, using(std::proofs::lemmas::Int::quot_is))]
fn quotient_of(x: i128, y: i128) -> i128
    requires divisor { int_eq y (pos 0) ≡ false }
    requires small { unsigned_abs x ≤ 2 ^ 63 }
    ensures { result ≡ int_div x y }
{
    x / y
}

#[tactic(auto, using(std::proofs::lemmas::Int::rem_is))]
fn remainder_of(x: i128, y: i128) -> i128
    requires divisor { int_eq y (pos 0) ≡ false }
    requires small { unsigned_abs x ≤ 2 ^ 63 }
    ensures { result ≡ int_rem x y }
{
    x % y
}

#[tactic(auto, using(crate::proofs::Limits::quotient_fits, crate::proofs::Limits::remainder_fits, crate::proofs::Limits::fits_size))]
fn divided(rule: Division, kind: NumberKind, x: i128, y: i128) -> Result<Value6, Op6Fail>
    requires dividend { IsTrue (fits kind x) }
    requires divisor { IsTrue (fits kind y) }
    ensures { IsAnswer (divided (division_by rule) kind x y) result }
{
    if is_zero(y) {
        return Err(Op6Fail::Raise(DIVISION_BY_ZERO));
    }
    if is_least_by_minus_one(kind, x, y) {
        return Err(Op6Fail::Outside);
    }
    match rule {
        Division::Quotient => Ok(kind.value(quotient_of(x, y))),
        Division::Remainder => Ok(kind.value(remainder_of(x, y))),
    }
}

fn divide_by(rule: Division, kind: NumberKind, dividend: i128, y: Number) -> Result<Value6, Op6Fail>
    requires { IsTrue (fits kind dividend) }
    ensures { IsAnswer (divided_by rule kind dividend y) result }
{
    let divisor = checked(kind, y.amount_in(kind))?;
    divided(rule, kind, dividend, divisor)
}

/// The quotient or the remainder of two numbers.
pub(crate) fn divide(
    rule: Division,
    x: Option<Number>,
    y: Option<Number>,
) -> Result<Value6, Op6Fail>
    ensures { IsAnswer (on_numbers (division rule) x y) result }
{
    let Some(x) = x else {
        return Err(Op6Fail::Outside);
    };
    let Some(y) = y else {
        return Err(Op6Fail::Outside);
    };
    let kind = common_whole(x, y);
    let dividend = checked(kind, x.amount_in(kind))?;
    divide_by(rule, kind, dividend, y)
}
