//! Operators.
ghost use Rattle.std.specs.Prelude.{◌≡◌, ◌++◌, IfOk};
ghost use Rattle.net_meaning.specs.Meets.{IsAnswer};
ghost use Rattle.net_meaning.specs.Decimals.{minus_decimal};
ghost use Rattle.net_meaning.specs.Operators.{boolean_row, text_row, boolean_beside, byte_beside, short_beside, integer_beside, long_beside, decimal_beside, text_beside, row, is_nothing, object_is, value_is, same, binary, minus, complemented, operate_net};

use crate::decimal::{Scaled, decimal_row, is_decimal};
use crate::whole::{WholeKind, checked, whole_row};
use crate::{OpNFail, ValueN};
use net_tree::{NetBin, NetUn, OpN};
use std::alloc::Global;
use up_base::{Mem, Wide};

// An operator on two Booleans, of which True is below False.
fn boolean_row(op: NetBin, p: bool, q: bool) -> Result<ValueN, OpNFail>
    ensures { IsAnswer result (boolean_row op p q) }
{
    match op {
        NetBin::Equal => Ok(ValueN::Boolean(q.cmp(&p).is_eq())),
        NetBin::NotEqual => Ok(ValueN::Boolean(q.cmp(&p).is_ne())),
        NetBin::Less => Ok(ValueN::Boolean(q.cmp(&p).is_lt())),
        NetBin::Greater => Ok(ValueN::Boolean(q.cmp(&p).is_gt())),
        NetBin::LessEqual => Ok(ValueN::Boolean(q.cmp(&p).is_le())),
        NetBin::GreaterEqual => Ok(ValueN::Boolean(q.cmp(&p).is_ge())),
        NetBin::And => Ok(ValueN::Boolean(p && q)),
        NetBin::Or => Ok(ValueN::Boolean(p || q)),
        NetBin::Xor => Ok(ValueN::Boolean(p != q)),
        NetBin::Add => Err(OpNFail::Outside),
        NetBin::Sub => Err(OpNFail::Outside),
        NetBin::Mul => Err(OpNFail::Outside),
        NetBin::IntDiv => Err(OpNFail::Outside),
        NetBin::Mod => Err(OpNFail::Outside),
        NetBin::Concat => Err(OpNFail::Outside),
        NetBin::Is => Err(OpNFail::Outside),
    }
}

// Two texts as one.
fn joined(alloc: Global, s: &[u16], t: &[u16]) -> Result<Wide, Mem>
    ensures { IfOk result (λ u. u ≡ s.now ++ t.now) }
{
    let mut units = Wide::from_slice(alloc, s)?;
    units.extend_from_slice(t)?;
    Ok(units)
}

// An operator on two texts, which are compared by their units.
fn text_row(alloc: Global, op: NetBin, s: &[u16], t: &[u16]) -> Result<ValueN, OpNFail>
    ensures { IsAnswer result (text_row op s.now t.now) }
{
    match op {
        NetBin::Concat => Ok(ValueN::Str(joined(alloc, s, t)?)),
        NetBin::Equal => Ok(ValueN::Boolean(s.cmp(&t).is_eq())),
        NetBin::NotEqual => Ok(ValueN::Boolean(s.cmp(&t).is_ne())),
        NetBin::Less => Ok(ValueN::Boolean(s.cmp(&t).is_lt())),
        NetBin::Greater => Ok(ValueN::Boolean(s.cmp(&t).is_gt())),
        NetBin::LessEqual => Ok(ValueN::Boolean(s.cmp(&t).is_le())),
        NetBin::GreaterEqual => Ok(ValueN::Boolean(s.cmp(&t).is_ge())),
        NetBin::Add => Err(OpNFail::Outside),
        NetBin::Sub => Err(OpNFail::Outside),
        NetBin::Mul => Err(OpNFail::Outside),
        NetBin::IntDiv => Err(OpNFail::Outside),
        NetBin::Mod => Err(OpNFail::Outside),
        NetBin::And => Err(OpNFail::Outside),
        NetBin::Or => Err(OpNFail::Outside),
        NetBin::Xor => Err(OpNFail::Outside),
        NetBin::Is => Err(OpNFail::Outside),
    }
}

// An operator on a Boolean and a value.
fn boolean_beside(op: NetBin, a: bool, b: &ValueN) -> Result<ValueN, OpNFail>
    ensures { IsAnswer result (boolean_beside op a b.now) }
{
    match b {
        ValueN::Boolean(b) => boolean_row(op, a, *b),
        _ => Err(OpNFail::Outside),
    }
}

// An operator on a Byte and a value.
fn byte_beside(op: NetBin, a: u8, b: &ValueN) -> Result<ValueN, OpNFail>
    ensures { IsAnswer result (byte_beside op a b.now) }
{
    match b {
        ValueN::Byte(b) => whole_row(WholeKind::Byte, op, i64::from(a), i64::from(*b)),
        _ => Err(OpNFail::Outside),
    }
}

// An operator on a Short and a value.
fn short_beside(op: NetBin, a: i16, b: &ValueN) -> Result<ValueN, OpNFail>
    ensures { IsAnswer result (short_beside op a b.now) }
{
    match b {
        ValueN::Short(b) => whole_row(WholeKind::Short, op, i64::from(a), i64::from(*b)),
        _ => Err(OpNFail::Outside),
    }
}

// An operator on an Integer and a value.
fn integer_beside(op: NetBin, a: i32, b: &ValueN) -> Result<ValueN, OpNFail>
    ensures { IsAnswer result (integer_beside op a b.now) }
{
    match b {
        ValueN::Integer(b) => whole_row(WholeKind::Integer, op, i64::from(a), i64::from(*b)),
        _ => Err(OpNFail::Outside),
    }
}

// An operator on a Long and a value.
fn long_beside(op: NetBin, a: i64, b: &ValueN) -> Result<ValueN, OpNFail>
    ensures { IsAnswer result (long_beside op a b.now) }
{
    match b {
        ValueN::Long(b) => whole_row(WholeKind::Long, op, a, *b),
        _ => Err(OpNFail::Outside),
    }
}

// An operator on a Decimal and a value.
fn decimal_beside(op: NetBin, a: Scaled, b: &ValueN) -> Result<ValueN, OpNFail>
    ensures { IsAnswer result (decimal_beside op a.mantissa a.scale b.now) }
{
    match b {
        ValueN::Decimal(mantissa, scale) => {
            let b = Scaled {
                mantissa: *mantissa,
                scale: *scale,
            };
            decimal_row(op, a, b)
        }
        _ => Err(OpNFail::Outside),
    }
}

// An operator on a text and a value.
fn text_beside(alloc: Global, op: NetBin, s: &[u16], b: &ValueN) -> Result<ValueN, OpNFail>
    ensures { IsAnswer result (text_beside op s.now b.now) }
{
    match b {
        ValueN::Str(t) => text_row(alloc, op, s, t.as_slice()),
        ValueN::Nothing => text_row(alloc, op, s, &[]),
        _ => Err(OpNFail::Outside),
    }
}

// An operator other than Is.
fn row(alloc: Global, op: NetBin, a: &ValueN, b: &ValueN) -> Result<ValueN, OpNFail>
    ensures { IsAnswer result (row op a.now b.now) }
{
    match a {
        ValueN::Boolean(a) => boolean_beside(op, *a, b),
        ValueN::Byte(a) => byte_beside(op, *a, b),
        ValueN::Short(a) => short_beside(op, *a, b),
        ValueN::Integer(a) => integer_beside(op, *a, b),
        ValueN::Long(a) => long_beside(op, *a, b),
        ValueN::Decimal(mantissa, scale) => {
            let a = Scaled {
                mantissa: *mantissa,
                scale: *scale,
            };
            decimal_beside(op, a, b)
        }
        ValueN::Str(s) => text_beside(alloc, op, s.as_slice(), b),
        ValueN::Nothing => text_beside(alloc, op, &[], b),
        ValueN::Object(_) => Err(OpNFail::Outside),
        ValueN::Array(_) => Err(OpNFail::Outside),
    }
}

fn is_nothing(a: &ValueN) -> bool
    ensures { result ≡ is_nothing a.now }
{
    matches!(a, ValueN::Nothing)
}

// Whether a value is the object of this number.
fn object_is(object: u32, b: &ValueN) -> Result<ValueN, OpNFail>
    ensures { IsAnswer result (object_is object b.now) }
{
    match b {
        ValueN::Object(other) => Ok(ValueN::Boolean(object == *other)),
        ValueN::Nothing => Ok(ValueN::Boolean(false)),
        _ => Err(OpNFail::Outside),
    }
}

// Whether a value that isn't Nothing is another one.
fn value_is(b: &ValueN) -> Result<ValueN, OpNFail>
    ensures { IsAnswer result (value_is b.now) }
{
    match b {
        ValueN::Nothing => Ok(ValueN::Boolean(false)),
        _ => Err(OpNFail::Outside),
    }
}

fn same(a: &ValueN, b: &ValueN) -> Result<ValueN, OpNFail>
    ensures { IsAnswer result (same a.now b.now) }
{
    match a {
        ValueN::Nothing => Ok(ValueN::Boolean(is_nothing(b))),
        ValueN::Object(object) => object_is(*object, b),
        _ => value_is(b),
    }
}

fn binary(alloc: Global, op: NetBin, a: &ValueN, b: &ValueN) -> Result<ValueN, OpNFail>
    ensures { IsAnswer result (binary op a.now b.now) }
{
    match op {
        NetBin::Is => same(a, b),
        _ => row(alloc, op, a, b),
    }
}

// Minus a Decimal.
fn minus_decimal(mantissa: i128, scale: u8) -> Result<ValueN, OpNFail>
    ensures { IsAnswer result (minus_decimal mantissa scale) }
{
    let number = Scaled { mantissa, scale };
    if !is_decimal(number) {
        return Err(OpNFail::Outside);
    }
    Ok(ValueN::Decimal(-mantissa, scale))
}

fn minus(a: &ValueN) -> Result<ValueN, OpNFail>
    ensures { IsAnswer result (minus a.now) }
{
    match a {
        ValueN::Short(z) => checked(WholeKind::Short, -i128::from(*z)),
        ValueN::Integer(z) => checked(WholeKind::Integer, -i128::from(*z)),
        ValueN::Long(z) => checked(WholeKind::Long, -i128::from(*z)),
        ValueN::Decimal(mantissa, scale) => minus_decimal(*mantissa, *scale),
        _ => Err(OpNFail::Outside),
    }
}

fn complemented(a: &ValueN) -> Result<ValueN, OpNFail>
    ensures { IsAnswer result (complemented a.now) }
{
    match a {
        ValueN::Boolean(p) => Ok(ValueN::Boolean(!*p)),
        ValueN::Short(z) => Ok(ValueN::Short(!*z)),
        ValueN::Integer(z) => Ok(ValueN::Integer(!*z)),
        ValueN::Long(z) => Ok(ValueN::Long(!*z)),
        _ => Err(OpNFail::Outside),
    }
}

/// The answer of an operator on two values of one type; a unary one passes over its second operand. Raises 6 at an overflow and
/// 11 at a zero divisor. Outside where the operator has no row for the values. (Visual Basic Language Specification, operators.)
pub fn operate_net(alloc: Global, op: OpN, a: &ValueN, b: &ValueN) -> Result<ValueN, OpNFail>
    ensures { IsAnswer result (operate_net op a.now b.now) }
{
    match op {
        OpN::Bin(op) => binary(alloc, op, a, b),
        OpN::Un(NetUn::Neg) => minus(a),
        OpN::Un(NetUn::Not) => complemented(a),
    }
}
