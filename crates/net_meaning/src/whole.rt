//! Operators on whole numbers.
ghost use Rattle.std.specs.Prelude.{◌≡◌, ◌≢◌, pos, ◌*ℤ◌, int_div, int_rem, IsTrue};
ghost use Rattle.net_meaning.specs.Meets.{IsAnswer};
ghost use Rattle.net_meaning.specs.Whole.{is_whole, whole, quotient, remainder, and_bits, or_bits, xor_bits, whole_row};
ghost use Rattle.vb6_meaning.specs.Bits.{bitwise};
ghost use Rattle.vb6_meaning.specs.Values.{both, either, one_alone};

use crate::{OpNFail, ValueN};
use net_tree::NetBin;

// The numbers that are raised.
const OVERFLOW: u32 = 6;

const ZERO_DIVISOR: u32 = 11;

/// A type of whole numbers.
#[derive(Clone, Copy)]
pub enum WholeKind {
    /// 8 bits without a sign.
    Byte,
    /// 16 bits.
    Short,
    /// 32 bits.
    Integer,
    /// 64 bits.
    Long,
}

// Whether a number is one of a type.
pub(crate) fn is_whole(kind: WholeKind, number: i128) -> bool
    ensures { result ≡ is_whole kind number }
{
    match kind {
        WholeKind::Byte => 0 <= number && number <= 255,
        WholeKind::Short => -32_768 <= number && number <= 32_767,
        WholeKind::Integer => -2_147_483_648 <= number && number <= 2_147_483_647,
        WholeKind::Long => {
            -9_223_372_036_854_775_808 <= number && number <= 9_223_372_036_854_775_807
        }
    }
}

// A number as a value of a type, else an overflow.
pub(crate) fn checked(kind: WholeKind, number: i128) -> Result<ValueN, OpNFail>
    ensures { IsAnswer result (whole kind number) }
{
    if !is_whole(kind, number) {
        return Err(OpNFail::Raise(OVERFLOW));
    }
    match kind {
        WholeKind::Byte => Ok(ValueN::Byte(number as u8)),
        WholeKind::Short => Ok(ValueN::Short(number as i16)),
        WholeKind::Integer => Ok(ValueN::Integer(number as i32)),
        WholeKind::Long => Ok(ValueN::Long(number as i64)),
    }
}

fn product(a: i64, b: i64) -> i128
    ensures { result ≡ a *ℤ b }
{
    i128::from(a) * i128::from(b)
}

// A quotient, cut towards zero.
fn divided(a: i64, b: i64) -> i128
    requires { b ≢ pos 0 }
    ensures { result ≡ int_div a b }
{
    i128::from(a) / i128::from(b)
}

fn remaining(a: i64, b: i64) -> i128
    requires { b ≢ pos 0 }
    ensures { result ≡ int_rem a b }
{
    i128::from(a) % i128::from(b)
}

fn quotient(kind: WholeKind, a: i64, b: i64) -> Result<ValueN, OpNFail>
    ensures { IsAnswer result (quotient kind a b) }
{
    if b == 0 {
        return Err(OpNFail::Raise(ZERO_DIVISOR));
    }
    checked(kind, divided(a, b))
}

// A remainder, with the sign of the dividend.
fn remainder(kind: WholeKind, a: i64, b: i64) -> Result<ValueN, OpNFail>
    ensures { IsAnswer result (remainder kind a b) }
{
    if b == 0 {
        return Err(OpNFail::Raise(ZERO_DIVISOR));
    }
    if !is_whole(kind, divided(a, b)) {
        return Err(OpNFail::Outside);
    }
    checked(kind, remaining(a, b))
}

// And of numbers of 32 bits.
fn and_words(a: i32, b: i32) -> i32
    ensures { result ≡ bitwise both a b }
{
    a & b
}

// And of numbers of one type.
fn and_bits(kind: WholeKind, a: i64, b: i64) -> i64
    requires left { IsTrue (is_whole kind a) }
    requires right { IsTrue (is_whole kind b) }
    ensures { result ≡ and_bits kind a b }
{
    match kind {
        WholeKind::Byte => i64::from(and_words(a as i32, b as i32)),
        WholeKind::Short => i64::from(and_words(a as i32, b as i32)),
        WholeKind::Integer => i64::from(and_words(a as i32, b as i32)),
        WholeKind::Long => a & b,
    }
}

// Or of numbers of 32 bits.
fn or_words(a: i32, b: i32) -> i32
    ensures { result ≡ bitwise either a b }
{
    a | b
}

// Or of numbers of one type.
fn or_bits(kind: WholeKind, a: i64, b: i64) -> i64
    requires left { IsTrue (is_whole kind a) }
    requires right { IsTrue (is_whole kind b) }
    ensures { result ≡ or_bits kind a b }
{
    match kind {
        WholeKind::Byte => i64::from(or_words(a as i32, b as i32)),
        WholeKind::Short => i64::from(or_words(a as i32, b as i32)),
        WholeKind::Integer => i64::from(or_words(a as i32, b as i32)),
        WholeKind::Long => a | b,
    }
}

// Xor of numbers of 32 bits.
fn xor_words(a: i32, b: i32) -> i32
    ensures { result ≡ bitwise one_alone a b }
{
    a ^ b
}

// Xor of numbers of one type.
fn xor_bits(kind: WholeKind, a: i64, b: i64) -> i64
    requires left { IsTrue (is_whole kind a) }
    requires right { IsTrue (is_whole kind b) }
    ensures { result ≡ xor_bits kind a b }
{
    match kind {
        WholeKind::Byte => i64::from(xor_words(a as i32, b as i32)),
        WholeKind::Short => i64::from(xor_words(a as i32, b as i32)),
        WholeKind::Integer => i64::from(xor_words(a as i32, b as i32)),
        WholeKind::Long => a ^ b,
    }
}

// An operator on two numbers of one type.
pub(crate) fn whole_row(kind: WholeKind, op: NetBin, a: i64, b: i64) -> Result<ValueN, OpNFail>
    requires left { IsTrue (is_whole kind a) }
    requires right { IsTrue (is_whole kind b) }
    ensures { IsAnswer result (whole_row kind op a b) }
{
    match op {
        NetBin::Add => checked(kind, i128::from(a) + i128::from(b)),
        NetBin::Sub => checked(kind, i128::from(a) - i128::from(b)),
        NetBin::Mul => checked(kind, product(a, b)),
        NetBin::IntDiv => quotient(kind, a, b),
        NetBin::Mod => remainder(kind, a, b),
        NetBin::Equal => Ok(ValueN::Boolean(a.cmp(&b).is_eq())),
        NetBin::NotEqual => Ok(ValueN::Boolean(a.cmp(&b).is_ne())),
        NetBin::Less => Ok(ValueN::Boolean(a.cmp(&b).is_lt())),
        NetBin::Greater => Ok(ValueN::Boolean(a.cmp(&b).is_gt())),
        NetBin::LessEqual => Ok(ValueN::Boolean(a.cmp(&b).is_le())),
        NetBin::GreaterEqual => Ok(ValueN::Boolean(a.cmp(&b).is_ge())),
        NetBin::Concat => Err(OpNFail::Outside),
        NetBin::And => checked(kind, i128::from(and_bits(kind, a, b))),
        NetBin::Or => checked(kind, i128::from(or_bits(kind, a, b))),
        NetBin::Xor => checked(kind, i128::from(xor_bits(kind, a, b))),
        NetBin::Is => Err(OpNFail::Outside),
    }
}
