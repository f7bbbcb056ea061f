//! Operators on Decimals.
ghost use Rattle.std.specs.Prelude.{◌≡◌, ◌+◌, ◌-◌, ◌^◌, ◌≤◌, ◌<◌, max, ◌+ℤ◌, ◌-ℤ◌, pos, true, unsigned_abs, FitsSigned};
ghost use Rattle.std.specs.Int.{w128};
ghost use Rattle.std.specs.Option.{SomeIff};
ghost use Rattle.vb6_meaning.specs.Rounding.{half_even, rounded};
ghost use Rattle.net_meaning.specs.Meets.{IsAnswer};
ghost use Rattle.net_meaning.specs.Decimals.{is_decimal, decimal, at_scale, on_larger, order, decimals, decimal_row};

use crate::{OpNFail, ValueN};
use net_tree::NetBin;
use std::cmp::Ordering;

// A mantissa has at most 96 bits beside its sign.
const MANTISSA_END: u128 = 79_228_162_514_264_337_593_543_950_336;

const SCALE_LIMIT: u8 = 28;

// A number with digits behind the point.
#[derive(Clone, Copy)]
pub(crate) struct Scaled {
    pub mantissa: i128,
    pub scale: u8,
}

// Whether a number is a Decimal.
pub(crate) fn is_decimal(number: Scaled) -> bool
    ensures { result ≡ is_decimal number.mantissa number.scale }
{
    number.mantissa.unsigned_abs() < MANTISSA_END && number.scale <= SCALE_LIMIT
}

// A number as a Decimal, where it is one.
fn decimal(mantissa: i128, scale: u8) -> Result<ValueN, OpNFail>
    ensures { IsAnswer result (decimal mantissa scale) }
{
    let number = Scaled { mantissa, scale };
    if is_decimal(number) {
        Ok(ValueN::Decimal(mantissa, scale))
    } else {
        Err(OpNFail::Outside)
    }
}

// 10 to a power.
#[tactic(auto, using(crate::proofs::Powers::power_below, crate::proofs::Powers::power_positive))]
fn power_of_ten(exponent: u8) -> u128
    requires { exponent ≤ 28 }
    ensures value { result ≡ 10 ^ exponent }
    ensures bounds { (0 < result) × (result < 2 ^ 94) }
{
    10_u128.pow(u32::from(exponent))
}

// The mantissa of a number at a larger scale, where it has at most 127 bits.
fn at_scale(number: Scaled, larger: u8) -> Option<i128>
    requires { larger ≤ 28 }
    ensures { SomeIff result (FitsSigned w128 (at_scale number.mantissa number.scale larger)) (at_scale number.mantissa number.scale larger) }
{
    number
        .mantissa
        .checked_mul(power_of_ten(larger.saturating_sub(number.scale)) as i128)
}

// A sum at the larger scale. Where an operand has more than 127 bits there, so has the sum, but for one.
fn sum(a: Scaled, b: Scaled) -> Result<ValueN, OpNFail>
    requires left { is_decimal a.mantissa a.scale ≡ true }
    requires right { is_decimal b.mantissa b.scale ≡ true }
    ensures { IsAnswer result (decimals NetBin.Add a.mantissa a.scale b.mantissa b.scale) }
{
    let scale = a.scale.max(b.scale);
    match at_scale(a, scale) {
        Some(m) => match at_scale(b, scale) {
            Some(n) => match m.checked_add(n) {
                Some(mantissa) => decimal(mantissa, scale),
                None => Err(OpNFail::Outside),
            },
            None => Err(OpNFail::Outside),
        },
        None => Err(OpNFail::Outside),
    }
}

// A difference, in the same way.
fn difference(a: Scaled, b: Scaled) -> Result<ValueN, OpNFail>
    requires left { is_decimal a.mantissa a.scale ≡ true }
    requires right { is_decimal b.mantissa b.scale ≡ true }
    ensures { IsAnswer result (decimals NetBin.Sub a.mantissa a.scale b.mantissa b.scale) }
{
    let scale = a.scale.max(b.scale);
    match at_scale(a, scale) {
        Some(m) => match at_scale(b, scale) {
            Some(n) => match m.checked_sub(n) {
                Some(mantissa) => decimal(mantissa, scale),
                None => Err(OpNFail::Outside),
            },
            None => Err(OpNFail::Outside),
        },
        None => Err(OpNFail::Outside),
    }
}

// A product, whose scale is the sum of both.
fn product(a: Scaled, b: Scaled) -> Result<ValueN, OpNFail>
    requires left { is_decimal a.mantissa a.scale ≡ true }
    requires right { is_decimal b.mantissa b.scale ≡ true }
    ensures { IsAnswer result (decimals NetBin.Mul a.mantissa a.scale b.mantissa b.scale) }
{
    match a.mantissa.checked_mul(b.mantissa) {
        Some(mantissa) => decimal(mantissa, a.scale + b.scale),
        None => Err(OpNFail::Outside),
    }
}

// How two numbers stand to each other. One that has more than 127 bits at the larger scale is beyond the other, on the side of
// its sign.
fn order(a: Scaled, b: Scaled) -> Ordering
    requires left { is_decimal a.mantissa a.scale ≡ true }
    requires right { is_decimal b.mantissa b.scale ≡ true }
    ensures { result ≡ order a.mantissa a.scale b.mantissa b.scale }
{
    let scale = a.scale.max(b.scale);
    match at_scale(a, scale) {
        Some(m) => match at_scale(b, scale) {
            Some(n) => m.cmp(&n),
            None => 0_i128.cmp(&b.mantissa),
        },
        None => a.mantissa.cmp(&0),
    }
}

// An operator on two numbers.
pub(crate) fn decimal_row(op: NetBin, a: Scaled, b: Scaled) -> Result<ValueN, OpNFail>
    ensures { IsAnswer result (decimal_row op a.mantissa a.scale b.mantissa b.scale) }
{
    if !is_decimal(a) || !is_decimal(b) {
        return Err(OpNFail::Outside);
    }
    match op {
        NetBin::Add => sum(a, b),
        NetBin::Sub => difference(a, b),
        NetBin::Mul => product(a, b),
        NetBin::Equal => Ok(ValueN::Boolean(order(a, b).is_eq())),
        NetBin::NotEqual => Ok(ValueN::Boolean(order(a, b).is_ne())),
        NetBin::Less => Ok(ValueN::Boolean(order(a, b).is_lt())),
        NetBin::Greater => Ok(ValueN::Boolean(order(a, b).is_gt())),
        NetBin::LessEqual => Ok(ValueN::Boolean(order(a, b).is_le())),
        NetBin::GreaterEqual => Ok(ValueN::Boolean(order(a, b).is_ge())),
        NetBin::IntDiv => Err(OpNFail::Outside),
        NetBin::Mod => Err(OpNFail::Outside),
        NetBin::Concat => Err(OpNFail::Outside),
        NetBin::And => Err(OpNFail::Outside),
        NetBin::Or => Err(OpNFail::Outside),
        NetBin::Xor => Err(OpNFail::Outside),
        NetBin::Is => Err(OpNFail::Outside),
    }
}

// A quotient of two numbers without a sign, rounded to the nearest, from halfway to the even one.
fn half_even(number: u128, divisor: u128) -> u128
    requires nonzero { 0 < divisor }
    requires number { number < 2 ^ 96 }
    requires divisor { divisor < 2 ^ 96 }
    ensures { result ≡ half_even number divisor }
{
    let quotient = number / divisor;
    let twice = 2 * (number % divisor);
    if twice < divisor {
        quotient
    } else if divisor < twice {
        quotient + 1
    } else {
        quotient + quotient % 2
    }
}

// The whole number nearest to a Decimal, from halfway the even one.
pub(crate) fn rounded(number: Scaled) -> i128
    requires { is_decimal number.mantissa number.scale ≡ true }
    ensures { result ≡ rounded number.mantissa (10 ^ number.scale) }
{
    let divisor = power_of_ten(number.scale);
    let magnitude = half_even(number.mantissa.unsigned_abs(), divisor) as i128;
    if number.mantissa < 0 {
        -magnitude
    } else {
        magnitude
    }
}
