//! Operators bit by bit.
ghost use Rattle.std.specs.Prelude.{◌≡◌, ◌&&◌, false, IsTrue, FitsSigned};
ghost use Rattle.std.specs.Int.{w32};
ghost use Rattle.vb6_meaning.specs.Bits.{bitwise};
ghost use Rattle.vb6_meaning.specs.Kinds.{whole, is_byte, fits, value};
ghost use Rattle.vb6_meaning.specs.Results.{IsAnswer};
ghost use Rattle.vb6_meaning.specs.Rows.{bit_rule, sets_sign, bits_with, bits_in, bits_row};
ghost use Rattle.vb6_meaning.specs.Values.{on_numbers, logical, complement, complemented, negation};

use crate::answer::{checked, common_whole};
use crate::values::{boolean_of, number_of};
use crate::{Number, NumberKind, Op6Fail};
use vb_tree::Value6;

/// What two bits give.
#[derive(Clone, Copy)]
pub(crate) enum BitRule {
    Both,
    Either,
    OneAlone,
    Alike,
    Implies,
}

impl BitRule {
    fn on(self, p: bool, q: bool) -> bool
        ensures { result ≡ bit_rule self p q }
    {
        match self {
            BitRule::Both => p && q,
            BitRule::Either => p || q,
            BitRule::OneAlone => p != q,
            BitRule::Alike => p == q,
            BitRule::Implies => !p || q,
        }
    }

    // Whether it sets a bit that is clear in both, the sign's too.
    fn sets_sign(self) -> bool
        ensures { result ≡ sets_sign self }
    {
        match self {
            BitRule::Both | BitRule::Either | BitRule::OneAlone => false,
            BitRule::Alike | BitRule::Implies => true,
        }
    }
}

fn on_bits(rule: BitRule, x: i32, y: i32) -> i32
    ensures { result ≡ bitwise (bit_rule rule) x y }
{
    match rule {
        BitRule::Both => x & y,
        BitRule::Either => x | y,
        BitRule::OneAlone => x ^ y,
        BitRule::Alike => !(x ^ y),
        BitRule::Implies => !x | y,
    }
}

fn on_words(rule: BitRule, x: i128, y: i128) -> i128
    requires first { FitsSigned w32 x }
    requires second { FitsSigned w32 y }
    ensures { result ≡ bitwise (bit_rule rule) x y }
{
    i128::from(on_bits(rule, x as i32, y as i32))
}

#[tactic(auto, using(crate::proofs::BitLimits::rule_fits, crate::proofs::Limits::fits_word))]
fn value_of_bits(rule: BitRule, kind: NumberKind, x: i128, y: i128) -> Value6
    requires whole { whole kind ≡ kind }
    requires signed { (sets_sign rule && is_byte kind) ≡ false }
    requires first { IsTrue (fits kind x) }
    requires second { IsTrue (fits kind y) }
    ensures { result ≡ value kind (bitwise (bit_rule rule) x y) }
{
    kind.value(on_words(rule, x, y))
}

// Whether a rule has no row for a kind, which has no sign.
fn is_unsigned(rule: BitRule, kind: NumberKind) -> bool
    ensures { result ≡ (sets_sign rule && is_byte kind) }
{
    rule.sets_sign() && kind.is_byte()
}

fn with_second(rule: BitRule, kind: NumberKind, x: i128, y: Number) -> Result<Value6, Op6Fail>
    requires whole { whole kind ≡ kind }
    requires signed { (sets_sign rule && is_byte kind) ≡ false }
    requires first { IsTrue (fits kind x) }
    ensures { IsAnswer (bits_with rule kind x y) result }
{
    let y = checked(kind, y.amount_in(kind))?;
    Ok(value_of_bits(rule, kind, x, y))
}

fn with_first(rule: BitRule, kind: NumberKind, x: Number, y: Number) -> Result<Value6, Op6Fail>
    requires whole { whole kind ≡ kind }
    requires signed { (sets_sign rule && is_byte kind) ≡ false }
    ensures { IsAnswer (bits_in rule kind x y) result }
{
    let x = checked(kind, x.amount_in(kind))?;
    with_second(rule, kind, x, y)
}

fn number_bits(rule: BitRule, x: Option<Number>, y: Option<Number>) -> Result<Value6, Op6Fail>
    ensures { IsAnswer (on_numbers (bits_row rule) x y) result }
{
    let Some(x) = x else {
        return Err(Op6Fail::Outside);
    };
    let Some(y) = y else {
        return Err(Op6Fail::Outside);
    };
    let kind = common_whole(x, y);
    if is_unsigned(rule, kind) {
        return Err(Op6Fail::Outside);
    }
    with_first(rule, kind, x, y)
}

/// A rule on two Booleans, or on the bits of two numbers.
#[tactic(auto, using(crate::proofs::Logical::first_is_none, crate::proofs::Logical::second_is_none, crate::proofs::Logical::both_booleans))]
pub(crate) fn logical(rule: BitRule, a: &Value6, b: &Value6) -> Result<Value6, Op6Fail>
    ensures { IsAnswer (logical (bit_rule rule) (bits_row rule) a.now b.now) result }
{
    let Some(p) = boolean_of(a) else {
        return number_bits(rule, number_of(a), number_of(b));
    };
    let Some(q) = boolean_of(b) else {
        return number_bits(rule, number_of(a), number_of(b));
    };
    Ok(Value6::Boolean(rule.on(p, q)))
}

fn complement(x: i128) -> i128
    ensures { result ≡ complement x }
{
    !x
}

#[tactic(auto, using(crate::proofs::Limits::complement_fits))]
fn complemented(x: Option<Number>) -> Result<Value6, Op6Fail>
    ensures { IsAnswer (complemented x) result }
{
    let Some(x) = x else {
        return Err(Op6Fail::Outside);
    };
    let kind = x.kind.whole();
    if kind.is_byte() {
        return Err(Op6Fail::Outside);
    }
    let x = checked(kind, x.amount_in(kind))?;
    Ok(kind.value(complement(x)))
}

/// Not of a Boolean, or of each bit of a number.
pub(crate) fn negation(a: &Value6) -> Result<Value6, Op6Fail>
    ensures { IsAnswer (negation a.now) result }
{
    if let Value6::Boolean(p) = a {
        return Ok(Value6::Boolean(!*p));
    }
    complemented(number_of(a))
}
