//! The texts of values.
ghost use Rattle.std.specs.Prelude.{◌≡◌, ◌<◌, ◌+◌, ◌%◌, ◌^◌, ◌++◌, nat_lt, length, IfOk, OnOk};
ghost use Rattle.std.specs.Fmt.{decimal, signed_decimal};
ghost use Rattle.vb6_meaning.specs.NumberTexts.{places_text, fraction_text, sign_text, currency_text, boolean_text, text_of};
ghost use Rattle.vb6_meaning.specs.Results.{IsAnswer};
ghost use Rattle.vb6_meaning.specs.Values.{text, joined};

use crate::Op6Fail;
use std::alloc::Global;
use up_base::{Mem, Wide};
use vb_tree::Value6;

/// The most units that a text has.
pub(crate) const LONGEST: usize = 2_147_483_647;

fn boolean_text(alloc: Global, b: bool) -> Result<Wide, Mem>
    ensures { IfOk result (λ t. t ≡ boolean_text b) }
{
    if b {
        Ok(Wide::from_slice(alloc, &[84, 114, 117, 101])?)
    } else {
        Ok(Wide::from_slice(alloc, &[70, 97, 108, 115, 101])?)
    }
}

// Appends the decimal digits of a number.
fn push_decimal(out: &mut Wide, n: u64) -> Result<(), Mem>
    ensures { OnOk result (out.new ≡ out.old ++ decimal n) }
{
    if n < 10 {
        return out.push(48 + n as u16);
    }
    push_decimal(out, n / 10)?;
    out.push(48 + (n % 10) as u16)
}

fn push_sign(out: &mut Wide, z: i64) -> Result<(), Mem>
    ensures { OnOk result (out.new ≡ out.old ++ sign_text z) }
{
    if z < 0 {
        out.push(45)?;
    }
    Ok(())
}

fn whole_text(alloc: Global, z: i64) -> Result<Wide, Mem>
    ensures { IfOk result (λ t. t ≡ signed_decimal z) }
{
    let mut out = Wide::new(alloc);
    push_sign(&mut out, z)?;
    push_decimal(&mut out, z.unsigned_abs())?;
    Ok(out)
}

#[tactic(auto, using(crate::proofs::Places::unit_positive))]
fn place_unit(places: u32) -> u64
    requires { places < 5 }
    ensures exact { result ≡ 10 ^ places }
    ensures positive { 0 < result }
{
    10u64.pow(places)
}

// Appends the digits of left / 10 ^ places, without zeros at the end.
#[tactic(auto, using(crate::proofs::Places::no_places, crate::proofs::Places::nothing_left, crate::proofs::Places::next_place))]
fn push_places(out: &mut Wide, places: u32, left: u64) -> Result<(), Mem>
    requires few { places < 5 }
    requires below { left < 10 ^ places }
    ensures { OnOk result (out.new ≡ out.old ++ places_text places left) }
{
    if places == 0 {
        return Ok(());
    }
    if left == 0 {
        return Ok(());
    }
    let unit = place_unit(places - 1);
    out.push(48 + (left / unit) as u16)?;
    push_places(out, places - 1, left % unit)
}

fn push_fraction(out: &mut Wide, amount: u64) -> Result<(), Mem>
    ensures { OnOk result (out.new ≡ out.old ++ fraction_text amount) }
{
    let rest = amount % 10_000;
    if rest == 0 {
        return Ok(());
    }
    out.push(46)?;
    push_places(out, 4, rest)
}

fn currency_text(alloc: Global, amount: i64) -> Result<Wide, Mem>
    ensures { IfOk result (λ t. t ≡ currency_text amount) }
{
    let mut out = Wide::new(alloc);
    push_sign(&mut out, amount)?;
    push_decimal(&mut out, amount.unsigned_abs() / 10_000)?;
    push_fraction(&mut out, amount.unsigned_abs())?;
    Ok(out)
}

/// The text of a value, as `CStr` gives it.
pub(crate) fn text_of(alloc: Global, value: &Value6) -> Result<Wide, Op6Fail>
    ensures { IsAnswer (text_of value.now) result }
{
    match value {
        Value6::Boolean(b) => Ok(boolean_text(alloc, *b)?),
        Value6::Byte(n) => Ok(whole_text(alloc, i64::from(*n))?),
        Value6::Int(n) => Ok(whole_text(alloc, i64::from(*n))?),
        Value6::Long(n) => Ok(whole_text(alloc, i64::from(*n))?),
        Value6::Cur(n) => Ok(currency_text(alloc, *n)?),
        Value6::Str(units) => Ok(Wide::from_slice(alloc, units.as_slice())?),
        Value6::Nothing | Value6::Object(_) => Err(Op6Fail::Outside),
        Value6::Empty => Ok(Wide::new(alloc)),
    }
}

fn is_short(first: usize, second: usize) -> bool
    ensures { result ≡ nat_lt (first + second) (2 ^ 31) }
{
    first <= LONGEST && second <= LONGEST - first
}

/// A text, where it isn't too long.
pub(crate) fn text(alloc: Global, units: &[u16]) -> Result<Value6, Op6Fail>
    ensures { IsAnswer (text units.now) result }
{
    if units.len() > LONGEST {
        return Err(Op6Fail::Outside);
    }
    Ok(Value6::Str(Wide::from_slice(alloc, units)?))
}

/// Two texts, one after the other.
pub(crate) fn join(alloc: Global, first: &[u16], second: &[u16]) -> Result<Value6, Op6Fail>
    ensures { IsAnswer (text (first.now ++ second.now)) result }
{
    if !is_short(first.len(), second.len()) {
        return Err(Op6Fail::Outside);
    }
    let mut units = Wide::from_slice(alloc, first)?;
    units.extend_from_slice(second)?;
    Ok(Value6::Str(units))
}

/// The texts of two values, one after the other.
pub(crate) fn joined(alloc: Global, a: &Value6, b: &Value6) -> Result<Value6, Op6Fail>
    ensures { IsAnswer (joined a.now b.now) result }
{
    let first = text_of(alloc, a)?;
    let second = text_of(alloc, b)?;
    join(alloc, first.as_slice(), second.as_slice())
}
