//! Conversions of values to types.
ghost use Rattle.std.specs.Prelude.{◌≡◌, ◌++◌, ◌-◌, ◌≤◌, pos, length, take, replicate, OnOk};
ghost use Rattle.std.specs.Ordering.{int_eq};
ghost use Rattle.vb_tree.specs.BoundTree.{str, fixed};
ghost use Rattle.vb_tree.specs.BoundView.{type_of};
ghost use Rattle.vb6_meaning.specs.Kinds.{fits, value};
ghost use Rattle.vb6_meaning.specs.Results.{IsAnswer};
ghost use Rattle.vb6_meaning.specs.Rows.{from_kind};
ghost use Rattle.vb6_meaning.specs.Values.{is_nonzero, to_boolean, truth, to_number, to_object, to_variant, to_nothing, fixed_text, text, coerce};

use crate::answer::checked_value;
use crate::texts::{LONGEST, text_of};
use crate::{Number, NumberKind, Op6Fail};
use std::alloc::Global;
use up_base::{Mem, Wide};
use vb_tree::{Type6, Value6};

fn to_boolean(value: &Value6) -> Result<Value6, Op6Fail>
    ensures { IsAnswer (to_boolean value.now) result }
{
    match value {
        Value6::Boolean(b) => Ok(Value6::Boolean(*b)),
        Value6::Byte(n) => Ok(Value6::Boolean(*n != 0)),
        Value6::Int(n) => Ok(Value6::Boolean(*n != 0)),
        Value6::Long(n) => Ok(Value6::Boolean(*n != 0)),
        Value6::Cur(n) => Ok(Value6::Boolean(*n != 0)),
        Value6::Str(_) | Value6::Nothing | Value6::Object(_) => Err(Op6Fail::Outside),
        Value6::Empty => Ok(Value6::Boolean(false)),
    }
}

fn truth(kind: NumberKind, b: bool) -> Value6
    ensures { result ≡ value kind (truth kind b) }
{
    match kind {
        NumberKind::Byte => Value6::Byte(if b { 255 } else { 0 }),
        NumberKind::Integer => Value6::Int(if b { -1 } else { 0 }),
        NumberKind::Long => Value6::Long(if b { -1 } else { 0 }),
        NumberKind::Currency => Value6::Cur(if b { -10_000 } else { 0 }),
    }
}

// A number of one kind as one of another.
fn number_to(kind: NumberKind, from: NumberKind, amount: i64) -> Result<Value6, Op6Fail>
    ensures { IsAnswer (from_kind kind from amount) result }
{
    let number = Number { kind: from, amount };
    checked_value(kind, number.amount_in(kind))
}

fn to_number(kind: NumberKind, value: &Value6) -> Result<Value6, Op6Fail>
    ensures { IsAnswer (to_number kind value.now) result }
{
    match value {
        Value6::Boolean(b) => Ok(truth(kind, *b)),
        Value6::Byte(n) => number_to(kind, NumberKind::Byte, i64::from(*n)),
        Value6::Int(n) => number_to(kind, NumberKind::Integer, i64::from(*n)),
        Value6::Long(n) => number_to(kind, NumberKind::Long, i64::from(*n)),
        Value6::Cur(n) => number_to(kind, NumberKind::Currency, *n),
        Value6::Str(_) | Value6::Nothing | Value6::Object(_) => Err(Op6Fail::Outside),
        Value6::Empty => Ok(truth(kind, false)),
    }
}

fn to_object(value: &Value6) -> Result<Value6, Op6Fail>
    ensures { IsAnswer (to_object value.now) result }
{
    match value {
        Value6::Nothing => Ok(Value6::Nothing),
        Value6::Object(number) => Ok(Value6::Object(*number)),
        _ => Err(Op6Fail::Outside),
    }
}

fn to_nothing(value: &Value6) -> Result<Value6, Op6Fail>
    ensures { IsAnswer (to_nothing value.now) result }
{
    match value {
        Value6::Nothing => Ok(Value6::Nothing),
        _ => Err(Op6Fail::Outside),
    }
}

fn to_variant(alloc: Global, value: &Value6) -> Result<Value6, Op6Fail>
    ensures { IsAnswer (to_variant value.now) result }
{
    match value {
        Value6::Boolean(b) => Ok(Value6::Boolean(*b)),
        Value6::Byte(n) => Ok(Value6::Byte(*n)),
        Value6::Int(n) => Ok(Value6::Int(*n)),
        Value6::Long(n) => Ok(Value6::Long(*n)),
        Value6::Cur(n) => Ok(Value6::Cur(*n)),
        Value6::Str(units) => Ok(Value6::Str(Wide::from_slice(alloc, units.as_slice())?)),
        Value6::Nothing | Value6::Object(_) => Err(Op6Fail::Outside),
        Value6::Empty => Ok(Value6::Empty),
    }
}

fn to_string(alloc: Global, value: &Value6) -> Result<Value6, Op6Fail>
    ensures { IsAnswer (coerce value.now str) result }
{
    let units = text_of(alloc, value)?;
    Ok(Value6::Str(units))
}

fn push_blanks(out: &mut Wide, count: usize) -> Result<(), Mem>
    ensures { OnOk result (out.new ≡ out.old ++ replicate count 32) }
{
    for _ in 0..count {
        out.push(32)?;
    }
    Ok(())
}

#[tactic(auto, using(crate::proofs::FixedTexts::cut, crate::proofs::FixedTexts::padded, crate::proofs::FixedTexts::fixed_length))]
fn fixed_text(alloc: Global, n: usize, units: &[u16]) -> Result<Value6, Op6Fail>
    ensures { IsAnswer (text (fixed_text n units.now)) result }
{
    if n > LONGEST {
        return Err(Op6Fail::Outside);
    }
    if n <= units.len() {
        return Ok(Value6::Str(Wide::from_slice(alloc, &units[..n])?));
    }
    let mut padded = Wide::from_slice(alloc, units)?;
    push_blanks(&mut padded, n - units.len())?;
    Ok(Value6::Str(padded))
}

fn to_fixed(alloc: Global, value: &Value6, n: u32) -> Result<Value6, Op6Fail>
    ensures { IsAnswer (coerce value.now (fixed n)) result }
{
    let units = text_of(alloc, value)?;
    fixed_text(alloc, n as usize, units.as_slice())
}

/// The value of a type that a value is converted to.
///
/// A Currency becomes a whole number by rounding half to even. `Raise(6)` where a number doesn't fit its new type; `Outside`
/// where no conversion is defined, as from a text to a number.
pub fn coerce6(alloc: Global, v: &Value6, to: &Type6) -> Result<Value6, Op6Fail>
    ensures exact { IsAnswer (coerce v.now (type_of to.now)) result }
{
    match to {
        Type6::Boolean => to_boolean(v),
        Type6::Byte => to_number(NumberKind::Byte, v),
        Type6::Integer => to_number(NumberKind::Integer, v),
        Type6::Long => to_number(NumberKind::Long, v),
        Type6::Currency => to_number(NumberKind::Currency, v),
        Type6::Str => to_string(alloc, v),
        Type6::Fixed(n) => to_fixed(alloc, v, *n),
        Type6::User(_) => Err(Op6Fail::Outside),
        Type6::Class(_) => to_object(v),
        Type6::Object => to_object(v),
        Type6::Variant => to_variant(alloc, v),
        Type6::Array(_, _) => Err(Op6Fail::Outside),
        Type6::Nothing => to_nothing(v),
        Type6::Unknown => Err(Op6Fail::Outside),
    }
}
