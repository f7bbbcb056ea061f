//! Conversions.
ghost use Rattle.std.specs.Prelude.{◌≡◌, take, IfOk};
ghost use Rattle.std.specs.Fmt.{signed_decimal};
ghost use Rattle.vb6_meaning.specs.NumberTexts.{boolean_text};
ghost use Rattle.net_meaning.specs.Meets.{IsAnswer};
ghost use Rattle.net_tree.specs.View.{type_name_of};
ghost use Rattle.net_meaning.specs.Conversions.{truth, to_boolean, decimal_to_whole, to_whole, to_decimal, to_text, to_object, to_class, to_array, coerce_net};

use crate::decimal::{Scaled, is_decimal, rounded};
use crate::whole::{WholeKind, checked};
use crate::{OpNFail, ValueN};
use net_tree::NetType;
use std::alloc::Global;
use up_base::{Mem, Wide};

fn to_boolean(v: &ValueN) -> Result<ValueN, OpNFail>
    ensures { IsAnswer result (to_boolean v.now) }
{
    match v {
        ValueN::Boolean(b) => Ok(ValueN::Boolean(*b)),
        ValueN::Byte(n) => Ok(ValueN::Boolean(*n != 0)),
        ValueN::Short(z) => Ok(ValueN::Boolean(*z != 0)),
        ValueN::Integer(z) => Ok(ValueN::Boolean(*z != 0)),
        ValueN::Long(z) => Ok(ValueN::Boolean(*z != 0)),
        ValueN::Decimal(mantissa, scale) => {
            let number = Scaled {
                mantissa: *mantissa,
                scale: *scale,
            };
            if is_decimal(number) {
                Ok(ValueN::Boolean(*mantissa != 0))
            } else {
                Err(OpNFail::Outside)
            }
        }
        ValueN::Str(_) => Err(OpNFail::Outside),
        ValueN::Nothing => Ok(ValueN::Boolean(false)),
        ValueN::Object(_) => Err(OpNFail::Outside),
        ValueN::Array(_) => Err(OpNFail::Outside),
    }
}

// A Boolean as a number: True is -1, and 255 as a Byte.
fn truth(kind: WholeKind, b: bool) -> i128
    ensures { result ≡ truth kind b }
{
    if !b {
        return 0;
    }
    match kind {
        WholeKind::Byte => 255,
        WholeKind::Short => -1,
        WholeKind::Integer => -1,
        WholeKind::Long => -1,
    }
}

// A Decimal as a whole number, rounded from halfway to the even one.
fn decimal_to_whole(kind: WholeKind, number: Scaled) -> Result<ValueN, OpNFail>
    ensures { IsAnswer result (decimal_to_whole kind number.mantissa number.scale) }
{
    if !is_decimal(number) {
        return Err(OpNFail::Outside);
    }
    checked(kind, rounded(number))
}

fn to_whole(kind: WholeKind, v: &ValueN) -> Result<ValueN, OpNFail>
    ensures { IsAnswer result (to_whole kind v.now) }
{
    match v {
        ValueN::Boolean(b) => checked(kind, truth(kind, *b)),
        ValueN::Byte(n) => checked(kind, i128::from(*n)),
        ValueN::Short(z) => checked(kind, i128::from(*z)),
        ValueN::Integer(z) => checked(kind, i128::from(*z)),
        ValueN::Long(z) => checked(kind, i128::from(*z)),
        ValueN::Decimal(mantissa, scale) => {
            let number = Scaled {
                mantissa: *mantissa,
                scale: *scale,
            };
            decimal_to_whole(kind, number)
        }
        ValueN::Str(_) => Err(OpNFail::Outside),
        ValueN::Nothing => checked(kind, 0),
        ValueN::Object(_) => Err(OpNFail::Outside),
        ValueN::Array(_) => Err(OpNFail::Outside),
    }
}

fn to_decimal(v: &ValueN) -> Result<ValueN, OpNFail>
    ensures { IsAnswer result (to_decimal v.now) }
{
    match v {
        ValueN::Boolean(b) => Ok(ValueN::Decimal(truth(WholeKind::Long, *b), 0)),
        ValueN::Byte(n) => Ok(ValueN::Decimal(i128::from(*n), 0)),
        ValueN::Short(z) => Ok(ValueN::Decimal(i128::from(*z), 0)),
        ValueN::Integer(z) => Ok(ValueN::Decimal(i128::from(*z), 0)),
        ValueN::Long(z) => Ok(ValueN::Decimal(i128::from(*z), 0)),
        ValueN::Decimal(mantissa, scale) => {
            let number = Scaled {
                mantissa: *mantissa,
                scale: *scale,
            };
            if is_decimal(number) {
                Ok(ValueN::Decimal(*mantissa, *scale))
            } else {
                Err(OpNFail::Outside)
            }
        }
        ValueN::Str(_) => Err(OpNFail::Outside),
        ValueN::Nothing => Ok(ValueN::Decimal(0, 0)),
        ValueN::Object(_) => Err(OpNFail::Outside),
        ValueN::Array(_) => Err(OpNFail::Outside),
    }
}

// Bytes as the units of a text.
fn units_of(alloc: Global, bytes: &[u8]) -> Result<Wide, Mem>
    ensures { IfOk result (λ t. t ≡ bytes.now) }
{
    let mut units = Wide::new(alloc);
    for byte in bytes {
        units.push(u16::from(*byte))?;
    }
    Ok(units)
}

// The digits of a number, with a minus before a negative one.
fn digits(alloc: Global, number: i64) -> Result<Wide, Mem>
    ensures { IfOk result (λ t. t ≡ signed_decimal number) }
{
    let text = format!(in alloc; "{number}")?;
    Ok(units_of(alloc, text.as_bytes())?)
}

fn boolean_text(alloc: Global, b: bool) -> Result<Wide, Mem>
    ensures { IfOk result (λ t. t ≡ boolean_text b) }
{
    if b {
        Ok(units_of(alloc, b"True")?)
    } else {
        Ok(units_of(alloc, b"False")?)
    }
}

fn copied(alloc: Global, units: &Wide) -> Result<Wide, Mem>
    ensures { IfOk result (λ t. t ≡ units.now) }
{
    Ok(Wide::from_slice(alloc, units.as_slice())?)
}

fn to_text(alloc: Global, v: &ValueN) -> Result<ValueN, OpNFail>
    ensures { IsAnswer result (to_text v.now) }
{
    match v {
        ValueN::Boolean(b) => Ok(ValueN::Str(boolean_text(alloc, *b)?)),
        ValueN::Byte(n) => Ok(ValueN::Str(digits(alloc, i64::from(*n))?)),
        ValueN::Short(z) => Ok(ValueN::Str(digits(alloc, i64::from(*z))?)),
        ValueN::Integer(z) => Ok(ValueN::Str(digits(alloc, i64::from(*z))?)),
        ValueN::Long(z) => Ok(ValueN::Str(digits(alloc, *z)?)),
        ValueN::Decimal(_, _) => Err(OpNFail::Outside),
        ValueN::Str(units) => Ok(ValueN::Str(copied(alloc, units)?)),
        ValueN::Nothing => Ok(ValueN::Nothing),
        ValueN::Object(_) => Err(OpNFail::Outside),
        ValueN::Array(_) => Err(OpNFail::Outside),
    }
}

fn to_object(alloc: Global, v: &ValueN) -> Result<ValueN, OpNFail>
    ensures { IsAnswer result (to_object v.now) }
{
    match v {
        ValueN::Boolean(b) => Ok(ValueN::Boolean(*b)),
        ValueN::Byte(n) => Ok(ValueN::Byte(*n)),
        ValueN::Short(z) => Ok(ValueN::Short(*z)),
        ValueN::Integer(z) => Ok(ValueN::Integer(*z)),
        ValueN::Long(z) => Ok(ValueN::Long(*z)),
        ValueN::Decimal(mantissa, scale) => Ok(ValueN::Decimal(*mantissa, *scale)),
        ValueN::Str(units) => Ok(ValueN::Str(copied(alloc, units)?)),
        ValueN::Nothing => Ok(ValueN::Nothing),
        ValueN::Object(object) => Ok(ValueN::Object(*object)),
        ValueN::Array(_) => Err(OpNFail::Outside),
    }
}

fn to_class(v: &ValueN) -> Result<ValueN, OpNFail>
    ensures { IsAnswer result (to_class v.now) }
{
    match v {
        ValueN::Nothing => Ok(ValueN::Nothing),
        ValueN::Object(object) => Ok(ValueN::Object(*object)),
        _ => Err(OpNFail::Outside),
    }
}

fn to_array(v: &ValueN) -> Result<ValueN, OpNFail>
    ensures { IsAnswer result (to_array v.now) }
{
    match v {
        ValueN::Array(array) => Ok(ValueN::Array(*array)),
        _ => Err(OpNFail::Outside),
    }
}

/// A value converted to a type. Raises 6 at an overflow; outside where the conversion has no row. (Visual Basic Language
/// Specification, conversions.)
pub fn coerce_net(alloc: Global, v: &ValueN, to: &NetType) -> Result<ValueN, OpNFail>
    ensures { IsAnswer result (coerce_net v.now (type_name_of to.now)) }
{
    match to {
        NetType::Boolean => to_boolean(v),
        NetType::Byte => to_whole(WholeKind::Byte, v),
        NetType::Short => to_whole(WholeKind::Short, v),
        NetType::Integer => to_whole(WholeKind::Integer, v),
        NetType::Long => to_whole(WholeKind::Long, v),
        NetType::Decimal => to_decimal(v),
        NetType::Str => to_text(alloc, v),
        NetType::Object => to_object(alloc, v),
        NetType::SystemArray => to_array(v),
        NetType::Named(_) => to_class(v),
        NetType::ArrayOf(_, _) => to_array(v),
    }
}
