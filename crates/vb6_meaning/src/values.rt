//! The numbers and texts that values are.
ghost use Rattle.std.specs.Prelude.{◌≡◌};
ghost use Rattle.vb6_meaning.specs.Numbers.{number_of};
ghost use Rattle.vb6_meaning.specs.Rows.{boolean_of};
ghost use Rattle.vb6_meaning.specs.Values.{held_number};

use crate::{Number, NumberKind};
use vb_tree::Value6;

/// The number that a value of a declared type is in arithmetic.
pub(crate) fn number_of(value: &Value6) -> Option<Number>
    ensures { result ≡ number_of value.now }
{
    let (kind, amount) = match value {
        Value6::Boolean(true) => (NumberKind::Integer, -1),
        Value6::Boolean(false) => (NumberKind::Integer, 0),
        Value6::Byte(n) => (NumberKind::Byte, i64::from(*n)),
        Value6::Int(n) => (NumberKind::Integer, i64::from(*n)),
        Value6::Long(n) => (NumberKind::Long, i64::from(*n)),
        Value6::Cur(n) => (NumberKind::Currency, *n),
        Value6::Str(_) | Value6::Nothing | Value6::Object(_) | Value6::Empty => return None,
    };
    Some(Number { kind, amount })
}

/// The number that a Variant's value is in arithmetic.
pub(crate) fn held_number(value: &Value6) -> Option<Number>
    ensures { result ≡ held_number value.now }
{
    if let Value6::Empty = value {
        return Some(Number {
            kind: NumberKind::Integer,
            amount: 0,
        });
    }
    number_of(value)
}

/// The value of a Boolean.
pub(crate) fn boolean_of(value: &Value6) -> Option<bool>
    ensures { result ≡ boolean_of value.now }
{
    match value {
        Value6::Boolean(b) => Some(*b),
        _ => None,
    }
}
