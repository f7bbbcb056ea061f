//! Results as values: within their kind's limits, or promoted.
ghost use Rattle.std.specs.Prelude.{◌≡◌, IsTrue, IfOk};
ghost use Rattle.vb6_meaning.specs.Kinds.{whole, fits, checked, checked_value, promoted, promoted_integer, promoted_long};
ghost use Rattle.vb6_meaning.specs.Results.{IsAnswer};
ghost use Rattle.vb6_meaning.specs.Rows.{made_by};
ghost use Rattle.vb6_meaning.specs.Values.{common_whole};

use crate::{Number, NumberKind, Op6Fail};
use vb_tree::Value6;

/// How a result of arithmetic becomes a value.
#[derive(Clone, Copy)]
pub(crate) enum Making {
    /// It has to fit its kind.
    Checked,
    /// It goes to a wider kind where it doesn't fit its own.
    Promoted,
}

// The number of the error `Overflow`.
const OVERFLOW: u32 = 6;

/// The amount, where it fits the kind.
pub(crate) fn checked(kind: NumberKind, amount: i128) -> Result<i128, Op6Fail>
    ensures exact { IsAnswer (checked kind amount) result }
    ensures within { IfOk result (λ x. IsTrue (fits kind x)) }
{
    if kind.fits(amount) {
        Ok(amount)
    } else {
        Err(Op6Fail::Raise(OVERFLOW))
    }
}

/// The value of the kind.
pub(crate) fn checked_value(kind: NumberKind, amount: i128) -> Result<Value6, Op6Fail>
    ensures { IsAnswer (checked_value kind amount) result }
{
    if kind.fits(amount) {
        Ok(kind.value(amount))
    } else {
        Err(Op6Fail::Raise(OVERFLOW))
    }
}

fn promoted_long(amount: i128) -> Result<Value6, Op6Fail>
    ensures { IsAnswer (promoted_long amount) result }
{
    if NumberKind::Long.fits(amount) {
        Ok(NumberKind::Long.value(amount))
    } else {
        Err(Op6Fail::Outside)
    }
}

fn promoted_integer(amount: i128) -> Result<Value6, Op6Fail>
    ensures { IsAnswer (promoted_integer amount) result }
{
    if NumberKind::Integer.fits(amount) {
        Ok(NumberKind::Integer.value(amount))
    } else {
        promoted_long(amount)
    }
}

/// The value of the first kind, from this one on, that holds the amount.
fn promoted(kind: NumberKind, amount: i128) -> Result<Value6, Op6Fail>
    ensures { IsAnswer (promoted kind amount) result }
{
    match kind {
        NumberKind::Byte => {
            if kind.fits(amount) {
                Ok(kind.value(amount))
            } else {
                promoted_integer(amount)
            }
        }
        NumberKind::Integer => promoted_integer(amount),
        NumberKind::Long => promoted_long(amount),
        NumberKind::Currency => {
            if kind.fits(amount) {
                Ok(kind.value(amount))
            } else {
                Err(Op6Fail::Outside)
            }
        }
    }
}

/// The value that a result of arithmetic becomes.
pub(crate) fn made(making: Making, kind: NumberKind, amount: i128) -> Result<Value6, Op6Fail>
    ensures { IsAnswer (made_by making kind amount) result }
{
    match making {
        Making::Checked => checked_value(kind, amount),
        Making::Promoted => promoted(kind, amount),
    }
}

/// The kind in which operators on whole numbers take two numbers.
pub(crate) fn common_whole(x: Number, y: Number) -> NumberKind
    ensures exact { result ≡ common_whole x y }
    ensures whole { whole result ≡ result }
{
    x.kind.wider(y.kind).whole()
}
