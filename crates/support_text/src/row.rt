//! The support functions.
ghost use Rattle.std.specs.Prelude.{◌≡◌};
ghost use Rattle.support_text.specs.Rows.{all_rows};

/// A function of the module UpgradeSupport, in the order in which they stand there.
#[derive(Clone, Copy, Debug, PartialEq, Eq)]
pub enum SupportRow {
    /// Prints a text and a line end.
    PrintLine,
    /// Prints a text.
    PrintPart,
    /// The digits of a Currency.
    CurText,
    /// A number as it is printed.
    PrintNum,
    /// A Decimal that has to be a Currency.
    Cur,
    /// Raises an error by its number.
    Raise,
}

/// The functions in their order.
pub(crate) fn all_rows() -> [SupportRow; 6]
    ensures { result ≡ all_rows }
{
    [
        SupportRow::PrintLine,
        SupportRow::PrintPart,
        SupportRow::CurText,
        SupportRow::PrintNum,
        SupportRow::Cur,
        SupportRow::Raise,
    ]
}
