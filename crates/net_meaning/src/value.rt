//! Values of Visual Basic .NET.

use up_base::Wide;

/// A value of Visual Basic .NET.
#[derive(Drop)]
pub enum ValueN {
    Boolean(bool),
    /// A whole number of 8 bits without a sign.
    Byte(u8),
    /// A whole number of 16 bits.
    Short(i16),
    /// A whole number of 32 bits.
    Integer(i32),
    /// A whole number of 64 bits.
    Long(i64),
    /// A Decimal: a mantissa, and how many of its digits stand behind the point. Its mantissa has at most 96 bits beside its
    /// sign, and its scale is at most 28.
    Decimal(i128, u8),
    /// A text of UTF-16 units.
    Str(Wide),
    /// No object, and the value of a String that was never assigned.
    Nothing,
    /// An object, by its number.
    Object(u32),
    /// An array, by its number.
    Array(u32),
}
