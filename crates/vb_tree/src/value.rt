//! Types and values.

use up_base::Wide;

/// A type.
#[derive(Drop)]
pub enum Type6 {
    Boolean,
    Byte,
    Integer,
    Long,
    Currency,
    /// A String of any length.
    Str,
    /// A String of a fixed number of units.
    Fixed(u32),
    /// A user type, by its number in the project.
    User(u32),
    /// A class, by its number in the project.
    Class(u32),
    Object,
    Variant,
    /// An array of this element type with its declared rank, 0 for a dynamic one. A rank above 255 is kept as 255. Two
    /// array types are the same where their element types are.
    Array(Box<Type6>, u8),
    /// The type of Nothing, and of what gives no value.
    Nothing,
    /// The type of what broke a rule.
    Unknown,
}

/// A value.
#[derive(Drop)]
pub enum Value6 {
    Boolean(bool),
    Byte(u8),
    Int(i16),
    Long(i32),
    /// A Currency, in ten-thousandths.
    Cur(i64),
    /// A text of UTF-16 units.
    Str(Wide),
    Nothing,
    /// An object, by its number.
    Object(u32),
    /// The value of a Variant that was never assigned.
    Empty,
}
