//! The steps that make a function: a language without memory, of which a table can be a constant.
ghost use Rattle.std.specs.Prelude.{◌≡◌};
ghost use Rattle.net_tree.specs.View.{type_name_of};
ghost use Rattle.support_text.specs.Steps.{simple_type};

use net_tree::{CastWord, NetBin, NetType, NetUn};

/// A type that has no parts.
#[derive(Clone, Copy, Debug, PartialEq, Eq)]
pub enum SimpleType {
    Boolean,
    Byte,
    Short,
    Integer,
    Long,
    Decimal,
    Str,
    Object,
    SystemArray,
}

impl SimpleType {
    /// The type as it is written.
    pub(crate) fn written(self) -> NetType
        ensures { type_name_of result ≡ simple_type self }
    {
        match self {
            SimpleType::Boolean => NetType::Boolean,
            SimpleType::Byte => NetType::Byte,
            SimpleType::Short => NetType::Short,
            SimpleType::Integer => NetType::Integer,
            SimpleType::Long => NetType::Long,
            SimpleType::Decimal => NetType::Decimal,
            SimpleType::Str => NetType::Str,
            SimpleType::Object => NetType::Object,
            SimpleType::SystemArray => NetType::SystemArray,
        }
    }
}

/// How many arguments a call has.
#[derive(Clone, Copy, Debug, PartialEq, Eq)]
pub enum Arguments {
    Zero,
    One,
    Two,
}

/// A step. It takes its operands from the top of a stack of expressions, the last operand first, and puts the expression that it
/// makes on top, or adds the line or the local variable that it makes.
#[derive(Clone, Copy)]
pub enum Step {
    /// A name alone.
    Name(&'static [u8]),
    /// A name with those that qualify it.
    Path(&'static [&'static [u8]]),
    /// An Integer.
    Number(i32),
    /// A Long.
    LongNumber(i64),
    /// A Decimal, in ten-thousandths.
    Amount(i128),
    /// A text of ASCII characters.
    Text(&'static [u8]),
    Nothing,
    /// A member of the operand.
    Dot(&'static [u8]),
    Cast(CastWord),
    Unary(NetUn),
    Binary(NetBin),
    /// Whether the operand is of a type.
    TypeOf(SimpleType),
    /// A call of what stands below the arguments.
    Call(Arguments),
    /// A new object of a class.
    New(&'static [&'static [u8]], Arguments),
    /// The line that assigns the operand to this name.
    Assign(&'static [u8]),
    /// The line that calls what stands below the arguments.
    CallLine(Arguments),
    If,
    ElseIf,
    Else,
    EndIf,
    /// A local variable that begins with the operand.
    Local(&'static [u8], SimpleType),
}

/// A parameter.
#[derive(Clone, Copy)]
pub enum Parameter {
    ByVal(&'static [u8], SimpleType),
    ByRef(&'static [u8], SimpleType),
}

/// A function as it is made. One without a result is a Sub.
#[derive(Clone, Copy)]
pub struct Routine {
    pub name: &'static [u8],
    pub params: &'static [Parameter],
    pub result: Option<SimpleType>,
    pub steps: &'static [Step],
}
