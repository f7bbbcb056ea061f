//! Types of single values, as values that are copied.
ghost use Rattle.std.specs.Prelude.{◌≡◌};
ghost use Rattle.vb_tree.specs.BoundView.{type_of};
ghost use Rattle.typing_rows.specs.Types.{ty_of, type_of_kind, is_type};

use vb_tree::Type6;
use vb6_meaning::NumberKind;

/// A type that an operator gives or a conversion leads to: any but user types, arrays, and those without a value.
#[derive(Clone, Copy)]
pub enum SimpleType {
    Boolean,
    Byte,
    Integer,
    Long,
    Currency,
    /// A String of any length.
    Str,
    /// A String of a fixed number of units.
    Fixed(u32),
    /// A class, by its number in the project.
    Class(u32),
    Object,
    Variant,
}

impl SimpleType {
    /// The type of a kind of numbers.
    pub fn of_kind(kind: NumberKind) -> SimpleType
        ensures { result ≡ type_of_kind kind }
    {
        match kind {
            NumberKind::Byte => SimpleType::Byte,
            NumberKind::Integer => SimpleType::Integer,
            NumberKind::Long => SimpleType::Long,
            NumberKind::Currency => SimpleType::Currency,
        }
    }

    /// The type that it is.
    pub fn to_type(self) -> Type6
        ensures { type_of result ≡ ty_of self }
    {
        match self {
            SimpleType::Boolean => Type6::Boolean,
            SimpleType::Byte => Type6::Byte,
            SimpleType::Integer => Type6::Integer,
            SimpleType::Long => Type6::Long,
            SimpleType::Currency => Type6::Currency,
            SimpleType::Str => Type6::Str,
            SimpleType::Fixed(units) => Type6::Fixed(units),
            SimpleType::Class(class) => Type6::Class(class),
            SimpleType::Object => Type6::Object,
            SimpleType::Variant => Type6::Variant,
        }
    }

    /// Whether it is this type.
    pub fn is(self, ty: &Type6) -> bool
        ensures { result ≡ is_type self (type_of ty.now) }
    {
        match self {
            SimpleType::Boolean => matches!(ty, Type6::Boolean),
            SimpleType::Byte => matches!(ty, Type6::Byte),
            SimpleType::Integer => matches!(ty, Type6::Integer),
            SimpleType::Long => matches!(ty, Type6::Long),
            SimpleType::Currency => matches!(ty, Type6::Currency),
            SimpleType::Str => matches!(ty, Type6::Str),
            SimpleType::Fixed(units) => is_fixed(units, ty),
            SimpleType::Class(class) => is_class(class, ty),
            SimpleType::Object => matches!(ty, Type6::Object),
            SimpleType::Variant => matches!(ty, Type6::Variant),
        }
    }
}

fn is_fixed(units: u32, ty: &Type6) -> bool
    ensures { result ≡ is_type (SimpleType.Fixed units) (type_of ty.now) }
{
    match ty {
        Type6::Fixed(other) => units == *other,
        _ => false,
    }
}

fn is_class(class: u32, ty: &Type6) -> bool
    ensures { result ≡ is_type (SimpleType.Class class) (type_of ty.now) }
{
    match ty {
        Type6::Class(other) => class == *other,
        _ => false,
    }
}
