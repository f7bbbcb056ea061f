//! What a type is to the tables of operators and conversions.
ghost use Rattle.std.specs.Prelude.{◌≡◌};
ghost use Rattle.vb_tree.specs.BoundView.{type_of};
ghost use Rattle.typing_rows.specs.Types.{operand_of, kind_of, is_boolean, is_text, is_variant, is_object, is_unknown, is_value, is_reference};

use vb_tree::Type6;
use vb6_meaning::NumberKind;

/// What a type is as that of an operand.
#[derive(Clone, Copy)]
pub enum Operand {
    Boolean,
    Number(NumberKind),
    /// A String of any or of a fixed length.
    Text,
    Variant,
    /// An object of a class, or of the type Object.
    Object,
    /// Nothing, or what gives no value.
    Nothing,
    /// A user type or an array.
    Other,
    /// What broke a rule and has no type.
    Unknown,
}

impl Operand {
    /// What a type is as that of an operand.
    pub fn of_type(ty: &Type6) -> Operand
        ensures { result ≡ operand_of (type_of ty.now) }
    {
        match ty {
            Type6::Boolean => Operand::Boolean,
            Type6::Byte => Operand::Number(NumberKind::Byte),
            Type6::Integer => Operand::Number(NumberKind::Integer),
            Type6::Long => Operand::Number(NumberKind::Long),
            Type6::Currency => Operand::Number(NumberKind::Currency),
            Type6::Str => Operand::Text,
            Type6::Fixed(_) => Operand::Text,
            Type6::User(_) => Operand::Other,
            Type6::Class(_) => Operand::Object,
            Type6::Object => Operand::Object,
            Type6::Variant => Operand::Variant,
            Type6::Array(_, _) => Operand::Other,
            Type6::Nothing => Operand::Nothing,
            Type6::Unknown => Operand::Unknown,
        }
    }

    /// The kind of number that it counts as: a Boolean is an Integer.
    pub fn kind(self) -> Option<NumberKind>
        ensures { result ≡ kind_of self }
    {
        match self {
            Operand::Boolean => Some(NumberKind::Integer),
            Operand::Number(kind) => Some(kind),
            _ => None,
        }
    }

    pub(crate) fn is_boolean(self) -> bool
        ensures { result ≡ is_boolean self }
    {
        matches!(self, Operand::Boolean)
    }

    pub(crate) fn is_text(self) -> bool
        ensures { result ≡ is_text self }
    {
        matches!(self, Operand::Text)
    }

    pub(crate) fn is_variant(self) -> bool
        ensures { result ≡ is_variant self }
    {
        matches!(self, Operand::Variant)
    }

    /// Whether it is an object, which in all but the operator Is gives way to its default member.
    pub fn is_object(self) -> bool
        ensures { result ≡ is_object self }
    {
        matches!(self, Operand::Object)
    }

    /// Whether it has no type, so that nothing is said of it.
    pub fn is_unknown(self) -> bool
        ensures { result ≡ is_unknown self }
    {
        matches!(self, Operand::Unknown)
    }

    /// Whether it has a value that a Variant can hold.
    pub(crate) fn is_value(self) -> bool
        ensures { result ≡ is_value self }
    {
        match self {
            Operand::Boolean => true,
            Operand::Number(_) => true,
            Operand::Text => true,
            Operand::Variant => true,
            _ => false,
        }
    }

    /// Whether it is an object or Nothing.
    pub(crate) fn is_reference(self) -> bool
        ensures { result ≡ is_reference self }
    {
        match self {
            Operand::Object => true,
            Operand::Nothing => true,
            _ => false,
        }
    }
}
