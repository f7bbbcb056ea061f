//! How an expression of a type goes to what has another type.
ghost use Rattle.std.specs.Prelude.{◌≡◌, cond, nat_eq};
ghost use Rattle.vb_tree.specs.BoundView.{type_of};
ghost use Rattle.typing_rows.specs.Conversions as conversions;
ghost use Rattle.typing_rows.specs.Conversions.{counted, valued, to_number, to_value, is_array, to_variant, to_object, to_class, to_user, is_user, is_nothing, is_without_type, is_same_type, to_array, to_nothing, without_object};
ghost use Rattle.typing_rows.specs.Types as types;

use crate::operands::Operand;
use crate::simple_types::SimpleType;
use vb_tree::Type6;

/// What becomes of an expression where one of a type is wanted.
#[derive(Clone, Copy)]
pub enum Conversion {
    /// It stays as it is.
    Stands,
    /// It is converted to this type.
    To(SimpleType),
    /// It is an object, which gives way to its default member first.
    ByDefault,
    /// There is no conversion, and the rule of this number is broken.
    Breaks(u8),
}

// A Boolean, a number or a Variant that goes to another type of these.
fn counted(to: SimpleType, from: Operand) -> Conversion
    ensures { result ≡ counted to from }
{
    match from {
        Operand::Boolean => Conversion::To(to),
        Operand::Number(_) => Conversion::To(to),
        Operand::Text => Conversion::Breaks(21),
        Operand::Variant => Conversion::To(to),
        Operand::Object => Conversion::ByDefault,
        Operand::Nothing => Conversion::Breaks(21),
        Operand::Other => Conversion::Breaks(21),
        Operand::Unknown => Conversion::Stands,
    }
}

// The same, and a text too.
fn valued(to: SimpleType, from: Operand) -> Conversion
    ensures { result ≡ valued to from }
{
    match from {
        Operand::Text => Conversion::To(to),
        _ => counted(to, from),
    }
}

fn to_number(to: SimpleType, from: &Type6) -> Conversion
    ensures { result ≡ to_number to (type_of from.now) }
{
    if to.is(from) {
        return Conversion::Stands;
    }
    counted(to, Operand::of_type(from))
}

fn to_value(to: SimpleType, from: &Type6) -> Conversion
    ensures { result ≡ to_value to (type_of from.now) }
{
    if to.is(from) {
        return Conversion::Stands;
    }
    valued(to, Operand::of_type(from))
}

fn is_array(ty: &Type6) -> bool
    ensures { result ≡ is_array (type_of ty.now) }
{
    matches!(ty, Type6::Array(_, _))
}

fn to_variant(from: &Type6) -> Conversion
    ensures { result ≡ to_variant (type_of from.now) }
{
    if is_array(from) {
        return Conversion::Breaks(5);
    }
    to_value(SimpleType::Variant, from)
}

fn to_object(from: &Type6) -> Conversion
    ensures { result ≡ to_object (type_of from.now) }
{
    match from {
        Type6::Object => Conversion::Stands,
        Type6::Class(_) => Conversion::To(SimpleType::Object),
        Type6::Nothing => Conversion::To(SimpleType::Object),
        Type6::Unknown => Conversion::Stands,
        _ => Conversion::Breaks(21),
    }
}

// Whether two numbers of classes or of user types are one.
fn if_same(a: u32, b: u32) -> Conversion
    ensures { result ≡ cond (nat_eq a b) Conversion.Stands (Conversion.Breaks 21) }
{
    if a == b {
        Conversion::Stands
    } else {
        Conversion::Breaks(21)
    }
}

fn to_class(class: u32, from: &Type6) -> Conversion
    ensures { result ≡ to_class class (type_of from.now) }
{
    match from {
        Type6::Class(other) => if_same(class, *other),
        Type6::Nothing => Conversion::To(SimpleType::Class(class)),
        Type6::Unknown => Conversion::Stands,
        _ => Conversion::Breaks(21),
    }
}

fn to_user(user: u32, from: &Type6) -> Conversion
    ensures { result ≡ to_user user (type_of from.now) }
{
    match from {
        Type6::User(other) => if_same(user, *other),
        Type6::Class(_) => Conversion::ByDefault,
        Type6::Object => Conversion::ByDefault,
        Type6::Unknown => Conversion::Stands,
        _ => Conversion::Breaks(21),
    }
}

fn is_user(user: u32, ty: &Type6) -> bool
    ensures { result ≡ is_user user (type_of ty.now) }
{
    match ty {
        Type6::User(other) => user == *other,
        _ => false,
    }
}

fn is_nothing(ty: &Type6) -> bool
    ensures { result ≡ is_nothing (type_of ty.now) }
{
    matches!(ty, Type6::Nothing)
}

fn is_without_type(ty: &Type6) -> bool
    ensures { result ≡ is_without_type (type_of ty.now) }
{
    matches!(ty, Type6::Unknown)
}

/// Whether two types are the same; arrays are where their element types are.
pub fn is_same_type(a: &Type6, b: &Type6) -> bool
    ensures { result ≡ is_same_type (type_of a.now) (type_of b.now) }
{
    match a {
        Type6::Boolean => SimpleType::Boolean.is(b),
        Type6::Byte => SimpleType::Byte.is(b),
        Type6::Integer => SimpleType::Integer.is(b),
        Type6::Long => SimpleType::Long.is(b),
        Type6::Currency => SimpleType::Currency.is(b),
        Type6::Str => SimpleType::Str.is(b),
        Type6::Fixed(units) => SimpleType::Fixed(*units).is(b),
        Type6::User(user) => is_user(*user, b),
        Type6::Class(class) => SimpleType::Class(*class).is(b),
        Type6::Object => SimpleType::Object.is(b),
        Type6::Variant => SimpleType::Variant.is(b),
        Type6::Array(element, _) => match b {
            Type6::Array(other, _) => is_same_type(element, other),
            _ => false,
        },
        Type6::Nothing => is_nothing(b),
        Type6::Unknown => is_without_type(b),
    }
}

fn to_array(element: &Type6, from: &Type6) -> Conversion
    ensures { result ≡ to_array (type_of element.now) (type_of from.now) }
{
    match from {
        Type6::Array(other, _) => {
            if is_same_type(element, other) {
                Conversion::Stands
            } else {
                Conversion::Breaks(21)
            }
        }
        Type6::Unknown => Conversion::Stands,
        _ => Conversion::Breaks(21),
    }
}

fn to_nothing(from: &Type6) -> Conversion
    ensures { result ≡ to_nothing (type_of from.now) }
{
    match from {
        Type6::Nothing => Conversion::Stands,
        Type6::Unknown => Conversion::Stands,
        _ => Conversion::Breaks(21),
    }
}

/// What becomes of an expression of a type where one of another type is wanted, as for an argument.
pub fn converts(from: &Type6, to: &Type6) -> Conversion
    ensures { result ≡ conversions.converts (type_of from.now) (type_of to.now) }
{
    match to {
        Type6::Boolean => to_number(SimpleType::Boolean, from),
        Type6::Byte => to_number(SimpleType::Byte, from),
        Type6::Integer => to_number(SimpleType::Integer, from),
        Type6::Long => to_number(SimpleType::Long, from),
        Type6::Currency => to_number(SimpleType::Currency, from),
        Type6::Str => to_value(SimpleType::Str, from),
        Type6::Fixed(units) => to_value(SimpleType::Fixed(*units), from),
        Type6::User(user) => to_user(*user, from),
        Type6::Class(class) => to_class(*class, from),
        Type6::Object => to_object(from),
        Type6::Variant => to_variant(from),
        Type6::Array(element, _) => to_array(element, from),
        Type6::Nothing => to_nothing(from),
        Type6::Unknown => Conversion::Stands,
    }
}

/// Whether a type is that of objects. An object as the target of an assignment gives way to its default member first.
pub fn is_object_type(ty: &Type6) -> bool
    ensures { result ≡ types.is_object (types.operand_of (type_of ty.now)) }
{
    Operand::of_type(ty).is_object()
}

/// What becomes of the value of an assignment to a target of a type: a String of a fixed length takes a String of any, which
/// is cut or padded as it is stored.
pub fn assigned(value: &Type6, target: &Type6) -> Conversion
    ensures { result ≡ conversions.assigned (type_of value.now) (type_of target.now) }
{
    match target {
        Type6::Fixed(_) => to_value(SimpleType::Str, value),
        _ => converts(value, target),
    }
}

// No object is there, but where nothing is known.
fn without_object(value: &Type6) -> Conversion
    ensures { result ≡ without_object (type_of value.now) }
{
    match value {
        Type6::Unknown => Conversion::Stands,
        _ => Conversion::Breaks(21),
    }
}

/// What becomes of the value of a Set of a target of a type.
pub fn set_to(value: &Type6, target: &Type6) -> Conversion
    ensures { result ≡ conversions.set_to (type_of value.now) (type_of target.now) }
{
    match target {
        Type6::Class(class) => to_class(*class, value),
        Type6::Object => to_object(value),
        Type6::Variant => Conversion::Breaks(5),
        Type6::Unknown => Conversion::Stands,
        _ => without_object(value),
    }
}

/// What becomes of the condition of an If, an ElseIf, a Do, a Loop or a While.
pub fn condition(ty: &Type6) -> Conversion
    ensures { result ≡ conversions.condition (type_of ty.now) }
{
    to_number(SimpleType::Boolean, ty)
}

/// What becomes of an index of an element or a bound of a ReDim.
pub fn index(ty: &Type6) -> Conversion
    ensures { result ≡ conversions.index (type_of ty.now) }
{
    to_number(SimpleType::Long, ty)
}

/// What becomes of the number that Err.Raise raises.
pub fn error_number(ty: &Type6) -> Conversion
    ensures { result ≡ conversions.error_number (type_of ty.now) }
{
    to_number(SimpleType::Long, ty)
}

/// Whether a For counts in a variable of this type.
pub fn is_counter(ty: &Type6) -> bool
    ensures { result ≡ conversions.is_counter (type_of ty.now) }
{
    match ty {
        Type6::Integer => true,
        Type6::Long => true,
        _ => false,
    }
}

/// What becomes of the start, the limit and the step of a For that counts in a variable of a type.
pub fn limit(value: &Type6, counter: &Type6) -> Conversion
    ensures { result ≡ conversions.limit (type_of value.now) (type_of counter.now) }
{
    converts(value, counter)
}

/// What becomes of an item of Debug.Print, whose text is made when it is printed.
pub fn printed(ty: &Type6) -> Conversion
    ensures { result ≡ conversions.printed (type_of ty.now) }
{
    match Operand::of_type(ty) {
        Operand::Boolean => Conversion::Stands,
        Operand::Number(_) => Conversion::Stands,
        Operand::Text => Conversion::Stands,
        Operand::Variant => Conversion::Stands,
        Operand::Object => Conversion::ByDefault,
        Operand::Nothing => Conversion::Breaks(21),
        Operand::Other => Conversion::Breaks(21),
        Operand::Unknown => Conversion::Stands,
    }
}
