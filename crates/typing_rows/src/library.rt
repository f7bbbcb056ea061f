//! The library: its calls by their names, what arguments they take and what they give, and its constants.
ghost use Rattle.std.specs.Prelude.{◌≡◌, map, option_map, find, nat_eq};
ghost use Rattle.std.specs.Cmp.Lexicographic.{pointwise};
ghost use Rattle.vb_tree.specs.BoundView.{type_of};
ghost use Rattle.vb6_meaning.specs.Library.{signed_kind};
ghost use Rattle.typing_rows.specs.Library as library;
ghost use Rattle.typing_rows.specs.Library.{look_up, call_names, constant_names, constant_text, least_count, most_count, has_count, first_wanted, later_wanted, text_alone, only_text, number_alone, only_number, only_variant, only_array, dimension, kept, given, dimension_at, absolute};

use crate::conversions::{Conversion, converts};
use crate::operands::Operand;
use crate::simple_types::SimpleType;
use up_base::Name;
use vb_tree::{LibCall, Suffix, Type6, Value6};
use vb6_meaning::NumberKind;

/// What an argument of a call of the library is to be.
#[derive(Clone, Copy)]
pub enum Wanted {
    /// What is converted to String.
    Text,
    /// What is converted to Long.
    Count,
    /// A String, and nothing that is converted to one.
    OnlyText,
    /// A number or a Boolean.
    Number,
    Variant,
    Array,
    /// A constant that is 1 or 2.
    Dimension,
    /// What converts to this type; the call is the conversion.
    Converted(SimpleType),
}

/// A constant of the library, which is a text.
#[derive(Clone, Copy)]
pub enum TextConstant {
    /// `vbCr`
    CarriageReturn,
    /// `vbLf`
    LineFeed,
    /// `vbCrLf`
    LineEnd,
    /// `vbTab`
    Tab,
    /// `vbNullString`, the text without units.
    NoText,
}

impl TextConstant {
    /// Its UTF-16 units.
    pub fn units(self) -> &'static [u16]
        ensures { result.now ≡ constant_text self }
    {
        match self {
            TextConstant::CarriageReturn => &[13],
            TextConstant::LineFeed => &[10],
            TextConstant::LineEnd => &[13, 10],
            TextConstant::Tab => &[9],
            TextConstant::NoText => &[],
        }
    }
}

static CALLS: [(&[u8], LibCall); 25] = [
    (b"len", LibCall::Len),
    (b"left", LibCall::Left),
    (b"right", LibCall::Right),
    (b"mid", LibCall::Mid),
    (b"trim", LibCall::Trim),
    (b"ltrim", LibCall::LTrim),
    (b"rtrim", LibCall::RTrim),
    (b"ucase", LibCall::UCase),
    (b"lcase", LibCall::LCase),
    (b"space", LibCall::Space),
    (b"chr", LibCall::Chr),
    (b"asc", LibCall::Asc),
    (b"instr", LibCall::InStr),
    (b"abs", LibCall::Abs),
    (b"cbool", LibCall::CBool),
    (b"cbyte", LibCall::CByte),
    (b"cint", LibCall::CInt),
    (b"clng", LibCall::CLng),
    (b"ccur", LibCall::CCur),
    (b"cstr", LibCall::CStr),
    (b"isempty", LibCall::IsEmpty),
    (b"ubound", LibCall::UBound),
    (b"lbound", LibCall::LBound),
    (b"msgbox", LibCall::MsgBox),
    (b"inputbox", LibCall::InputBox),
];

static CONSTANTS: [(&[u8], TextConstant); 5] = [
    (b"vbcr", TextConstant::CarriageReturn),
    (b"vblf", TextConstant::LineFeed),
    (b"vbcrlf", TextConstant::LineEnd),
    (b"vbtab", TextConstant::Tab),
    (b"vbnullstring", TextConstant::NoText),
];

// The calls by their names in small letters.
fn call_names() -> &'static [(&'static [u8], LibCall)]
    ensures { map (λ r. (r.0.now, r.1)) result.now ≡ call_names }
{
    &CALLS
}

// The constants by their names in small letters.
fn constant_names() -> &'static [(&'static [u8], TextConstant)]
    ensures { map (λ r. (r.0.now, r.1)) result.now ≡ constant_names }
{
    &CONSTANTS
}

// The call in the first row of a word.
fn call_in(rows: &[(&[u8], LibCall)], word: &[u8]) -> Option<LibCall>
    ensures { result ≡ option_map (λ r. r.1) (find (λ r. pointwise nat_eq word.now r.0.now) rows.now) }
{
    rows.iter().find(|row| word == row.0).map(|row| row.1)
}

fn call_named(word: &[u8]) -> Option<LibCall>
    ensures { result ≡ look_up call_names word.now }
{
    call_in(call_names(), word)
}

/// The call of the library that a name stands for, letters compared without case.
pub fn library_call(name: &Name) -> Option<LibCall>
    ensures { result ≡ library.library_call name.now }
{
    call_named(name.lower_bytes())
}

// The constant in the first row of a word.
fn constant_in(rows: &[(&[u8], TextConstant)], word: &[u8]) -> Option<TextConstant>
    ensures { result ≡ option_map (λ r. r.1) (find (λ r. pointwise nat_eq word.now r.0.now) rows.now) }
{
    rows.iter().find(|row| word == row.0).map(|row| row.1)
}

fn constant_named(word: &[u8]) -> Option<TextConstant>
    ensures { result ≡ look_up constant_names word.now }
{
    constant_in(constant_names(), word)
}

/// The constant of the library that a name stands for, letters compared without case.
pub fn library_constant(name: &Name) -> Option<TextConstant>
    ensures { result ≡ library.library_constant name.now }
{
    constant_named(name.lower_bytes())
}

/// Whether a name of the library may have a suffix: `$` or none.
pub fn is_library_suffix(suffix: Suffix) -> bool
    ensures { result ≡ library.is_library_suffix suffix }
{
    match suffix {
        Suffix::Absent => true,
        Suffix::Str => true,
        _ => false,
    }
}

fn least_count(call: LibCall) -> usize
    ensures { result ≡ least_count call }
{
    match call {
        LibCall::Left => 2,
        LibCall::Right => 2,
        LibCall::Mid => 2,
        LibCall::InStr => 2,
        _ => 1,
    }
}

fn most_count(call: LibCall) -> usize
    ensures { result ≡ most_count call }
{
    match call {
        LibCall::Left => 2,
        LibCall::Right => 2,
        LibCall::Mid => 3,
        LibCall::InStr => 2,
        LibCall::UBound => 2,
        LibCall::LBound => 2,
        _ => 1,
    }
}

/// Whether a call takes so many arguments.
pub fn has_count(call: LibCall, count: usize) -> bool
    ensures { result ≡ has_count call count }
{
    least_count(call) <= count && count <= most_count(call)
}

fn first_wanted(call: LibCall) -> Wanted
    ensures { result ≡ first_wanted call }
{
    match call {
        LibCall::Len => Wanted::OnlyText,
        LibCall::Left => Wanted::Text,
        LibCall::Right => Wanted::Text,
        LibCall::Mid => Wanted::Text,
        LibCall::Trim => Wanted::Text,
        LibCall::LTrim => Wanted::Text,
        LibCall::RTrim => Wanted::Text,
        LibCall::UCase => Wanted::Text,
        LibCall::LCase => Wanted::Text,
        LibCall::Space => Wanted::Count,
        LibCall::Chr => Wanted::Count,
        LibCall::Asc => Wanted::Text,
        LibCall::InStr => Wanted::Text,
        LibCall::Abs => Wanted::Number,
        LibCall::CBool => Wanted::Converted(SimpleType::Boolean),
        LibCall::CByte => Wanted::Converted(SimpleType::Byte),
        LibCall::CInt => Wanted::Converted(SimpleType::Integer),
        LibCall::CLng => Wanted::Converted(SimpleType::Long),
        LibCall::CCur => Wanted::Converted(SimpleType::Currency),
        LibCall::CStr => Wanted::Converted(SimpleType::Str),
        LibCall::IsEmpty => Wanted::Variant,
        LibCall::UBound => Wanted::Array,
        LibCall::LBound => Wanted::Array,
        LibCall::MsgBox => Wanted::Text,
        LibCall::InputBox => Wanted::Text,
    }
}

fn later_wanted(call: LibCall) -> Wanted
    ensures { result ≡ later_wanted call }
{
    match call {
        LibCall::InStr => Wanted::Text,
        LibCall::UBound => Wanted::Dimension,
        LibCall::LBound => Wanted::Dimension,
        _ => Wanted::Count,
    }
}

/// What the argument of a call at a place, counted from 0, is to be.
pub fn argument_wanted(call: LibCall, place: usize) -> Wanted
    ensures { result ≡ library.argument_wanted call place }
{
    if place == 0 {
        first_wanted(call)
    } else {
        later_wanted(call)
    }
}

fn text_alone(operand: Operand) -> Conversion
    ensures { result ≡ text_alone operand }
{
    match operand {
        Operand::Text => Conversion::To(SimpleType::Str),
        Operand::Object => Conversion::ByDefault,
        Operand::Unknown => Conversion::Stands,
        _ => Conversion::Breaks(3),
    }
}

fn only_text(ty: &Type6) -> Conversion
    ensures { result ≡ only_text (type_of ty.now) }
{
    if SimpleType::Str.is(ty) {
        return Conversion::Stands;
    }
    text_alone(Operand::of_type(ty))
}

// A Byte counts as an Integer.
fn number_alone(kind: NumberKind) -> Conversion
    ensures { result ≡ number_alone kind }
{
    match kind {
        NumberKind::Byte => Conversion::To(SimpleType::Integer),
        NumberKind::Integer => Conversion::Stands,
        NumberKind::Long => Conversion::Stands,
        NumberKind::Currency => Conversion::Stands,
    }
}

fn only_number(operand: Operand) -> Conversion
    ensures { result ≡ only_number operand }
{
    match operand {
        Operand::Boolean => Conversion::To(SimpleType::Integer),
        Operand::Number(kind) => number_alone(kind),
        Operand::Object => Conversion::ByDefault,
        Operand::Unknown => Conversion::Stands,
        _ => Conversion::Breaks(3),
    }
}

fn only_variant(operand: Operand) -> Conversion
    ensures { result ≡ only_variant operand }
{
    match operand {
        Operand::Variant => Conversion::Stands,
        Operand::Object => Conversion::ByDefault,
        Operand::Unknown => Conversion::Stands,
        _ => Conversion::Breaks(3),
    }
}

fn only_array(ty: &Type6) -> Conversion
    ensures { result ≡ only_array (type_of ty.now) }
{
    match ty {
        Type6::Array(_, _) => Conversion::Stands,
        Type6::Unknown => Conversion::Stands,
        _ => Conversion::Breaks(3),
    }
}

fn dimension(operand: Operand) -> Conversion
    ensures { result ≡ dimension operand }
{
    match operand {
        Operand::Number(_) => Conversion::Stands,
        Operand::Variant => Conversion::Stands,
        Operand::Unknown => Conversion::Stands,
        _ => Conversion::Breaks(3),
    }
}

// The call is the conversion, so its argument stays as it is.
fn kept(conversion: Conversion) -> Conversion
    ensures { result ≡ kept conversion }
{
    match conversion {
        Conversion::To(_) => Conversion::Stands,
        Conversion::Stands => Conversion::Stands,
        Conversion::ByDefault => Conversion::ByDefault,
        Conversion::Breaks(rule) => Conversion::Breaks(rule),
    }
}

fn given(wanted: Wanted, ty: &Type6) -> Conversion
    ensures { result ≡ given wanted (type_of ty.now) }
{
    match wanted {
        Wanted::Text => converts(ty, &Type6::Str),
        Wanted::Count => converts(ty, &Type6::Long),
        Wanted::OnlyText => only_text(ty),
        Wanted::Number => only_number(Operand::of_type(ty)),
        Wanted::Variant => only_variant(Operand::of_type(ty)),
        Wanted::Array => only_array(ty),
        Wanted::Dimension => dimension(Operand::of_type(ty)),
        Wanted::Converted(to) => kept(converts(ty, &to.to_type())),
    }
}

/// What becomes of the argument of a call at a place, counted from 0. An argument that isn't what the call wants breaks rule
/// 3, one that doesn't convert rule 21. Whether a dimension is a constant that is 1 or 2 is for the caller to see.
pub fn argument(call: LibCall, place: usize, ty: &Type6) -> Conversion
    ensures { result ≡ library.argument call place (type_of ty.now) }
{
    given(argument_wanted(call, place), ty)
}

fn dimension_at(one: i64, two: i64, number: i64) -> Option<u8>
    ensures { result ≡ dimension_at one two number }
{
    if number == one {
        return Some(1);
    }
    if number == two {
        return Some(2);
    }
    None
}

/// The dimension that a constant is: 1 or 2, and none for any other value.
pub fn dimension_of(value: &Value6) -> Option<u8>
    ensures { result ≡ library.dimension_of value.now }
{
    match value {
        Value6::Byte(number) => dimension_at(1, 2, i64::from(*number)),
        Value6::Int(number) => dimension_at(1, 2, i64::from(*number)),
        Value6::Long(number) => dimension_at(1, 2, i64::from(*number)),
        Value6::Cur(number) => dimension_at(10_000, 20_000, *number),
        _ => None,
    }
}

fn signed_kind(kind: NumberKind) -> NumberKind
    ensures { result ≡ signed_kind kind }
{
    match kind {
        NumberKind::Byte => NumberKind::Integer,
        NumberKind::Integer => NumberKind::Integer,
        NumberKind::Long => NumberKind::Long,
        NumberKind::Currency => NumberKind::Currency,
    }
}

fn absolute(operand: Operand) -> Option<SimpleType>
    ensures { result ≡ absolute operand }
{
    match operand {
        Operand::Boolean => Some(SimpleType::Integer),
        Operand::Number(kind) => Some(SimpleType::of_kind(signed_kind(kind))),
        _ => None,
    }
}

/// The type of what a call gives, by the type of its first argument; none where it gives no value.
pub fn result_type(call: LibCall, first: &Type6) -> Option<SimpleType>
    ensures { result ≡ library.result_type call (type_of first.now) }
{
    match call {
        LibCall::Len => Some(SimpleType::Long),
        LibCall::Left => Some(SimpleType::Str),
        LibCall::Right => Some(SimpleType::Str),
        LibCall::Mid => Some(SimpleType::Str),
        LibCall::Trim => Some(SimpleType::Str),
        LibCall::LTrim => Some(SimpleType::Str),
        LibCall::RTrim => Some(SimpleType::Str),
        LibCall::UCase => Some(SimpleType::Str),
        LibCall::LCase => Some(SimpleType::Str),
        LibCall::Space => Some(SimpleType::Str),
        LibCall::Chr => Some(SimpleType::Str),
        LibCall::Asc => Some(SimpleType::Integer),
        LibCall::InStr => Some(SimpleType::Long),
        LibCall::Abs => absolute(Operand::of_type(first)),
        LibCall::CBool => Some(SimpleType::Boolean),
        LibCall::CByte => Some(SimpleType::Byte),
        LibCall::CInt => Some(SimpleType::Integer),
        LibCall::CLng => Some(SimpleType::Long),
        LibCall::CCur => Some(SimpleType::Currency),
        LibCall::CStr => Some(SimpleType::Str),
        LibCall::IsEmpty => Some(SimpleType::Boolean),
        LibCall::UBound => Some(SimpleType::Long),
        LibCall::LBound => Some(SimpleType::Long),
        LibCall::MsgBox => None,
        LibCall::InputBox => Some(SimpleType::Str),
    }
}
