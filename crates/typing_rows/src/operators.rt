//! The rows of operators, by the types of their operands.
ghost use Rattle.std.specs.Prelude.{◌≡◌};
ghost use Rattle.vb_tree.specs.BoundView.{type_of};
ghost use Rattle.vb6_meaning.specs.Kinds.{rank, wider, whole, is_byte};
ghost use Rattle.vb6_meaning.specs.Values.{are_currencies};
ghost use Rattle.typing_rows.specs.Typing as typing;
ghost use Rattle.typing_rows.specs.Typing.{on_numbers, factors, or_variant, over, operand_row, rule_of_row};

use crate::operands::Operand;
use crate::simple_types::SimpleType;
use vb_tree::{BinOp, Type6, UnOp};
use vb6_meaning::NumberKind;

/// What an operator makes of its operands.
#[derive(Clone, Copy)]
pub enum Row {
    /// Each operand is converted to the first type, and the result has the second.
    Both(SimpleType, SimpleType),
    /// The operands stay as they are, and the result has this type.
    Own(SimpleType),
    /// An operand that is an object gives way to its default member first.
    ByDefault,
    /// An operand has no type, so that nothing is said.
    OverUnknown,
    /// The operator has no form for such operands.
    NoForm,
    /// The operator isn't translated, whatever its operands are.
    Untranslated,
}

impl Row {
    /// The rule that an expression with this row breaks.
    pub fn rule(self) -> Option<u8>
        ensures { result ≡ rule_of_row self }
    {
        match self {
            Row::NoForm => Some(22),
            Row::Untranslated => Some(2),
            _ => None,
        }
    }
}

fn rank(kind: NumberKind) -> u8
    ensures { result ≡ rank kind }
{
    match kind {
        NumberKind::Byte => 0,
        NumberKind::Integer => 1,
        NumberKind::Long => 2,
        NumberKind::Currency => 3,
    }
}

/// The wider of two kinds of numbers.
pub(crate) fn wider(a: NumberKind, b: NumberKind) -> NumberKind
    ensures { result ≡ wider a b }
{
    if rank(a) < rank(b) { b } else { a }
}

// The kind as which operators on whole numbers take a number of this one.
fn whole(kind: NumberKind) -> NumberKind
    ensures { result ≡ whole kind }
{
    match kind {
        NumberKind::Byte => NumberKind::Byte,
        NumberKind::Integer => NumberKind::Integer,
        NumberKind::Long => NumberKind::Long,
        NumberKind::Currency => NumberKind::Long,
    }
}

fn is_byte(kind: NumberKind) -> bool
    ensures { result ≡ is_byte kind }
{
    matches!(kind, NumberKind::Byte)
}

fn are_currencies(a: NumberKind, b: NumberKind) -> bool
    ensures { result ≡ are_currencies a b }
{
    match a {
        NumberKind::Byte | NumberKind::Integer | NumberKind::Long => false,
        NumberKind::Currency => b == NumberKind::Currency,
    }
}

// The operands and the result are of one kind.
fn alike(kind: NumberKind) -> Row
    ensures { result ≡ typing.alike kind }
{
    let ty = SimpleType::of_kind(kind);
    Row::Both(ty, ty)
}

// The sum and the difference of two numbers.
fn sum(a: Operand, b: Operand) -> Row
    ensures { result ≡ on_numbers typing.sum a b }
{
    let Some(a) = a.kind() else {
        return Row::NoForm;
    };
    let Some(b) = b.kind() else {
        return Row::NoForm;
    };
    alike(wider(a, b))
}

// What takes whole numbers alone.
fn quotient(a: Operand, b: Operand) -> Row
    ensures { result ≡ on_numbers typing.quotient a b }
{
    let Some(a) = a.kind() else {
        return Row::NoForm;
    };
    let Some(b) = b.kind() else {
        return Row::NoForm;
    };
    alike(whole(wider(a, b)))
}

// The same where a Byte has none.
fn signed(a: Operand, b: Operand) -> Row
    ensures { result ≡ on_numbers typing.signed a b }
{
    let Some(a) = a.kind() else {
        return Row::NoForm;
    };
    let Some(b) = b.kind() else {
        return Row::NoForm;
    };
    let kind = whole(wider(a, b));
    if is_byte(kind) {
        return Row::NoForm;
    }
    alike(kind)
}

// A factor beside a Currency stays as it is.
fn factors(common: NumberKind) -> Row
    ensures { result ≡ factors common }
{
    match common {
        NumberKind::Byte => alike(NumberKind::Byte),
        NumberKind::Integer => alike(NumberKind::Integer),
        NumberKind::Long => alike(NumberKind::Long),
        NumberKind::Currency => Row::Own(SimpleType::Currency),
    }
}

fn product(a: Operand, b: Operand) -> Row
    ensures { result ≡ on_numbers typing.product a b }
{
    let Some(a) = a.kind() else {
        return Row::NoForm;
    };
    let Some(b) = b.kind() else {
        return Row::NoForm;
    };
    if are_currencies(a, b) {
        return Row::NoForm;
    }
    factors(wider(a, b))
}

fn order(a: Operand, b: Operand) -> Row
    ensures { result ≡ on_numbers typing.order a b }
{
    let Some(a) = a.kind() else {
        return Row::NoForm;
    };
    let Some(b) = b.kind() else {
        return Row::NoForm;
    };
    Row::Both(SimpleType::of_kind(wider(a, b)), SimpleType::Boolean)
}

fn added(a: Operand, b: Operand) -> Row
    ensures { result ≡ typing.added a b }
{
    if a.is_text() && b.is_text() {
        return Row::Both(SimpleType::Str, SimpleType::Str);
    }
    sum(a, b)
}

fn compared(a: Operand, b: Operand) -> Row
    ensures { result ≡ typing.compared a b }
{
    if a.is_text() && b.is_text() {
        return Row::Both(SimpleType::Str, SimpleType::Boolean);
    }
    if a.is_boolean() && b.is_boolean() {
        return Row::Both(SimpleType::Boolean, SimpleType::Boolean);
    }
    order(a, b)
}

// And, Or and Xor.
fn logical(a: Operand, b: Operand) -> Row
    ensures { result ≡ typing.logical typing.quotient a b }
{
    if a.is_boolean() && b.is_boolean() {
        return Row::Both(SimpleType::Boolean, SimpleType::Boolean);
    }
    quotient(a, b)
}

// Eqv and Imp.
fn signed_logical(a: Operand, b: Operand) -> Row
    ensures { result ≡ typing.logical typing.signed a b }
{
    if a.is_boolean() && b.is_boolean() {
        return Row::Both(SimpleType::Boolean, SimpleType::Boolean);
    }
    signed(a, b)
}

fn joined(a: Operand, b: Operand) -> Row
    ensures { result ≡ typing.joined a b }
{
    if a.is_value() && b.is_value() {
        return Row::Both(SimpleType::Str, SimpleType::Str);
    }
    Row::NoForm
}

// The row beside a Variant, to which the other operand is converted, and else that of declared types.
fn or_variant(gives: SimpleType, declared: Row, a: Operand, b: Operand) -> Row
    ensures { result ≡ or_variant gives declared a b }
{
    if !(a.is_variant() || b.is_variant()) {
        return declared;
    }
    if a.is_value() && b.is_value() {
        return Row::Both(SimpleType::Variant, gives);
    }
    Row::NoForm
}

// The row where both operands have a type and none is an object.
fn over(row: Row, a: Operand, b: Operand) -> Row
    ensures { result ≡ over row a b }
{
    if a.is_unknown() || b.is_unknown() {
        return Row::OverUnknown;
    }
    if a.is_object() || b.is_object() {
        return Row::ByDefault;
    }
    row
}

// The row of an operator that gives a Variant beside one.
fn valued(declared: Row, a: Operand, b: Operand) -> Row
    ensures { result ≡ over (or_variant SimpleType.Variant declared a b) a b }
{
    over(or_variant(SimpleType::Variant, declared, a, b), a, b)
}

fn comparison(a: Operand, b: Operand) -> Row
    ensures { result ≡ typing.comparison a b }
{
    over(or_variant(SimpleType::Boolean, compared(a, b), a, b), a, b)
}

fn same_object(a: Operand, b: Operand) -> Row
    ensures { result ≡ typing.same_object a b }
{
    if a.is_unknown() || b.is_unknown() {
        return Row::OverUnknown;
    }
    if a.is_reference() && b.is_reference() {
        return Row::Own(SimpleType::Boolean);
    }
    Row::NoForm
}

fn operand_row(op: BinOp, a: Operand, b: Operand) -> Row
    ensures { result ≡ operand_row op a b }
{
    match op {
        BinOp::Pow => Row::Untranslated,
        BinOp::Mul => valued(product(a, b), a, b),
        BinOp::Div => Row::Untranslated,
        BinOp::IntDiv => valued(quotient(a, b), a, b),
        BinOp::Mod => valued(quotient(a, b), a, b),
        BinOp::Add => valued(added(a, b), a, b),
        BinOp::Sub => valued(sum(a, b), a, b),
        BinOp::Concat => over(joined(a, b), a, b),
        BinOp::Equal => comparison(a, b),
        BinOp::NotEqual => comparison(a, b),
        BinOp::Less => comparison(a, b),
        BinOp::Greater => comparison(a, b),
        BinOp::LessEqual => comparison(a, b),
        BinOp::GreaterEqual => comparison(a, b),
        BinOp::Is => same_object(a, b),
        BinOp::Like => Row::Untranslated,
        BinOp::And => valued(logical(a, b), a, b),
        BinOp::Or => valued(logical(a, b), a, b),
        BinOp::Xor => valued(logical(a, b), a, b),
        BinOp::Eqv => valued(signed_logical(a, b), a, b),
        BinOp::Imp => valued(signed_logical(a, b), a, b),
    }
}

/// The row of an operator between operands of two types.
pub fn binary_row(op: BinOp, left: &Type6, right: &Type6) -> Row
    ensures { result ≡ typing.binary_row op (type_of left.now) (type_of right.now) }
{
    operand_row(op, Operand::of_type(left), Operand::of_type(right))
}

fn negated(kind: NumberKind) -> Row
    ensures { result ≡ typing.negated kind }
{
    if is_byte(kind) {
        return Row::NoForm;
    }
    alike(kind)
}

fn turned(kind: NumberKind) -> Row
    ensures { result ≡ typing.turned kind }
{
    if is_byte(kind) {
        return Row::NoForm;
    }
    alike(whole(kind))
}

fn minus(a: Operand) -> Row
    ensures { result ≡ typing.minus a }
{
    match a {
        Operand::Boolean => alike(NumberKind::Integer),
        Operand::Number(kind) => negated(kind),
        Operand::Text => Row::NoForm,
        Operand::Variant => Row::Both(SimpleType::Variant, SimpleType::Variant),
        Operand::Object => Row::ByDefault,
        Operand::Nothing => Row::NoForm,
        Operand::Other => Row::NoForm,
        Operand::Unknown => Row::OverUnknown,
    }
}

fn complement(a: Operand) -> Row
    ensures { result ≡ typing.complement a }
{
    match a {
        Operand::Boolean => Row::Both(SimpleType::Boolean, SimpleType::Boolean),
        Operand::Number(kind) => turned(kind),
        Operand::Text => Row::NoForm,
        Operand::Variant => Row::Both(SimpleType::Variant, SimpleType::Variant),
        Operand::Object => Row::ByDefault,
        Operand::Nothing => Row::NoForm,
        Operand::Other => Row::NoForm,
        Operand::Unknown => Row::OverUnknown,
    }
}

/// The row of an operator before an operand of a type.
pub fn unary_row(op: UnOp, operand: &Type6) -> Row
    ensures { result ≡ typing.unary_row op (type_of operand.now) }
{
    match op {
        UnOp::Neg => minus(Operand::of_type(operand)),
        UnOp::Not => complement(Operand::of_type(operand)),
    }
}
