//! Types and expressions.
ghost use Rattle.std.specs.Prelude.{◌≡◌, ◌++◌, codes, OnOk};
ghost use Rattle.net_tree.specs.Spelling.{name_text};
ghost use Rattle.net_tree.specs.View.{type_name_of, exp_of, exps_of};
ghost use Rattle.net_tree.specs.Expressions.{rank_text, type_text, cast_text, unary_text, sign_text, operator_text, exp_text, arguments_text};

use crate::layout::write_separator;
use crate::literals::write_literal;
use crate::names::{write_name, write_path};
use net_tree::{CastWord, NetBin, NetExpr, NetType, NetUn};
use up_base::{Bytes, Mem, Name};

/// Writes the parentheses of an array, with a comma between its dimensions.
pub fn write_rank(out: &mut Bytes, rank: u8) -> Result<(), Mem>
    ensures { OnOk result (out.new ≡ out.old ++ rank_text rank) }
{
    out.push(b'(')?;
    for _comma in 0..rank.saturating_sub(1) {
        out.push(b',')?;
    }
    out.push(b')')
}

/// Writes a type.
pub fn write_type(out: &mut Bytes, ty: &NetType) -> Result<(), Mem>
    ensures { OnOk result (out.new ≡ out.old ++ type_text (type_name_of ty.now)) }
{
    match ty {
        NetType::Boolean => out.extend_from_slice(b"Boolean"),
        NetType::Byte => out.extend_from_slice(b"Byte"),
        NetType::Short => out.extend_from_slice(b"Short"),
        NetType::Integer => out.extend_from_slice(b"Integer"),
        NetType::Long => out.extend_from_slice(b"Long"),
        NetType::Decimal => out.extend_from_slice(b"Decimal"),
        NetType::Str => out.extend_from_slice(b"String"),
        NetType::Object => out.extend_from_slice(b"Object"),
        NetType::SystemArray => out.extend_from_slice(b"System.Array"),
        NetType::Named(names) => write_path(out, names.as_slice()),
        NetType::ArrayOf(element, rank) => {
            write_type(out, element)?;
            write_rank(out, *rank)
        }
    }
}

// Writes the word of a conversion.
fn write_cast(out: &mut Bytes, word: CastWord) -> Result<(), Mem>
    ensures { OnOk result (out.new ≡ out.old ++ cast_text word) }
{
    match word {
        CastWord::CBool => out.extend_from_slice(b"CBool"),
        CastWord::CByte => out.extend_from_slice(b"CByte"),
        CastWord::CShort => out.extend_from_slice(b"CShort"),
        CastWord::CInt => out.extend_from_slice(b"CInt"),
        CastWord::CLng => out.extend_from_slice(b"CLng"),
        CastWord::CDec => out.extend_from_slice(b"CDec"),
        CastWord::CStr => out.extend_from_slice(b"CStr"),
        CastWord::CObj => out.extend_from_slice(b"CObj"),
    }
}

// Writes an operator that stands before its operand.
fn write_unary(out: &mut Bytes, operator: NetUn) -> Result<(), Mem>
    ensures { OnOk result (out.new ≡ out.old ++ unary_text operator) }
{
    match operator {
        NetUn::Neg => out.push(b'-'),
        NetUn::Not => out.extend_from_slice(b"Not "),
    }
}

/// Writes an operator between two operands, without the blanks around it.
pub fn write_sign(out: &mut Bytes, operator: NetBin) -> Result<(), Mem>
    ensures { OnOk result (out.new ≡ out.old ++ sign_text operator) }
{
    match operator {
        NetBin::Add => out.push(b'+'),
        NetBin::Sub => out.push(b'-'),
        NetBin::Mul => out.push(b'*'),
        NetBin::IntDiv => out.push(b'\\'),
        NetBin::Mod => out.extend_from_slice(b"Mod"),
        NetBin::Concat => out.push(b'&'),
        NetBin::Equal => out.push(b'='),
        NetBin::NotEqual => out.extend_from_slice(b"<>"),
        NetBin::Less => out.push(b'<'),
        NetBin::Greater => out.push(b'>'),
        NetBin::LessEqual => out.extend_from_slice(b"<="),
        NetBin::GreaterEqual => out.extend_from_slice(b">="),
        NetBin::And => out.extend_from_slice(b"And"),
        NetBin::Or => out.extend_from_slice(b"Or"),
        NetBin::Xor => out.extend_from_slice(b"Xor"),
        NetBin::Is => out.extend_from_slice(b"Is"),
    }
}

// Writes an operator with the blanks around it.
fn write_operator(out: &mut Bytes, operator: NetBin) -> Result<(), Mem>
    ensures { OnOk result (out.new ≡ out.old ++ operator_text operator) }
{
    out.push(b' ')?;
    write_sign(out, operator)?;
    out.push(b' ')
}

// Writes a full stop and the name of a member.
fn write_member_name(out: &mut Bytes, name: &Name) -> Result<(), Mem>
    ensures { OnOk result (out.new ≡ out.old ++ codes "." ++ name_text name.now) }
{
    out.push(b'.')?;
    write_name(out, name)
}

// Writes what makes something of a type, before its arguments.
fn write_new(out: &mut Bytes, ty: &NetType) -> Result<(), Mem>
    ensures { OnOk result (out.new ≡ out.old ++ (codes "New " ++ type_text (type_name_of ty.now))) }
{
    out.extend_from_slice(b"New ")?;
    write_type(out, ty)
}

/// Writes an expression.
#[cycle(write_expression)]
pub fn write_expression(out: &mut Bytes, expression: &NetExpr) -> Result<(), Mem>
    ensures { OnOk result (out.new ≡ out.old ++ exp_text (exp_of expression.now)) }
{
    match expression {
        NetExpr::Lit(literal) => write_literal(out, literal),
        NetExpr::Nothing => out.extend_from_slice(b"Nothing"),
        NetExpr::Me => out.extend_from_slice(b"Me"),
        NetExpr::Path(names) => write_path(out, names.as_slice()),
        NetExpr::WithDot(name) => write_member_name(out, name),
        NetExpr::Dot(object, name) => {
            write_expression(out, object)?;
            write_member_name(out, name)
        }
        NetExpr::Call(callee, arguments) => {
            write_expression(out, callee)?;
            write_arguments(out, arguments)
        }
        NetExpr::Cast(word, operand) => {
            write_cast(out, *word)?;
            write_parenthesised(out, operand)
        }
        NetExpr::CType(operand, ty) => write_ctype(out, operand, ty),
        NetExpr::Unary(operator, operand) => write_unary_operation(out, *operator, operand),
        NetExpr::Binary(operator, a, b) => {
            out.push(b'(')?;
            write_expression(out, a)?;
            write_operator(out, *operator)?;
            write_expression(out, b)?;
            out.push(b')')
        }
        NetExpr::Paren(inner) => write_parenthesised(out, inner),
        NetExpr::NewObject(ty, arguments) => {
            write_new(out, ty)?;
            write_arguments(out, arguments)
        }
        NetExpr::NewArray(ty, bounds) => {
            write_new(out, ty)?;
            write_arguments(out, bounds)?;
            out.extend_from_slice(b" {}")
        }
        NetExpr::TypeOf(operand, ty) => write_type_test(out, operand, ty),
    }
}

// Writes an expression in parentheses.
#[cycle(write_expression)]
fn write_parenthesised(out: &mut Bytes, inner: &NetExpr) -> Result<(), Mem>
    ensures { OnOk result (out.new ≡ out.old ++ codes "(" ++ exp_text (exp_of inner.now) ++ codes ")") }
{
    out.push(b'(')?;
    write_expression(out, inner)?;
    out.push(b')')
}

#[cycle(write_expression)]
fn write_ctype(out: &mut Bytes, operand: &NetExpr, ty: &NetType) -> Result<(), Mem>
    ensures { OnOk result (out.new ≡ out.old ++ codes "CType(" ++ exp_text (exp_of operand.now) ++ codes ", "
        ++ type_text (type_name_of ty.now) ++ codes ")") }
{
    out.extend_from_slice(b"CType(")?;
    write_expression(out, operand)?;
    out.extend_from_slice(b", ")?;
    write_type(out, ty)?;
    out.push(b')')
}

#[cycle(write_expression)]
fn write_unary_operation(out: &mut Bytes, operator: NetUn, operand: &NetExpr) -> Result<(), Mem>
    ensures { OnOk result (out.new ≡ out.old ++ codes "(" ++ unary_text operator ++ exp_text (exp_of operand.now)
        ++ codes ")") }
{
    out.push(b'(')?;
    write_unary(out, operator)?;
    write_expression(out, operand)?;
    out.push(b')')
}

#[cycle(write_expression)]
fn write_type_test(out: &mut Bytes, operand: &NetExpr, ty: &NetType) -> Result<(), Mem>
    ensures { OnOk result (out.new ≡ out.old ++ codes "(TypeOf " ++ exp_text (exp_of operand.now) ++ codes " Is "
        ++ type_text (type_name_of ty.now) ++ codes ")") }
{
    out.extend_from_slice(b"(TypeOf ")?;
    write_expression(out, operand)?;
    out.extend_from_slice(b" Is ")?;
    write_type(out, ty)?;
    out.push(b')')
}

/// Writes arguments between parentheses.
#[cycle(write_expression)]
pub fn write_arguments(out: &mut Bytes, arguments: &[NetExpr]) -> Result<(), Mem>
    ensures { OnOk result (out.new ≡ out.old ++ arguments_text (exps_of arguments.now)) }
{
    out.push(b'(')?;
    for (i, argument) in arguments.iter().enumerate() {
        write_separator(out, i, b", ")?;
        write_expression(out, argument)?;
    }
    out.push(b')')
}
