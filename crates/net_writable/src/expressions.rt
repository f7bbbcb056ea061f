//! Which types and expressions can be written.
ghost use Rattle.std.specs.Prelude.{◌≡◌, ◌&&◌};
ghost use Rattle.net_tree.specs.Expressions.{are_writable_bounds, are_writable_exps, is_named, is_no_bound, is_path_exp, is_spelt_type, is_writable_exp, is_writable_type, is_writable_whole};
ghost use Rattle.net_tree.specs.Tree.{call_of};
ghost use Rattle.net_tree.specs.View.{exp_of, exps_of, type_name_of};

use crate::depth::{is_shallow, is_shallow_call};
use crate::literals::is_writable_literal;
use crate::spelling::{is_identifier, is_path};
use net_tree::{MOST_NESTED, NetExpr, NetLit, NetType};

// Whether a type can be spelt. Calls are nested no deeper than its arrays.
fn is_spelt_type(ty: &NetType) -> bool
    ensures { result ≡ is_spelt_type (type_name_of ty.now) }
{
    match ty {
        NetType::Boolean => true,
        NetType::Byte => true,
        NetType::Short => true,
        NetType::Integer => true,
        NetType::Long => true,
        NetType::Decimal => true,
        NetType::Str => true,
        NetType::Object => true,
        NetType::SystemArray => true,
        NetType::Named(names) => is_path(names.as_slice()),
        NetType::ArrayOf(element, rank) => is_spelt_type(element) && *rank != 0,
    }
}

/// Whether a type can be written.
pub(crate) fn is_writable_type(ty: &NetType) -> bool
    ensures { result ≡ is_writable_type (type_name_of ty.now) }
{
    ty.is_within(MOST_NESTED) && is_spelt_type(ty)
}

// Whether a type is a class or a structure.
fn is_named(ty: &NetType) -> bool
    ensures { result ≡ is_named (type_name_of ty.now) }
{
    matches!(ty, NetType::Named(_))
}

// Whether a type is one of which an object can be made.
fn is_class_type(ty: &NetType) -> bool
    ensures { result ≡ (is_named (type_name_of ty.now) && is_writable_type (type_name_of ty.now)) }
{
    is_named(ty) && is_writable_type(ty)
}

fn is_path_expression(e: &NetExpr) -> bool
    ensures { result ≡ is_path_exp (exp_of e.now) }
{
    matches!(e, NetExpr::Path(_))
}

// Whether an expression is the bound -1, which makes an array of no items.
fn is_no_bound(e: &NetExpr) -> bool
    ensures { result ≡ is_no_bound (exp_of e.now) }
{
    match e {
        NetExpr::Lit(NetLit::Integer(value, hexadecimal)) => *value == -1 && !*hexadecimal,
        _ => false,
    }
}

/// Whether an expression can be written.
#[cycle(is_writable_expression)]
pub(crate) fn is_writable_expression(e: &NetExpr) -> bool
    ensures { result ≡ is_writable_exp (exp_of e.now) }
{
    match e {
        NetExpr::Lit(literal) => is_writable_literal(literal),
        NetExpr::Nothing => true,
        NetExpr::Me => true,
        NetExpr::Path(names) => is_path(names.as_slice()),
        NetExpr::WithDot(name) => is_identifier(name.as_bytes()),
        NetExpr::Dot(object, name) => {
            !is_path_expression(object)
                && is_writable_expression(object)
                && is_identifier(name.as_bytes())
        }
        NetExpr::Call(callee, arguments) => {
            is_writable_expression(callee) && are_writable_expressions(arguments)
        }
        NetExpr::Cast(_, operand) => is_writable_expression(operand),
        NetExpr::CType(operand, ty) => is_writable_expression(operand) && is_writable_type(ty),
        NetExpr::Unary(_, operand) => is_writable_expression(operand),
        NetExpr::Binary(_, a, b) => is_writable_expression(a) && is_writable_expression(b),
        NetExpr::Paren(inner) => is_writable_expression(inner),
        NetExpr::NewObject(ty, arguments) => {
            is_class_type(ty) && are_writable_expressions(arguments)
        }
        NetExpr::NewArray(ty, bounds) => is_writable_type(ty) && are_writable_bounds(bounds),
        NetExpr::TypeOf(operand, ty) => is_writable_expression(operand) && is_writable_type(ty),
    }
}

// Whether each of these arguments can be written.
#[cycle(is_writable_expression)]
fn are_writable_expressions(list: &[NetExpr]) -> bool
    ensures { result ≡ are_writable_exps (exps_of list.now) }
{
    for e in list {
        if !is_writable_expression(e) {
            return false;
        }
    }
    true
}

// Whether each of these can be written as a bound of an array that is made.
#[cycle(is_writable_expression)]
fn are_writable_bounds(list: &[NetExpr]) -> bool
    ensures { result ≡ are_writable_bounds (exps_of list.now) }
{
    for e in list {
        if !is_no_bound(e) && !is_writable_expression(e) {
            return false;
        }
    }
    true
}

/// Whether an expression that is no part of another one can be written.
pub(crate) fn is_writable_whole(e: &NetExpr) -> bool
    ensures { result ≡ is_writable_whole (exp_of e.now) }
{
    is_shallow(e) && is_writable_expression(e)
}

/// Whether an expression with an argument list, which is no part of another one, can be written.
pub(crate) fn is_writable_call(callee: &NetExpr, arguments: &[NetExpr]) -> bool
    ensures { result ≡ is_writable_whole (call_of (exp_of callee.now) (exps_of arguments.now)) }
{
    is_shallow_call(callee, arguments)
        && is_writable_expression(callee)
        && are_writable_expressions(arguments)
}
