//! What one node of an expression is.
ghost use Rattle.std.specs.Prelude.{◌≡◌, Option, map, option_map, slice_get};
ghost use Rattle.vb_tree.specs.BoundView.{type_of};
ghost use Rattle.bound_tree.specs.View.{declarations_of, expr_of, passed_of, variable_of};
ghost use Rattle.bound_facts.specs.Node.{args_at, auto_class, called, class_in, created, declared_at, is_array_type, is_object_type, is_variant, variable_number};

use crate::members::field_of;
use bound_tree::{BoundArg, BoundExpr, BoundNode, Declared, VarDecl};
use up_base::Sequence;
use vb_tree::Type6;

/// Whether a type is one of objects.
pub fn is_object_type(ty: &Type6) -> bool
    ensures { result ≡ is_object_type (type_of ty.now) }
{
    match ty {
        Type6::Object => true,
        Type6::Class(_) => true,
        _ => false,
    }
}

/// Whether a type is one of arrays.
pub fn is_array_type(ty: &Type6) -> bool
    ensures { result ≡ is_array_type (type_of ty.now) }
{
    match ty {
        Type6::Array(_, _) => true,
        _ => false,
    }
}

/// Whether a type is Variant.
pub fn is_variant(ty: &Type6) -> bool
    ensures { result ≡ is_variant (type_of ty.now) }
{
    match ty {
        Type6::Variant => true,
        _ => false,
    }
}

fn class_in(ty: &Type6) -> Option<u32>
    ensures { result ≡ class_in (type_of ty.now) }
{
    match ty {
        Type6::Class(c) => Some(*c),
        _ => None,
    }
}

/// The procedure that a node calls.
pub fn called(e: &BoundExpr) -> Option<u32>
    ensures { result ≡ called (expr_of e.now) }
{
    match &e.node {
        BoundNode::Call(p, _, _, _) => Some(p.0),
        _ => None,
    }
}

/// Its arguments.
pub fn args_at(e: &BoundExpr) -> &[BoundArg]
    ensures { passed_of result.now ≡ args_at (expr_of e.now) }
{
    match &e.node {
        BoundNode::Call(_, _, _, args) => args,
        _ => &[],
    }
}

/// The variable or the field that a node is, by the declaration.
pub fn declared_at(declared: &Declared, e: &BoundExpr) -> Option<usize>
    ensures { result ≡ declared_at (declarations_of declared.now) (expr_of e.now) }
{
    match &e.node {
        BoundNode::Var(v, _) => Some(v.0 as usize),
        BoundNode::Field(of, k) => field_of(declared, &of.ty, *k),
        _ => None,
    }
}

// The class of which the use of a variable makes an object.
fn auto_class(vars: &Sequence<VarDecl>, at: Option<usize>) -> Option<u32>
    ensures { result ≡ auto_class (variable_number (map variable_of vars.now) at) }
{
    match at {
        None => None,
        Some(n) => auto_class_at(vars, n),
    }
}

fn auto_class_at(vars: &Sequence<VarDecl>, n: usize) -> Option<u32>
    ensures { result ≡ auto_class (slice_get (map variable_of vars.now) n) }
{
    match vars.get(n) {
        Some(v) => { if v.auto { class_in(&v.ty) } else { None } }
        None => None,
    }
}

/// The class of which a node makes an object, by New or as the use of an As New variable.
pub fn created(declared: &Declared, e: &BoundExpr) -> Option<u32>
    ensures { result ≡ created (declarations_of declared.now) (expr_of e.now) }
{
    match &e.node {
        BoundNode::New(c) => Some(c.0),
        _ => auto_class(&declared.vars, declared_at(declared, e)),
    }
}
