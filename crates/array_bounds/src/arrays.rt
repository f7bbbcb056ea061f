//! Which array an expression is, and what types are.
ghost use Rattle.std.specs.Prelude.{◌≡◌, Option, map, option_copied, slice_get};
ghost use Rattle.vb_tree.specs.BoundView.{type_of};
ghost use Rattle.bound_tree.specs.View.{argument_of, declarations_of, expr_of, procedure_of};
ghost use Rattle.bound_facts.specs.Bounds.{array_at};
ghost use Rattle.bound_facts.specs.Effects.{params_at, params_of};
ghost use Rattle.array_bounds.specs.Elements.{given_expr};
ghost use Rattle.array_bounds.specs.Resizing.{is_loose};
ghost use Rattle.array_bounds.specs.Types.{is_fixed_array};

use bound_facts::{declared_at, is_array_type};
use bound_tree::{BoundArg, BoundExpr, BoundNode, Declared, ProcDecl};
use vb_tree::{Type6, VarId};

/// The declaration of the array that an expression is: a variable, a parameter or a field.
pub(crate) fn array_at(declared: &Declared, e: &BoundExpr) -> Option<usize>
    ensures { result ≡ array_at (declarations_of declared.now) (expr_of e.now) }
{
    if is_array_type(&e.ty) {
        declared_at(declared, e)
    } else {
        None
    }
}

/// Whether a type is one of arrays that are declared with their bounds.
pub(crate) fn is_fixed_array(ty: &Type6) -> bool
    ensures { result ≡ is_fixed_array (type_of ty.now) }
{
    match ty {
        Type6::Array(_, rank) => *rank > 0,
        _ => false,
    }
}

/// Whether an expression is of type Unknown.
pub(crate) fn is_loose(e: &BoundExpr) -> bool
    ensures { result ≡ is_loose (expr_of e.now) }
{
    match &e.node {
        BoundNode::Loose(_, _) => true,
        _ => false,
    }
}

/// What an argument gives.
pub(crate) fn given_expr(arg: &BoundArg) -> &BoundExpr
    ensures { expr_of result.now ≡ given_expr (argument_of arg.now) }
{
    match arg {
        BoundArg::ByValue(e) => e,
        BoundArg::ByReference(e) => e,
    }
}

fn params_at(procs: &[ProcDecl], p: u32) -> &[VarId]
    ensures { result.now ≡ params_at (slice_get (map procedure_of procs.now) p) }
{
    match procs.get(p as usize) {
        Some(procedure) => procedure.params.as_slice(),
        None => &[],
    }
}

/// The parameters of a procedure that is called.
pub(crate) fn params_of(procs: &[ProcDecl], p: Option<u32>) -> &[VarId]
    ensures { result.now ≡ params_of (map procedure_of procs.now) p }
{
    match p {
        Some(p) => params_at(procs, p),
        None => &[],
    }
}

/// The parameter at a place.
pub(crate) fn param(params: &[VarId], i: usize) -> Option<VarId>
    ensures { result ≡ slice_get params.now i }
{
    match params.get(i) {
        Some(v) => Some(*v),
        None => None,
    }
}
