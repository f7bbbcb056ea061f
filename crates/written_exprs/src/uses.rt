//! What is written where a variable, a procedure or a class is named. The use of an As New variable makes its object where there is none.
ghost use Rattle.std.specs.Prelude.{◌≡◌, IfOk, Some, map, slice_get};
ghost use Rattle.vb_tree.specs.BoundView.{type_of};
ghost use Rattle.bound_tree.specs.Tree.{variable};
ghost use Rattle.bound_tree.specs.View.{declarations_of, variable_of};
ghost use Rattle.bound_facts.specs.Node as node;
ghost use Rattle.net_tree.specs.View.{exp_of};
ghost use Rattle.net_tree.specs.Tree as net;
ghost use Rattle.net_tree.specs.Types as types;
ghost use Rattle.written_trees.specs.Exprs as exprs;
ghost use Rattle.written_trees.specs.Names as names;
ghost use Rattle.written_rows.specs.View.{scope_of};

use crate::parts::{new_object, support_call_of_one};
use bound_tree::{Declared, VarDecl};
use net_tree::NetExpr;
use std::alloc::Global;
use up_base::{Mem, Sequence};
use vb_tree::{Type6, VarId};
use written_rows::{Scope, auto_name, class_path, procedure_path, variable_path};

fn class_in(ty: &Type6) -> Option<u32>
    ensures { result ≡ node.class_in (type_of ty.now) }
{
    match ty {
        Type6::Class(c) => Some(*c),
        _ => None,
    }
}

fn auto_class_at(vars: &Sequence<VarDecl>, n: usize) -> Option<u32>
    ensures { result ≡ node.auto_class (slice_get (map variable_of vars.now) n) }
{
    match vars.get(n) {
        Some(v) => { if v.auto { class_in(&v.ty) } else { None } }
        None => None,
    }
}

// The class of which the use of a variable makes an object.
fn auto_class(vars: &Sequence<VarDecl>, at: Option<usize>) -> Option<u32>
    ensures { result ≡ node.auto_class (node.variable_number (map variable_of vars.now) at) }
{
    match at {
        None => None,
        Some(n) => auto_class_at(vars, n),
    }
}

fn made(alloc: Global, declared: &Declared, class: u32, a: NetExpr) -> Result<NetExpr, Mem>
    ensures { IfOk result (λ x. exp_of x ≡ exprs.made_if (declarations_of declared.now) (Some class) (exp_of a)) }
{
    let name = auto_name(alloc, declared, class)?;
    Ok(support_call_of_one(alloc, name.as_bytes(), a)?)
}

fn made_if(
    alloc: Global,
    declared: &Declared,
    class: Option<u32>,
    a: NetExpr,
) -> Result<NetExpr, Mem>
    ensures { IfOk result (λ x. exp_of x ≡ exprs.made_if (declarations_of declared.now) class (exp_of a)) }
{
    match class {
        None => Ok(a),
        Some(class) => Ok(made(alloc, declared, class, a)?),
    }
}

/// The use of a variable or a field with this number, which is written `a`.
pub(crate) fn used(
    alloc: Global,
    declared: &Declared,
    at: Option<usize>,
    a: NetExpr,
) -> Result<NetExpr, Mem>
    ensures { IfOk result (λ x. exp_of x ≡ exprs.made_if (declarations_of declared.now) (node.auto_class (node.variable_number (map variable_of declared.now.vars) at)) (exp_of a)) }
{
    Ok(made_if(alloc, declared, auto_class(&declared.vars, at), a)?)
}

/// A variable as a target of Set.
pub(crate) fn variable_target(
    alloc: Global,
    scope: &Scope,
    v: VarId,
    qualified: bool,
) -> Result<NetExpr, Mem>
    ensures { IfOk result (λ x. exp_of x ≡ net.path (names.variable_path (scope_of scope.now) qualified v.0)) }
{
    Ok(NetExpr::Path(variable_path(alloc, scope, qualified, v.0)?))
}

/// The use of a variable.
pub(crate) fn variable_exp(
    alloc: Global,
    scope: &Scope,
    v: VarId,
    qualified: bool,
) -> Result<NetExpr, Mem>
    ensures { IfOk result (λ x. exp_of x ≡ exprs.used (scope_of scope.now) (variable v qualified) (net.path (names.variable_path (scope_of scope.now) qualified v.0))) }
{
    let a = variable_target(alloc, scope, v, qualified)?;
    Ok(used(alloc, scope.declared, Some(v.0 as usize), a)?)
}

/// A procedure that is called without an object.
pub(crate) fn procedure_exp(
    alloc: Global,
    scope: &Scope,
    qualified: bool,
    procedure: u32,
) -> Result<NetExpr, Mem>
    ensures { IfOk result (λ x. exp_of x ≡ net.path (names.procedure_path (scope_of scope.now) qualified procedure)) }
{
    Ok(NetExpr::Path(procedure_path(alloc, scope, qualified, procedure)?))
}

/// A new object of a class.
pub(crate) fn new_class(alloc: Global, declared: &Declared, class: u32) -> Result<NetExpr, Mem>
    ensures { IfOk result (λ x. exp_of x ≡ net.new_object (types.named (names.class_path (declarations_of declared.now) class)) net.no_exps) }
{
    let class = class_path(alloc, declared, class)?;
    Ok(new_object(alloc, class))
}
