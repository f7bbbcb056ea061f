//! What is written for declarations of variables.
ghost use Rattle.std.specs.Prelude.{◌≡◌, map, option_map, IfOk};
ghost use Rattle.vb_tree.specs.BoundView.{type_of};
ghost use Rattle.bound_tree.specs.View.{variable_of};
ghost use Rattle.net_tree.specs.Tree as net;
ghost use Rattle.written_trees.specs.Types as types;
ghost use Rattle.net_tree.specs.View as net_view;
ghost use Rattle.net_tree.specs.View.{dim_of, exp_of, exps_of, type_name_of};
ghost use Rattle.written_trees.specs.Prologues as rows;
ghost use Rattle.written_rows.specs.View.{scope_of};
ghost use Rattle.written_members.specs.Extents.{extent_between, fixed_value, user_value};
ghost use Rattle.written_members.specs.Shown.{variable_shown};

use crate::statements::VarRef;
use bound_tree::VarDecl;
use net_tree::{NetDim, NetExpr, NetType, NetVariable};
use std::alloc::Global;
use up_base::{Mem, Name};
use vb_tree::{Owner, Type6};
use written_lines::{empty_extents, extent};
use written_rows::{Scope, new_name, number, one, support_call, type_with, variable_type};

// The extent from a lower to an upper bound.
fn extent_between(bounds: (i32, i32)) -> Result<NetExpr, Mem>
    ensures { IfOk result (λ e. exp_of e ≡ extent_between bounds) }
{
    match bounds.1.checked_sub(bounds.0) {
        Some(z) => Ok(extent(z)),
        None => Err(Mem),
    }
}

fn listed_extents(alloc: Global, bounds: &[(i32, i32)]) -> Result<Vec<NetExpr>, Mem>
    ensures { IfOk result (λ list. map exp_of list.items ≡ map extent_between bounds.now) }
{
    let mut list = Vec::new(alloc);
    for b in bounds {
        list.push(extent_between(*b)?)?;
    }
    Ok(list)
}

// The extents of a fixed array.
#[tactic(auto, using(crate::proofs::ExtentLists::fixed_listed))]
fn fixed_extents(alloc: Global, bounds: &[(i32, i32)]) -> Result<Vec<NetExpr>, Mem>
    ensures { IfOk result (λ list. exps_of list.items ≡ rows.fixed_extents bounds.now) }
{
    Ok(listed_extents(alloc, bounds)?)
}

// A dynamic array has no element at first.
fn extents(alloc: Global, rank: u8, bounds: &[(i32, i32)]) -> Result<Vec<NetExpr>, Mem>
    ensures { IfOk result (λ list. exps_of list.items ≡ rows.extents rank bounds.now) }
{
    match bounds {
        [] => Ok(empty_extents(alloc, rank)?),
        [_, ..] => Ok(fixed_extents(alloc, bounds)?),
    }
}

#[tactic(auto, using(net_tree::proofs::Views::exps_hidden))]
fn new_array(element: NetType, extents: Vec<NetExpr>) -> NetExpr
    ensures { exp_of result ≡ net.new_array (type_name_of element) (exps_of extents.items) }
{
    NetExpr::NewArray(element, extents)
}

fn array_value(
    alloc: Global,
    scope: &Scope,
    number: u32,
    decl: &VarDecl,
    element: &Type6,
) -> Result<NetExpr, Mem>
    ensures { IfOk result (λ e. exp_of e ≡ net.new_array (types.type_with (scope_of scope.now).declarations (scope_of scope.now).file decl.now.qualified 1 (type_of element.now)) (rows.extents ((scope_of scope.now).facts.rank number) decl.now.bounds)) }
{
    let extents = extents(
        alloc,
        scope.facts.rank(number as usize),
        decl.bounds.as_slice(),
    )?;
    let element = type_with(
        alloc,
        scope.declared,
        scope.file,
        decl.qualified,
        1,
        element,
    )?;
    Ok(new_array(element, extents))
}

fn fixed_value(alloc: Global, units: u32) -> Result<NetExpr, Mem>
    ensures { IfOk result (λ e. exp_of e ≡ fixed_value units) }
{
    let units = one(alloc, number(units)?)?;
    Ok(support_call(alloc, b"FixNew", units)?)
}

fn user_value(alloc: Global, user_type: u32) -> Result<NetExpr, Mem>
    ensures { IfOk result (λ e. exp_of e ≡ user_value user_type) }
{
    let name = new_name(alloc, user_type)?;
    Ok(support_call(alloc, name.as_bytes(), Vec::new(alloc))?)
}

fn made_user(alloc: Global, made: bool, user_type: u32) -> Result<Option<NetExpr>, Mem>
    ensures { IfOk result (λ e. option_map exp_of e ≡ rows.made_user made user_type) }
{
    if !made {
        return Ok(None);
    }
    Ok(Some(user_value(alloc, user_type)?))
}

// What a variable begins with, where that has to be written.
fn initial(
    alloc: Global,
    scope: &Scope,
    number: u32,
    decl: &VarDecl,
) -> Result<Option<NetExpr>, Mem>
    ensures { IfOk result (λ e. option_map exp_of e ≡ rows.initial (scope_of scope.now) number (variable_of decl.now) (type_of decl.now.ty)) }
{
    match &decl.ty {
        Type6::Array(element, _) => { Ok(Some(array_value(alloc, scope, number, decl, element)?)) }
        Type6::Fixed(units) => Ok(Some(fixed_value(alloc, *units)?)),
        Type6::User(t) => Ok(made_user(alloc, scope.facts.is_made(*t), *t)?),
        _ => Ok(None),
    }
}

fn boxed(alloc: Global, value: Option<NetExpr>) -> Result<Option<Box<NetExpr>>, Mem>
    ensures { IfOk result (λ b. option_map (λ e. exp_of e.value) b ≡ option_map exp_of value) }
{
    match value {
        None => Ok(None),
        Some(e) => Ok(Some(Box::new(alloc, e)?)),
    }
}

fn initial_value(
    alloc: Global,
    scope: &Scope,
    number: u32,
    decl: &VarDecl,
) -> Result<Option<Box<NetExpr>>, Mem>
    ensures { IfOk result (λ b. option_map (λ e. exp_of e.value) b ≡ rows.initial (scope_of scope.now) number (variable_of decl.now) (type_of decl.now.ty)) }
{
    let value = initial(alloc, scope, number, decl)?;
    Ok(boxed(alloc, value)?)
}

/// A variable that carries an issue: an Object.
pub(crate) fn object_variable(alloc: Global, name: &Name) -> Result<NetVariable, Mem>
    ensures { IfOk result (λ v. net_view.variable_of v ≡ rows.object_variable name.now) }
{
    Ok(NetVariable {
        name: name.copy(alloc)?,
        ty: NetType::Object,
        value: None,
    })
}

fn typed_variable(
    alloc: Global,
    scope: &Scope,
    number: u32,
    decl: &VarDecl,
) -> Result<NetVariable, Mem>
    ensures { IfOk result (λ v. net_view.variable_of v ≡ rows.typed_variable (scope_of scope.now) number (variable_of decl.now)) }
{
    let name = decl.name.copy(alloc)?;
    let ty = variable_type(alloc, scope.declared, scope.facts, scope.file, number, decl)?;
    let value = initial_value(alloc, scope, number, decl)?;
    Ok(NetVariable { name, ty, value })
}

/// What is written for a variable.
pub(crate) fn written_variable(alloc: Global, scope: &Scope, v: &VarRef) -> Result<NetVariable, Mem>
    ensures { IfOk result (λ w. net_view.variable_of w ≡ rows.written_variable (scope_of scope.now) (variable_shown v.now)) }
{
    if scope.facts.is_flagged_variable(v.number) {
        return Ok(object_variable(alloc, &v.decl.name)?);
    }
    Ok(typed_variable(alloc, scope, v.number, v.decl)?)
}

fn is_static(owner: Owner) -> bool
    ensures { result ≡ rows.is_static owner }
{
    match owner {
        Owner::Static(_) => true,
        _ => false,
    }
}

/// A variable at the head of a procedure.
pub(crate) fn variable_dim(alloc: Global, scope: &Scope, v: &VarRef) -> Result<NetDim, Mem>
    ensures { IfOk result (λ d. dim_of d ≡ rows.variable_dim (scope_of scope.now) (variable_shown v.now)) }
{
    let variable = written_variable(alloc, scope, v)?;
    if is_static(v.decl.owner) {
        return Ok(NetDim::Static(variable));
    }
    Ok(NetDim::Local(variable))
}
