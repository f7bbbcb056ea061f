//! What is written for the heads of procedures, and what a property has of its parts' heads.
ghost use Rattle.std.specs.Prelude.{◌≡◌, ◌++◌, map, option_map, slice_get, IfOk, OnOk};
ghost use Rattle.std.specs.Option.{option_copied};
ghost use Rattle.vb_tree.specs.BoundView.{type_of};
ghost use Rattle.bound_tree.specs.View.{declarations_of, procedure_of, variable_of};
ghost use Rattle.net_tree.specs.View.{head_of, param_of, type_name_of};
ghost use Rattle.written_trees.specs.Heads as rows;
ghost use Rattle.written_trees.specs.Puts.{last_of};
ghost use Rattle.written_rows.specs.View.{scope_of};
ghost use Rattle.written_members.specs.Heads.{function_head, sub_head, variable_at, written_param, written_passing};
ghost use Rattle.written_members.specs.Shown.{variable_shown};

use crate::statements::VarRef;
use bound_tree::{Declared, ProcDecl, VarDecl};
use net_tree::{NetHead, NetParam, NetPassing, NetType, NetVisibility};
use std::alloc::Global;
use up_base::{Mem, Name, Sequence};
use vb_tree::{Owner, ProcKind, Type6, VarId, Visibility};
use written_rows::{Scope, type_with, variable_type, written_type};

/// Who sees what a word makes visible.
pub fn written_visibility(visibility: Visibility) -> NetVisibility
    ensures { result ≡ rows.written_visibility visibility }
{
    match visibility {
        Visibility::Public => NetVisibility::Public,
        Visibility::Global => NetVisibility::Public,
        Visibility::Private => NetVisibility::Private,
        Visibility::Friend => NetVisibility::Friend,
    }
}

fn passing_of(owner: Owner) -> NetPassing
    ensures { result ≡ rows.passing_of owner }
{
    match owner {
        Owner::Reference(_) => NetPassing::Reference,
        _ => NetPassing::Value,
    }
}

fn written_passing(by_value: bool, owner: Owner) -> NetPassing
    ensures { result ≡ written_passing by_value owner }
{
    if by_value {
        NetPassing::Value
    } else {
        passing_of(owner)
    }
}

// A parameter keeps its type whatever it breaks.
fn written_param(
    alloc: Global,
    scope: &Scope,
    by_value: bool,
    number: u32,
    decl: &VarDecl,
) -> Result<NetParam, Mem>
    ensures { IfOk result (λ p. param_of p ≡ written_param (scope_of scope.now) by_value number (variable_of decl.now)) }
{
    let name = decl.name.copy(alloc)?;
    let ty = variable_type(alloc, scope.declared, scope.facts, scope.file, number, decl)?;
    Ok(NetParam {
        passing: written_passing(by_value, decl.owner),
        name,
        ty,
    })
}

fn decl_at(vars: &Sequence<VarDecl>, number: u32) -> Option<&VarDecl>
    ensures { option_map variable_of (option_copied result) ≡ slice_get (map variable_of vars.now) number }
{
    vars.get(number as usize)
}

fn push_param(
    alloc: Global,
    scope: &Scope,
    by_value: bool,
    v: VarId,
    to: &mut Vec<NetParam>,
) -> Result<(), Mem>
    ensures { OnOk result (map param_of to.new.items ≡ map param_of to.old.items ++ rows.param_by (scope_of scope.now) by_value v.0 (slice_get (scope_of scope.now).declarations.vars v.0)) }
{
    match decl_at(&scope.declared.vars, v.0) {
        None => Ok(()),
        Some(decl) => Ok(to.push(written_param(alloc, scope, by_value, v.0, decl)?)?),
    }
}

/// Parameters; all of them take a value where `by_value` says so.
pub fn params_of(
    alloc: Global,
    scope: &Scope,
    by_value: bool,
    params: &[VarId],
) -> Result<Vec<NetParam>, Mem>
    ensures { IfOk result (λ list. map param_of list.items ≡ rows.params_of (scope_of scope.now) by_value params.now) }
{
    let mut list = Vec::with_capacity(alloc, params.len())?;
    for v in params {
        push_param(alloc, scope, by_value, *v, &mut list)?;
    }
    Ok(list)
}

fn variable_of<'a>(declared: &'a Declared, v: Option<VarId>) -> Option<VarRef<'a>>
    ensures { option_map variable_shown result ≡ rows.variable_of (declarations_of declared.now) v }
{
    match v {
        None => None,
        Some(v) => variable_at(declared, v.0),
    }
}

fn variable_at<'a>(declared: &'a Declared, number: u32) -> Option<VarRef<'a>>
    ensures { option_map variable_shown result ≡ variable_at (declarations_of declared.now) number }
{
    match declared.vars.get(number as usize) {
        None => None,
        Some(decl) => Some(VarRef { number, decl }),
    }
}

fn type_of_answer(
    alloc: Global,
    scope: &Scope,
    ty: &Type6,
    answer: Option<VarRef>,
) -> Result<NetType, Mem>
    ensures { IfOk result (λ t. type_name_of t ≡ rows.result_by (scope_of scope.now) (type_of ty.now) (option_map variable_shown answer.entry)) }
{
    match answer {
        None => Ok(written_type(alloc, scope, ty)?),
        Some(v) => Ok(type_with(
            alloc,
            scope.declared,
            scope.file,
            v.decl.qualified,
            scope.facts.rank(v.number as usize),
            ty,
        )?),
    }
}

/// The type of a result, which the head names for the result variable.
pub fn result_type(alloc: Global, scope: &Scope, q: &ProcDecl) -> Result<NetType, Mem>
    ensures { IfOk result (λ t. type_name_of t ≡ rows.result_type (scope_of scope.now) (procedure_of q.now)) }
{
    let answer = variable_of(scope.declared, q.answer);
    Ok(type_of_answer(alloc, scope, &q.result, answer)?)
}

/// Whether a procedure of a kind gives a result.
pub fn is_function(kind: ProcKind) -> bool
    ensures { result ≡ rows.is_function kind }
{
    match kind {
        ProcKind::Function => true,
        ProcKind::Get => true,
        _ => false,
    }
}

fn function_head(alloc: Global, scope: &Scope, q: &ProcDecl, name: Name) -> Result<NetHead, Mem>
    ensures { IfOk result (λ h. head_of h ≡ function_head (scope_of scope.now) (procedure_of q.now) name) }
{
    let params = params_of(alloc, scope, false, q.params.as_slice())?;
    let ty = result_type(alloc, scope, q)?;
    Ok(NetHead::Function(written_visibility(q.visibility), name, params, ty))
}

fn sub_head(alloc: Global, scope: &Scope, q: &ProcDecl, name: Name) -> Result<NetHead, Mem>
    ensures { IfOk result (λ h. head_of h ≡ sub_head (scope_of scope.now) (procedure_of q.now) name) }
{
    let params = params_of(alloc, scope, false, q.params.as_slice())?;
    Ok(NetHead::Sub(written_visibility(q.visibility), name, params))
}

/// The head of a procedure that is written with a name.
pub fn head_of(alloc: Global, scope: &Scope, q: &ProcDecl, name: Name) -> Result<NetHead, Mem>
    ensures { IfOk result (λ h. head_of h ≡ rows.head_of (scope_of scope.now) (procedure_of q.now) name) }
{
    if is_function(q.kind) {
        return Ok(function_head(alloc, scope, q, name)?);
    }
    Ok(sub_head(alloc, scope, q, name)?)
}

// All but the last.
#[tactic(auto, using(crate::proofs::Lasts::without_last_is))]
fn without_last(params: &[VarId]) -> &[VarId]
    ensures { result.now ≡ rows.without_last params.now }
{
    match params {
        [] => params,
        [_, ..] => &params[..params.len() - 1],
    }
}

/// The parameters of a part of a property that are indexes: the last one of a Let or Set takes the value.
pub fn index_params(q: &ProcDecl) -> &[VarId]
    ensures { result.now ≡ rows.index_params (procedure_of q.now) }
{
    if is_function(q.kind) {
        return q.params.as_slice();
    }
    without_last(q.params.as_slice())
}

#[tactic(auto, using(crate::proofs::Lasts::last_is))]
fn last_of(params: &[VarId]) -> Option<VarId>
    ensures { result ≡ last_of params.now }
{
    params.last().copied()
}

// The parameter of a Let or Set that takes the value.
fn value_parameter<'a>(scope: &Scope<'a>, q: &ProcDecl) -> Option<VarRef<'a>>
    ensures { option_map variable_shown result ≡ rows.value_parameter (scope_of scope.now) (procedure_of q.now) }
{
    variable_of(scope.declared, last_of(q.params.as_slice()))
}

fn value_name(alloc: Global, v: Option<VarRef>) -> Result<Name, Mem>
    ensures { IfOk result (λ name. name ≡ rows.value_name (option_map variable_shown v.entry)) }
{
    match v {
        None => Err(Mem),
        Some(v) => Ok(v.decl.name.copy(alloc)?),
    }
}

fn type_of_value(alloc: Global, scope: &Scope, v: Option<VarRef>) -> Result<NetType, Mem>
    ensures { IfOk result (λ t. type_name_of t ≡ rows.value_type (scope_of scope.now) (option_map variable_shown v.entry)) }
{
    match v {
        None => Ok(NetType::Object),
        Some(v) => Ok(variable_type(
            alloc,
            scope.declared,
            scope.facts,
            scope.file,
            v.number,
            v.decl,
        )?),
    }
}

/// The type of a property by one of its parts.
pub fn property_type(alloc: Global, scope: &Scope, q: &ProcDecl) -> Result<NetType, Mem>
    ensures { IfOk result (λ t. type_name_of t ≡ rows.property_type (scope_of scope.now) (procedure_of q.now)) }
{
    if is_function(q.kind) {
        return Ok(result_type(alloc, scope, q)?);
    }
    let v = value_parameter(scope, q);
    Ok(type_of_value(alloc, scope, v)?)
}

/// The head of a Set, by a Let or Set of the source. Where no parameter takes the value it is want of memory.
pub fn set_head(alloc: Global, scope: &Scope, q: &ProcDecl) -> Result<NetHead, Mem>
    ensures { IfOk result (λ h. head_of h ≡ rows.set_head (scope_of scope.now) (procedure_of q.now)) }
{
    let name = value_name(alloc, value_parameter(scope, q))?;
    let ty = type_of_value(alloc, scope, value_parameter(scope, q))?;
    Ok(NetHead::Set(name, ty))
}
