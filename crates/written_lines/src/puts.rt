//! Assignments: the value in the form of its target, and the function that evaluates it before the target.
ghost use Rattle.std.specs.Prelude.{◌≡◌, ◌++◌, false, IfOk, OnOk, codes, map, option_map, slice_get};
ghost use Rattle.std.specs.List.{list_any};
ghost use Rattle.vb_tree.specs.BoundView.{type_of};
ghost use Rattle.bound_tree.specs.View.{declarations_of, expr_of, procedure_of, shown};
ghost use Rattle.bound_facts.specs.CanRaise.{raises};
ghost use Rattle.bound_facts.specs.Effects.{params_at, params_of};
ghost use Rattle.net_tree.specs.Tree as net;
ghost use Rattle.net_tree.specs.View.{exp_of, line_of, type_name_of};
ghost use Rattle.written_trees.specs.Conversions as conversions;
ghost use Rattle.written_trees.specs.Exprs as exprs;
ghost use Rattle.written_trees.specs.Literals as literals;
ghost use Rattle.written_trees.specs.Names as names;
ghost use Rattle.written_trees.specs.Puts as rows;
ghost use Rattle.written_trees.specs.Types as types;
ghost use Rattle.written_rows.specs.View.{facts_of, scope_of};

use crate::parts::{assignment, support_line};
use bound_facts::{
    Raising, any_of, called, can_raise, declared_at, is_object_type, push_nodes, push_parts,
};
use bound_tree::{BoundExpr, BoundNode, Declared, ProcDecl};
use net_tree::{NetExpr, NetLine, NetType};
use std::alloc::Global;
use up_base::Mem;
use vb_tree::{Type6, VarId};
use written_exprs::written_exp;
use written_rows::{
    Scope, WrittenFacts, call_of, copy_name, member, number, one, support_call, two, type_with,
};

// ---- the value in the form of its target

/// The last of variables.
#[tactic(auto, using(crate::proofs::Lasts::last_is))]
pub fn last_of(variables: &[VarId]) -> Option<VarId>
    ensures { result ≡ rows.last_of variables.now }
{
    let mut last = None;
    for v in variables {
        last = Some(*v);
    }
    last
}

fn params_at(procs: &[ProcDecl], p: u32) -> &[VarId]
    ensures { result.now ≡ params_at (slice_get (map procedure_of procs.now) p) }
{
    match procs.get(p as usize) {
        Some(procedure) => procedure.params.as_slice(),
        None => &[],
    }
}

// The parameters of a procedure that is called.
fn params_of(procs: &[ProcDecl], p: Option<u32>) -> &[VarId]
    ensures { result.now ≡ params_of (map procedure_of procs.now) p }
{
    match p {
        Some(p) => params_at(procs, p),
        None => &[],
    }
}

// The number of its last parameter.
fn last_parameter(procs: &[ProcDecl], p: Option<u32>) -> Option<usize>
    ensures { result ≡ rows.number_of (rows.last_of (params_of (map procedure_of procs.now) p)) }
{
    match last_of(params_of(procs, p)) {
        Some(v) => Some(v.0 as usize),
        None => None,
    }
}

// The variable that declares what a target is: the last parameter of the part of a property takes its value.
fn target_variable(declared: &Declared, target: &BoundExpr) -> Option<usize>
    ensures { result ≡ rows.target_variable (declarations_of declared.now) (expr_of target.now) }
{
    match declared_at(declared, target) {
        Some(v) => Some(v),
        None => last_parameter(declared.procs.as_slice(), called(target)),
    }
}

/// The rank of the array that a variable is; 1 where none is known.
pub fn rank_of(facts: &WrittenFacts, variable: Option<usize>) -> u8
    ensures { result ≡ rows.rank_of (facts_of facts.now) variable }
{
    match variable {
        Some(v) => facts.rank(v),
        None => 1,
    }
}

fn target_rank(scope: &Scope, target: &BoundExpr) -> u8
    ensures { result ≡ rows.target_rank (scope_of scope.now) (expr_of target.now) }
{
    rank_of(scope.facts, target_variable(scope.declared, target))
}

// A call of the method Clone of an expression.
fn clone_call(alloc: Global, a: NetExpr) -> Result<NetExpr, Mem>
    ensures { IfOk result (λ e. exp_of e ≡ net.call_of (names.member (exp_of a) (codes "Clone")) net.no_exps) }
{
    let callee = member(alloc, a, b"Clone")?;
    Ok(call_of(alloc, callee, Vec::new(alloc))?)
}

/// A copy of an array of a type.
pub fn array_copy(alloc: Global, ty: NetType, a: NetExpr) -> Result<NetExpr, Mem>
    ensures { IfOk result (λ e. exp_of e ≡ rows.array_copy (type_name_of ty) (exp_of a)) }
{
    let copy = clone_call(alloc, a)?;
    let copy = Box::new(alloc, copy)?;
    Ok(NetExpr::CType(copy, ty))
}

fn copied_array(
    alloc: Global,
    scope: &Scope,
    rank: u8,
    ty: &Type6,
    a: NetExpr,
) -> Result<NetExpr, Mem>
    ensures { IfOk result (λ e. exp_of e ≡ rows.array_copy (types.type_with (declarations_of scope.now.declared.now) scope.now.file false rank (type_of ty.now)) (exp_of a)) }
{
    let ty = type_with(alloc, scope.declared, scope.file, false, rank, ty)?;
    Ok(array_copy(alloc, ty, a)?)
}

// A text in a fixed length.
fn fixed_text(alloc: Global, units: u32, a: NetExpr) -> Result<NetExpr, Mem>
    ensures { IfOk result (λ e. exp_of e ≡ conversions.support_call (codes "Fix") (conversions.two (exp_of a) (literals.number units))) }
{
    let units = number(units)?;
    let arguments = two(alloc, a, units)?;
    Ok(support_call(alloc, b"Fix", arguments)?)
}

// A copy of a user type that holds an array.
fn made_copy(alloc: Global, user_type: u32, a: NetExpr) -> Result<NetExpr, Mem>
    ensures { IfOk result (λ e. exp_of e ≡ conversions.support_call (names.copy_name user_type) (conversions.one (exp_of a))) }
{
    let arguments = one(alloc, a)?;
    let name = copy_name(alloc, user_type)?;
    Ok(support_call(alloc, name.as_bytes(), arguments)?)
}

fn user_copy(alloc: Global, holds: bool, user_type: u32, a: NetExpr) -> Result<NetExpr, Mem>
    ensures { IfOk result (λ e. exp_of e ≡ rows.user_copy holds user_type (exp_of a)) }
{
    if holds {
        Ok(made_copy(alloc, user_type, a)?)
    } else {
        Ok(a)
    }
}

// A value in the form of a type; an array has a rank.
fn formed(alloc: Global, scope: &Scope, rank: u8, ty: &Type6, a: NetExpr) -> Result<NetExpr, Mem>
    ensures { IfOk result (λ e. exp_of e ≡ rows.formed (scope_of scope.now) rank (type_of ty.now) (exp_of a)) }
{
    match ty {
        Type6::Array(_, _) => Ok(copied_array(alloc, scope, rank, ty, a)?),
        Type6::Fixed(units) => Ok(fixed_text(alloc, *units, a)?),
        Type6::User(t) => Ok(user_copy(alloc, scope.facts.holds_array(*t), *t, a)?),
        _ => Ok(a),
    }
}

// A value that goes to a target.
fn stored_value(
    alloc: Global,
    scope: &Scope,
    target: &BoundExpr,
    value: &BoundExpr,
) -> Result<NetExpr, Mem>
    ensures { IfOk result (λ e. exp_of e ≡ rows.stored_value (scope_of scope.now) (expr_of target.now) (expr_of value.now)) }
{
    let a = written_exp(alloc, scope, value)?;
    Ok(formed(alloc, scope, target_rank(scope, target), &target.ty, a)?)
}

// ---- Put functions

// Appends what .NET evaluates of a target before the right side: the indexes and the array variable of an element, and the object
// before a member. The last index and the last object are checked at the store.
fn push_before_store<'a>(e: &'a BoundExpr, to: &mut Vec<&'a BoundExpr>) -> Result<(), Mem>
    ensures { OnOk result (map shown to.new.items ≡ map shown to.old.items ++ rows.before_store (expr_of e.now)) }
{
    match &e.node {
        BoundNode::Field(of, _) => {
            if is_object_type(&of.ty) {
                Ok(push_nodes(of, to)?)
            } else {
                Ok(push_before_store(of, to)?)
            }
        }
        _ => Ok(push_parts(&e.node, to)?),
    }
}

// The function that puts a value of a type, where there is one.
fn put_function(ty: &Type6) -> Option<&'static [u8]>
    ensures { option_map (λ s. s.now) result ≡ option_map (λ t. codes "Put" ++ t) (rows.put_type (type_of ty.now)) }
{
    match ty {
        Type6::Boolean => Some(b"PutBoolean"),
        Type6::Byte => Some(b"PutByte"),
        Type6::Integer => Some(b"PutShort"),
        Type6::Long => Some(b"PutInteger"),
        Type6::Currency => Some(b"PutDecimal"),
        Type6::Str => Some(b"PutString"),
        Type6::Fixed(_) => Some(b"PutString"),
        Type6::Variant => Some(b"PutObject"),
        _ => None,
    }
}

// Whether an expression is an element or a field.
fn is_part(e: &BoundExpr) -> bool
    ensures { result ≡ rows.is_part (expr_of e.now) }
{
    match &e.node {
        BoundNode::Field(_, _) => true,
        BoundNode::Element(_, _) => true,
        _ => false,
    }
}

// Whether what .NET evaluates of a target before the right side can raise.
fn raises_before(alloc: Global, declared: &Declared, target: &BoundExpr) -> Result<bool, Mem>
    ensures { IfOk result (λ b. b ≡ list_any (raises (declarations_of declared.now)) (rows.before_store (expr_of target.now))) }
{
    let mut nodes = Vec::new(alloc);
    push_before_store(target, &mut nodes)?;
    Ok(any_of(&nodes, &Raising { declared }))
}

// Whether both the target and the value can raise, so that their order shows.
fn order_shows(
    alloc: Global,
    declared: &Declared,
    target: &BoundExpr,
    value: &BoundExpr,
) -> Result<bool, Mem>
    ensures { IfOk result (λ b. b ≡ rows.order_shows (declarations_of declared.now) (expr_of target.now) (expr_of value.now)) }
{
    if !is_part(target) {
        return Ok(false);
    }
    let raises = raises_before(alloc, declared, target)?;
    if !raises {
        return Ok(false);
    }
    Ok(can_raise(alloc, declared, value)?)
}

fn put_line(alloc: Global, name: &[u8], target: NetExpr, value: NetExpr) -> Result<NetLine, Mem>
    ensures { IfOk result (λ l. line_of l ≡ net.call (net.path (names.support name.now)) (conversions.two (exp_of value) (exp_of target))) }
{
    let arguments = two(alloc, value, target)?;
    Ok(support_line(alloc, name, arguments)?)
}

fn store_by(
    alloc: Global,
    shows: bool,
    ty: &Type6,
    target: NetExpr,
    value: NetExpr,
) -> Result<NetLine, Mem>
    ensures { IfOk result (λ l. line_of l ≡ rows.store_by shows (rows.put_type (type_of ty.now)) (exp_of target) (exp_of value)) }
{
    match put_function(ty) {
        Some(name) => {
            if shows {
                Ok(put_line(alloc, name, target, value)?)
            } else {
                Ok(assignment(alloc, target, value)?)
            }
        }
        None => Ok(assignment(alloc, target, value)?),
    }
}

// An assignment of a value that is already written.
fn store_written(
    alloc: Global,
    scope: &Scope,
    shows: bool,
    target: &BoundExpr,
    value: NetExpr,
) -> Result<NetLine, Mem>
    ensures { IfOk result (λ l. line_of l ≡ rows.store_by shows (rows.put_type (type_of target.now.ty)) (exprs.exp_of (scope_of scope.now) (expr_of target.now)) (exp_of value)) }
{
    let a = written_exp(alloc, scope, target)?;
    Ok(store_by(alloc, shows, &target.ty, a, value)?)
}

/// An assignment.
pub(crate) fn store_line(
    alloc: Global,
    scope: &Scope,
    target: &BoundExpr,
    value: &BoundExpr,
) -> Result<NetLine, Mem>
    ensures { IfOk result (λ l. line_of l ≡ rows.store_line (scope_of scope.now) (expr_of target.now) (expr_of value.now)) }
{
    let shows = order_shows(alloc, scope.declared, target, value)?;
    let value = stored_value(alloc, scope, target, value)?;
    Ok(store_written(alloc, scope, shows, target, value)?)
}
