//! What is written for an argument of a call, which is already written as an expression: as it stands, as a temporary in parentheses, or
//! as a copy.
ghost use Rattle.std.specs.Prelude.{◌≡◌, IfOk, cond, map, slice_get};
ghost use Rattle.vb_tree.specs.BoundTree.{Ty};
ghost use Rattle.vb_tree.specs.BoundView.{type_of};
ghost use Rattle.bound_tree.specs.Tree.{typed, library};
ghost use Rattle.bound_tree.specs.View.{argument_of, declarations_of, expr_of, exprs_of, procedure_of, variable_of};
ghost use Rattle.net_tree.specs.View.{exp_of};
ghost use Rattle.written_trees.specs.Arguments as rows;
ghost use Rattle.written_trees.specs.Conversions as conversions;
ghost use Rattle.written_trees.specs.Library.{conversion_of};
ghost use Rattle.written_trees.specs.Names as names;
ghost use Rattle.written_rows.specs.View.{facts_of, scope_of};
ghost use Rattle.written_exprs.specs.Kept.{kept_or};

use crate::parts::support_call_of_one;
use bound_facts::{is_array_type, is_object_type};
use bound_tree::{BoundArg, BoundExpr, BoundNode, Declared, ProcDecl, VarDecl};
use net_tree::NetExpr;
use std::alloc::Global;
use up_base::{Mem, Sequence};
use vb_tree::{LibCall, Owner, ProcKind, Type6, VarId};
use written_rows::{Scope, WrittenFacts, conversion_of, copy_name, paren, writes_nothing};

/// Whether a procedure of a kind is a part of a property.
pub fn is_property_kind(kind: ProcKind) -> bool
    ensures { result ≡ rows.is_property_kind kind }
{
    match kind {
        ProcKind::Sub => false,
        ProcKind::Function => false,
        ProcKind::Get => true,
        ProcKind::Let => true,
        ProcKind::Set => true,
    }
}

fn is_property_at(procs: &Sequence<ProcDecl>, procedure: u32) -> bool
    ensures { result ≡ rows.is_property_at (slice_get (map procedure_of procs.now) procedure) }
{
    match procs.get(procedure as usize) {
        Some(p) => is_property_kind(p.kind),
        None => false,
    }
}

/// Whether a procedure is a part of a property.
pub fn is_property(declared: &Declared, procedure: u32) -> bool
    ensures { result ≡ rows.is_property (declarations_of declared.now) procedure }
{
    is_property_at(&declared.procs, procedure)
}

// What stands behind a call that writes nothing round its one argument.
#[cycle(kept)]
fn kept_argument(function: LibCall, args: &[BoundExpr]) -> Option<&BoundExpr>
    ensures { (ty : Ty) → kept_or (typed ty (library function (exprs_of args.now))) result ≡ rows.kept_call ty function (conversion_of function) (exprs_of args.now) }
{
    match conversion_of(function) {
        None => None,
        Some(to) => match args {
            [] => None,
            [of] => {
                if writes_nothing(&of.ty, &to) {
                    Some(kept(of))
                } else {
                    None
                }
            }
            [_first, _second, ..] => None,
        },
    }
}

// What stands behind conversions that write nothing, calls of the library among them.
#[cycle(kept)]
fn kept(e: &BoundExpr) -> &BoundExpr
    ensures { expr_of result.now ≡ rows.kept (expr_of e.now) }
{
    match &e.node {
        BoundNode::Convert(to, of) => {
            if writes_nothing(&of.ty, to) {
                kept(of)
            } else {
                e
            }
        }
        BoundNode::Lib(function, args) => match kept_argument(*function, args) {
            Some(part) => part,
            None => e,
        },
        _ => e,
    }
}

// Whether .NET would take the address of an expression: a variable, an element, a field or a property.
fn has_address(declared: &Declared, e: &BoundExpr) -> bool
    ensures { result ≡ rows.has_address (declarations_of declared.now) (expr_of e.now) }
{
    match &e.node {
        BoundNode::Var(_, _) => true,
        BoundNode::Field(_, _) => true,
        BoundNode::Element(_, _) => true,
        BoundNode::Call(p, _, _, _) => is_property(declared, p.0),
        _ => false,
    }
}

// Whether an expression is a variable or a field.
fn is_copied(e: &BoundExpr) -> bool
    ensures { result ≡ rows.is_copied (expr_of e.now) }
{
    match &e.node {
        BoundNode::Var(_, _) => true,
        BoundNode::Field(_, _) => true,
        _ => false,
    }
}

// Whether an expression is an object's field, or a field of a user type in it.
fn is_object_field(e: &BoundExpr) -> bool
    ensures { result ≡ rows.is_object_field (expr_of e.now) }
{
    match &e.node {
        BoundNode::Field(of, _) => is_object_type(&of.ty) || is_object_field(of),
        _ => false,
    }
}

fn is_conversion(e: &BoundExpr) -> bool
    ensures { result ≡ rows.is_conversion (expr_of e.now) }
{
    match &e.node {
        BoundNode::Convert(_, _) => true,
        _ => false,
    }
}

// Whether what goes by reference has an address that VB6 takes: no converted variable, and no field of an object but an array.
fn has_reference(e: &BoundExpr) -> bool
    ensures { result ≡ rows.has_reference (expr_of e.now) }
{
    is_array_type(&e.ty) || !(is_conversion(e) || is_object_field(e))
}

fn needs_copy(facts: &WrittenFacts, e: &BoundExpr) -> bool
    ensures { result ≡ rows.needs_copy (facts_of facts.now) (expr_of e.now) }
{
    facts.type_holds_array(&e.ty) && is_copied(e)
}

// A value of a type, copied where it is a user type.
fn copy_by(alloc: Global, ty: &Type6, a: NetExpr) -> Result<NetExpr, Mem>
    ensures { IfOk result (λ e. exp_of e ≡ rows.copy_by (type_of ty.now) (exp_of a)) }
{
    match ty {
        Type6::User(t) => Ok(copied(alloc, *t, a)?),
        _ => Ok(a),
    }
}

// A value of a user type, copied.
fn copied(alloc: Global, user_type: u32, a: NetExpr) -> Result<NetExpr, Mem>
    ensures { IfOk result (λ e. exp_of e ≡ conversions.support_call (names.copy_name user_type) (conversions.one (exp_of a))) }
{
    let name = copy_name(alloc, user_type)?;
    Ok(support_call_of_one(alloc, name.as_bytes(), a)?)
}

// A value, which is written `a`: a user type that holds an array is copied with it.
fn value_exp(alloc: Global, facts: &WrittenFacts, e: &BoundExpr, a: NetExpr) -> Result<NetExpr, Mem>
    ensures { IfOk result (λ x. exp_of x ≡ rows.value_exp (facts_of facts.now) (expr_of e.now) (exp_of a)) }
{
    if needs_copy(facts, e) {
        return Ok(copy_by(alloc, &e.ty, a)?);
    }
    Ok(a)
}

fn in_parentheses(alloc: Global, test: bool, a: NetExpr) -> Result<NetExpr, Mem>
    ensures { IfOk result (λ x. exp_of x ≡ rows.in_parentheses test (exp_of a)) }
{
    if test {
        return Ok(paren(alloc, a)?);
    }
    Ok(a)
}

// A temporary at a reference parameter, where the value is written `a`.
fn temporary_exp(alloc: Global, scope: &Scope, e: &BoundExpr, a: NetExpr) -> Result<NetExpr, Mem>
    ensures { IfOk result (λ x. exp_of x ≡ rows.temporary_exp (scope_of scope.now) (expr_of e.now) (exp_of a)) }
{
    if needs_copy(scope.facts, e) {
        return Ok(copy_by(alloc, &e.ty, a)?);
    }
    Ok(in_parentheses(alloc, has_address(scope.declared, kept(e)), a)?)
}

// What goes by reference, which is written `a`.
fn reference_exp(alloc: Global, scope: &Scope, e: &BoundExpr, a: NetExpr) -> Result<NetExpr, Mem>
    ensures { IfOk result (λ x. exp_of x ≡ rows.reference_exp (scope_of scope.now) (expr_of e.now) (exp_of a)) }
{
    if has_reference(e) {
        return Ok(a);
    }
    Ok(temporary_exp(alloc, scope, e, a)?)
}

fn is_reference_owner(owner: Owner) -> bool
    ensures { result ≡ rows.is_reference_owner owner }
{
    match owner {
        Owner::Reference(_) => true,
        _ => false,
    }
}

fn is_reference(vars: &Sequence<VarDecl>, variable: VarId) -> bool
    ensures { result ≡ rows.takes_reference_at (slice_get (map variable_of vars.now) variable.0) }
{
    match vars.get(variable.0 as usize) {
        Some(v) => is_reference_owner(v.owner),
        None => false,
    }
}

fn takes_reference_of(declared: &Declared, variable: Option<VarId>) -> bool
    ensures { result ≡ rows.takes_reference_of (declarations_of declared.now) variable }
{
    match variable {
        Some(v) => is_reference(&declared.vars, v),
        None => false,
    }
}

// The parameter of a procedure at a place.
fn parameter_in(procs: &Sequence<ProcDecl>, procedure: u32, place: usize) -> Option<VarId>
    ensures { result ≡ rows.parameter_in (slice_get (map procedure_of procs.now) procedure) place }
{
    match procs.get(procedure as usize) {
        Some(p) => p.params.get(place).copied(),
        None => None,
    }
}

/// Whether the parameter at a place takes a reference in VB6, which an index parameter may do too.
pub(crate) fn takes_reference(declared: &Declared, procedure: u32, place: usize) -> bool
    ensures { result ≡ rows.takes_reference (declarations_of declared.now) procedure place }
{
    takes_reference_of(declared, parameter_in(&declared.procs, procedure, place))
}

/// An argument that is written `a`.
pub(crate) fn argument_exp(
    alloc: Global,
    scope: &Scope,
    by_address: bool,
    argument: &BoundArg,
    a: NetExpr,
) -> Result<NetExpr, Mem>
    ensures { IfOk result (λ x. exp_of x ≡ rows.argument_exp (scope_of scope.now) by_address (argument_of argument.now) (exp_of a)) }
{
    match argument {
        BoundArg::ByValue(e) => Ok(value_argument(alloc, scope, by_address, e, a)?),
        BoundArg::ByReference(e) => Ok(reference_exp(alloc, scope, e, a)?),
    }
}

// What goes by value, which is written `a`.
fn value_argument(
    alloc: Global,
    scope: &Scope,
    by_address: bool,
    e: &BoundExpr,
    a: NetExpr,
) -> Result<NetExpr, Mem>
    ensures { IfOk result (λ x. exp_of x ≡ cond by_address (rows.temporary_exp (scope_of scope.now) (expr_of e.now) (exp_of a)) (rows.value_exp (facts_of scope.now.facts.now) (expr_of e.now) (exp_of a))) }
{
    if by_address {
        return Ok(temporary_exp(alloc, scope, e, a)?);
    }
    Ok(value_exp(alloc, scope.facts, e, a)?)
}
