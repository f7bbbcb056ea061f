//! What is written for members of objects and user types, and for indexes of elements.
ghost use Rattle.std.specs.Prelude.{◌≡◌, IfOk, OnOk, codes};
ghost use Rattle.bound_tree.specs.Tree.{field};
ghost use Rattle.bound_tree.specs.View.{declarations_of, expr_of};
ghost use Rattle.bound_facts.specs.Node.{declared_in};
ghost use Rattle.net_tree.specs.View.{exp_of};
ghost use Rattle.net_tree.specs.Tree as net;
ghost use Rattle.written_trees.specs.Conversions as conversions;
ghost use Rattle.written_trees.specs.Exprs as exprs;
ghost use Rattle.written_trees.specs.Library as library;
ghost use Rattle.written_trees.specs.Names as names;
ghost use Rattle.written_rows.specs.View.{scope_of};
ghost use Rattle.written_exprs.specs.Indexes.{index_by, lows_of};
ghost use Rattle.written_exprs.specs.Lists.{exps_before};

use crate::parts::push_exp;
use crate::uses::used;
use bound_facts::field_of;
use bound_tree::{BoundExpr, BoundNode, Declared};
use net_tree::NetExpr;
use std::alloc::Global;
use up_base::{Mem, Name};
use written_rows::{
    Scope, low_at, low_exp, member, procedure_name, support_call, two, variable_name,
};

// A member of a node that is written `a`; of the object of a With the member alone is written.
fn member_of(alloc: Global, of: &BoundExpr, a: NetExpr, name: Name) -> Result<NetExpr, Mem>
    ensures { IfOk result (λ x. exp_of x ≡ exprs.member_of (expr_of of.now) (exp_of a) name) }
{
    match &of.node {
        BoundNode::WithObject(_) => {
            drop(a);
            Ok(NetExpr::WithDot(name))
        }
        _ => Ok(member(alloc, a, name.as_bytes())?),
    }
}

// The variable that declares a field.
fn field_number(declared: &Declared, of: &BoundExpr, k: u32) -> Option<usize>
    ensures { result ≡ declared_in (declarations_of declared.now) (field (expr_of of.now) k) }
{
    field_of(declared, &of.ty, k)
}

/// A field of a node that is written `a`, as a target of Set.
pub(crate) fn field_target(
    alloc: Global,
    scope: &Scope,
    of: &BoundExpr,
    k: u32,
    a: NetExpr,
) -> Result<NetExpr, Mem>
    ensures { IfOk result (λ x. exp_of x ≡ exprs.member_of (expr_of of.now) (exp_of a) (exprs.field_name (scope_of scope.now) (expr_of of.now) k)) }
{
    let name = variable_name(alloc, scope.declared, field_number(scope.declared, of, k))?;
    Ok(member_of(alloc, of, a, name)?)
}

/// The use of a field of a node that is written `a`.
pub(crate) fn field_exp(
    alloc: Global,
    scope: &Scope,
    of: &BoundExpr,
    k: u32,
    a: NetExpr,
) -> Result<NetExpr, Mem>
    ensures { IfOk result (λ x. exp_of x ≡ exprs.used (scope_of scope.now) (field (expr_of of.now) k) (exprs.member_of (expr_of of.now) (exp_of a) (exprs.field_name (scope_of scope.now) (expr_of of.now) k))) }
{
    let a = field_target(alloc, scope, of, k, a)?;
    let at = field_number(scope.declared, of, k);
    Ok(used(alloc, scope.declared, at, a)?)
}

/// A procedure of an object that is written `a`.
pub(crate) fn procedure_member(
    alloc: Global,
    scope: &Scope,
    of: &BoundExpr,
    procedure: u32,
    a: NetExpr,
) -> Result<NetExpr, Mem>
    ensures { IfOk result (λ x. exp_of x ≡ exprs.member_of (expr_of of.now) (exp_of a) (names.procedure_name (declarations_of scope.now.declared.now) procedure)) }
{
    let name = procedure_name(alloc, scope.declared, procedure)?;
    Ok(member_of(alloc, of, a, name)?)
}

// An index of an array with a lower bound other than 0.
fn index_above(alloc: Global, low: i32, i: NetExpr) -> Result<NetExpr, Mem>
    ensures { IfOk result (λ x. exp_of x ≡ conversions.support_call (codes "At") (conversions.two (exp_of i) (library.low_exp low))) }
{
    let low = low_exp(alloc, low)?;
    let arguments = two(alloc, i, low)?;
    Ok(support_call(alloc, b"At", arguments)?)
}

fn index_from(alloc: Global, low: i32, i: NetExpr) -> Result<NetExpr, Mem>
    ensures { IfOk result (λ x. exp_of x ≡ exprs.index_from low (exp_of i)) }
{
    if low == 0 {
        return Ok(i);
    }
    Ok(index_above(alloc, low, i)?)
}

/// The lower bounds of an array in its first and its second dimension.
#[derive(Clone, Copy)]
pub(crate) struct Lows {
    first: i32,
    second: i32,
}

/// The lower bounds of an array.
pub(crate) fn lows_of(scope: &Scope, array: &BoundExpr) -> Lows
    ensures { result ≡ lows_of (scope_of scope.now) (expr_of array.now) }
{
    Lows {
        first: low_at(scope, array, 0),
        second: low_at(scope, array, 1),
    }
}

fn index_by(alloc: Global, lows: Lows, dimension: usize, i: NetExpr) -> Result<NetExpr, Mem>
    ensures { IfOk result (λ x. exp_of x ≡ index_by lows dimension (exp_of i)) }
{
    match dimension {
        0 => Ok(index_from(alloc, lows.first, i)?),
        1 => Ok(index_from(alloc, lows.second, i)?),
        _ => Ok(i),
    }
}

/// Appends an index of an array in a dimension, which is written `i`.
pub(crate) fn push_index(
    alloc: Global,
    lows: Lows,
    dimension: usize,
    i: NetExpr,
    to: &mut Vec<NetExpr>,
) -> Result<(), Mem>
    ensures { OnOk result ((more : net.Exps) → exps_before to.new.items more ≡ exps_before to.old.items (net.next_exp (index_by lows dimension (exp_of i)) more)) }
{
    let index = index_by(alloc, lows, dimension, i)?;
    Ok(push_exp(index, to)?)
}
