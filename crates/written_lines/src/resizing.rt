//! ReDim and Erase.
ghost use Rattle.std.specs.Prelude.{◌≡◌, IfOk, map};
ghost use Rattle.vb_tree.specs.BoundView.{type_of};
ghost use Rattle.vb_tree.specs.View as source;
ghost use Rattle.bound_tree.specs.View.{expr_of};
ghost use Rattle.bound_facts.specs.Bounds.{low_in};
ghost use Rattle.bound_facts.specs.Parts.{resizes};
ghost use Rattle.array_bounds.specs.Views.{extent_of, resize_of};
ghost use Rattle.net_tree.specs.Tree as net;
ghost use Rattle.net_tree.specs.View.{exp_of, exps_of, line_of, redim_item_of, type_name_of};
ghost use Rattle.written_trees.specs.Exprs as exprs;
ghost use Rattle.written_trees.specs.Lines as rows;
ghost use Rattle.written_trees.specs.Types as types;
ghost use Rattle.written_rows.specs.View.{scope_of};
ghost use Rattle.written_lines.specs.Groups.{erased};

use crate::parts::{assignment, no_line};
use crate::puts::rank_of;
use array_bounds::{ExtentRef, ResizeRef, low_in, option_base_of, resizes_in};
use bound_facts::declared_at;
use bound_tree::BoundExpr;
use net_tree::{NetExpr, NetLine, NetLit, NetReDim, NetType};
use std::alloc::Global;
use up_base::{Mem, Sequence};
use vb_tree::{ReDimItem6, Type6};
use written_exprs::written_exp;
use written_rows::{Scope, low_exp, support_call, two, written_type};

// ---- ReDim

// The lower bound that is written there, where it is constant; else Option Base.
fn constant_low(alloc: Global, scope: &Scope, extent: &ExtentRef) -> Result<i32, Mem>
    ensures { IfOk result (λ z. z ≡ rows.or_number (low_in (rows.base (scope_of scope.now)) (extent_of extent.now).0) (rows.base (scope_of scope.now))) }
{
    let base = option_base_of(scope.declared, scope.file);
    match low_in(alloc, base, extent)? {
        Some(low) => Ok(low),
        None => Ok(base),
    }
}

// The lower bound in a dimension of what is made anew: that of the array, by its variable.
fn resized_low(
    alloc: Global,
    scope: &Scope,
    array: Option<usize>,
    dimension: usize,
    extent: &ExtentRef,
) -> Result<i32, Mem>
    ensures { IfOk result (λ z. z ≡ rows.resized_low (scope_of scope.now) array dimension (extent_of extent.now)) }
{
    match array {
        Some(a) => Ok(scope.facts.low(a, dimension)),
        None => Ok(constant_low(alloc, scope, extent)?),
    }
}

fn extent_exp(
    alloc: Global,
    scope: &Scope,
    array: Option<usize>,
    dimension: usize,
    extent: &ExtentRef,
) -> Result<NetExpr, Mem>
    ensures { IfOk result (λ e. exp_of e ≡ rows.extent_exp (scope_of scope.now) array dimension (extent_of extent.now)) }
{
    let low = resized_low(alloc, scope, array, dimension, extent)?;
    let low = low_exp(alloc, low)?;
    let upper = written_exp(alloc, scope, extent.upper)?;
    let bounds = two(alloc, upper, low)?;
    Ok(support_call(alloc, b"Top", bounds)?)
}

fn extents_exps(
    alloc: Global,
    scope: &Scope,
    array: Option<usize>,
    extents: &[ExtentRef],
) -> Result<Vec<NetExpr>, Mem>
    ensures { IfOk result (λ v. exps_of v.items ≡ rows.extents_exps (scope_of scope.now) array 0 (map extent_of extents.now)) }
{
    let mut all = Vec::new(alloc);
    for (d, extent) in extents.iter().enumerate() {
        all.push(extent_exp(alloc, scope, array, d, extent)?)?;
    }
    Ok(all)
}

fn resized_array(alloc: Global, scope: &Scope, resize: &ResizeRef) -> Result<NetReDim, Mem>
    ensures { IfOk result (λ r. redim_item_of r ≡ rows.resized_array (scope_of scope.now) (resize_of resize.now)) }
{
    let variable = declared_at(scope.declared, resize.array);
    let bounds = extents_exps(alloc, scope, variable, &resize.extents)?;
    let array = written_exp(alloc, scope, resize.array)?;
    Ok(NetReDim { array, bounds })
}

fn resized_arrays(alloc: Global, scope: &Scope, resizes: &[ResizeRef]) -> Result<Vec<NetReDim>, Mem>
    ensures { IfOk result (λ v. map redim_item_of v.items ≡ map (rows.resized_array (scope_of scope.now)) (map resize_of resizes.now)) }
{
    let mut all = Vec::new(alloc);
    for resize in resizes {
        all.push(resized_array(alloc, scope, resize)?)?;
    }
    Ok(all)
}

/// A ReDim.
pub(crate) fn redim_line(
    alloc: Global,
    scope: &Scope,
    preserve: bool,
    items: &[ReDimItem6],
    exprs: &[BoundExpr],
) -> Result<NetLine, Mem>
    ensures { IfOk result (λ l. line_of l ≡ net.redim preserve (map (rows.resized_array (scope_of scope.now)) (resizes (map source.redim_item_of items.now) (map expr_of exprs.now)))) }
{
    let resizes = resizes_in(alloc, items, exprs)?;
    let arrays = resized_arrays(alloc, scope, &resizes)?;
    Ok(NetLine::ReDim(preserve, Sequence::from_vec(arrays)))
}

// ---- Erase

/// An extent, which is -1 where there is no element.
pub fn extent(z: i32) -> NetExpr
    ensures { exp_of result ≡ rows.extent z }
{
    NetExpr::Lit(NetLit::Integer(z, false))
}

/// As many extents of an empty array as it has dimensions.
#[tactic(auto, using(crate::proofs::Lists::one_more_empty))]
pub fn empty_extents(alloc: Global, rank: u8) -> Result<Vec<NetExpr>, Mem>
    ensures { IfOk result (λ list. exps_of list.items ≡ rows.empty_extents rank) }
{
    let mut all = Vec::new(alloc);
    for _ in 0..rank {
        all.push(extent(-1))?;
    }
    Ok(all)
}

// The type of the elements of a type of arrays.
fn element_type(alloc: Global, scope: &Scope, ty: &Type6) -> Result<NetType, Mem>
    ensures { IfOk result (λ t. type_name_of t ≡ types.written_type (scope_of scope.now) (types.element_type (type_of ty.now))) }
{
    match ty {
        Type6::Array(element, _) => Ok(written_type(alloc, scope, element)?),
        _ => Ok(written_type(alloc, scope, &Type6::Unknown)?),
    }
}

#[tactic(auto, using(net_tree::proofs::Views::exps_hidden))]
fn new_array(element: NetType, bounds: Vec<NetExpr>) -> NetExpr
    ensures { exp_of result ≡ net.new_array (type_name_of element) (exps_of bounds.items) }
{
    NetExpr::NewArray(element, bounds)
}

fn empty_array(alloc: Global, element: NetType, rank: u8) -> Result<NetExpr, Mem>
    ensures { IfOk result (λ e. exp_of e ≡ net.new_array (type_name_of element) (rows.empty_extents rank)) }
{
    let bounds = empty_extents(alloc, rank)?;
    Ok(new_array(element, bounds))
}

// An array of the type of an expression that has no element.
fn erased(alloc: Global, scope: &Scope, e: &BoundExpr) -> Result<NetExpr, Mem>
    ensures { IfOk result (λ a. exp_of a ≡ erased (scope_of scope.now) (expr_of e.now)) }
{
    let element = element_type(alloc, scope, &e.ty)?;
    let rank = rank_of(scope.facts, declared_at(scope.declared, e));
    Ok(empty_array(alloc, element, rank)?)
}

fn erase_array(alloc: Global, scope: &Scope, e: &BoundExpr) -> Result<NetLine, Mem>
    ensures { IfOk result (λ l. line_of l ≡ net.assign (exprs.exp_of (scope_of scope.now) (expr_of e.now)) (erased (scope_of scope.now) (expr_of e.now))) }
{
    let array = written_exp(alloc, scope, e)?;
    let value = erased(alloc, scope, e)?;
    Ok(assignment(alloc, array, value)?)
}

/// An Erase.
pub(crate) fn erase_line(alloc: Global, scope: &Scope, exprs: &[BoundExpr]) -> Result<NetLine, Mem>
    ensures { IfOk result (λ l. line_of l ≡ rows.erase_line (scope_of scope.now) (map expr_of exprs.now)) }
{
    match exprs {
        [e, ..] => Ok(erase_array(alloc, scope, e)?),
        [] => Ok(no_line(alloc)?),
    }
}
