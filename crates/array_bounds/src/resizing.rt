//! Lines that make arrays anew, erase them or assign them whole.
ghost use Rattle.std.specs.Prelude.{◌≡◌, ◌||◌, ◌&&◌, Option, not, is_some, IfOk, map};
ghost use Rattle.std.specs.List.{list_any};
ghost use Rattle.vb_tree.specs.BoundView.{type_of};
ghost use Rattle.vb_tree.specs.View.{form_of, redim_item_of};
ghost use Rattle.bound_tree.specs.View.{expr_of, shown_line};
ghost use Rattle.bound_facts.specs.Bounds.{whole_of};
ghost use Rattle.bound_facts.specs.Folded.{folded};
ghost use Rattle.bound_facts.specs.Parts.{Extent, first_of, resized_by, resizes};
ghost use Rattle.array_bounds.specs.Resizing.{breaks_copy, breaks_erase, breaks_form, breaks_lows, breaks_resize, has_open, is_free_array, is_loose, is_open, is_over, is_path, is_user_type, is_variable_root};
ghost use Rattle.array_bounds.specs.Views.{extent_of, resize_of};

use crate::arrays::{is_fixed_array, is_loose};
use crate::givens::constant;
use crate::resizes::{ExtentRef, ResizeRef, resizes, resizes_in};
use bound_facts::is_array_type;
use bound_tree::{BoundExpr, BoundNode, LineRef, Root};
use std::alloc::Global;
use up_base::Mem;
use vb_tree::{Form6, ReDimItem6, Type6};

// ---- lower bounds

fn is_open_low(alloc: Global, e: &BoundExpr) -> Result<bool, Mem>
    ensures { IfOk result (λ b. b ≡ (not (is_loose (expr_of e.now)) && not (is_some (whole_of (folded (expr_of e.now)))))) }
{
    if is_loose(e) {
        return Ok(false);
    }
    let value = constant(alloc, e)?;
    Ok(value.is_none())
}

fn is_open(alloc: Global, extent: &ExtentRef) -> Result<bool, Mem>
    ensures { IfOk result (λ b. b ≡ is_open (extent_of extent.now).0) }
{
    match extent.lower {
        Some(e) => Ok(is_open_low(alloc, e)?),
        None => Ok(false),
    }
}

fn has_open(alloc: Global, extents: &[ExtentRef]) -> Result<bool, Mem>
    ensures { IfOk result (λ b. b ≡ list_any (λ (x : Extent). is_open x.0) (map extent_of extents.now)) }
{
    for extent in extents {
        let open = is_open(alloc, extent)?;
        if open {
            return Ok(true);
        }
    }
    Ok(false)
}

fn have_open(alloc: Global, resizes: &[ResizeRef]) -> Result<bool, Mem>
    ensures { IfOk result (λ b. b ≡ list_any has_open (map resize_of resizes.now)) }
{
    for r in resizes {
        let open = has_open(alloc, &r.extents)?;
        if open {
            return Ok(true);
        }
    }
    Ok(false)
}

/// Whether a line is a ReDim with a lower bound that isn't constant.
pub(crate) fn breaks_lows(alloc: Global, line: &LineRef) -> Result<bool, Mem>
    ensures { IfOk result (λ b. b ≡ breaks_lows (shown_line line.now)) }
{
    let resizes = resizes(alloc, &line.source.form, line.bound.exprs.as_slice())?;
    Ok(have_open(alloc, &resizes)?)
}

// ---- arrays

fn is_user_type(ty: &Type6) -> bool
    ensures { result ≡ is_user_type (type_of ty.now) }
{
    match ty {
        Type6::User(_) => true,
        _ => false,
    }
}

fn is_variable_root(root: Root) -> bool
    ensures { result ≡ is_variable_root root }
{
    match root {
        Root::Variable(_) => true,
        _ => false,
    }
}

// Whether an expression is a variable or a path of fields of user types on one.
fn is_path(e: &BoundExpr) -> bool
    ensures { result ≡ is_path (expr_of e.now) }
{
    match &e.node {
        BoundNode::Var(_, _) => true,
        BoundNode::Field(of, _) => is_user_type(&of.ty) && is_path(of),
        BoundNode::WithObject(root) => is_variable_root(*root),
        _ => false,
    }
}

fn is_free_array(e: &BoundExpr) -> bool
    ensures { result ≡ is_free_array (expr_of e.now) }
{
    is_array_type(&e.ty) && is_path(e) && !is_fixed_array(&e.ty)
}

fn is_over(preserve: bool, rank: usize) -> bool
    ensures { result ≡ is_over preserve rank }
{
    rank > 2 || (preserve && rank > 1)
}

fn breaks_resize(preserve: bool, r: &ResizeRef) -> bool
    ensures { result ≡ breaks_resize preserve (resize_of r.now) }
{
    !is_loose(r.array) && (!is_free_array(r.array) || is_over(preserve, r.extents.len()))
}

fn breaks_resizes(preserve: bool, resizes: &[ResizeRef]) -> bool
    ensures { result ≡ list_any (breaks_resize preserve) (map resize_of resizes.now) }
{
    for r in resizes {
        if breaks_resize(preserve, r) {
            return true;
        }
    }
    false
}

fn breaks_erase(e: &BoundExpr) -> bool
    ensures { result ≡ breaks_erase (expr_of e.now) }
{
    !is_loose(e) && !is_free_array(e)
}

#[tactic(auto, using(crate::proofs::Firsts::or_false))]
fn first_breaks_erase(exprs: &[BoundExpr]) -> bool
    ensures { result ≡ list_any breaks_erase (first_of (map expr_of exprs.now)) }
{
    match exprs {
        [e, ..] => breaks_erase(e),
        [] => false,
    }
}

#[tactic(auto, using(crate::proofs::Firsts::or_false))]
fn first_breaks_copy(exprs: &[BoundExpr]) -> bool
    ensures { result ≡ list_any breaks_copy (first_of (map expr_of exprs.now)) }
{
    match exprs {
        [e, ..] => is_fixed_array(&e.ty),
        [] => false,
    }
}

fn redim_breaks(
    alloc: Global,
    preserve: bool,
    items: &[ReDimItem6],
    exprs: &[BoundExpr],
) -> Result<bool, Mem>
    ensures { IfOk result (λ b. b ≡ list_any (breaks_resize preserve) (resizes (map redim_item_of items.now) (map expr_of exprs.now))) }
{
    let resizes = resizes_in(alloc, items, exprs)?;
    Ok(breaks_resizes(preserve, &resizes))
}

/// Whether a line makes anew, erases or assigns whole what can't be.
pub(crate) fn breaks_form(alloc: Global, form: &Form6, exprs: &[BoundExpr]) -> Result<bool, Mem>
    ensures { IfOk result (λ b. b ≡ breaks_form (form_of form.now) (map expr_of exprs.now)) }
{
    match form {
        Form6::ReDim(preserve, items) => Ok(redim_breaks(
            alloc,
            *preserve,
            items.as_slice(),
            exprs,
        )?),
        Form6::Erase(_) => Ok(first_breaks_erase(exprs)),
        Form6::Assign(_, _) => Ok(first_breaks_copy(exprs)),
        _ => Ok(false),
    }
}
