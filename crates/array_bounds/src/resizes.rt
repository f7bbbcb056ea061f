//! The arrays that a ReDim makes anew, each with its bounds: the expressions of the line, taken apart as its source has them.
ghost use Rattle.std.specs.Prelude.{◌≡◌, ◌++◌, ◌∷◌, ◌+◌, ℕ, Bool, true, false, List, IfOk, OnOk, cond, drop, map};
ghost use Rattle.vb_tree.specs.Tree.{Bounds, ReDimItem};
ghost use Rattle.vb_tree.specs.View.{bounds_of, form_of, redim_item_of};
ghost use Rattle.bound_tree.specs.View.{expr_of, shown};
ghost use Rattle.bound_facts.specs.Effects.{resized_stores};
ghost use Rattle.bound_facts.specs.Parts.{Resize, extents, first_of, resized_by, resizes, total};
ghost use Rattle.array_bounds.specs.Views.{extent_of, extents_by, resize_of};

use bound_tree::BoundExpr;
use std::alloc::Global;
use up_base::Mem;
use vb_tree::{Bounds6, Form6, ReDimItem6};

/// The bounds of one dimension of an array that a ReDim makes.
#[derive(Clone, Copy)]
pub struct ExtentRef<'a> {
    pub lower: Option<&'a BoundExpr>,
    pub upper: &'a BoundExpr,
}

/// An array that a ReDim makes, with its bounds.
#[derive(Drop)]
pub struct ResizeRef<'a> {
    pub array: &'a BoundExpr,
    pub extents: Vec<ExtentRef<'a>>,
}

// ---- the bounds of one array

#[tactic(auto, using(crate::proofs::Bounded::extents_none))]
fn push_both<'a>(
    exprs: &'a [BoundExpr],
    to: &mut Vec<ExtentRef<'a>>,
) -> Result<&'a [BoundExpr], Mem>
    ensures { IfOk result (λ rest. (more : List Bounds) → map extent_of to.new.items ++ extents more (map expr_of rest.now) ≡ map extent_of to.old.items ++ extents_by true more (map expr_of exprs.now)) }
{
    match exprs {
        [lower, upper, rest @ ..] => {
            let lower = Some(lower);
            to.push(ExtentRef { lower, upper })?;
            Ok(rest)
        }
        [_] => Ok(&[]),
        [] => Ok(&[]),
    }
}

#[tactic(auto, using(crate::proofs::Bounded::extents_none))]
fn push_upper<'a>(
    exprs: &'a [BoundExpr],
    to: &mut Vec<ExtentRef<'a>>,
) -> Result<&'a [BoundExpr], Mem>
    ensures { IfOk result (λ rest. (more : List Bounds) → map extent_of to.new.items ++ extents more (map expr_of rest.now) ≡ map extent_of to.old.items ++ extents_by false more (map expr_of exprs.now)) }
{
    match exprs {
        [upper, rest @ ..] => {
            to.push(ExtentRef { lower: None, upper })?;
            Ok(rest)
        }
        [] => Ok(&[]),
    }
}

fn push_by<'a>(
    has_lower: bool,
    exprs: &'a [BoundExpr],
    to: &mut Vec<ExtentRef<'a>>,
) -> Result<&'a [BoundExpr], Mem>
    ensures { IfOk result (λ rest. (more : List Bounds) → map extent_of to.new.items ++ extents more (map expr_of rest.now) ≡ map extent_of to.old.items ++ extents_by has_lower more (map expr_of exprs.now)) }
{
    if has_lower {
        Ok(push_both(exprs, to)?)
    } else {
        Ok(push_upper(exprs, to)?)
    }
}

// The extent that some bounds take of expressions; those behind it are left.
#[tactic(auto, using(crate::proofs::Bounded::extents_is))]
fn push_extent<'a>(
    bounds: &Bounds6,
    exprs: &'a [BoundExpr],
    to: &mut Vec<ExtentRef<'a>>,
) -> Result<&'a [BoundExpr], Mem>
    ensures { IfOk result (λ rest. (more : List Bounds) → map extent_of to.new.items ++ extents more (map expr_of rest.now) ≡ map extent_of to.old.items ++ extents (bounds_of bounds.now ∷ more) (map expr_of exprs.now)) }
{
    Ok(push_by(bounds.lower.is_some(), exprs, to)?)
}

fn extents<'a>(
    alloc: Global,
    bounds: &[Bounds6],
    exprs: &'a [BoundExpr],
) -> Result<Vec<ExtentRef<'a>>, Mem>
    ensures { IfOk result (λ v. map extent_of v.items ≡ extents (map bounds_of bounds.now) (map expr_of exprs.now)) }
{
    let mut all = Vec::new(alloc);
    let mut rest = exprs;
    for b in bounds {
        rest = push_extent(b, rest, &mut all)?;
    }
    Ok(all)
}

// ---- the expressions behind them

fn behind_first(exprs: &[BoundExpr]) -> &[BoundExpr]
    ensures { map expr_of result.now ≡ drop 1 (map expr_of exprs.now) }
{
    match exprs {
        [_, rest @ ..] => rest,
        [] => &[],
    }
}

#[tactic(auto, using(crate::proofs::Bounded::two_behind))]
fn behind_by(has_lower: bool, exprs: &[BoundExpr]) -> &[BoundExpr]
    ensures { map expr_of result.now ≡ drop (cond has_lower 2 1) (map expr_of exprs.now) }
{
    if has_lower {
        behind_first(behind_first(exprs))
    } else {
        behind_first(exprs)
    }
}

#[tactic(auto, using(crate::proofs::Bounded::total_behind))]
fn behind_one<'a>(bounds: &Bounds6, exprs: &'a [BoundExpr]) -> &'a [BoundExpr]
    ensures { (more : List Bounds) → drop (total more) (map expr_of result.now) ≡ drop (total (bounds_of bounds.now ∷ more)) (map expr_of exprs.now) }
{
    behind_by(bounds.lower.is_some(), exprs)
}

fn behind<'a>(bounds: &[Bounds6], exprs: &'a [BoundExpr]) -> &'a [BoundExpr]
    ensures { map expr_of result.now ≡ drop (total (map bounds_of bounds.now)) (map expr_of exprs.now) }
{
    let mut rest = exprs;
    for b in bounds {
        rest = behind_one(b, rest);
    }
    rest
}

// ---- all arrays of a line

#[tactic(auto, using(crate::proofs::Bounded::resizes_none))]
fn push_resize<'a>(
    alloc: Global,
    item: &ReDimItem6,
    exprs: &'a [BoundExpr],
    to: &mut Vec<ResizeRef<'a>>,
) -> Result<&'a [BoundExpr], Mem>
    ensures { IfOk result (λ rest. (more : List ReDimItem) → map resize_of to.new.items ++ resizes more (map expr_of rest.now) ≡ map resize_of to.old.items ++ resizes (redim_item_of item.now ∷ more) (map expr_of exprs.now)) }
{
    match exprs {
        [array, rest @ ..] => {
            let extents = extents(alloc, item.bounds.as_slice(), rest)?;
            to.push(ResizeRef { array, extents })?;
            Ok(behind(item.bounds.as_slice(), rest))
        }
        [] => Ok(&[]),
    }
}

/// The arrays of a ReDim.
pub fn resizes_in<'a>(
    alloc: Global,
    items: &[ReDimItem6],
    exprs: &'a [BoundExpr],
) -> Result<Vec<ResizeRef<'a>>, Mem>
    ensures { IfOk result (λ v. map resize_of v.items ≡ resizes (map redim_item_of items.now) (map expr_of exprs.now)) }
{
    let mut all = Vec::new(alloc);
    let mut rest = exprs;
    for item in items {
        rest = push_resize(alloc, item, rest, &mut all)?;
    }
    Ok(all)
}

/// The arrays that a line makes anew.
pub(crate) fn resizes<'a>(
    alloc: Global,
    form: &Form6,
    exprs: &'a [BoundExpr],
) -> Result<Vec<ResizeRef<'a>>, Mem>
    ensures { IfOk result (λ v. map resize_of v.items ≡ resized_by (form_of form.now) (map expr_of exprs.now)) }
{
    match form {
        Form6::ReDim(_, items) => Ok(resizes_in(alloc, items.as_slice(), exprs)?),
        _ => Ok(Vec::new(alloc)),
    }
}

// ---- what a line makes anew, erases or assigns whole

fn first_of<'a>(alloc: Global, exprs: &'a [BoundExpr]) -> Result<Vec<&'a BoundExpr>, Mem>
    ensures { IfOk result (λ v. map shown v.items ≡ first_of (map expr_of exprs.now)) }
{
    let mut all = Vec::new(alloc);
    match exprs {
        [e, ..] => {
            all.push(e)?;
            Ok(all)
        }
        [] => Ok(all),
    }
}

fn arrays_of<'a>(alloc: Global, resizes: &[ResizeRef<'a>]) -> Result<Vec<&'a BoundExpr>, Mem>
    ensures { IfOk result (λ v. map shown v.items ≡ map (λ (r : Resize). r.array) (map resize_of resizes.now)) }
{
    let mut all = Vec::new(alloc);
    for r in resizes {
        all.push(r.array)?;
    }
    Ok(all)
}

fn resized_arrays<'a>(
    alloc: Global,
    items: &[ReDimItem6],
    exprs: &'a [BoundExpr],
) -> Result<Vec<&'a BoundExpr>, Mem>
    ensures { IfOk result (λ v. map shown v.items ≡ map (λ (r : Resize). r.array) (resizes (map redim_item_of items.now) (map expr_of exprs.now))) }
{
    let resizes = resizes_in(alloc, items, exprs)?;
    Ok(arrays_of(alloc, &resizes)?)
}

/// What a line makes anew, erases or assigns whole.
pub(crate) fn resized_stores<'a>(
    alloc: Global,
    form: &Form6,
    exprs: &'a [BoundExpr],
) -> Result<Vec<&'a BoundExpr>, Mem>
    ensures { IfOk result (λ v. map shown v.items ≡ resized_stores (form_of form.now) (map expr_of exprs.now)) }
{
    match form {
        Form6::ReDim(_, items) => Ok(resized_arrays(alloc, items.as_slice(), exprs)?),
        Form6::Erase(_) => Ok(first_of(alloc, exprs)?),
        Form6::Assign(_, _) => Ok(first_of(alloc, exprs)?),
        _ => Ok(Vec::new(alloc)),
    }
}
