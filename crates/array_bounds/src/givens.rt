//! The lower bounds and the ranks that declarations and ReDims give to arrays, each with the dimension that it is about.
ghost use Rattle.std.specs.Prelude.{◌≡◌, ◌++◌, ◌∷◌, [], ℕ, Some, Option, OnOk, IfOk, map, option_map, slice_get};
ghost use Rattle.std.specs.List.{flat_map};
ghost use Rattle.vb_tree.specs.BoundView.{type_of};
ghost use Rattle.vb_tree.specs.View.{form_of, member_of, module_of, project_of};
ghost use Rattle.bound_tree.specs.Lines.{lines_of};
ghost use Rattle.bound_tree.specs.View.{declarations_of, expr_of, procedure_of, program_of, shown, shown_line, variable_of};
ghost use Rattle.bound_facts.specs.Bounds.{array_at, base_in, base_of, first_base, fixed_rank, home_base, low_in, member_base, option_base_of, whole_in, whole_of};
ghost use Rattle.bound_facts.specs.Folded.{folded};
ghost use Rattle.bound_facts.specs.Items.{project_items};
ghost use Rattle.array_bounds.specs.Givens.{all_lows, all_ranks, bound_lows, extent_lows, given_at, line_lows, line_ranks, resize_lows, resize_ranks, variable_lows, variable_ranks, whole};
ghost use Rattle.array_bounds.specs.Views.{extent_of, resize_of};

use crate::arrays::array_at;
use crate::bases::home_base;
use crate::numbers::{index, signed};
use crate::resizes::{ExtentRef, ResizeRef, resizes};
use bound_facts::{LineItems, folded, push_items};
use bound_tree::{BoundExpr, Declared, LineRef, VarDecl};
use std::alloc::Global;
use up_base::Mem;
use vb_tree::{Type6, Value6};

/// A number that is given to an array in a dimension, counted from 0.
#[derive(Clone, Copy, Debug, PartialEq, Eq)]
pub(crate) struct Given {
    pub array: u32,
    pub dimension: usize,
    pub number: i32,
}

fn push_at(array: usize, dimension: usize, number: i32, to: &mut Vec<Given>) -> Result<(), Mem>
    ensures { OnOk result (to.new.items ≡ to.old.items ++ given_at (Some array) dimension (Some number)) }
{
    let array = index(array)?;
    Ok(to.push(Given {
        array,
        dimension,
        number,
    })?)
}

fn push_given(
    array: Option<usize>,
    dimension: usize,
    number: Option<i32>,
    to: &mut Vec<Given>,
) -> Result<(), Mem>
    ensures { OnOk result (to.new.items ≡ to.old.items ++ given_at array dimension number) }
{
    match (array, number) {
        (Some(a), Some(z)) => Ok(push_at(a, dimension, z, to)?),
        _ => Ok(()),
    }
}

// ---- lower bounds

fn whole_in(value: &Value6) -> Option<i32>
    ensures { result ≡ whole_in value.now }
{
    match value {
        Value6::Byte(n) => Some(i32::from(*n)),
        Value6::Int(z) => Some(i32::from(*z)),
        Value6::Long(z) => Some(*z),
        _ => None,
    }
}

fn whole_of(value: &Option<Value6>) -> Option<i32>
    ensures { result ≡ whole_of value.now }
{
    match value {
        None => None,
        Some(x) => whole_in(x),
    }
}

/// The whole number that an expression is, where it is constant.
pub(crate) fn constant(alloc: Global, e: &BoundExpr) -> Result<Option<i32>, Mem>
    ensures { IfOk result (λ z. z ≡ whole_of (folded (expr_of e.now))) }
{
    let value = folded(alloc, e)?;
    Ok(whole_of(&value))
}

/// The lower bound of an extent, where it is constant: `base` where none is written.
pub fn low_in(alloc: Global, base: i32, extent: &ExtentRef) -> Result<Option<i32>, Mem>
    ensures { IfOk result (λ z. z ≡ low_in base (extent_of extent.now).0) }
{
    match extent.lower {
        None => Ok(Some(base)),
        Some(e) => Ok(constant(alloc, e)?),
    }
}

fn push_extent(
    alloc: Global,
    base: i32,
    array: Option<usize>,
    dimension: usize,
    extent: &ExtentRef,
    to: &mut Vec<Given>,
) -> Result<(), Mem>
    ensures { OnOk result (to.new.items ≡ to.old.items ++ given_at array dimension (low_in base (extent_of extent.now).0)) }
{
    let low = low_in(alloc, base, extent)?;
    Ok(push_given(array, dimension, low, to)?)
}

fn push_extents(
    alloc: Global,
    base: i32,
    array: Option<usize>,
    extents: &[ExtentRef],
    to: &mut Vec<Given>,
) -> Result<(), Mem>
    ensures { OnOk result (to.new.items ≡ to.old.items ++ extent_lows base array 0 (map extent_of extents.now)) }
{
    for (d, extent) in extents.iter().enumerate() {
        push_extent(alloc, base, array, d, extent, to)?;
    }
    Ok(())
}

fn push_resize_lows(
    alloc: Global,
    declared: &Declared,
    base: i32,
    resizes: &[ResizeRef],
    to: &mut Vec<Given>,
) -> Result<(), Mem>
    ensures { OnOk result (to.new.items ≡ to.old.items ++ flat_map (resize_lows (declarations_of declared.now) base) (map resize_of resizes.now)) }
{
    for r in resizes {
        push_extents(alloc, base, array_at(declared, r.array), &r.extents, to)?;
    }
    Ok(())
}

#[derive(Clone, Copy)]
struct Lows<'a> {
    alloc: Global,
    declared: &'a Declared,
}

impl LineItems for Lows<'_> {
    type Item = Given;

    ghost items = { λ s i l. line_lows (declarations_of s.declared.now) i l };

    fn push(
        &self,
        procedure: u32,
        line: &LineRef,
        _nodes: &[&BoundExpr],
        to: &mut Vec<Given>,
    ) -> Result<(), Mem> {
        let base = home_base(self.declared, procedure);
        let resizes = resizes(self.alloc, &line.source.form, line.bound.exprs.as_slice())?;
        Ok(push_resize_lows(self.alloc, self.declared, base, &resizes, to)?)
    }
}

fn push_bounds(k: usize, bounds: &[(i32, i32)], to: &mut Vec<Given>) -> Result<(), Mem>
    ensures { OnOk result (to.new.items ≡ to.old.items ++ bound_lows k 0 bounds.now) }
{
    for (d, b) in bounds.iter().enumerate() {
        push_at(k, d, b.0, to)?;
    }
    Ok(())
}

fn push_variable_lows(vars: &[VarDecl], to: &mut Vec<Given>) -> Result<(), Mem>
    ensures { OnOk result (to.new.items ≡ to.old.items ++ variable_lows 0 (map variable_of vars.now)) }
{
    for (i, v) in vars.iter().enumerate() {
        push_bounds(i, v.bounds.as_slice(), to)?;
    }
    Ok(())
}

fn push_line_lows(
    alloc: Global,
    declared: &Declared,
    lines: &[Vec<LineRef>],
    to: &mut Vec<Given>,
) -> Result<(), Mem>
    ensures { OnOk result (to.new.items ≡ to.old.items ++ project_items (line_lows (declarations_of declared.now)) (map lines_of lines.now)) }
{
    Ok(push_items(alloc, lines, &Lows { alloc, declared }, to)?)
}

/// All lower bounds.
pub(crate) fn all_lows(
    alloc: Global,
    declared: &Declared,
    lines: &[Vec<LineRef>],
) -> Result<Vec<Given>, Mem>
    ensures { IfOk result (λ v. v.items ≡ variable_lows 0 (declarations_of declared.now).vars ++ project_items (line_lows (declarations_of declared.now)) (map lines_of lines.now)) }
{
    let mut all = Vec::new(alloc);
    push_variable_lows(declared.vars.as_slice(), &mut all)?;
    push_line_lows(alloc, declared, lines, &mut all)?;
    Ok(all)
}

// ---- ranks

fn push_rank(declared: &Declared, resize: &ResizeRef, to: &mut Vec<Given>) -> Result<(), Mem>
    ensures { OnOk result (to.new.items ≡ to.old.items ++ resize_ranks (declarations_of declared.now) (resize_of resize.now)) }
{
    let rank = signed(resize.extents.len())?;
    Ok(push_given(array_at(declared, resize.array), 0, Some(rank), to)?)
}

fn push_resize_ranks(
    declared: &Declared,
    resizes: &[ResizeRef],
    to: &mut Vec<Given>,
) -> Result<(), Mem>
    ensures { OnOk result (to.new.items ≡ to.old.items ++ flat_map (resize_ranks (declarations_of declared.now)) (map resize_of resizes.now)) }
{
    for r in resizes {
        push_rank(declared, r, to)?;
    }
    Ok(())
}

#[derive(Clone, Copy)]
struct Ranks<'a> {
    alloc: Global,
    declared: &'a Declared,
}

impl LineItems for Ranks<'_> {
    type Item = Given;

    ghost items = { λ s i l. line_ranks (declarations_of s.declared.now) i l };

    fn push(
        &self,
        _procedure: u32,
        line: &LineRef,
        _nodes: &[&BoundExpr],
        to: &mut Vec<Given>,
    ) -> Result<(), Mem> {
        let resizes = resizes(self.alloc, &line.source.form, line.bound.exprs.as_slice())?;
        Ok(push_resize_ranks(self.declared, &resizes, to)?)
    }
}

fn fixed_rank(ty: &Type6) -> Option<i32>
    ensures { result ≡ whole (fixed_rank (type_of ty.now)) }
{
    match ty {
        Type6::Array(_, rank) => {
            if *rank > 0 {
                Some(i32::from(*rank))
            } else {
                None
            }
        }
        _ => None,
    }
}

fn push_variable_ranks(vars: &[VarDecl], to: &mut Vec<Given>) -> Result<(), Mem>
    ensures { OnOk result (to.new.items ≡ to.old.items ++ variable_ranks 0 (map variable_of vars.now)) }
{
    for (i, v) in vars.iter().enumerate() {
        push_given(Some(i), 0, fixed_rank(&v.ty), to)?;
    }
    Ok(())
}

fn push_line_ranks(
    alloc: Global,
    declared: &Declared,
    lines: &[Vec<LineRef>],
    to: &mut Vec<Given>,
) -> Result<(), Mem>
    ensures { OnOk result (to.new.items ≡ to.old.items ++ project_items (line_ranks (declarations_of declared.now)) (map lines_of lines.now)) }
{
    Ok(push_items(alloc, lines, &Ranks { alloc, declared }, to)?)
}

/// All ranks.
pub(crate) fn all_ranks(
    alloc: Global,
    declared: &Declared,
    lines: &[Vec<LineRef>],
) -> Result<Vec<Given>, Mem>
    ensures { IfOk result (λ v. v.items ≡ variable_ranks 0 (declarations_of declared.now).vars ++ project_items (line_ranks (declarations_of declared.now)) (map lines_of lines.now)) }
{
    let mut all = Vec::new(alloc);
    push_variable_ranks(declared.vars.as_slice(), &mut all)?;
    push_line_ranks(alloc, declared, lines, &mut all)?;
    Ok(all)
}
