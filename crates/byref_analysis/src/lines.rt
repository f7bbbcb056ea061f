//! The expressions of a line by what they are in it.
ghost use Rattle.std.specs.Prelude.{◌≡◌, ◌++◌, ◌+◌, OnOk, IfOk, cond, map, take, drop};
ghost use Rattle.std.specs.List.{flat_map};
ghost use Rattle.vb_tree.specs.View.{bounds_of, form_of, redim_item_of};
ghost use Rattle.bound_tree.specs.View.{expr_of, shown, shown_line};
ghost use Rattle.bound_facts.specs.Nodes.{line_nodes, nodes};
ghost use Rattle.bound_facts.specs.Parts.{bound_count, first_of, line_stores, line_uses, stores, total};
ghost use Rattle.byref_analysis.specs.Lines.{arrays_in, behind_bounds, behind_first, bounds_in, is_no_call, is_set_alone, own_bounds};

use bound_facts::{called, push_nodes};
use bound_tree::{BoundExpr, LineRef};
use std::alloc::Global;
use up_base::Mem;
use vb_tree::{Bounds6, Form6, ReDimItem6};

// ---- uses

fn is_no_call(exprs: &[BoundExpr]) -> bool
    ensures { result ≡ is_no_call (map expr_of exprs.now) }
{
    match exprs {
        [e, ..] => called(e).is_none(),
        [] => false,
    }
}

// Whether the first expression of a line is written to and not used.
fn is_set_alone(form: &Form6, exprs: &[BoundExpr]) -> bool
    ensures { result ≡ is_set_alone (form_of form.now) (map expr_of exprs.now) }
{
    match form {
        Form6::Set(_, _) => is_no_call(exprs),
        _ => false,
    }
}

fn is_line_alone(line: &LineRef) -> bool
    ensures { result ≡ is_set_alone (shown_line line.now).source.form (shown_line line.now).bindings.exprs }
{
    is_set_alone(&line.source.form, line.bound.exprs.as_slice())
}

fn behind_node<'a, 'b>(nodes: &'b [&'a BoundExpr]) -> &'b [&'a BoundExpr]
    ensures { map shown result.now ≡ drop 1 (map shown nodes.now) }
{
    match nodes {
        [_, rest @ ..] => rest,
        [] => nodes,
    }
}

fn used_by<'a, 'b>(alone: bool, nodes: &'b [&'a BoundExpr]) -> &'b [&'a BoundExpr]
    ensures { map shown result.now ≡ cond alone (drop 1 (map shown nodes.now)) (map shown nodes.now) }
{
    if alone { behind_node(nodes) } else { nodes }
}

/// The nodes of a line's expressions that are used.
#[tactic(auto, using(crate::proofs::Uses::uses_are))]
pub(crate) fn used<'a, 'b>(line: &LineRef, nodes: &'b [&'a BoundExpr]) -> &'b [&'a BoundExpr]
    requires { map shown nodes.now ≡ line_nodes (shown_line line.now) }
    ensures { map shown result.now ≡ line_uses (shown_line line.now) }
{
    used_by(is_line_alone(line), nodes)
}

// ---- stores

fn bound_count(b: &Bounds6) -> usize
    ensures { result ≡ bound_count (bounds_of b.now) }
{
    if b.lower.is_some() { 2 } else { 1 }
}

// How many bounds some dimensions have; past the numbers of the machine want of memory.
fn total(bounds: &[Bounds6]) -> Result<usize, Mem>
    ensures { IfOk result (λ n. n ≡ total (map bounds_of bounds.now)) }
{
    let mut sum: usize = 0;
    for b in bounds {
        sum = add(sum, bound_count(b))?;
    }
    Ok(sum)
}

fn add(a: usize, b: usize) -> Result<usize, Mem>
    ensures { IfOk result (λ n. n ≡ a + b) }
{
    match a.checked_add(b) {
        Some(n) => Ok(n),
        None => Err(Mem),
    }
}

fn behind_first(exprs: &[BoundExpr]) -> &[BoundExpr]
    ensures { map expr_of result.now ≡ behind_first (map expr_of exprs.now) }
{
    match exprs {
        [_, rest @ ..] => rest,
        [] => exprs,
    }
}

fn front(exprs: &[BoundExpr], n: usize) -> &[BoundExpr]
    ensures { result.now ≡ take n exprs.now }
{
    if n < exprs.len() { &exprs[..n] } else { exprs }
}

fn back(exprs: &[BoundExpr], n: usize) -> &[BoundExpr]
    ensures { result.now ≡ drop n exprs.now }
{
    if n < exprs.len() { &exprs[n..] } else { &[] }
}

// The bounds of an array that stands first.
fn own_bounds<'a>(item: &ReDimItem6, exprs: &'a [BoundExpr]) -> Result<&'a [BoundExpr], Mem>
    ensures { IfOk result (λ own. map expr_of own.now ≡ own_bounds (redim_item_of item.now).bounds (map expr_of exprs.now)) }
{
    let n = total(item.bounds.as_slice())?;
    Ok(front(behind_first(exprs), n))
}

// What stands behind them.
fn behind_bounds<'a>(item: &ReDimItem6, exprs: &'a [BoundExpr]) -> Result<&'a [BoundExpr], Mem>
    ensures { IfOk result (λ rest. map expr_of rest.now ≡ behind_bounds (redim_item_of item.now).bounds (map expr_of exprs.now)) }
{
    let n = total(item.bounds.as_slice())?;
    Ok(back(behind_first(exprs), n))
}

fn push_first<'a>(exprs: &'a [BoundExpr], to: &mut Vec<&'a BoundExpr>) -> Result<(), Mem>
    ensures { OnOk result (map shown to.new.items ≡ map shown to.old.items ++ first_of (map expr_of exprs.now)) }
{
    match exprs {
        [e, ..] => Ok(to.push(e)?),
        [] => Ok(()),
    }
}

// The arrays of a ReDim.
fn push_arrays<'a>(
    items: &[ReDimItem6],
    exprs: &'a [BoundExpr],
    to: &mut Vec<&'a BoundExpr>,
) -> Result<(), Mem>
    ensures { OnOk result (map shown to.new.items ≡ map shown to.old.items ++ arrays_in (map redim_item_of items.now) (map expr_of exprs.now)) }
{
    let mut rest = exprs;
    for item in items {
        push_first(rest, to)?;
        rest = behind_bounds(item, rest)?;
    }
    Ok(())
}

fn push_all<'a>(exprs: &'a [BoundExpr], to: &mut Vec<&'a BoundExpr>) -> Result<(), Mem>
    ensures { OnOk result (map shown to.new.items ≡ map shown to.old.items ++ flat_map nodes (map expr_of exprs.now)) }
{
    for e in exprs {
        push_nodes(e, to)?;
    }
    Ok(())
}

/// Appends the nodes of the bounds of a ReDim.
pub(crate) fn push_bounds<'a>(
    items: &[ReDimItem6],
    exprs: &'a [BoundExpr],
    to: &mut Vec<&'a BoundExpr>,
) -> Result<(), Mem>
    ensures { OnOk result (map shown to.new.items ≡ map shown to.old.items ++ flat_map nodes (bounds_in (map redim_item_of items.now) (map expr_of exprs.now))) }
{
    let mut rest = exprs;
    for item in items {
        push_all(own_bounds(item, rest)?, to)?;
        rest = behind_bounds(item, rest)?;
    }
    Ok(())
}

fn push_stores<'a>(
    form: &Form6,
    exprs: &'a [BoundExpr],
    to: &mut Vec<&'a BoundExpr>,
) -> Result<(), Mem>
    ensures { OnOk result (map shown to.new.items ≡ map shown to.old.items ++ stores (form_of form.now) (map expr_of exprs.now)) }
{
    match form {
        Form6::Assign(_, _) => Ok(push_first(exprs, to)?),
        Form6::Set(_, _) => Ok(push_first(exprs, to)?),
        Form6::For(_) => Ok(push_first(exprs, to)?),
        Form6::ForEach(_, _, _) => Ok(push_first(exprs, to)?),
        Form6::ReDim(_, items) => Ok(push_arrays(items.as_slice(), exprs, to)?),
        Form6::Erase(_) => Ok(push_first(exprs, to)?),
        _ => Ok(()),
    }
}

/// What a line stores to.
pub(crate) fn stores<'a>(alloc: Global, line: &LineRef<'a>) -> Result<Vec<&'a BoundExpr>, Mem>
    ensures { IfOk result (λ v. map shown v.items ≡ line_stores (shown_line line.now)) }
{
    let mut all = Vec::new(alloc);
    push_stores(&line.source.form, line.bound.exprs.as_slice(), &mut all)?;
    Ok(all)
}
