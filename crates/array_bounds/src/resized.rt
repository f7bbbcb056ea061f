//! Array variables that lines make anew, erase or assign whole, and those that are passed on to a parameter that is.
ghost use Rattle.std.specs.Prelude.{◌≡◌, ◌++◌, ◌↔◌, ℕ, IsTrue, IfOk, OnOk, Option, map, option_to_list, slice_get};
ghost use Rattle.std.specs.List.{flat_map};
ghost use Rattle.reach_table.specs.Chains.{is_marked};
ghost use Rattle.bound_tree.specs.Lines.{lines_of};
ghost use Rattle.bound_tree.specs.View.{argument_of, declarations_of, expr_of, passed_of, procedure_of, shown, shown_line};
ghost use Rattle.bound_facts.specs.Effects.{node_passes, pair_from, pass_pair, passes, passes_from, passes_items, resized, resized_items, resized_variable};
ghost use Rattle.bound_facts.specs.Facts.{IsResized};
ghost use Rattle.bound_facts.specs.Items.{project_items};
ghost use Rattle.bound_facts.specs.Node.{variable_at};
ghost use Rattle.array_bounds.specs.Programs.{shown_program};

use crate::arrays::{param, params_of};
use crate::numbers::index;
use crate::resizes::resized_stores;
use bound_facts::{LineItems, args_at, called, is_array_type, leading_to, push_items};
use bound_tree::{BoundArg, BoundExpr, BoundNode, Declared, LineRef, ProcDecl};
use std::alloc::Global;
use up_base::Mem;
use vb_tree::VarId;

fn variable_at(e: &BoundExpr) -> Option<u32>
    ensures { result ≡ variable_at (expr_of e.now) }
{
    match &e.node {
        BoundNode::Var(v, _) => Some(v.0),
        _ => None,
    }
}

fn resized_variable(e: &BoundExpr) -> Option<u32>
    ensures { result ≡ resized_variable (expr_of e.now) }
{
    if is_array_type(&e.ty) {
        variable_at(e)
    } else {
        None
    }
}

fn push_number(v: Option<u32>, to: &mut Vec<u32>) -> Result<(), Mem>
    ensures { OnOk result (to.new.items ≡ to.old.items ++ option_to_list v) }
{
    match v {
        Some(v) => Ok(to.push(v)?),
        None => Ok(()),
    }
}

fn push_resized(stores: &[&BoundExpr], to: &mut Vec<u32>) -> Result<(), Mem>
    ensures { OnOk result (to.new.items ≡ to.old.items ++ flat_map (λ e. option_to_list (resized_variable e)) (map shown stores.now)) }
{
    for e in stores {
        push_number(resized_variable(e), to)?;
    }
    Ok(())
}

#[derive(Clone, Copy)]
struct ResizedItems {
    alloc: Global,
}

impl LineItems for ResizedItems {
    type Item = u32;

    ghost items = { λ s i l. resized_items i l };

    fn push(
        &self,
        _procedure: u32,
        line: &LineRef,
        _nodes: &[&BoundExpr],
        to: &mut Vec<u32>,
    ) -> Result<(), Mem> {
        let stores = resized_stores(self.alloc, &line.source.form, line.bound.exprs.as_slice())?;
        Ok(push_resized(&stores, to)?)
    }
}

// ---- what is passed on

fn push_from(v: Option<u32>, w: u32, to: &mut Vec<(u32, u32)>) -> Result<(), Mem>
    ensures { OnOk result (to.new.items ≡ to.old.items ++ pair_from v w) }
{
    match v {
        Some(v) => Ok(to.push((v, w))?),
        None => Ok(()),
    }
}

fn push_to(w: VarId, arg: &BoundArg, to: &mut Vec<(u32, u32)>) -> Result<(), Mem>
    ensures { OnOk result (to.new.items ≡ to.old.items ++ pass_pair (Some w) (argument_of arg.now)) }
{
    match arg {
        BoundArg::ByValue(_) => Ok(()),
        BoundArg::ByReference(e) => Ok(push_from(variable_at(e), w.0, to)?),
    }
}

fn push_pass(w: Option<VarId>, arg: &BoundArg, to: &mut Vec<(u32, u32)>) -> Result<(), Mem>
    ensures { OnOk result (to.new.items ≡ to.old.items ++ pass_pair w (argument_of arg.now)) }
{
    match w {
        Some(w) => Ok(push_to(w, arg, to)?),
        None => Ok(()),
    }
}

fn push_passes(params: &[VarId], args: &[BoundArg], to: &mut Vec<(u32, u32)>) -> Result<(), Mem>
    ensures { OnOk result (to.new.items ≡ to.old.items ++ passes_from params.now 0 (passed_of args.now)) }
{
    for (i, arg) in args.iter().enumerate() {
        push_pass(param(params, i), arg, to)?;
    }
    Ok(())
}

fn push_node(procs: &[ProcDecl], e: &BoundExpr, to: &mut Vec<(u32, u32)>) -> Result<(), Mem>
    ensures { OnOk result (to.new.items ≡ to.old.items ++ node_passes (map procedure_of procs.now) (expr_of e.now)) }
{
    Ok(push_passes(params_of(procs, called(e)), args_at(e), to)?)
}

fn push_nodes(procs: &[ProcDecl], nodes: &[&BoundExpr], to: &mut Vec<(u32, u32)>) -> Result<(), Mem>
    ensures { OnOk result (to.new.items ≡ to.old.items ++ flat_map (node_passes (map procedure_of procs.now)) (map shown nodes.now)) }
{
    for e in nodes {
        push_node(procs, e, to)?;
    }
    Ok(())
}

#[derive(Clone, Copy)]
struct PassItems<'a> {
    procs: &'a [ProcDecl],
}

impl LineItems for PassItems<'_> {
    type Item = (u32, u32);

    ghost items = { λ s i l. passes_items (map procedure_of s.procs.now) i l };

    #[tactic(auto, using(crate::proofs::Uses::passes_of_uses))]
    fn push(
        &self,
        _procedure: u32,
        _line: &LineRef,
        nodes: &[&BoundExpr],
        to: &mut Vec<(u32, u32)>,
    ) -> Result<(), Mem> {
        Ok(push_nodes(self.procs, nodes, to)?)
    }
}

// ---- all of them

fn resized_list(alloc: Global, lines: &[Vec<LineRef>]) -> Result<Vec<u32>, Mem>
    ensures { IfOk result (λ v. v.items ≡ project_items resized_items (map lines_of lines.now)) }
{
    let mut list = Vec::new(alloc);
    push_items(alloc, lines, &ResizedItems { alloc }, &mut list)?;
    Ok(list)
}

fn pass_list(
    alloc: Global,
    declared: &Declared,
    lines: &[Vec<LineRef>],
) -> Result<Vec<(u32, u32)>, Mem>
    ensures { IfOk result (λ v. v.items ≡ passes (shown_program declared.now lines.now)) }
{
    let mut list = Vec::new(alloc);
    let procs = declared.procs.as_slice();
    push_items(alloc, lines, &PassItems { procs }, &mut list)?;
    Ok(list)
}

/// For each variable whether it is one of these.
pub(crate) fn resized_flags(
    alloc: Global,
    declared: &Declared,
    lines: &[Vec<LineRef>],
) -> Result<Vec<bool>, Mem>
    ensures { IfOk result (λ v. (n : ℕ) → IsTrue (is_marked v.items n) ↔ IsResized (shown_program declared.now lines.now) n) }
{
    let list = resized_list(alloc, lines)?;
    let pairs = pass_list(alloc, declared, lines)?;
    let count = index(declared.vars.len())?;
    Ok(leading_to(alloc, count, &pairs, &list)?)
}
