//! Uses of arrays that don't fit their rank or their bounds.
ghost use Rattle.std.specs.Prelude.{◌≡◌, ◌||◌, ◌&&◌, Option, not, nat_eq, nat_lt, IfOk, map};
ghost use Rattle.std.specs.List.{list_any};
ghost use Rattle.vb_tree.specs.View.{form_of};
ghost use Rattle.bound_tree.specs.View.{argument_of, declarations_of, expr_of, exprs_of, passed_of, shown, shown_line, term_of};
ghost use Rattle.bound_facts.specs.Bounds.{array_at};
ghost use Rattle.bound_facts.specs.Effects.{params_of};
ghost use Rattle.bound_facts.specs.Folded.{folded};
ghost use Rattle.bound_facts.specs.Node.{args_at, called, type_at};
ghost use Rattle.array_bounds.specs.Elements.{asks_above, breaks_forms, breaks_node, count, dimension_in, gives_fixed, given_expr, is_above, is_bound_lib, is_resized_at, misfits, misfits_in, rank_at};
ghost use Rattle.array_bounds.specs.FactsOf.{known_of};
ghost use Rattle.array_bounds.specs.Types.{is_fixed_array};

use crate::arrays::{array_at, given_expr, is_fixed_array, param, params_of};
use crate::facts::{Facts, rank_at};
use crate::locks::flag_at;
use crate::resizing::breaks_form;
use bound_facts::{args_at, called, folded, push_line_nodes};
use bound_tree::{BoundArg, BoundExpr, BoundNode, LineRef};
use std::alloc::Global;
use typing_rows::dimension_of;
use up_base::Mem;
use vb_tree::{LibCall, Value6, VarId};

// ---- indexes

#[tactic(auto, using(crate::proofs::Firsts::count_listed))]
fn misfits_indexes(facts: &Facts, of: &BoundExpr, indexes: &[BoundExpr]) -> bool
    ensures { result ≡ not (nat_eq (count (exprs_of indexes.now)) (rank_at (known_of facts.now) (array_at (declarations_of facts.now.declared.now) (expr_of of.now)))) }
{
    indexes.len() != rank_at(facts, array_at(facts.declared, of)) as usize
}

// ---- the bounds of a dimension

fn is_bound_lib(function: LibCall) -> bool
    ensures { result ≡ is_bound_lib function }
{
    match function {
        LibCall::UBound => true,
        LibCall::LBound => true,
        _ => false,
    }
}

fn dimension_in(value: &Option<Value6>) -> Option<u8>
    ensures { result ≡ dimension_in value.now }
{
    match value {
        Some(x) => dimension_of(x),
        None => None,
    }
}

fn is_above(dimension: Option<u8>, rank: u32) -> bool
    ensures { result ≡ is_above dimension rank }
{
    match dimension {
        Some(d) => rank < d as u32,
        None => false,
    }
}

fn asks_above_at(
    alloc: Global,
    facts: &Facts,
    array: &BoundExpr,
    dimension: &BoundExpr,
) -> Result<bool, Mem>
    ensures { IfOk result (λ b. b ≡ is_above (dimension_in (folded (expr_of dimension.now))) (rank_at (known_of facts.now) (array_at (declarations_of facts.now.declared.now) (expr_of array.now)))) }
{
    let value = folded(alloc, dimension)?;
    let rank = rank_at(facts, array_at(facts.declared, array));
    Ok(is_above(dimension_in(&value), rank))
}

fn asks_above(alloc: Global, facts: &Facts, args: &[BoundExpr]) -> Result<bool, Mem>
    ensures { IfOk result (λ b. b ≡ asks_above (declarations_of facts.now.declared.now) (known_of facts.now) (exprs_of args.now)) }
{
    match args {
        [array, dimension, ..] => Ok(asks_above_at(alloc, facts, array, dimension)?),
        [_] => Ok(false),
        [] => Ok(false),
    }
}

fn misfits_lib(
    alloc: Global,
    facts: &Facts,
    function: LibCall,
    args: &[BoundExpr],
) -> Result<bool, Mem>
    ensures { IfOk result (λ b. b ≡ (is_bound_lib function && asks_above (declarations_of facts.now.declared.now) (known_of facts.now) (exprs_of args.now))) }
{
    if !is_bound_lib(function) {
        return Ok(false);
    }
    Ok(asks_above(alloc, facts, args)?)
}

fn misfits_in(alloc: Global, facts: &Facts, node: &BoundNode) -> Result<bool, Mem>
    ensures { IfOk result (λ b. b ≡ misfits_in (declarations_of facts.now.declared.now) (known_of facts.now) (term_of node.now)) }
{
    match node {
        BoundNode::Element(of, indexes) => Ok(misfits_indexes(facts, of, indexes)),
        BoundNode::Lib(function, args) => Ok(misfits_lib(alloc, facts, *function, args)?),
        _ => Ok(false),
    }
}

// ---- fixed arrays as arguments

fn is_resized_at(facts: &Facts, w: Option<VarId>) -> bool
    ensures { result ≡ is_resized_at (known_of facts.now) w }
{
    match w {
        Some(w) => flag_at(&facts.resized, w.0),
        None => false,
    }
}

fn gives_fixed(facts: &Facts, params: &[VarId], args: &[BoundArg]) -> bool
    ensures { result ≡ gives_fixed (known_of facts.now) params.now 0 (passed_of args.now) }
{
    for (i, arg) in args.iter().enumerate() {
        if is_fixed_array(&given_expr(arg).ty) && is_resized_at(facts, param(params, i)) {
            return true;
        }
    }
    false
}

fn call_gives_fixed(facts: &Facts, e: &BoundExpr) -> bool
    ensures { result ≡ gives_fixed (known_of facts.now) (params_of (declarations_of facts.now.declared.now).procs (called (expr_of e.now))) 0 (args_at (expr_of e.now)) }
{
    let params = params_of(facts.declared.procs.as_slice(), called(e));
    gives_fixed(facts, params, args_at(e))
}

// ---- lines

fn breaks_node(alloc: Global, facts: &Facts, e: &BoundExpr) -> Result<bool, Mem>
    ensures { IfOk result (λ b. b ≡ breaks_node (declarations_of facts.now.declared.now) (known_of facts.now) (expr_of e.now)) }
{
    let misfits = misfits_in(alloc, facts, &e.node)?;
    Ok(misfits || call_gives_fixed(facts, e))
}

fn breaks_nodes(alloc: Global, facts: &Facts, nodes: &[&BoundExpr]) -> Result<bool, Mem>
    ensures { IfOk result (λ b. b ≡ list_any (breaks_node (declarations_of facts.now.declared.now) (known_of facts.now)) (map shown nodes.now)) }
{
    for e in nodes {
        let breaks = breaks_node(alloc, facts, e)?;
        if breaks {
            return Ok(true);
        }
    }
    Ok(false)
}

/// Whether a line uses an array in a form that isn't translated.
pub(crate) fn breaks_forms(alloc: Global, facts: &Facts, line: &LineRef) -> Result<bool, Mem>
    ensures { IfOk result (λ b. b ≡ breaks_forms (declarations_of facts.now.declared.now) (known_of facts.now) (shown_line line.now)) }
{
    let form = breaks_form(alloc, &line.source.form, line.bound.exprs.as_slice())?;
    let mut nodes = Vec::new(alloc);
    push_line_nodes(line, &mut nodes)?;
    let uses = breaks_nodes(alloc, facts, &nodes)?;
    Ok(form || uses)
}
