//! Arguments that don't fit their reference parameters.
ghost use Rattle.std.specs.Prelude.{◌≡◌, ◌++◌, ◌&&◌, IfOk, OnOk, Option, map, slice_get};
ghost use Rattle.std.specs.List.{list_any};
ghost use Rattle.bound_tree.specs.View.{argument_of, expr_of, passed_of, procedure_of, shown, shown_line};
ghost use Rattle.bound_facts.specs.Effects.{params_at, params_of};
ghost use Rattle.bound_facts.specs.Nodes.{line_nodes, nodes_of_argument};
ghost use Rattle.byref_analysis.specs.Arguments.{breaks_arguments, calls_part, is_by_reference, is_converted, is_loud_param, is_object_field, is_part_at, is_unfit, misfits, misfits_from, stirs_in, stirs_indexes, stirs_later};
ghost use Rattle.byref_analysis.specs.FactsOf.{quiet_by, stirs_by};

use crate::facts::Facts;
use crate::properties::is_part;
use crate::quiet::is_quiet;
use crate::stirring::Stirring;
use bound_facts::{NodeTest, any_of, args_at, called, is_object_type, push_line_nodes, push_nodes};
use bound_tree::{BoundArg, BoundExpr, BoundNode, Declared, LineRef, ProcDecl};
use std::alloc::Global;
use up_base::{Mem, Sequence};
use vb_tree::VarId;

// ---- what is given

fn is_object_field(e: &BoundExpr) -> bool
    ensures { result ≡ is_object_field (expr_of e.now) }
{
    match &e.node {
        BoundNode::Field(of, _) => is_object_type(&of.ty) || is_object_field(of),
        _ => false,
    }
}

fn is_converted(e: &BoundExpr) -> bool
    ensures { result ≡ is_converted (expr_of e.now) }
{
    match &e.node {
        BoundNode::Convert(_, _) => true,
        _ => false,
    }
}

// Whether an argument has no address that its parameter can take.
fn is_unfit(arg: &BoundArg) -> bool
    ensures { result ≡ is_unfit (argument_of arg.now) }
{
    match arg {
        BoundArg::ByValue(_) => false,
        BoundArg::ByReference(e) => is_converted(e) || is_object_field(e),
    }
}

fn is_by_reference(arg: &BoundArg) -> bool
    ensures { result ≡ is_by_reference (argument_of arg.now) }
{
    match arg {
        BoundArg::ByValue(_) => false,
        BoundArg::ByReference(_) => true,
    }
}

// ---- parameters that aren't quiet

fn params_at(procs: &Sequence<ProcDecl>, p: u32) -> &[VarId]
    ensures { result.now ≡ params_at (slice_get (map procedure_of procs.now) p) }
{
    match procs.get(p as usize) {
        Some(p) => p.params.as_slice(),
        None => &[],
    }
}

// The parameters of a procedure.
fn params_of(procs: &Sequence<ProcDecl>, p: Option<u32>) -> &[VarId]
    ensures { result.now ≡ params_of (map procedure_of procs.now) p }
{
    match p {
        Some(p) => params_at(procs, p),
        None => &[],
    }
}

fn param(params: &[VarId], i: usize) -> Option<VarId>
    ensures { result ≡ slice_get params.now i }
{
    params.get(i).copied()
}

fn is_loud_param(declared: &Declared, facts: &Facts, w: Option<VarId>) -> bool
    ensures { result ≡ is_loud_param (quiet_by declared.now facts.now) w }
{
    match w {
        Some(w) => !is_quiet(declared, facts, w),
        None => false,
    }
}

fn misfits_from(declared: &Declared, facts: &Facts, params: &[VarId], args: &[BoundArg]) -> bool
    ensures { result ≡ misfits_from (quiet_by declared.now facts.now) params.now 0 (passed_of args.now) }
{
    for (i, arg) in args.iter().enumerate() {
        if is_unfit(arg) && is_loud_param(declared, facts, param(params, i)) {
            return true;
        }
    }
    false
}

#[derive(Clone, Copy)]
struct Misfits<'a> {
    declared: &'a Declared,
    facts: &'a Facts,
}

impl NodeTest for Misfits<'_> {
    ghost test = { λ s e. misfits (map procedure_of s.declared.now.procs) (quiet_by s.declared.now s.facts.now) e };

    fn holds(&self, e: &BoundExpr) -> bool {
        misfits_from(
            self.declared,
            self.facts,
            params_of(&self.declared.procs, called(e)),
            args_at(e),
        )
    }
}

// ---- index parameters of properties

fn push_argument<'a>(arg: &'a BoundArg, to: &mut Vec<&'a BoundExpr>) -> Result<(), Mem>
    ensures { OnOk result (map shown to.new.items ≡ map shown to.old.items ++ nodes_of_argument (argument_of arg.now)) }
{
    match arg {
        BoundArg::ByValue(e) => Ok(push_nodes(e, to)?),
        BoundArg::ByReference(e) => Ok(push_nodes(e, to)?),
    }
}

fn stirs_in(alloc: Global, stirring: &Stirring, arg: &BoundArg) -> Result<bool, Mem>
    ensures { IfOk result (λ b. b ≡ stirs_in (stirs_by stirring.now) (argument_of arg.now)) }
{
    let mut nodes = Vec::new(alloc);
    push_argument(arg, &mut nodes)?;
    Ok(any_of(&nodes, stirring))
}

// Whether an argument behind one that is given by reference has a stirring use.
fn stirs_behind(
    alloc: Global,
    stirring: &Stirring,
    given: bool,
    arg: &BoundArg,
) -> Result<bool, Mem>
    ensures { IfOk result (λ b. b ≡ (given && stirs_in (stirs_by stirring.now) (argument_of arg.now))) }
{
    if !given {
        return Ok(false);
    }
    Ok(stirs_in(alloc, stirring, arg)?)
}

#[tactic(auto, using(crate::proofs::Later::stirs_here, crate::proofs::Later::goes_on))]
fn stirs_later(alloc: Global, stirring: &Stirring, args: &[BoundArg]) -> Result<bool, Mem>
    ensures { IfOk result (λ b. b ≡ stirs_later (stirs_by stirring.now) (passed_of args.now)) }
{
    let mut given = false;
    for arg in args {
        let stirs = stirs_behind(alloc, stirring, given, arg)?;
        if stirs {
            return Ok(true);
        }
        given = given || is_by_reference(arg);
    }
    Ok(false)
}

fn is_part_at(procs: &Sequence<ProcDecl>, p: u32) -> bool
    ensures { result ≡ is_part_at (slice_get (map procedure_of procs.now) p) }
{
    match procs.get(p as usize) {
        Some(p) => is_part(p.kind),
        None => false,
    }
}

fn calls_part(procs: &Sequence<ProcDecl>, p: Option<u32>) -> bool
    ensures { result ≡ calls_part (map procedure_of procs.now) p }
{
    match p {
        Some(p) => is_part_at(procs, p),
        None => false,
    }
}

fn stirs_indexes(alloc: Global, stirring: &Stirring, e: &BoundExpr) -> Result<bool, Mem>
    ensures { IfOk result (λ b. b ≡ stirs_indexes (map procedure_of stirring.now.declared.now.procs) (stirs_by stirring.now) (expr_of e.now)) }
{
    if !calls_part(&stirring.declared.procs, called(e)) {
        return Ok(false);
    }
    Ok(stirs_later(alloc, stirring, args_at(e))?)
}

fn some_stir_indexes(alloc: Global, stirring: &Stirring, nodes: &[&BoundExpr]) -> Result<bool, Mem>
    ensures { IfOk result (λ b. b ≡ list_any (stirs_indexes (map procedure_of stirring.now.declared.now.procs) (stirs_by stirring.now)) (map shown nodes.now)) }
{
    for e in nodes {
        let stirs = stirs_indexes(alloc, stirring, e)?;
        if stirs {
            return Ok(true);
        }
    }
    Ok(false)
}

// ---- lines

fn breaks_nodes(
    alloc: Global,
    stirring: &Stirring,
    line: &LineRef,
    nodes: &[&BoundExpr],
) -> Result<bool, Mem>
    requires { map shown nodes.now ≡ line_nodes (shown_line line.now) }
    ensures { IfOk result (λ b. b ≡ breaks_arguments (map procedure_of stirring.now.declared.now.procs) (quiet_by stirring.now.declared.now stirring.now.facts.now) (stirs_by stirring.now) (shown_line line.now)) }
{
    let stirs = some_stir_indexes(alloc, stirring, nodes)?;
    let misfits = Misfits {
        declared: stirring.declared,
        facts: stirring.facts,
    };
    Ok(any_of(nodes, &misfits) || stirs)
}

/// Whether a line gives an argument that doesn't fit its reference parameter.
pub(crate) fn breaks_arguments(
    alloc: Global,
    stirring: &Stirring,
    line: &LineRef,
) -> Result<bool, Mem>
    ensures { IfOk result (λ b. b ≡ breaks_arguments (map procedure_of stirring.now.declared.now.procs) (quiet_by stirring.now.declared.now stirring.now.facts.now) (stirs_by stirring.now) (shown_line line.now)) }
{
    let mut nodes = Vec::new(alloc);
    push_line_nodes(line, &mut nodes)?;
    Ok(breaks_nodes(alloc, stirring, line, &nodes)?)
}
