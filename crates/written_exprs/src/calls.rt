//! What is written for calls of procedures.
ghost use Rattle.std.specs.Prelude.{◌≡◌, IfOk, OnOk};
ghost use Rattle.bound_tree.specs.View.{argument_of, declarations_of, object_of, passed_of};
ghost use Rattle.net_tree.specs.View.{exp_of, exps_of};
ghost use Rattle.net_tree.specs.Tree as net;
ghost use Rattle.written_trees.specs.Arguments as rows;
ghost use Rattle.written_trees.specs.Exprs as exprs;
ghost use Rattle.written_rows.specs.View.{scope_of};
ghost use Rattle.written_exprs.specs.Lists.{exps_before};

use crate::arguments::{argument_exp, is_property, takes_reference};
use crate::parts::push_exp;
use bound_tree::{BoundArg, BoundExpr};
use net_tree::NetExpr;
use std::alloc::Global;
use up_base::Mem;
use written_rows::{Scope, call_of};

fn is_procedure(own: Option<u32>, procedure: u32) -> bool
    ensures { result ≡ exprs.is_procedure own procedure }
{
    match own {
        None => false,
        Some(own) => own == procedure,
    }
}

fn is_without_object(of: &Option<Box<BoundExpr>>) -> bool
    ensures { result ≡ exprs.is_without_object (object_of of.now) }
{
    match of {
        None => true,
        Some(_) => false,
    }
}

// A property that its own Get names by itself, where its name alone is its result.
fn reads_itself(scope: &Scope, procedure: u32, qualified: bool, of: &Option<Box<BoundExpr>>) -> bool
    ensures { result ≡ exprs.reads_itself (scope_of scope.now) procedure qualified (object_of of.now) }
{
    is_procedure(scope.procedure, procedure) && !qualified && is_without_object(of)
}

#[tactic(auto, using(crate::proofs::Pushes::some_passed))]
fn has_none(args: &[BoundArg]) -> bool
    ensures { result ≡ exprs.has_none (passed_of args.now) }
{
    match args {
        [] => true,
        [_, ..] => false,
    }
}

/// Whether a call is the use of a property without arguments, whose name alone is written.
pub(crate) fn is_bare(
    scope: &Scope,
    procedure: u32,
    qualified: bool,
    of: &Option<Box<BoundExpr>>,
    args: &[BoundArg],
) -> bool
    ensures { result ≡ exprs.is_bare (scope_of scope.now) procedure qualified (object_of of.now) (passed_of args.now) }
{
    is_property(scope.declared, procedure)
        && has_none(args)
        && !reads_itself(scope, procedure, qualified, of)
}

/// A call of a callee with its arguments, or its name alone.
pub(crate) fn called(
    alloc: Global,
    bare: bool,
    callee: NetExpr,
    args: Vec<NetExpr>,
) -> Result<NetExpr, Mem>
    ensures { IfOk result (λ x. exp_of x ≡ exprs.called bare (exp_of callee) (exps_of args.items)) }
{
    if bare {
        drop(args);
        return Ok(callee);
    }
    Ok(call_of(alloc, callee, args)?)
}

/// Appends the argument at a place of a call, which is written `a`.
pub(crate) fn push_argument(
    alloc: Global,
    scope: &Scope,
    procedure: u32,
    place: usize,
    arg: &BoundArg,
    a: NetExpr,
    to: &mut Vec<NetExpr>,
) -> Result<(), Mem>
    ensures { OnOk result ((more : net.Exps) → exps_before to.new.items more ≡ exps_before to.old.items (net.next_exp (rows.argument_exp (scope_of scope.now) (rows.takes_reference (declarations_of scope.now.declared.now) procedure place) (argument_of arg.now) (exp_of a)) more)) }
{
    let by_address = takes_reference(scope.declared, procedure, place);
    let a = argument_exp(alloc, scope, by_address, arg, a)?;
    Ok(push_exp(a, to)?)
}
