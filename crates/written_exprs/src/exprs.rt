//! What is written for an expression, by its node.
ghost use Rattle.std.specs.Prelude.{◌≡◌, IfOk, option_map};
ghost use Rattle.bound_tree.specs.View.{argument_of, expr_of, exprs_of, object_of, passed_of};
ghost use Rattle.net_tree.specs.View.{exp_of, exps_of};
ghost use Rattle.written_trees.specs.Exprs as exprs;
ghost use Rattle.written_rows.specs.View.{scope_of};
ghost use Rattle.written_exprs.specs.Indexes.{indexes_by};
ghost use Rattle.written_exprs.specs.Targets.{place_exp};

use crate::calls::{called, is_bare, push_argument};
use crate::loose::loose_exp;
use crate::members::{Lows, field_exp, field_target, lows_of, procedure_member, push_index};
use crate::parts::{push_exp, support_call_of_none, support_call_of_one};
use crate::uses::{new_class, procedure_exp, variable_exp, variable_target};
use bound_tree::{BoundArg, BoundExpr, BoundNode};
use net_tree::{NetBin, NetExpr};
use std::alloc::Global;
use up_base::Mem;
use written_rows::{
    Scope, binary, binary_exp, call_of, converted, library_call, unary_exp, written_constant,
};

/// What is written for an expression.
#[cycle(written)]
pub fn written_exp(alloc: Global, scope: &Scope, e: &BoundExpr) -> Result<NetExpr, Mem>
    ensures { IfOk result (λ x. exp_of x ≡ exprs.exp_of (scope_of scope.now) (expr_of e.now)) }
{
    match &e.node {
        BoundNode::Const(value, origin) => Ok(written_constant(alloc, value, *origin)?),
        BoundNode::Var(v, qualified) => Ok(variable_exp(alloc, scope, *v, *qualified)?),
        BoundNode::Field(of, k) => {
            let a = written_exp(alloc, scope, of)?;
            Ok(field_exp(alloc, scope, of, *k, a)?)
        }
        BoundNode::Element(of, indexes) => {
            let a = written_exp(alloc, scope, of)?;
            let lows = lows_of(scope, of);
            let list = written_indexes(alloc, scope, lows, indexes)?;
            Ok(call_of(alloc, a, list)?)
        }
        BoundNode::Call(p, qualified, of, args) => {
            let callee = written_callee(alloc, scope, p.0, *qualified, of)?;
            let list = written_passed(alloc, scope, p.0, args)?;
            let bare = is_bare(scope, p.0, *qualified, of, args);
            Ok(called(alloc, bare, callee, list)?)
        }
        BoundNode::Lib(function, args) => match args.as_slice() {
            [] => Ok(NetExpr::Nothing),
            [first, rest @ ..] => {
                let a = written_exp(alloc, scope, first)?;
                let others = written_exps(alloc, scope, rest)?;
                Ok(library_call(alloc, scope, *function, &e.ty, first, rest, a, others)?)
            }
        },
        BoundNode::Unary(operator, of) => {
            let a = written_exp(alloc, scope, of)?;
            Ok(unary_exp(alloc, *operator, &e.ty, of, a)?)
        }
        BoundNode::Binary(operator, first, second) => {
            let a = written_exp(alloc, scope, first)?;
            let b = written_exp(alloc, scope, second)?;
            Ok(binary_exp(alloc, *operator, &e.ty, first, second, a, b)?)
        }
        BoundNode::Convert(to, of) => {
            let a = written_exp(alloc, scope, of)?;
            Ok(converted(alloc, to, of, a)?)
        }
        BoundNode::New(class) => Ok(new_class(alloc, scope.declared, class.0)?),
        BoundNode::Me => Ok(NetExpr::Me),
        BoundNode::WithObject(_) => Ok(NetExpr::Nothing),
        BoundNode::ErrNumber => Ok(support_call_of_none(alloc, b"ErrNumber")?),
        BoundNode::ErrRaise(of) => {
            let a = written_exp(alloc, scope, of)?;
            Ok(support_call_of_one(alloc, b"Raise", a)?)
        }
        BoundNode::ErrClear => Ok(support_call_of_none(alloc, b"ErrClear")?),
        BoundNode::Is(first, second) => {
            let a = written_exp(alloc, scope, first)?;
            let b = written_exp(alloc, scope, second)?;
            Ok(binary(alloc, NetBin::Is, a, b)?)
        }
        BoundNode::Loose(of, _) => Ok(loose_exp(alloc, of)?),
    }
}

#[cycle(written)]
fn written_callee(
    alloc: Global,
    scope: &Scope,
    procedure: u32,
    qualified: bool,
    of: &Option<Box<BoundExpr>>,
) -> Result<NetExpr, Mem>
    ensures { IfOk result (λ x. exp_of x ≡ exprs.callee_of (scope_of scope.now) procedure qualified (object_of of.now)) }
{
    match of {
        None => Ok(procedure_exp(alloc, scope, qualified, procedure)?),
        Some(e) => {
            let a = written_exp(alloc, scope, e)?;
            Ok(procedure_member(alloc, scope, e, procedure, a)?)
        }
    }
}

#[cycle(written)]
fn written_indexes(
    alloc: Global,
    scope: &Scope,
    lows: Lows,
    indexes: &[BoundExpr],
) -> Result<Vec<NetExpr>, Mem>
    ensures { IfOk result (λ list. exps_of list.items ≡ indexes_by (scope_of scope.now) lows 0 (exprs_of indexes.now)) }
{
    let mut list = Vec::new(alloc);
    for (dimension, e) in indexes.iter().enumerate() {
        let a = written_exp(alloc, scope, e)?;
        push_index(alloc, lows, dimension, a, &mut list)?;
    }
    Ok(list)
}

#[cycle(written)]
fn written_passed(
    alloc: Global,
    scope: &Scope,
    procedure: u32,
    args: &[BoundArg],
) -> Result<Vec<NetExpr>, Mem>
    ensures { IfOk result (λ list. exps_of list.items ≡ exprs.passed_of (scope_of scope.now) procedure 0 (passed_of args.now)) }
{
    let mut list = Vec::new(alloc);
    for (place, arg) in args.iter().enumerate() {
        let a = given_exp(alloc, scope, arg)?;
        push_argument(alloc, scope, procedure, place, arg, a, &mut list)?;
    }
    Ok(list)
}

#[cycle(written)]
fn given_exp(alloc: Global, scope: &Scope, arg: &BoundArg) -> Result<NetExpr, Mem>
    ensures { IfOk result (λ x. exp_of x ≡ exprs.given_exp (scope_of scope.now) (argument_of arg.now)) }
{
    match arg {
        BoundArg::ByValue(e) => Ok(written_exp(alloc, scope, e)?),
        BoundArg::ByReference(e) => Ok(written_exp(alloc, scope, e)?),
    }
}

#[cycle(written)]
fn written_exps(alloc: Global, scope: &Scope, es: &[BoundExpr]) -> Result<Vec<NetExpr>, Mem>
    ensures { IfOk result (λ list. exps_of list.items ≡ exprs.exps_of (scope_of scope.now) (exprs_of es.now)) }
{
    let mut list = Vec::new(alloc);
    for e in es {
        let a = written_exp(alloc, scope, e)?;
        push_exp(a, &mut list)?;
    }
    Ok(list)
}

// A variable or a field as a target of Set, where it is one.
fn place_exp(alloc: Global, scope: &Scope, e: &BoundExpr) -> Result<Option<NetExpr>, Mem>
    ensures { IfOk result (λ x. option_map exp_of x ≡ place_exp (scope_of scope.now) (expr_of e.now)) }
{
    match &e.node {
        BoundNode::Var(v, qualified) => Ok(Some(variable_target(alloc, scope, *v, *qualified)?)),
        BoundNode::Field(of, k) => {
            let a = written_exp(alloc, scope, of)?;
            Ok(Some(field_target(alloc, scope, of, *k, a)?))
        }
        _ => Ok(None),
    }
}

/// What is written for a target of Set: a variable there makes no object of its own.
#[tactic(auto, using(crate::proofs::Targets::place_target, crate::proofs::Targets::used_target))]
pub fn target_exp(alloc: Global, scope: &Scope, e: &BoundExpr) -> Result<NetExpr, Mem>
    ensures { IfOk result (λ x. exp_of x ≡ exprs.target_exp (scope_of scope.now) (expr_of e.now)) }
{
    match place_exp(alloc, scope, e)? {
        Some(a) => Ok(a),
        None => Ok(written_exp(alloc, scope, e)?),
    }
}
