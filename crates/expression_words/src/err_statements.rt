//! Err.Raise and Err.Clear, which give no value.
ghost use Rattle.std.specs.Prelude.{◌≡◌, map, IfOk};
ghost use Rattle.vb_tree.specs.BoundTree.{nothing};
ghost use Rattle.bound_tree.specs.Tree.{Expr, err_raise, typed};
ghost use Rattle.bound_tree.specs.View.{expr_of};
ghost use Rattle.expression_words.specs.ErrStatements.{clear_of, err_statement, raise_of, raise_one, raised, raised_value};
ghost use Rattle.expression_words.specs.Flaws.{known, on_known};
ghost use Rattle.expression_words.specs.View.{IsContext, declared_in, supplied_of, typed_of, value_of};

use crate::converting::wanted;
use crate::supplied::with_slack;
use crate::{Asks, Context, ErrMember, Flaw, Supplied, Typed};
use bound_tree::{BoundExpr, BoundNode};
use std::alloc::Global;
use up_base::Mem;
use vb_tree::Type6;

fn raise_call(alloc: Global, t: Typed) -> Result<Typed, Mem>
    ensures { IfOk result (λ r. typed_of r ≡ on_known (λ (x : Expr). known (typed nothing (err_raise x))) (typed_of t)) }
{
    match t {
        Typed::Known(e) => {
            let node = BoundNode::ErrRaise(Box::new(alloc, e)?);
            let ty = Type6::Nothing;
            Ok(Typed::Known(BoundExpr { ty, node }))
        }
        Typed::Unknown(flaw) => Ok(Typed::Unknown(flaw)),
    }
}

fn raised(alloc: Global, context: Context<'_>, e: BoundExpr) -> Result<Typed, Mem>
    requires { IsContext context }
    ensures { IfOk result (λ t. typed_of t ≡ raised (declared_in context.entry) (expr_of e)) }
{
    let t = wanted(alloc, context, Asks::ErrorNumber, e)?;
    Ok(raise_call(alloc, t)?)
}

fn raised_typed(alloc: Global, context: Context<'_>, t: Typed) -> Result<Typed, Mem>
    requires { IsContext context }
    ensures { IfOk result (λ r. typed_of r ≡ on_known (raised (declared_in context.entry)) (typed_of t)) }
{
    match t {
        Typed::Known(e) => Ok(raised(alloc, context, e)?),
        Typed::Unknown(flaw) => Ok(Typed::Unknown(flaw)),
    }
}

fn raised_value(alloc: Global, context: Context<'_>, value: Option<Typed>) -> Result<Typed, Mem>
    requires { IsContext context }
    ensures { IfOk result (λ t. typed_of t ≡ raised_value (declared_in context.entry) (value_of value)) }
{
    match value {
        Some(t) => Ok(raised_typed(alloc, context, t)?),
        None => Ok(Typed::breaks(19)),
    }
}

fn raise_one(alloc: Global, context: Context<'_>, arg: Supplied) -> Result<Typed, Mem>
    requires { IsContext context }
    ensures { IfOk result (λ t. typed_of t ≡ raise_one (declared_in context.entry) (supplied_of arg)) }
{
    if arg.is_worded() {
        Ok(Typed::Unknown(Flaw::breaks(18).together(arg.value_flaw())))
    } else {
        Ok(raised_value(alloc, context, arg.value)?)
    }
}

#[tactic(auto, using(crate::proofs::RaiseLists::not_one, crate::proofs::RaiseLists::only_one))]
fn raise_of(alloc: Global, context: Context<'_>, args: Vec<Supplied>) -> Result<Typed, Mem>
    requires { IsContext context }
    ensures { IfOk result (λ t. typed_of t ≡ raise_of (declared_in context.entry) (map supplied_of args.items)) }
{
    if args.len() != 1 {
        return Ok(Typed::Unknown(with_slack(Flaw::breaks(19), &args)));
    }
    let mut args = args;
    match args.pop() {
        Some(arg) => Ok(raise_one(alloc, context, arg)?),
        None => Ok(Typed::breaks(19)),
    }
}

fn clear_of(args: &[Supplied]) -> Typed
    ensures { typed_of result ≡ clear_of (map supplied_of args.now) }
{
    if args.is_empty() {
        Typed::Known(BoundExpr {
            ty: Type6::Nothing,
            node: BoundNode::ErrClear,
        })
    } else {
        Typed::Unknown(with_slack(Flaw::breaks(19), args))
    }
}

/// Err.Raise or Err.Clear with arguments.
pub(crate) fn err_statement(
    alloc: Global,
    context: Context<'_>,
    member: ErrMember,
    args: Vec<Supplied>,
) -> Result<Typed, Mem>
    requires { IsContext context }
    ensures { IfOk result (λ t. typed_of t ≡ err_statement (declared_in context.entry) member (map supplied_of args.items)) }
{
    match member {
        ErrMember::Raise => Ok(raise_of(alloc, context, args)?),
        ErrMember::Clear => Ok(clear_of(&args)),
    }
}
