//! Elements of arrays.
ghost use Rattle.std.specs.Prelude.{◌≡◌, map, IfOk};
ghost use Rattle.vb_tree.specs.BoundView.{type_of};
ghost use Rattle.bound_tree.specs.View.{expr_of, exprs_of};
ghost use Rattle.expression_words.specs.Flaws.{on_gathered};
ghost use Rattle.expression_words.specs.Elements.{element_at, element_of, element_type, index_of, index_value};
ghost use Rattle.expression_words.specs.View.{IsContext, declared_in, gathered_of, supplied_of, typed_of, value_of};

use crate::converting::wanted_typed;
use crate::copies::copy_type;
use crate::typed::gathered;
use crate::{Asks, Context, Flaw, Supplied, Typed};
use bound_tree::{BoundExpr, BoundNode};
use std::alloc::Global;
use up_base::Mem;
use vb_tree::Type6;

fn index_value(alloc: Global, context: Context<'_>, value: Option<Typed>) -> Result<Typed, Mem>
    requires { IsContext context }
    ensures { IfOk result (λ t. typed_of t ≡ index_value (declared_in context.entry) (value_of value)) }
{
    match value {
        Some(value) => Ok(wanted_typed(alloc, context, Asks::Index, value)?),
        None => Ok(Typed::breaks(18)),
    }
}

fn index_of(alloc: Global, context: Context<'_>, arg: Supplied) -> Result<Typed, Mem>
    requires { IsContext context }
    ensures { IfOk result (λ t. typed_of t ≡ index_of (declared_in context.entry) (supplied_of arg)) }
{
    if arg.is_worded() {
        Ok(Typed::Unknown(Flaw::breaks(18).together(arg.value_flaw())))
    } else {
        Ok(index_value(alloc, context, arg.value)?)
    }
}

fn indexes(alloc: Global, context: Context<'_>, args: Vec<Supplied>) -> Result<Vec<Typed>, Mem>
    requires { IsContext context }
    ensures { IfOk result (λ v. map typed_of v.items ≡ map (index_of (declared_in context.entry)) (map supplied_of args.items)) }
{
    let mut all = Vec::new(alloc);
    for arg in args {
        let index = index_of(alloc, context, arg)?;
        all.push(index)?;
    }
    Ok(all)
}

// The type of the elements of an array.
fn element_type(alloc: Global, ty: &Type6) -> Result<Type6, Mem>
    ensures { IfOk result (λ t. type_of t ≡ element_type (type_of ty.now)) }
{
    match ty {
        Type6::Array(element, _) => Ok(copy_type(alloc, element)?),
        _ => Ok(Type6::Unknown),
    }
}

#[tactic(auto, using(bound_tree::proofs::Views::element_shown))]
fn element_known(alloc: Global, e: BoundExpr, indexes: Vec<BoundExpr>) -> Result<Typed, Mem>
    ensures { IfOk result (λ t. typed_of t ≡ element_at (expr_of e) (exprs_of indexes.items)) }
{
    let ty = element_type(alloc, &e.ty)?;
    let node = BoundNode::Element(Box::new(alloc, e)?, indexes);
    Ok(Typed::Known(BoundExpr { ty, node }))
}

fn element_over(
    alloc: Global,
    e: BoundExpr,
    indexes: Result<Vec<BoundExpr>, Flaw>,
) -> Result<Typed, Mem>
    ensures { IfOk result (λ t. typed_of t ≡ on_gathered (element_at (expr_of e)) (gathered_of indexes)) }
{
    match indexes {
        Ok(indexes) => Ok(element_known(alloc, e, indexes)?),
        Err(flaw) => Ok(Typed::Unknown(flaw)),
    }
}

/// The element of an array at some indexes.
pub(crate) fn element_of(
    alloc: Global,
    context: Context<'_>,
    e: BoundExpr,
    args: Vec<Supplied>,
) -> Result<Typed, Mem>
    requires { IsContext context }
    ensures { IfOk result (λ t. typed_of t ≡ element_of (declared_in context.entry) (expr_of e) (map supplied_of args.items)) }
{
    let indexes = indexes(alloc, context, args)?;
    let indexes = gathered(alloc, indexes)?;
    Ok(element_over(alloc, e, indexes)?)
}
