//! Calls of the library with their arguments.
ghost use Rattle.std.specs.Prelude.{◌≡◌, map, IfOk};
ghost use Rattle.std.specs.List.{list_any};
ghost use Rattle.vb_tree.specs.BoundView.{type_of};
ghost use Rattle.bound_tree.specs.View.{expr_of, exprs_of};
ghost use Rattle.typing_rows.specs.Library.{argument, argument_wanted, result_type};
ghost use Rattle.typing_rows.specs.Types.{ty_of};
ghost use Rattle.expression_words.specs.Converting as converting;
ghost use Rattle.expression_words.specs.Flaws.{on_gathered, on_known};
ghost use Rattle.expression_words.specs.LibraryCalls.{by_dimension, by_wanted, call_over_exprs, first_type, fit_call, gives_no_value, in_range, is_dimension, is_slack, is_unfit, is_without_value, library_argument, library_arguments, library_call_of, library_called, library_value, result_or_nothing, unfit_call};
ghost use Rattle.expression_words.specs.View.{IsContext, asks_of, declared_in, gathered_of, supplied_of, typed_of, value_of};

use crate::converting::{fails, wanted};
use crate::supplied::with_slack;
use crate::typed::gathered;
use crate::{Asks, Context, Flaw, Supplied, Typed};
use bound_facts::{folded, is_array_type};
use bound_tree::{BoundExpr, BoundNode};
use std::alloc::Global;
use typing_rows::{SimpleType, Wanted, argument_wanted, dimension_of, has_count, result_type};
use up_base::Mem;
use vb_tree::{LibCall, Type6};

// Whether an expression is a constant that is 1 or 2.
fn is_dimension(alloc: Global, e: &BoundExpr) -> Result<bool, Mem>
    ensures { IfOk result (λ b. b ≡ is_dimension (expr_of e.now)) }
{
    match folded(alloc, e)? {
        Some(value) => Ok(dimension_of(&value).is_some()),
        None => Ok(false),
    }
}

fn in_range_known(alloc: Global, ty: SimpleType, e: BoundExpr) -> Result<Typed, Mem>
    ensures { IfOk result (λ t. typed_of t ≡ in_range (ty_of ty) (expr_of e)) }
{
    if fails(alloc, &ty.to_type(), &e)? {
        Ok(Typed::breaks(25))
    } else {
        Ok(Typed::Known(e))
    }
}

// A constant that is converted by a call, where its value fits the type.
fn in_range(alloc: Global, ty: SimpleType, t: Typed) -> Result<Typed, Mem>
    ensures { IfOk result (λ r. typed_of r ≡ on_known (in_range (ty_of ty)) (typed_of t)) }
{
    match t {
        Typed::Known(e) => Ok(in_range_known(alloc, ty, e)?),
        Typed::Unknown(flaw) => Ok(Typed::Unknown(flaw)),
    }
}

fn dimension(
    alloc: Global,
    context: Context<'_>,
    asks: Asks<'_>,
    e: BoundExpr,
) -> Result<Typed, Mem>
    requires { IsContext context }
    ensures { IfOk result (λ t. typed_of t ≡ by_dimension (declared_in context.entry) (asks_of asks.entry) (expr_of e)) }
{
    if is_dimension(alloc, &e)? {
        Ok(wanted(alloc, context, asks, e)?)
    } else {
        Ok(Typed::breaks(3))
    }
}

fn converted_argument(
    alloc: Global,
    context: Context<'_>,
    asks: Asks<'_>,
    ty: SimpleType,
    e: BoundExpr,
) -> Result<Typed, Mem>
    requires { IsContext context }
    ensures { IfOk result (λ t. typed_of t ≡ on_known (in_range (ty_of ty)) (converting.wanted (declared_in context.entry) (asks_of asks.entry) (expr_of e))) }
{
    let t = wanted(alloc, context, asks, e)?;
    Ok(in_range(alloc, ty, t)?)
}

fn by_wanted(
    alloc: Global,
    context: Context<'_>,
    asks: Asks<'_>,
    e: BoundExpr,
    what: Wanted,
) -> Result<Typed, Mem>
    requires { IsContext context }
    ensures { IfOk result (λ t. typed_of t ≡ by_wanted (declared_in context.entry) (asks_of asks.entry) (expr_of e) what) }
{
    match what {
        Wanted::Dimension => Ok(dimension(alloc, context, asks, e)?),
        Wanted::Converted(ty) => Ok(converted_argument(alloc, context, asks, ty, e)?),
        _ => Ok(wanted(alloc, context, asks, e)?),
    }
}

fn plain_argument(
    alloc: Global,
    context: Context<'_>,
    call: LibCall,
    place: usize,
    e: BoundExpr,
) -> Result<Typed, Mem>
    requires { IsContext context }
    ensures { IfOk result (λ t. typed_of t ≡ by_wanted (declared_in context.entry) (argument call place) (expr_of e) (argument_wanted call place)) }
{
    let what = argument_wanted(call, place);
    Ok(by_wanted(alloc, context, Asks::Argument(call, place), e, what)?)
}

fn library_argument(
    alloc: Global,
    context: Context<'_>,
    call: LibCall,
    place: usize,
    parenthesised: bool,
    e: BoundExpr,
) -> Result<Typed, Mem>
    requires { IsContext context }
    ensures { IfOk result (λ t. typed_of t ≡ library_argument (declared_in context.entry) call place parenthesised (expr_of e)) }
{
    if parenthesised && is_array_type(&e.ty) {
        Ok(Typed::breaks(21))
    } else {
        Ok(plain_argument(alloc, context, call, place, e)?)
    }
}

fn typed_argument(
    alloc: Global,
    context: Context<'_>,
    call: LibCall,
    place: usize,
    parenthesised: bool,
    t: Typed,
) -> Result<Typed, Mem>
    requires { IsContext context }
    ensures { IfOk result (λ r. typed_of r ≡ on_known (library_argument (declared_in context.entry) call place parenthesised) (typed_of t)) }
{
    match t {
        Typed::Known(e) => Ok(library_argument(alloc, context, call, place, parenthesised, e)?),
        Typed::Unknown(flaw) => Ok(Typed::Unknown(flaw)),
    }
}

fn library_value(
    alloc: Global,
    context: Context<'_>,
    call: LibCall,
    place: usize,
    parenthesised: bool,
    value: Option<Typed>,
) -> Result<Typed, Mem>
    requires { IsContext context }
    ensures { IfOk result (λ t. typed_of t ≡ library_value (declared_in context.entry) call place parenthesised (value_of value)) }
{
    match value {
        Some(t) => Ok(typed_argument(alloc, context, call, place, parenthesised, t)?),
        None => Ok(Typed::breaks(18)),
    }
}

fn supplied_value(
    alloc: Global,
    context: Context<'_>,
    call: LibCall,
    place: usize,
    arg: Supplied,
) -> Result<Typed, Mem>
    requires { IsContext context }
    ensures { IfOk result (λ t. typed_of t ≡ library_value (declared_in context.entry) call place arg.parenthesised (value_of arg.value)) }
{
    Ok(library_value(alloc, context, call, place, arg.parenthesised, arg.value)?)
}

fn library_arguments(
    alloc: Global,
    context: Context<'_>,
    call: LibCall,
    args: Vec<Supplied>,
) -> Result<Vec<Typed>, Mem>
    requires { IsContext context }
    ensures { IfOk result (λ v. map typed_of v.items ≡ library_arguments (declared_in context.entry) call 0 (map supplied_of args.items)) }
{
    let mut all = Vec::new(alloc);
    let mut place = 0;
    for arg in args {
        let t = supplied_value(alloc, context, call, place, arg)?;
        all.push(t)?;
        place += 1;
    }
    Ok(all)
}

fn is_without_value(value: &Option<Typed>) -> bool
    ensures { result ≡ is_without_value (value_of value.now) }
{
    match value {
        Some(value) => !value.is_known(),
        None => true,
    }
}

fn is_slack(arg: &Supplied) -> bool
    ensures { result ≡ is_slack (supplied_of arg.now) }
{
    arg.is_worded() || is_without_value(&arg.value)
}

fn any_slack(args: &[Supplied]) -> bool
    ensures { result ≡ list_any is_slack (map supplied_of args.now) }
{
    for arg in args {
        if is_slack(arg) {
            return true;
        }
    }
    false
}

fn is_unfit(call: LibCall, args: &[Supplied]) -> bool
    ensures { result ≡ is_unfit call (map supplied_of args.now) }
{
    !has_count(call, args.len()) || any_slack(args)
}

/// The type of a call by that of its first argument.
pub(crate) fn result_or_nothing(call: LibCall, first: &Type6) -> Type6
    ensures { type_of result ≡ result_or_nothing (result_type call (type_of first.now)) }
{
    match result_type(call, first) {
        Some(ty) => ty.to_type(),
        None => Type6::Nothing,
    }
}

fn type_over(call: LibCall, exprs: &[BoundExpr]) -> Type6
    ensures { type_of result ≡ result_or_nothing (result_type call (first_type (exprs_of exprs.now))) }
{
    match exprs.first() {
        Some(e) => result_or_nothing(call, &e.ty),
        None => result_or_nothing(call, &Type6::Unknown),
    }
}

fn call_over_exprs(call: LibCall, exprs: Vec<BoundExpr>) -> Typed
    ensures { typed_of result ≡ call_over_exprs call (exprs_of exprs.items) }
{
    let ty = type_over(call, &exprs);
    let node = BoundNode::Lib(call, exprs);
    Typed::Known(BoundExpr { ty, node })
}

fn call_over(call: LibCall, args: Result<Vec<BoundExpr>, Flaw>) -> Typed
    ensures { typed_of result ≡ on_gathered (call_over_exprs call) (gathered_of args) }
{
    match args {
        Ok(exprs) => call_over_exprs(call, exprs),
        Err(flaw) => Typed::Unknown(flaw),
    }
}

fn fit_call(
    alloc: Global,
    context: Context<'_>,
    call: LibCall,
    args: Vec<Supplied>,
) -> Result<Typed, Mem>
    requires { IsContext context }
    ensures { IfOk result (λ t. typed_of t ≡ fit_call (declared_in context.entry) call (map supplied_of args.items)) }
{
    let args = library_arguments(alloc, context, call, args)?;
    let args = gathered(alloc, args)?;
    Ok(call_over(call, args))
}

fn unfit_call(call: LibCall, args: &[Supplied]) -> Typed
    ensures { typed_of result ≡ unfit_call call (map supplied_of args.now) }
{
    let flaw = Flaw::breaks_if(18, !has_count(call, args.len()));
    Typed::Unknown(with_slack(flaw, args))
}

/// A call of the library, as a statement too.
pub(crate) fn library_call_of(
    alloc: Global,
    context: Context<'_>,
    call: LibCall,
    args: Vec<Supplied>,
) -> Result<Typed, Mem>
    requires { IsContext context }
    ensures { IfOk result (λ t. typed_of t ≡ library_call_of (declared_in context.entry) call (map supplied_of args.items)) }
{
    if is_unfit(call, &args) {
        Ok(unfit_call(call, &args))
    } else {
        Ok(fit_call(alloc, context, call, args)?)
    }
}

pub(crate) fn gives_no_value(call: LibCall) -> bool
    ensures { result ≡ gives_no_value call }
{
    matches!(call, LibCall::MsgBox)
}

/// A call of the library in an expression.
pub fn library_called(
    alloc: Global,
    context: Context<'_>,
    call: LibCall,
    args: Vec<Supplied>,
) -> Result<Typed, Mem>
    requires { IsContext context }
    ensures { IfOk result (λ t. typed_of t ≡ library_called (declared_in context.entry) call (map supplied_of args.items)) }
{
    if gives_no_value(call) {
        Ok(Typed::Unknown(with_slack(Flaw::breaks(18), &args)))
    } else {
        Ok(library_call_of(alloc, context, call, args)?)
    }
}
