//! Calls with their arguments.
ghost use Rattle.std.specs.Prelude.{◌≡◌, ◌++◌, drop, map, option_map, slice_get, IfOk, OnOk};
ghost use Rattle.vb_tree.specs.BoundView.{type_of};
ghost use Rattle.bound_tree.specs.Tree.{by_reference, convert, typed};
ghost use Rattle.bound_tree.specs.View.{argument_of, expr_of, object_of, variable_of};
ghost use Rattle.typing_rows.specs.Conversions.{converts as conversion};
ghost use Rattle.typing_rows.specs.Types.{ty_of};
ghost use Rattle.expression_words.specs.Converting.{preset_of};
ghost use Rattle.expression_words.specs.Members.{params_of, result_in};
ghost use Rattle.expression_words.specs.Passing as passing;
ghost use Rattle.expression_words.specs.Passing.{call_over, call_with, called, called_as, given_slots, is_place, is_base, is_kept, is_reference, param_at, pass_array, pass_known, pass_reference, pass_value, place_argument, place_slot, preset_slot, preset_slot_of, slot, slots, value_slot};
ghost use Rattle.expression_words.specs.View.{declared_in, IsContext, slot_of, supplied_of, typed_of, value_of};

use crate::converting::{call_of, is_unknown, preset_at, preset_of, wanted};
use crate::members::{params_of, result_at, value_part};
use crate::slots::{Slot, all_filled, flaws_of, passed_in};
use crate::supplied::with_slack;
use crate::{Asks, Context, Flaw, Supplied, Typed};
use bound_facts::{is_array_type, is_object_type};
use bound_tree::{BoundArg, BoundExpr, BoundNode, Mention, Root, VarDecl};
use std::alloc::Global;
use typing_rows::{Conversion, SimpleType, converts};
use up_base::Mem;
use vb_tree::{Owner, ProcId, Type6, VarId};

fn is_kept(root: Root) -> bool
    ensures { result ≡ is_kept root }
{
    match root {
        Root::Variable(_) => true,
        Root::Object => true,
        Root::Temporary => false,
    }
}

// Whether a field of a user type stands in what outlasts a call.
#[cycle(places)]
fn is_base(e: &BoundExpr) -> bool
    ensures { result ≡ is_base (expr_of e.now) }
{
    match &e.node {
        BoundNode::WithObject(root) => is_kept(*root),
        BoundNode::Var(_, _) => true,
        BoundNode::Field(of, _) => is_object_type(&of.ty) || is_base(of),
        BoundNode::Element(of, _) => is_place(of),
        _ => false,
    }
}

/// Whether it is a variable, an element or a field, and no part of what a procedure gave.
#[cycle(places)]
pub fn is_place(e: &BoundExpr) -> bool
    ensures { result ≡ is_place (expr_of e.now) }
{
    match &e.node {
        BoundNode::Var(_, _) => true,
        BoundNode::Field(of, _) => is_object_type(&of.ty) || is_base(of),
        BoundNode::Element(of, _) => is_place(of),
        _ => false,
    }
}

fn is_reference(owner: Owner) -> bool
    ensures { result ≡ is_reference owner }
{
    matches!(owner, Owner::Reference(_))
}

fn pass_value(alloc: Global, context: Context<'_>, ty: &Type6, e: BoundExpr) -> Result<Slot, Mem>
    requires { IsContext context }
    ensures { IfOk result (λ s. slot_of s ≡ pass_value (declared_in context.entry) (type_of ty.now) (expr_of e)) }
{
    let value = wanted(alloc, context, Asks::Type(ty), e)?;
    Ok(Slot::by_value(value))
}

// An array where one of a type is wanted.
fn pass_array(parenthesised: bool, ty: &Type6, e: BoundExpr) -> Slot
    ensures { slot_of result ≡ pass_array parenthesised (type_of ty.now) (expr_of e) }
{
    if parenthesised {
        return Slot::breaks(21);
    }
    match Asks::Type(ty).of(&e.ty) {
        Conversion::Stands => Slot::Filled(place_argument(e)),
        Conversion::To(_) => Slot::breaks(21),
        Conversion::ByDefault => Slot::breaks(21),
        Conversion::Breaks(rule) => Slot::breaks(rule),
    }
}

// An array as it is passed.
fn place_argument(e: BoundExpr) -> BoundArg
    ensures { argument_of result ≡ place_argument (expr_of e) }
{
    if is_place(&e) {
        BoundArg::ByReference(e)
    } else {
        BoundArg::ByValue(e)
    }
}

// A place as one of another type, by reference.
fn place_converted(alloc: Global, to: SimpleType, e: BoundExpr) -> Result<Slot, Mem>
    ensures { IfOk result (λ s. slot_of s ≡ passing.filled (by_reference (typed (ty_of to) (convert (ty_of to) (expr_of e))))) }
{
    Ok(Slot::Filled(BoundArg::ByReference(BoundExpr {
        ty: to.to_type(),
        node: BoundNode::Convert(to.to_type(), Box::new(alloc, e)?),
    })))
}

fn pass_place(alloc: Global, context: Context<'_>, ty: &Type6, e: BoundExpr) -> Result<Slot, Mem>
    requires { IsContext context }
    ensures { IfOk result (λ s. slot_of s ≡ place_slot (declared_in context.entry) (type_of ty.now) (expr_of e) (conversion (type_of e.ty) (type_of ty.now))) }
{
    match Asks::Type(ty).of(&e.ty) {
        Conversion::Stands => Ok(Slot::Filled(BoundArg::ByReference(e))),
        Conversion::To(to) => Ok(place_converted(alloc, to, e)?),
        Conversion::ByDefault => Ok(pass_value(alloc, context, ty, e)?),
        Conversion::Breaks(rule) => Ok(Slot::breaks(rule)),
    }
}

fn pass_reference(
    alloc: Global,
    context: Context<'_>,
    parenthesised: bool,
    ty: &Type6,
    e: BoundExpr,
) -> Result<Slot, Mem>
    requires { IsContext context }
    ensures { IfOk result (λ s. slot_of s ≡ pass_reference (declared_in context.entry) parenthesised (type_of ty.now) (expr_of e)) }
{
    if is_array_type(ty) {
        return Ok(pass_array(parenthesised, ty, e));
    }
    if !parenthesised && is_place(&e) {
        return Ok(pass_place(alloc, context, ty, e)?);
    }
    Ok(pass_value(alloc, context, ty, e)?)
}

fn pass_known(
    alloc: Global,
    context: Context<'_>,
    v: &VarDecl,
    parenthesised: bool,
    e: BoundExpr,
) -> Result<Slot, Mem>
    requires { IsContext context }
    ensures { IfOk result (λ s. slot_of s ≡ pass_known (declared_in context.entry) (variable_of v.now) parenthesised (expr_of e)) }
{
    if is_reference(v.owner) {
        Ok(pass_reference(alloc, context, parenthesised, &v.ty, e)?)
    } else {
        Ok(pass_value(alloc, context, &v.ty, e)?)
    }
}

fn preset_slot_of(preset: Option<BoundExpr>) -> Slot
    ensures { slot_of result ≡ preset_slot_of (option_map expr_of preset) }
{
    match preset {
        Some(e) => Slot::Filled(BoundArg::ByValue(e)),
        None => Slot::breaks(18),
    }
}

fn preset_slot(alloc: Global, context: Context<'_>, v: VarId) -> Result<Slot, Mem>
    ensures { IfOk result (λ s. slot_of s ≡ preset_slot (declared_in context.entry) v) }
{
    let preset = preset_at(alloc, context, v)?;
    Ok(preset_slot_of(preset))
}

fn left_out_slot(alloc: Global, v: &VarDecl) -> Result<Slot, Mem>
    ensures { IfOk result (λ s. slot_of s ≡ preset_slot_of (preset_of (Some (variable_of v.now)))) }
{
    let preset = preset_of(alloc, v)?;
    Ok(preset_slot_of(preset))
}

fn value_slot(
    alloc: Global,
    context: Context<'_>,
    v: &VarDecl,
    parenthesised: bool,
    value: Option<Typed>,
) -> Result<Slot, Mem>
    requires { IsContext context }
    ensures { IfOk result (λ s. slot_of s ≡ value_slot (declared_in context.entry) (variable_of v.now) parenthesised (value_of value)) }
{
    match value {
        Some(Typed::Known(e)) => Ok(pass_known(alloc, context, v, parenthesised, e)?),
        Some(Typed::Unknown(flaw)) => Ok(Slot::Flawed(flaw)),
        None => Ok(left_out_slot(alloc, v)?),
    }
}

fn slot(
    alloc: Global,
    context: Context<'_>,
    v: Option<&VarDecl>,
    arg: Supplied,
) -> Result<Slot, Mem>
    requires { IsContext context }
    ensures { IfOk result (λ s. slot_of s ≡ slot (declared_in context.entry) (option_map (λ x. variable_of x.now) v.entry) (supplied_of arg)) }
{
    match v {
        Some(v) => {
            if arg.is_worded() {
                Ok(Slot::Flawed(Flaw::breaks(18).together(arg.value_flaw())))
            } else {
                Ok(value_slot(alloc, context, v, arg.parenthesised, arg.value)?)
            }
        }
        None => Ok(Slot::Flawed(Flaw::breaks(18).together(arg.value_flaw()))),
    }
}

fn param_at<'a>(context: Context<'a>, params: &[VarId], i: usize) -> Option<&'a VarDecl>
    ensures { option_map (λ x. variable_of x.now) result ≡ param_at (declared_in context.entry) (slice_get params.now i) }
{
    match params.get(i) {
        Some(v) => context.declared.vars.get(v.0 as usize),
        None => None,
    }
}

// What the parameters are given by the arguments.
fn given_slots(
    alloc: Global,
    context: Context<'_>,
    params: &[VarId],
    args: Vec<Supplied>,
) -> Result<Vec<Slot>, Mem>
    requires { IsContext context }
    ensures { IfOk result (λ v. map slot_of v.items ≡ given_slots (declared_in context.entry) params.now 0 (map supplied_of args.items)) }
{
    let mut all = Vec::new(alloc);
    let mut next = 0;
    for arg in args {
        let given = slot(alloc, context, param_at(context, params, next), arg)?;
        all.push(given)?;
        next += 1;
    }
    Ok(all)
}

// The parameters behind as many as there are arguments.
fn behind(params: &[VarId], count: usize) -> &[VarId]
    ensures { result.now ≡ drop count params.now }
{
    if count < params.len() {
        &params[count..]
    } else {
        &[]
    }
}

// Puts what parameters are given that are left out.
fn push_presets(
    alloc: Global,
    context: Context<'_>,
    params: &[VarId],
    to: &mut Vec<Slot>,
) -> Result<(), Mem>
    ensures { OnOk result (map slot_of to.new.items ≡ map slot_of to.old.items ++ map (preset_slot (declared_in context.entry)) params.now) }
{
    for v in params {
        let slot = preset_slot(alloc, context, *v)?;
        to.push(slot)?;
    }
    Ok(())
}

// What all parameters are given.
fn slots(
    alloc: Global,
    context: Context<'_>,
    params: &[VarId],
    args: Vec<Supplied>,
) -> Result<Vec<Slot>, Mem>
    requires { IsContext context }
    ensures { IfOk result (λ v. map slot_of v.items ≡ slots (declared_in context.entry) params.now (map supplied_of args.items)) }
{
    let left = behind(params, args.len());
    let mut all = given_slots(alloc, context, params, args)?;
    push_presets(alloc, context, left, &mut all)?;
    Ok(all)
}

fn call_over(
    alloc: Global,
    p: u32,
    qualified: bool,
    of: Option<Box<BoundExpr>>,
    ty: Type6,
    given: Vec<Slot>,
) -> Result<Typed, Mem>
    ensures { IfOk result (λ t. typed_of t ≡ call_over p qualified (object_of of) (type_of ty) (map slot_of given.items)) }
{
    if !all_filled(&given) {
        return Ok(Typed::Unknown(flaws_of(&given)));
    }
    let args = passed_in(alloc, given)?;
    Ok(Typed::Known(call_of(p, qualified, of, ty, args)))
}

/// A call of a procedure by some parameters, with the type that it has there.
pub(crate) fn call_with(
    alloc: Global,
    context: Context<'_>,
    p: u32,
    qualified: bool,
    of: Option<Box<BoundExpr>>,
    ty: Type6,
    params: &[VarId],
    args: Vec<Supplied>,
) -> Result<Typed, Mem>
    requires { IsContext context }
    ensures { IfOk result (λ t. typed_of t ≡ call_with (declared_in context.entry) p qualified (object_of of) (type_of ty) params.now (map supplied_of args.items)) }
{
    let given = slots(alloc, context, params, args)?;
    Ok(call_over(alloc, p, qualified, of, ty, given)?)
}

fn called_as(
    alloc: Global,
    context: Context<'_>,
    p: u32,
    qualified: bool,
    of: Option<Box<BoundExpr>>,
    args: Vec<Supplied>,
) -> Result<Typed, Mem>
    requires { IsContext context }
    ensures { IfOk result (λ t. typed_of t ≡ called_as (declared_in context.entry) p qualified (object_of of) (result_in (slice_get (declared_in context.entry).procs p)) (params_of (declared_in context.entry) p) (map supplied_of args.items)) }
{
    let result = result_at(alloc, context, p)?;
    if is_unknown(&result) {
        let flaw = Flaw::lacks(Mention::Proc(ProcId(p)));
        return Ok(Typed::Unknown(with_slack(flaw, &args)));
    }
    let params = params_of(context, p);
    Ok(call_with(alloc, context, p, qualified, of, result, params, args)?)
}

/// The value of a procedure or a property with arguments.
pub fn called(
    alloc: Global,
    context: Context<'_>,
    p: u32,
    qualified: bool,
    of: Option<Box<BoundExpr>>,
    args: Vec<Supplied>,
) -> Result<Typed, Mem>
    requires { IsContext context }
    ensures { IfOk result (λ t. typed_of t ≡ called (declared_in context.entry) p qualified (object_of of) (map supplied_of args.items)) }
{
    match value_part(context, p) {
        Some(part) => Ok(called_as(alloc, context, part, qualified, of, args)?),
        None => Ok(Typed::Unknown(with_slack(Flaw::breaks(3), &args))),
    }
}
