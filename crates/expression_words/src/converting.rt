//! How an expression goes to another type.
ghost use Rattle.std.specs.Prelude.{◌≡◌, is_some, map, option_map, slice_get, IfOk, OnOk};
ghost use Rattle.std.specs.List.{list_all};
ghost use Rattle.vb_tree.specs.BoundView.{type_of};
ghost use Rattle.vb6_meaning.specs.Values.{coerce};
ghost use Rattle.bound_tree.specs.Tree.{Passed, call as call_term, convert as convert_term, typed};
ghost use Rattle.bound_tree.specs.View.{expr_of, object_of, passed_of, term_of, variable_of};
ghost use Rattle.bound_facts.specs.Node.{type_at};
ghost use Rattle.typing_rows.specs.Conversions.{is_without_type};
ghost use Rattle.typing_rows.specs.Types.{ty_of};
ghost use Rattle.expression_words.specs.Converting.{bare_call, bare_result, behind_default, converted, default_at, fails, finally, gives_none, has_preset, id, is_call_in, is_nothing, plain, plain_in, preset_at, preset_of, preset_value, presets, raises_number, wanted, with_preset};
ghost use Rattle.expression_words.specs.Flaws as flaws;
ghost use Rattle.expression_words.specs.Flaws.{on_known};
ghost use Rattle.expression_words.specs.Members.{params_of, result_in};
ghost use Rattle.expression_words.specs.View.{asks_of, declared_in, passed_before, IsContext, typed_of};

use crate::copies::{copy_type, copy_value};
use crate::members::{count_classes, default_of, params_of, result_at, value_part};
use crate::{Asks, Context, Flaw, Typed};
use bound_facts::{is_object_type, is_variant};
use bound_tree::{BoundArg, BoundExpr, BoundNode, Mention, Origin, VarDecl};
use std::alloc::Global;
use typing_rows::{Conversion, SimpleType};
use up_base::Mem;
use vb_tree::{ProcId, Type6, Value6, VarId};
use vb6_meaning::{Op6Fail, coerce6};

fn raises(alloc: Global, value: &Value6, to: &Type6) -> Result<bool, Mem>
    ensures { IfOk result (λ b. b ≡ raises_number (coerce value.now (type_of to.now))) }
{
    match coerce6(alloc, value, to) {
        Ok(_) => Ok(false),
        Err(Op6Fail::Raise(_)) => Ok(true),
        Err(Op6Fail::Outside) => Ok(false),
        Err(Op6Fail::Mem) => Err(Mem),
    }
}

/// Whether the conversion of a constant to a type raises.
pub(crate) fn fails(alloc: Global, to: &Type6, e: &BoundExpr) -> Result<bool, Mem>
    ensures { IfOk result (λ b. b ≡ fails (type_of to.now) (expr_of e.now)) }
{
    match &e.node {
        BoundNode::Const(value, _) => Ok(raises(alloc, value, to)?),
        _ => Ok(false),
    }
}

fn is_nothing(ty: &Type6) -> bool
    ensures { result ≡ is_nothing (type_of ty.now) }
{
    matches!(ty, Type6::Nothing)
}

fn is_call(node: &BoundNode) -> bool
    ensures { result ≡ is_call_in (term_of node.now) }
{
    match node {
        BoundNode::Call(_, _, _, _) => true,
        BoundNode::ErrRaise(_) => true,
        BoundNode::ErrClear => true,
        _ => false,
    }
}

// Whether it is a call of a Sub, Err.Raise or Err.Clear.
fn gives_none(e: &BoundExpr) -> bool
    ensures { result ≡ gives_none (expr_of e.now) }
{
    is_nothing(&e.ty) && is_call(&e.node)
}

fn convert(alloc: Global, to: SimpleType, e: BoundExpr) -> Result<BoundExpr, Mem>
    ensures { IfOk result (λ x. expr_of x ≡ typed (ty_of to) (convert_term (ty_of to) (expr_of e))) }
{
    Ok(BoundExpr {
        ty: to.to_type(),
        node: BoundNode::Convert(to.to_type(), Box::new(alloc, e)?),
    })
}

/// An expression with its conversion to a type written out. That of a constant which raises breaks a rule.
pub(crate) fn converted(alloc: Global, to: SimpleType, e: BoundExpr) -> Result<Typed, Mem>
    ensures { IfOk result (λ t. typed_of t ≡ converted (ty_of to) (expr_of e)) }
{
    if gives_none(&e) {
        return Ok(Typed::breaks(21));
    }
    if fails(alloc, &to.to_type(), &e)? {
        return Ok(Typed::breaks(25));
    }
    Ok(Typed::Known(convert(alloc, to, e)?))
}

fn preset_value(
    alloc: Global,
    ty: &Type6,
    preset: &Option<Value6>,
) -> Result<Option<BoundExpr>, Mem>
    ensures { IfOk result (λ e. option_map expr_of e ≡ preset_value (type_of ty.now) preset.now) }
{
    match preset {
        Some(value) => {
            if is_variant(ty) {
                Ok(None)
            } else {
                let ty = copy_type(alloc, ty)?;
                let value = copy_value(alloc, value)?;
                let node = BoundNode::Const(value, Origin::Literal);
                Ok(Some(BoundExpr { ty, node }))
            }
        }
        None => Ok(None),
    }
}

/// The value of a parameter that is left out.
pub(crate) fn preset_of(alloc: Global, v: &VarDecl) -> Result<Option<BoundExpr>, Mem>
    ensures { IfOk result (λ e. option_map expr_of e ≡ preset_of (Some (variable_of v.now))) }
{
    Ok(preset_value(alloc, &v.ty, &v.preset)?)
}

pub(crate) fn preset_at(
    alloc: Global,
    context: Context<'_>,
    v: VarId,
) -> Result<Option<BoundExpr>, Mem>
    ensures { IfOk result (λ e. option_map expr_of e ≡ preset_at (declared_in context.entry) v) }
{
    match context.declared.vars.get(v.0 as usize) {
        Some(v) => Ok(preset_of(alloc, v)?),
        None => Ok(None),
    }
}

fn has_value(ty: &Type6, preset: &Option<Value6>) -> bool
    ensures { result ≡ is_some (preset_value (type_of ty.now) preset.now) }
{
    match preset {
        Some(_) => !is_variant(ty),
        None => false,
    }
}

fn has_preset(context: Context<'_>, v: VarId) -> bool
    ensures { result ≡ has_preset (declared_in context.entry) v }
{
    match context.declared.vars.get(v.0 as usize) {
        Some(v) => has_value(&v.ty, &v.preset),
        None => false,
    }
}

fn have_presets(context: Context<'_>, params: &[VarId]) -> bool
    ensures { result ≡ list_all (has_preset (declared_in context.entry)) params.now }
{
    for v in params {
        if !has_preset(context, *v) {
            return false;
        }
    }
    true
}

// Puts the value of a parameter behind arguments, where there is one.
#[tactic(auto, using(crate::proofs::Pushes::argument_put))]
fn push_preset(preset: Option<BoundExpr>, to: &mut Vec<BoundArg>) -> Result<(), Mem>
    ensures { OnOk result ((more : Passed) → passed_before to.new.items more ≡ passed_before to.old.items (with_preset (option_map expr_of preset) more)) }
{
    match preset {
        Some(e) => Ok(to.push(BoundArg::ByValue(e))?),
        None => Ok(()),
    }
}

fn presets(alloc: Global, context: Context<'_>, params: &[VarId]) -> Result<Vec<BoundArg>, Mem>
    ensures { IfOk result (λ v. passed_of v.items ≡ presets (declared_in context.entry) params.now) }
{
    let mut args = Vec::new(alloc);
    for v in params {
        let preset = preset_at(alloc, context, *v)?;
        push_preset(preset, &mut args)?;
    }
    Ok(args)
}

/// A call of a procedure with the arguments of its parameters.
pub(crate) fn call_of(
    p: u32,
    qualified: bool,
    of: Option<Box<BoundExpr>>,
    ty: Type6,
    args: Vec<BoundArg>,
) -> BoundExpr
    ensures { expr_of result ≡ typed (type_of ty) (call_term (id p) qualified (object_of of) (passed_of args.items)) }
{
    let node = BoundNode::Call(ProcId(p), qualified, of, args);
    BoundExpr { ty, node }
}

fn bare_known(
    alloc: Global,
    context: Context<'_>,
    p: u32,
    qualified: bool,
    of: Option<Box<BoundExpr>>,
    ty: Type6,
) -> Result<Typed, Mem>
    ensures { IfOk result (λ t. typed_of t ≡ flaws.known (typed (type_of ty) (call_term (id p) qualified (object_of of) (presets (declared_in context.entry) (params_of (declared_in context.entry) p))))) }
{
    let args = presets(alloc, context, params_of(context, p))?;
    Ok(Typed::Known(call_of(p, qualified, of, ty, args)))
}

fn bare_part(
    alloc: Global,
    context: Context<'_>,
    p: u32,
    qualified: bool,
    of: Option<Box<BoundExpr>>,
) -> Result<Typed, Mem>
    ensures { IfOk result (λ t. typed_of t ≡ bare_result (declared_in context.entry) p qualified (object_of of) (result_in (slice_get (declared_in context.entry).procs p)) (params_of (declared_in context.entry) p)) }
{
    let ty = result_at(alloc, context, p)?;
    if is_unknown(&ty) {
        return Ok(Typed::Unknown(Flaw::lacks(Mention::Proc(ProcId(p)))));
    }
    if !have_presets(context, params_of(context, p)) {
        return Ok(Typed::breaks(18));
    }
    Ok(bare_known(alloc, context, p, qualified, of, ty)?)
}

pub(crate) fn is_unknown(ty: &Type6) -> bool
    ensures { result ≡ is_without_type (type_of ty.now) }
{
    matches!(ty, Type6::Unknown)
}

/// The value of a procedure or a property that no argument list follows.
pub(crate) fn bare_call(
    alloc: Global,
    context: Context<'_>,
    p: u32,
    qualified: bool,
    of: Option<Box<BoundExpr>>,
) -> Result<Typed, Mem>
    requires { IsContext context }
    ensures { IfOk result (λ t. typed_of t ≡ bare_call (declared_in context.entry) p qualified (object_of of)) }
{
    match value_part(context, p) {
        Some(part) => Ok(bare_part(alloc, context, part, qualified, of)?),
        None => Ok(Typed::breaks(3)),
    }
}

pub(crate) fn default_at(context: Context<'_>, ty: &Type6) -> Option<u32>
    ensures { result ≡ default_at (declared_in context.entry) (type_of ty.now) }
{
    match ty {
        Type6::Class(class) => default_of(context, *class),
        _ => None,
    }
}

// The default member of an object.
fn behind_default(alloc: Global, context: Context<'_>, e: BoundExpr) -> Result<Typed, Mem>
    requires { IsContext context }
    ensures { IfOk result (λ t. typed_of t ≡ behind_default (declared_in context.entry) (type_of e.ty) (expr_of e)) }
{
    match default_at(context, &e.ty) {
        Some(p) => {
            let of = Box::new(alloc, e)?;
            Ok(bare_call(alloc, context, p, false, Some(of))?)
        }
        None => Ok(Typed::breaks(6)),
    }
}

#[tactic(auto, using(crate::proofs::Links::one_link_more))]
fn plain_in(alloc: Global, context: Context<'_>, n: usize, e: BoundExpr) -> Result<Typed, Mem>
    requires { IsContext context }
    ensures { IfOk result (λ t. typed_of t ≡ plain_in (declared_in context.entry) n (expr_of e)) }
{
    if !is_object_type(&e.ty) {
        return Ok(Typed::Known(e));
    }
    if n == 0 {
        return Ok(Typed::breaks(6));
    }
    match behind_default(alloc, context, e)? {
        Typed::Known(e) => Ok(plain_in(alloc, context, n - 1, e)?),
        Typed::Unknown(flaw) => Ok(Typed::Unknown(flaw)),
    }
}

/// What an expression gives that isn't an object, along default members.
pub(crate) fn plain(alloc: Global, context: Context<'_>, e: BoundExpr) -> Result<Typed, Mem>
    requires { IsContext context }
    ensures { IfOk result (λ t. typed_of t ≡ plain (declared_in context.entry) (expr_of e)) }
{
    Ok(plain_in(alloc, context, count_classes(context), e)?)
}

// What becomes of an expression that can't give way any more.
fn finally(alloc: Global, asks: Asks<'_>, e: BoundExpr) -> Result<Typed, Mem>
    ensures { IfOk result (λ t. typed_of t ≡ finally (expr_of e) (asks_of asks.entry (type_of e.ty))) }
{
    match asks.of(&e.ty) {
        Conversion::Stands => Ok(Typed::Known(e)),
        Conversion::To(to) => Ok(converted(alloc, to, e)?),
        Conversion::ByDefault => Ok(Typed::breaks(6)),
        Conversion::Breaks(rule) => Ok(Typed::breaks(rule)),
    }
}

fn behind_plain(alloc: Global, asks: Asks<'_>, t: Typed) -> Result<Typed, Mem>
    ensures { IfOk result (λ r. typed_of r ≡ on_known (λ x. finally x (asks_of asks.entry (type_at x))) (typed_of t)) }
{
    match t {
        Typed::Known(e) => Ok(finally(alloc, asks, e)?),
        Typed::Unknown(flaw) => Ok(Typed::Unknown(flaw)),
    }
}

/// An expression where one is wanted.
pub fn wanted(
    alloc: Global,
    context: Context<'_>,
    asks: Asks<'_>,
    e: BoundExpr,
) -> Result<Typed, Mem>
    requires { IsContext context }
    ensures { IfOk result (λ t. typed_of t ≡ wanted (declared_in context.entry) (asks_of asks.entry) (expr_of e)) }
{
    match asks.of(&e.ty) {
        Conversion::Stands => Ok(Typed::Known(e)),
        Conversion::To(to) => Ok(converted(alloc, to, e)?),
        Conversion::ByDefault => {
            let e = plain(alloc, context, e)?;
            Ok(behind_plain(alloc, asks, e)?)
        }
        Conversion::Breaks(rule) => Ok(Typed::breaks(rule)),
    }
}

/// The same of what may have no type.
pub fn wanted_typed(
    alloc: Global,
    context: Context<'_>,
    asks: Asks<'_>,
    t: Typed,
) -> Result<Typed, Mem>
    requires { IsContext context }
    ensures { IfOk result (λ r. typed_of r ≡ on_known (wanted (declared_in context.entry) (asks_of asks.entry)) (typed_of t)) }
{
    match t {
        Typed::Known(e) => Ok(wanted(alloc, context, asks, e)?),
        Typed::Unknown(flaw) => Ok(Typed::Unknown(flaw)),
    }
}

/// What an expression that may have no type gives that isn't an object.
pub fn plain_typed(alloc: Global, context: Context<'_>, t: Typed) -> Result<Typed, Mem>
    requires { IsContext context }
    ensures { IfOk result (λ r. typed_of r ≡ on_known (plain (declared_in context.entry)) (typed_of t)) }
{
    match t {
        Typed::Known(e) => Ok(plain(alloc, context, e)?),
        Typed::Unknown(flaw) => Ok(Typed::Unknown(flaw)),
    }
}
