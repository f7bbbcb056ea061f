//! What statements do with names, members and argument lists.
ghost use Rattle.std.specs.Prelude.{◌≡◌, ◌<◌, map, IfOk};
ghost use Rattle.vb_tree.specs.declared.declared.ProcKind.TheVariants as kind;
ghost use Rattle.vb_tree.specs.BoundView.{type_of};
ghost use Rattle.bound_tree.specs.Tree.{typed, call, library};
ghost use Rattle.bound_tree.specs.View.{expr_of, exprs_of, object_of, passed_of};
ghost use Rattle.expression_words.specs.Converting.{id};
ghost use Rattle.expression_words.specs.Flaws.{known, on_known};
ghost use Rattle.expression_words.specs.Meanings.{value};
ghost use Rattle.expression_words.specs.Members as members;
ghost use Rattle.expression_words.specs.Members.{store_part};
ghost use Rattle.expression_words.specs.Targets.{called_statement, counted, counter, is_err_number, is_variable, let_known, let_procedure, let_target, library_statement, no_statement, read_type, resized, resized_library, resized_procedure, rule_for, set_target, statement, store_by_part, store_call, stored, stored_call, takes_object, target_type, unfit, unfit_flaw};
ghost use Rattle.expression_words.specs.View.{IsContext, declared_in, meaning_of, supplied_of, typed_of};

use crate::converting::{default_at, is_unknown};
use crate::err_statements::err_statement;
use crate::library_calls::{gives_no_value, library_call_of, result_or_nothing};
use crate::members::{
    count_classes, is_a_property, params_of, result_at, result_of, store_part, taken_by,
    value_part, without_last,
};
use crate::passing::{call_with, called, is_place};
use crate::supplied::with_slack;
use crate::uses::args_in;
use crate::{Context, Flaw, Meaning, Supplied, Typed};
use bound_facts::is_object_type;
use bound_tree::{BoundArg, BoundExpr, BoundNode, Mention};
use std::alloc::Global;
use typing_rows::is_counter;
use up_base::Mem;
use vb_tree::{LibCall, ProcId, ProcKind, Type6};

fn is_err_number(e: &BoundExpr) -> bool
    ensures { result ≡ is_err_number (expr_of e.now) }
{
    matches!(&e.node, BoundNode::ErrNumber)
}

fn rule_for(rule: u8, e: &BoundExpr) -> u8
    requires { rule < 32 }
    ensures rule { result ≡ rule_for rule (expr_of e.now) }
    ensures small { result < 32 }
{
    if is_err_number(e) { 19 } else { rule }
}

// What is broken by a procedure that can't be used in some way, unless it has no type.
fn unfit_flaw(p: u32, rule: u8, ty: &Type6) -> Flaw
    requires { rule < 32 }
    ensures { result ≡ unfit_flaw p rule (type_of ty.now) }
{
    if is_unknown(ty) {
        Flaw::lacks(Mention::Proc(ProcId(p)))
    } else {
        Flaw::breaks(rule)
    }
}

fn unfit(p: u32, args: &[Supplied], rule: u8, ty: &Type6) -> Typed
    requires { rule < 32 }
    ensures { typed_of result ≡ unfit p (map supplied_of args.now) rule (type_of ty.now) }
{
    Typed::Unknown(with_slack(unfit_flaw(p, rule, ty), args))
}

fn stored(e: BoundExpr) -> Typed
    ensures { typed_of result ≡ stored (expr_of e) }
{
    if is_place(&e) {
        Typed::Known(e)
    } else {
        Typed::breaks(rule_for(21, &e))
    }
}

fn stored_typed(t: Typed) -> Typed
    ensures { typed_of result ≡ on_known stored (typed_of t) }
{
    match t {
        Typed::Known(e) => stored(e),
        Typed::Unknown(flaw) => Typed::Unknown(flaw),
    }
}

fn stored_call(
    alloc: Global,
    context: Context<'_>,
    p: u32,
    qualified: bool,
    of: Option<Box<BoundExpr>>,
    args: Vec<Supplied>,
) -> Result<Typed, Mem>
    requires { IsContext context }
    ensures { IfOk result (λ t. typed_of t ≡ stored_call (declared_in context.entry) qualified (object_of of) (map supplied_of args.items) p) }
{
    let params = without_last(params_of(context, p));
    let ty = taken_by(alloc, context, p)?;
    Ok(call_with(alloc, context, p, qualified, of, ty, params, args)?)
}

fn store_call(
    alloc: Global,
    context: Context<'_>,
    p: u32,
    qualified: bool,
    of: Option<Box<BoundExpr>>,
    args: Vec<Supplied>,
) -> Result<Typed, Mem>
    requires { IsContext context }
    ensures { IfOk result (λ t. typed_of t ≡ store_call (declared_in context.entry) qualified (object_of of) (map supplied_of args.items) p) }
{
    let result = result_at(alloc, context, p)?;
    if is_unknown(&result) {
        let flaw = Flaw::lacks(Mention::Proc(ProcId(p)));
        return Ok(Typed::Unknown(with_slack(flaw, &args)));
    }
    Ok(stored_call(alloc, context, p, qualified, of, args)?)
}

fn not_usable(
    alloc: Global,
    context: Context<'_>,
    p: u32,
    rule: u8,
    args: &[Supplied],
) -> Result<Typed, Mem>
    requires context { IsContext context }
    requires small { rule < 32 }
    ensures { IfOk result (λ t. typed_of t ≡ unfit p (map supplied_of args.now) rule (read_type (declared_in context.entry) p)) }
{
    let ty = read_type(alloc, context, p)?;
    Ok(unfit(p, args, rule, &ty))
}

// The type of the value of a procedure or of a property.
fn read_type(alloc: Global, context: Context<'_>, p: u32) -> Result<Type6, Mem>
    requires { IsContext context }
    ensures { IfOk result (λ t. type_of t ≡ read_type (declared_in context.entry) p) }
{
    Ok(result_of(alloc, context, value_part(context, p))?)
}

fn store_by_part(
    alloc: Global,
    context: Context<'_>,
    p: u32,
    qualified: bool,
    of: Option<Box<BoundExpr>>,
    args: Vec<Supplied>,
    part: Option<u32>,
) -> Result<Typed, Mem>
    requires { IsContext context }
    ensures { IfOk result (λ t. typed_of t ≡ store_by_part (declared_in context.entry) p qualified (object_of of) (map supplied_of args.items) part) }
{
    match part {
        Some(q) => Ok(store_call(alloc, context, q, qualified, of, args)?),
        None => Ok(not_usable(alloc, context, p, 21, &args)?),
    }
}

fn target_type(alloc: Global, context: Context<'_>, p: u32, part: Option<u32>) -> Result<Type6, Mem>
    requires { IsContext context }
    ensures { IfOk result (λ t. type_of t ≡ target_type (declared_in context.entry) p part) }
{
    match part {
        Some(q) => Ok(taken_by(alloc, context, q)?),
        None => Ok(read_type(alloc, context, p)?),
    }
}

#[cycle(let_targets)]
fn let_typed(alloc: Global, context: Context<'_>, n: usize, t: Typed) -> Result<Typed, Mem>
    requires { IsContext context }
    ensures { IfOk result (λ r. typed_of r ≡ on_known (let_known (declared_in context.entry) n) (typed_of t)) }
{
    match t {
        Typed::Known(e) => Ok(let_known(alloc, context, n, e)?),
        Typed::Unknown(flaw) => Ok(Typed::Unknown(flaw)),
    }
}

fn let_store(
    alloc: Global,
    context: Context<'_>,
    p: u32,
    qualified: bool,
    of: Option<Box<BoundExpr>>,
    args: Vec<Supplied>,
) -> Result<Typed, Mem>
    requires { IsContext context }
    ensures { IfOk result (λ t. typed_of t ≡ store_by_part (declared_in context.entry) p qualified (object_of of) (map supplied_of args.items) (store_part (declared_in context.entry) kind.Let p)) }
{
    let part = store_part(context, ProcKind::Let, p);
    Ok(store_by_part(alloc, context, p, qualified, of, args, part)?)
}

// Whether what a procedure is given is an object.
fn takes_object(alloc: Global, context: Context<'_>, p: u32) -> Result<bool, Mem>
    requires { IsContext context }
    ensures { IfOk result (λ b. b ≡ takes_object (declared_in context.entry) p) }
{
    let part = store_part(context, ProcKind::Let, p);
    let ty = target_type(alloc, context, p, part)?;
    Ok(is_object_type(&ty))
}

#[cycle(let_targets)]
fn let_procedure(
    alloc: Global,
    context: Context<'_>,
    n: usize,
    p: u32,
    qualified: bool,
    of: Option<Box<BoundExpr>>,
    args: Vec<Supplied>,
) -> Result<Typed, Mem>
    requires { IsContext context }
    ensures { IfOk result (λ t. typed_of t ≡ let_procedure (let_known (declared_in context.entry) n) (declared_in context.entry) p qualified (object_of of) (map supplied_of args.items)) }
{
    let through = takes_object(alloc, context, p)?;
    if through {
        let t = called(alloc, context, p, qualified, of, args)?;
        Ok(let_typed(alloc, context, n, t)?)
    } else {
        Ok(let_store(alloc, context, p, qualified, of, args)?)
    }
}

// An expression as the target of an assignment, along at most so many default members.
#[cycle(let_targets)]
#[tactic(auto, using(crate::proofs::ListLinks::one_target_more))]
fn let_known(alloc: Global, context: Context<'_>, n: usize, e: BoundExpr) -> Result<Typed, Mem>
    requires { IsContext context }
    ensures { IfOk result (λ t. typed_of t ≡ let_known (declared_in context.entry) n (expr_of e)) }
{
    if !is_object_type(&e.ty) {
        return Ok(stored(e));
    }
    if n == 0 {
        return Ok(Typed::breaks(6));
    }
    match default_at(context, &e.ty) {
        Some(p) => {
            let of = Box::new(alloc, e)?;
            Ok(let_procedure(alloc, context, n - 1, p, false, Some(of), Vec::new(alloc))?)
        }
        None => Ok(Typed::breaks(6)),
    }
}

// An expression as the target of an assignment.
fn let_value(alloc: Global, context: Context<'_>, t: Typed) -> Result<Typed, Mem>
    requires { IsContext context }
    ensures { IfOk result (λ r. typed_of r ≡ let_target (declared_in context.entry) (value (typed_of t))) }
{
    Ok(let_typed(alloc, context, count_classes(context), t)?)
}

// A procedure or a property as the target of an assignment.
fn let_call(
    alloc: Global,
    context: Context<'_>,
    p: u32,
    qualified: bool,
    of: Option<Box<BoundExpr>>,
    args: Vec<Supplied>,
) -> Result<Typed, Mem>
    requires { IsContext context }
    ensures { IfOk result (λ t. typed_of t ≡ let_procedure (let_known (declared_in context.entry) (members.count_classes (declared_in context.entry))) (declared_in context.entry) p qualified (object_of of) (map supplied_of args.items)) }
{
    let n = count_classes(context);
    Ok(let_procedure(alloc, context, n, p, qualified, of, args)?)
}

/// The target of an assignment.
pub fn let_target(alloc: Global, context: Context<'_>, meaning: Meaning) -> Result<Typed, Mem>
    requires { IsContext context }
    ensures { IfOk result (λ t. typed_of t ≡ let_target (declared_in context.entry) (meaning_of meaning)) }
{
    match meaning {
        Meaning::Value(t) => Ok(let_value(alloc, context, t)?),
        Meaning::Procedure(p, qualified, of, args) => {
            let args = args_in(alloc, args);
            Ok(let_call(alloc, context, p.0, qualified, of, args)?)
        }
        Meaning::Library(_, args) => {
            let args = args_in(alloc, args);
            Ok(Typed::Unknown(with_slack(Flaw::breaks(21), &args)))
        }
        Meaning::Module(_) => Ok(Typed::breaks(3)),
        Meaning::Enum(_) => Ok(Typed::breaks(3)),
        Meaning::Err => Ok(Typed::breaks(19)),
        Meaning::ErrMember(_, args) => {
            let args = args_in(alloc, args);
            Ok(Typed::Unknown(with_slack(Flaw::breaks(19), &args)))
        }
    }
}

fn set_store(
    alloc: Global,
    context: Context<'_>,
    p: u32,
    qualified: bool,
    of: Option<Box<BoundExpr>>,
    args: Vec<Supplied>,
) -> Result<Typed, Mem>
    requires { IsContext context }
    ensures { IfOk result (λ t. typed_of t ≡ store_by_part (declared_in context.entry) p qualified (object_of of) (map supplied_of args.items) (store_part (declared_in context.entry) kind.Set p)) }
{
    let part = store_part(context, ProcKind::Set, p);
    Ok(store_by_part(alloc, context, p, qualified, of, args, part)?)
}

/// The target of a Set.
pub fn set_target(alloc: Global, context: Context<'_>, meaning: Meaning) -> Result<Typed, Mem>
    requires { IsContext context }
    ensures { IfOk result (λ t. typed_of t ≡ set_target (declared_in context.entry) (meaning_of meaning)) }
{
    match meaning {
        Meaning::Value(t) => Ok(stored_typed(t)),
        Meaning::Procedure(p, qualified, of, args) => {
            let args = args_in(alloc, args);
            Ok(set_store(alloc, context, p.0, qualified, of, args)?)
        }
        Meaning::Library(_, args) => {
            let args = args_in(alloc, args);
            Ok(Typed::Unknown(with_slack(Flaw::breaks(21), &args)))
        }
        Meaning::Module(_) => Ok(Typed::breaks(3)),
        Meaning::Enum(_) => Ok(Typed::breaks(3)),
        Meaning::Err => Ok(Typed::breaks(19)),
        Meaning::ErrMember(_, args) => {
            let args = args_in(alloc, args);
            Ok(Typed::Unknown(with_slack(Flaw::breaks(19), &args)))
        }
    }
}

fn is_variable(e: &BoundExpr) -> bool
    ensures { result ≡ is_variable (expr_of e.now) }
{
    matches!(&e.node, BoundNode::Var(_, _))
}

fn counted(e: BoundExpr) -> Typed
    ensures { typed_of result ≡ counted (expr_of e) }
{
    if is_variable(&e) && is_counter(&e.ty) {
        Typed::Known(e)
    } else {
        Typed::breaks(rule_for(22, &e))
    }
}

fn counted_typed(t: Typed) -> Typed
    ensures { typed_of result ≡ on_known counted (typed_of t) }
{
    match t {
        Typed::Known(e) => counted(e),
        Typed::Unknown(flaw) => Typed::Unknown(flaw),
    }
}

/// What a For counts in.
pub fn counter(alloc: Global, context: Context<'_>, meaning: Meaning) -> Result<Typed, Mem>
    requires { IsContext context }
    ensures { IfOk result (λ t. typed_of t ≡ counter (declared_in context.entry) (meaning_of meaning)) }
{
    match meaning {
        Meaning::Value(t) => Ok(counted_typed(t)),
        Meaning::Procedure(p, _, _, args) => {
            let args = args_in(alloc, args);
            Ok(not_usable(alloc, context, p.0, 22, &args)?)
        }
        Meaning::Library(_, args) => {
            let args = args_in(alloc, args);
            Ok(Typed::Unknown(with_slack(Flaw::breaks(22), &args)))
        }
        Meaning::Module(_) => Ok(Typed::breaks(3)),
        Meaning::Enum(_) => Ok(Typed::breaks(3)),
        Meaning::Err => Ok(Typed::breaks(19)),
        Meaning::ErrMember(_, args) => {
            let args = args_in(alloc, args);
            Ok(Typed::Unknown(with_slack(Flaw::breaks(19), &args)))
        }
    }
}

fn procedure_call(
    p: u32,
    qualified: bool,
    of: Option<Box<BoundExpr>>,
    ty: Type6,
    args: Vec<BoundArg>,
) -> Typed
    ensures { typed_of result ≡ known (typed (type_of ty) (call (id p) qualified (object_of of) (passed_of args.items))) }
{
    let node = BoundNode::Call(ProcId(p), qualified, of, args);
    Typed::Known(BoundExpr { ty, node })
}

fn resized_procedure(
    alloc: Global,
    p: u32,
    qualified: bool,
    of: Option<Box<BoundExpr>>,
    ty: Type6,
) -> Typed
    ensures { typed_of result ≡ resized_procedure p qualified (object_of of) (type_of ty) }
{
    if is_unknown(&ty) {
        return Typed::Unknown(Flaw::lacks(Mention::Proc(ProcId(p))));
    }
    procedure_call(p, qualified, of, ty, Vec::new(alloc))
}

fn library_call(call: LibCall, ty: Type6, args: Vec<BoundExpr>) -> Typed
    ensures { typed_of result ≡ known (typed (type_of ty) (library call (exprs_of args.items))) }
{
    let node = BoundNode::Lib(call, args);
    Typed::Known(BoundExpr { ty, node })
}

fn resized_library(alloc: Global, call: LibCall) -> Typed
    ensures { typed_of result ≡ resized_library call }
{
    let ty = result_or_nothing(call, &Type6::Unknown);
    library_call(call, ty, Vec::new(alloc))
}

/// What a ReDim or an Erase names, whatever it is.
pub fn resized(alloc: Global, context: Context<'_>, meaning: Meaning) -> Result<Typed, Mem>
    requires { IsContext context }
    ensures { IfOk result (λ t. typed_of t ≡ resized (declared_in context.entry) (meaning_of meaning)) }
{
    match meaning {
        Meaning::Value(t) => Ok(t),
        Meaning::Procedure(p, qualified, of, _) => {
            let ty = read_type(alloc, context, p.0)?;
            Ok(resized_procedure(alloc, p.0, qualified, of, ty))
        }
        Meaning::Library(call, _) => Ok(resized_library(alloc, call)),
        Meaning::Module(_) => Ok(Typed::breaks(3)),
        Meaning::Enum(_) => Ok(Typed::breaks(3)),
        Meaning::Err => Ok(Typed::breaks(19)),
        Meaning::ErrMember(_, args) => {
            let args = args_in(alloc, args);
            Ok(Typed::Unknown(with_slack(Flaw::breaks(19), &args)))
        }
    }
}

fn called_statement(
    alloc: Global,
    context: Context<'_>,
    p: u32,
    qualified: bool,
    of: Option<Box<BoundExpr>>,
    args: Vec<Supplied>,
) -> Result<Typed, Mem>
    requires { IsContext context }
    ensures { IfOk result (λ t. typed_of t ≡ called_statement (declared_in context.entry) p qualified (object_of of) (map supplied_of args.items)) }
{
    if is_a_property(context, p) {
        Ok(not_usable(alloc, context, p, 3, &args)?)
    } else {
        Ok(called(alloc, context, p, qualified, of, args)?)
    }
}

fn library_statement(
    alloc: Global,
    context: Context<'_>,
    call: LibCall,
    args: Vec<Supplied>,
) -> Result<Typed, Mem>
    requires { IsContext context }
    ensures { IfOk result (λ t. typed_of t ≡ library_statement (declared_in context.entry) call (map supplied_of args.items)) }
{
    if gives_no_value(call) {
        Ok(library_call_of(alloc, context, call, args)?)
    } else {
        Ok(Typed::Unknown(with_slack(Flaw::breaks(3), &args)))
    }
}

fn no_statement(t: Typed) -> Typed
    ensures { typed_of result ≡ on_known no_statement (typed_of t) }
{
    match t {
        Typed::Known(e) => Typed::breaks(rule_for(3, &e)),
        Typed::Unknown(flaw) => Typed::Unknown(flaw),
    }
}

/// A call as a statement.
pub fn statement(alloc: Global, context: Context<'_>, meaning: Meaning) -> Result<Typed, Mem>
    requires { IsContext context }
    ensures { IfOk result (λ t. typed_of t ≡ statement (declared_in context.entry) (meaning_of meaning)) }
{
    match meaning {
        Meaning::Value(t) => Ok(no_statement(t)),
        Meaning::Procedure(p, qualified, of, args) => {
            let args = args_in(alloc, args);
            Ok(called_statement(alloc, context, p.0, qualified, of, args)?)
        }
        Meaning::Library(call, args) => {
            let args = args_in(alloc, args);
            Ok(library_statement(alloc, context, call, args)?)
        }
        Meaning::Module(_) => Ok(Typed::breaks(3)),
        Meaning::Enum(_) => Ok(Typed::breaks(3)),
        Meaning::Err => Ok(Typed::breaks(19)),
        Meaning::ErrMember(member, args) => {
            let args = args_in(alloc, args);
            Ok(err_statement(alloc, context, member, args)?)
        }
    }
}
