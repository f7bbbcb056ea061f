//! Values of meanings, members behind full stops, and argument lists.
ghost use Rattle.std.specs.Prelude.{◌≡◌, ◌<◌, ◌&&◌, ℕ, false, map, not, slice_get, IfOk, Some, []};
ghost use Rattle.up_base.specs.Names.{lower_case};
ghost use Rattle.vb_tree.specs.BoundView.{type_of};
ghost use Rattle.bound_tree.specs.Tree.{Object};
ghost use Rattle.bound_tree.specs.View.{expr_of, object_of, procedure_of};
ghost use Rattle.name_tables.specs.Scopes as scopes;
ghost use Rattle.expression_words.specs.Members as members;
ghost use Rattle.expression_words.specs.Passing as passing;
ghost use Rattle.expression_words.specs.Meanings as meanings;
ghost use Rattle.expression_words.specs.Meanings.{args_in, array_list, behind_class, behind_err_member, class_id, class_field, constant_found, enum_member_of, err_member_of, field_at, field_found, field_of_type, gives_default, gives_list, has_default, in_module, is_empty, is_nil, kept_value, list_behind, list_by_type, list_meaning, me_value, member_by_type, member_key, member_meaning, member_of, new_of, new_value, object_member, object_named, procedure_list, qualified_meaning, type_flaw, type_flaw_of, type_test, user_field, value_list, valued, without_list};
ghost use Rattle.expression_words.specs.View.{IsContext, declared_in, kept_of, listed_of, meaning_of, scope_of, supplied_of, typed_of};

use crate::converting::{default_at, is_unknown};
use crate::copies::copy_type;
use crate::elements::element_of;
use crate::err_statements::err_statement;
use crate::library_calls::library_called;
use crate::members::{
    class_of_file, count_classes, default_of, place_of, type_of_variable, value_part,
};
use crate::passing::called;
use crate::supplied::with_slack;
use crate::words::{constant_value, is_type_name, is_word, named_meaning, or_use, without_value};
use crate::{Context, ErrMember, Flaw, Kept, Lookup, Meaning, Scope, Supplied, Typed};
use bound_tree::{
    BoundExpr, BoundNode, ConstId, EnumDecl, EnumId, Mention, Named, ProcDecl, RuleSet, TypeDecl,
};
use name_tables::{
    Use6, Wanted, found_field, found_in_enum, found_in_module, found_member, found_type,
};
use std::alloc::Global;
use up_base::{Mem, Name};
use vb_tree::{ClassId, LibCall, ProcId, Type6, VarId};

/// The arguments of a list, if one was seen.
pub(crate) fn args_in(alloc: Global, args: Option<Vec<Supplied>>) -> Vec<Supplied>
    ensures { map supplied_of result.items ≡ args_in (listed_of args) }
{
    match args {
        Some(args) => args,
        None => Vec::new(alloc),
    }
}

/// An expression by itself.
pub fn valued(alloc: Global, context: Context<'_>, meaning: Meaning) -> Result<Typed, Mem>
    requires { IsContext context }
    ensures { IfOk result (λ t. typed_of t ≡ valued (declared_in context.entry) (meaning_of meaning)) }
{
    match meaning {
        Meaning::Value(t) => Ok(t),
        Meaning::Procedure(p, qualified, of, args) => {
            let args = args_in(alloc, args);
            Ok(called(alloc, context, p.0, qualified, of, args)?)
        }
        Meaning::Library(call, args) => {
            let args = args_in(alloc, args);
            Ok(library_called(alloc, context, call, args)?)
        }
        Meaning::Module(_) => Ok(Typed::breaks(3)),
        Meaning::Enum(_) => Ok(Typed::breaks(3)),
        Meaning::Err => Ok(Typed::breaks(19)),
        Meaning::ErrMember(member, args) => {
            let args = args_in(alloc, args);
            Ok(err_statement(alloc, context, member, args)?)
        }
    }
}

// ---- members

fn field_known(
    alloc: Global,
    context: Context<'_>,
    e: BoundExpr,
    k: u32,
    v: VarId,
) -> Result<Typed, Mem>
    ensures { IfOk result (λ t. typed_of t ≡ field_of_type (declared_in context.entry) (expr_of e) k v (members.type_of_variable (declared_in context.entry) v)) }
{
    let ty = type_of_variable(alloc, context, v)?;
    if is_unknown(&ty) {
        return Ok(Typed::Unknown(Flaw::lacks(Mention::Var(v))));
    }
    let node = BoundNode::Field(Box::new(alloc, e)?, k);
    Ok(Typed::Known(BoundExpr { ty, node }))
}

fn field_at(
    alloc: Global,
    context: Context<'_>,
    e: BoundExpr,
    k: u32,
    ty: &TypeDecl,
) -> Result<Typed, Mem>
    ensures { IfOk result (λ t. typed_of t ≡ field_at (declared_in context.entry) (expr_of e) k (slice_get ty.now.fields k)) }
{
    match ty.fields.get(k as usize) {
        Some(v) => Ok(field_known(alloc, context, e, k, *v)?),
        None => Ok(Typed::breaks(3)),
    }
}

fn field_found(
    alloc: Global,
    context: Context<'_>,
    e: BoundExpr,
    ty: &TypeDecl,
    place: Option<u32>,
) -> Result<Typed, Mem>
    ensures { IfOk result (λ t. typed_of t ≡ field_found (declared_in context.entry) (expr_of e) ty.now place) }
{
    match place {
        Some(k) => Ok(field_at(alloc, context, e, k, ty)?),
        None => Ok(Typed::breaks(3)),
    }
}

fn named_field(
    alloc: Global,
    context: Context<'_>,
    e: BoundExpr,
    ty: &TypeDecl,
    name: &Name,
) -> Result<Typed, Mem>
    ensures { IfOk result (λ t. typed_of t ≡ field_found (declared_in context.entry) (expr_of e) ty.now (scopes.found_field (declared_in context.entry) ty.now (lower_case name.now))) }
{
    let place = found_field(&context.declared, ty, name)?;
    Ok(field_found(alloc, context, e, ty, place)?)
}

fn user_field(
    alloc: Global,
    context: Context<'_>,
    e: BoundExpr,
    ty: u32,
    name: &Name,
) -> Result<Typed, Mem>
    ensures { IfOk result (λ t. typed_of t ≡ user_field (declared_in context.entry) (expr_of e) (lower_case name.now) (slice_get (declared_in context.entry).types ty)) }
{
    match context.declared.types.get(ty as usize) {
        Some(ty) => Ok(named_field(alloc, context, e, ty, name)?),
        None => Ok(Typed::breaks(3)),
    }
}

fn class_field(
    alloc: Global,
    context: Context<'_>,
    class: u32,
    e: BoundExpr,
    v: VarId,
) -> Result<Typed, Mem>
    requires { IsContext context }
    ensures { IfOk result (λ t. typed_of t ≡ class_field (declared_in context.entry) (expr_of e) v (members.place_of (declared_in context.entry) class v.0)) }
{
    match place_of(context, class, v.0) {
        Some(k) => Ok(field_known(alloc, context, e, k, v)?),
        None => Ok(Typed::breaks(3)),
    }
}

fn object_named(
    alloc: Global,
    context: Context<'_>,
    class: u32,
    e: BoundExpr,
    named: Named,
) -> Result<Meaning, Mem>
    requires { IsContext context }
    ensures { IfOk result (λ m. meaning_of m ≡ object_named (declared_in context.entry) class (expr_of e) named) }
{
    match named {
        Named::Var(v) => {
            let t = class_field(alloc, context, class, e, v)?;
            Ok(Meaning::Value(t))
        }
        Named::Proc(p) => {
            let of = Box::new(alloc, e)?;
            Ok(Meaning::Procedure(p, false, Some(of), None))
        }
        Named::Const(_) => Ok(without_value(3)),
        Named::Type(_) => Ok(without_value(3)),
        Named::Enum(_) => Ok(without_value(3)),
    }
}

fn object_member(
    alloc: Global,
    context: Context<'_>,
    class: u32,
    e: BoundExpr,
    found: Option<Named>,
) -> Result<Meaning, Mem>
    requires { IsContext context }
    ensures { IfOk result (λ m. meaning_of m ≡ object_member (declared_in context.entry) class (expr_of e) found) }
{
    match found {
        Some(named) => Ok(object_named(alloc, context, class, e, named)?),
        None => Ok(without_value(3)),
    }
}

fn user_member(
    alloc: Global,
    context: Context<'_>,
    e: BoundExpr,
    ty: u32,
    name: &Name,
) -> Result<Meaning, Mem>
    ensures { IfOk result (λ m. meaning_of m ≡ meanings.value (user_field (declared_in context.entry) (expr_of e) (lower_case name.now) (slice_get (declared_in context.entry).types ty))) }
{
    let t = user_field(alloc, context, e, ty, name)?;
    Ok(Meaning::Value(t))
}

fn class_member(
    alloc: Global,
    scope: Scope<'_>,
    e: BoundExpr,
    class: u32,
    name: &Name,
) -> Result<Meaning, Mem>
    requires { IsContext scope.context }
    ensures { IfOk result (λ m. meaning_of m ≡ object_member (scope_of scope.entry).declarations class (expr_of e) (scopes.found_member (scope_of scope.entry).declarations (scope_of scope.entry).site (class_id class) (lower_case name.now))) }
{
    let context = scope.context;
    let found = found_member(
        context.tables,
        &context.declared,
        scope.site,
        ClassId(class),
        name,
    );
    Ok(object_member(alloc, context, class, e, found)?)
}

fn member_by_type(
    alloc: Global,
    scope: Scope<'_>,
    e: BoundExpr,
    name: &Name,
) -> Result<Meaning, Mem>
    requires { IsContext scope.context }
    ensures { IfOk result (λ m. meaning_of m ≡ member_by_type (scope_of scope.entry) (expr_of e) (lower_case name.now) (type_of e.ty)) }
{
    match e.ty {
        Type6::User(ty) => Ok(user_member(alloc, scope.context, e, ty, name)?),
        Type6::Class(class) => Ok(class_member(alloc, scope, e, class, name)?),
        Type6::Object => Ok(without_value(6)),
        Type6::Variant => Ok(without_value(6)),
        _ => Ok(without_value(3)),
    }
}

fn member_of(alloc: Global, scope: Scope<'_>, name: &Name, t: Typed) -> Result<Meaning, Mem>
    requires { IsContext scope.context }
    ensures { IfOk result (λ m. meaning_of m ≡ member_of (scope_of scope.entry) (lower_case name.now) (typed_of t)) }
{
    match t {
        Typed::Known(e) => Ok(member_by_type(alloc, scope, e, name)?),
        Typed::Unknown(flaw) => Ok(Meaning::Value(Typed::Unknown(flaw))),
    }
}

fn use_in_module(scope: Scope<'_>, wanted: Wanted, file: u32, name: &Name) -> Use6
    requires { IsContext scope.context }
    ensures { result ≡ scopes.found_in_module (scope_of scope.entry).declarations (scope_of scope.entry).site wanted file (lower_case name.now) }
{
    let context = scope.context;
    found_in_module(
        context.tables,
        &context.declared,
        scope.site,
        wanted,
        file,
        name,
    )
}

fn in_module(scope: Scope<'_>, file: u32, name: &Name, first: Use6, next: Option<Wanted>) -> Use6
    requires { IsContext scope.context }
    ensures { result ≡ in_module (scope_of scope.entry) file (lower_case name.now) first next }
{
    match next {
        Some(next) => or_use(first, use_in_module(scope, next, file, name)),
        None => first,
    }
}

fn module_member(
    alloc: Global,
    scope: Scope<'_>,
    lookup: Lookup,
    file: u32,
    name: &Name,
) -> Result<Meaning, Mem>
    requires { IsContext scope.context }
    ensures { IfOk result (λ m. meaning_of m ≡ member_key (scope_of scope.entry) lookup (meanings.of_module file) (lower_case name.now)) }
{
    let first = use_in_module(scope, lookup.first, file, name);
    let found = in_module(scope, file, name, first, lookup.next);
    Ok(qualified_meaning(alloc, scope.context, found)?)
}

fn qualified_meaning(alloc: Global, context: Context<'_>, found: Use6) -> Result<Meaning, Mem>
    ensures { IfOk result (λ m. meaning_of m ≡ qualified_meaning (declared_in context.entry) found) }
{
    match found {
        Use6::Local(named) => Ok(named_meaning(alloc, context, true, named)?),
        Use6::Own(named) => Ok(named_meaning(alloc, context, true, named)?),
        Use6::Foreign(_, named) => Ok(named_meaning(alloc, context, true, named)?),
        _ => Ok(without_value(3)),
    }
}

fn constant_found(alloc: Global, context: Context<'_>, c: Option<ConstId>) -> Result<Meaning, Mem>
    ensures { IfOk result (λ m. meaning_of m ≡ constant_found (declared_in context.entry) c) }
{
    match c {
        Some(c) => {
            let t = constant_value(alloc, context, c)?;
            Ok(Meaning::Value(t))
        }
        None => Ok(without_value(3)),
    }
}

fn named_constant(
    alloc: Global,
    context: Context<'_>,
    e: &EnumDecl,
    name: &Name,
) -> Result<Meaning, Mem>
    ensures { IfOk result (λ m. meaning_of m ≡ constant_found (declared_in context.entry) (scopes.found_in_enum (declared_in context.entry) e.now (lower_case name.now))) }
{
    let c = found_in_enum(&context.declared, e, name);
    Ok(constant_found(alloc, context, c)?)
}

fn enum_member_of(
    alloc: Global,
    context: Context<'_>,
    e: EnumId,
    name: &Name,
) -> Result<Meaning, Mem>
    ensures { IfOk result (λ m. meaning_of m ≡ enum_member_of (declared_in context.entry) (lower_case name.now) (slice_get (declared_in context.entry).enums e.0)) }
{
    match context.declared.enums.get(e.0 as usize) {
        Some(e) => Ok(named_constant(alloc, context, e, name)?),
        None => Ok(without_value(3)),
    }
}

fn err_member_of(name: &Name) -> Meaning
    ensures { meaning_of result ≡ err_member_of (lower_case name.now) }
{
    if is_word(name, b"number") {
        return Meaning::Value(Typed::Known(BoundExpr {
            ty: Type6::Long,
            node: BoundNode::ErrNumber,
        }));
    }
    if is_word(name, b"raise") {
        return Meaning::ErrMember(ErrMember::Raise, None);
    }
    if is_word(name, b"clear") {
        return Meaning::ErrMember(ErrMember::Clear, None);
    }
    without_value(19)
}

fn value_member(
    alloc: Global,
    scope: Scope<'_>,
    meaning: Meaning,
    name: &Name,
) -> Result<Meaning, Mem>
    requires { IsContext scope.context }
    ensures { IfOk result (λ m. meaning_of m ≡ member_of (scope_of scope.entry) (lower_case name.now) (valued (scope_of scope.entry).declarations (meaning_of meaning))) }
{
    let t = valued(alloc, scope.context, meaning)?;
    Ok(member_of(alloc, scope, name, t)?)
}

/// A name behind a full stop.
pub fn member_meaning(
    alloc: Global,
    scope: Scope<'_>,
    lookup: Lookup,
    meaning: Meaning,
    name: &Name,
) -> Result<Meaning, Mem>
    requires { IsContext scope.context }
    ensures { IfOk result (λ m. meaning_of m ≡ member_meaning (scope_of scope.entry) lookup (meaning_of meaning) name.now) }
{
    match meaning {
        Meaning::Module(file) => Ok(module_member(alloc, scope, lookup, file, name)?),
        Meaning::Enum(e) => Ok(enum_member_of(alloc, scope.context, e, name)?),
        Meaning::Err => Ok(err_member_of(name)),
        meaning => Ok(value_member(alloc, scope, meaning, name)?),
    }
}

// ---- argument lists

fn without_list(rule: u8, args: &[Supplied]) -> Meaning
    requires { rule < 32 }
    ensures { meaning_of result ≡ without_list rule (map supplied_of args.now) }
{
    Meaning::Value(Typed::Unknown(with_slack(Flaw::breaks(rule), args)))
}

fn array_list(
    alloc: Global,
    context: Context<'_>,
    e: BoundExpr,
    args: Vec<Supplied>,
) -> Result<Typed, Mem>
    requires { IsContext context }
    ensures { IfOk result (λ t. typed_of t ≡ array_list (declared_in context.entry) (expr_of e) (map supplied_of args.items)) }
{
    if args.is_empty() {
        Ok(Typed::Known(e))
    } else {
        Ok(element_of(alloc, context, e, args)?)
    }
}

fn array_list_meaning(
    alloc: Global,
    context: Context<'_>,
    e: BoundExpr,
    args: Vec<Supplied>,
) -> Result<Meaning, Mem>
    requires { IsContext context }
    ensures { IfOk result (λ m. meaning_of m ≡ meanings.value (array_list (declared_in context.entry) (expr_of e) (map supplied_of args.items))) }
{
    let t = array_list(alloc, context, e, args)?;
    Ok(Meaning::Value(t))
}

#[cycle(lists)]
fn class_list(
    alloc: Global,
    context: Context<'_>,
    n: usize,
    class: u32,
    e: BoundExpr,
    args: Vec<Supplied>,
) -> Result<Meaning, Mem>
    requires { IsContext context }
    ensures { IfOk result (λ m. meaning_of m ≡ behind_class (λ (q : ℕ) (o : Object). procedure_list (declared_in context.entry) n q false o (map supplied_of args.items)) (expr_of e) (map supplied_of args.items) (members.default_of (declared_in context.entry) class)) }
{
    match default_of(context, class) {
        Some(p) => {
            let of = Box::new(alloc, e)?;
            Ok(procedure_list(alloc, context, n, p, false, Some(of), args)?)
        }
        None => Ok(without_list(6, &args)),
    }
}

#[cycle(lists)]
fn list_by_type(
    alloc: Global,
    context: Context<'_>,
    n: usize,
    e: BoundExpr,
    args: Vec<Supplied>,
) -> Result<Meaning, Mem>
    requires { IsContext context }
    ensures { IfOk result (λ m. meaning_of m ≡ list_by_type (λ (q : ℕ) (o : Object). procedure_list (declared_in context.entry) n q false o (map supplied_of args.items)) (declared_in context.entry) (expr_of e) (map supplied_of args.items) (type_of e.ty)) }
{
    match e.ty {
        Type6::Array(_, _) => Ok(array_list_meaning(alloc, context, e, args)?),
        Type6::Class(class) => Ok(class_list(alloc, context, n, class, e, args)?),
        Type6::Object => Ok(without_list(6, &args)),
        Type6::Variant => Ok(without_list(6, &args)),
        _ => Ok(without_list(3, &args)),
    }
}

#[cycle(lists)]
fn list_behind(
    alloc: Global,
    context: Context<'_>,
    n: usize,
    t: Typed,
    args: Vec<Supplied>,
) -> Result<Meaning, Mem>
    requires { IsContext context }
    ensures { IfOk result (λ m. meaning_of m ≡ list_behind (λ (q : ℕ) (o : Object). procedure_list (declared_in context.entry) n q false o (map supplied_of args.items)) (declared_in context.entry) (typed_of t) (map supplied_of args.items)) }
{
    match t {
        Typed::Known(e) => Ok(list_by_type(alloc, context, n, e, args)?),
        Typed::Unknown(flaw) => Ok(Meaning::Value(Typed::Unknown(with_slack(flaw, &args)))),
    }
}

fn has_default(context: Context<'_>, ty: &Type6) -> bool
    ensures { result ≡ has_default (declared_in context.entry) (type_of ty.now) }
{
    default_at(context, ty).is_some()
}

fn is_nil(params: &[VarId]) -> bool
    ensures { result ≡ is_nil params.now }
{
    params.is_empty()
}

fn procedure_gives_default(context: Context<'_>, q: &ProcDecl) -> bool
    ensures { result ≡ gives_default (declared_in context.entry) (Some (procedure_of q.now)) }
{
    is_nil(q.params.as_slice()) && has_default(context, &q.result)
}

fn gives_default(context: Context<'_>, p: u32) -> bool
    ensures { result ≡ gives_default (declared_in context.entry) (slice_get (declared_in context.entry).procs p) }
{
    match context.procedure(p) {
        Some(q) => procedure_gives_default(context, q),
        None => false,
    }
}

fn gives_list(context: Context<'_>, p: u32) -> bool
    requires { IsContext context }
    ensures { result ≡ gives_list (declared_in context.entry) p }
{
    match value_part(context, p) {
        Some(q) => gives_default(context, q),
        None => false,
    }
}

// Whether an argument list is that of the default member of what a procedure gives.
fn goes_behind(context: Context<'_>, p: u32, args: &[Supplied]) -> bool
    requires { IsContext context }
    ensures { result ≡ (not (is_empty (map supplied_of args.now)) && gives_list (declared_in context.entry) p) }
{
    !args.is_empty() && gives_list(context, p)
}

fn called_bare(
    alloc: Global,
    context: Context<'_>,
    p: u32,
    qualified: bool,
    of: Option<Box<BoundExpr>>,
) -> Result<Typed, Mem>
    requires { IsContext context }
    ensures { IfOk result (λ t. typed_of t ≡ passing.called (declared_in context.entry) p qualified (object_of of) []) }
{
    Ok(called(alloc, context, p, qualified, of, Vec::new(alloc))?)
}

#[cycle(lists)]
#[tactic(auto, using(crate::proofs::ListLinks::one_list_more))]
fn procedure_list(
    alloc: Global,
    context: Context<'_>,
    n: usize,
    p: u32,
    qualified: bool,
    of: Option<Box<BoundExpr>>,
    args: Vec<Supplied>,
) -> Result<Meaning, Mem>
    requires { IsContext context }
    ensures { IfOk result (λ m. meaning_of m ≡ procedure_list (declared_in context.entry) n p qualified (object_of of) (map supplied_of args.items)) }
{
    if !goes_behind(context, p, &args) {
        return Ok(Meaning::Procedure(ProcId(p), qualified, of, Some(args)));
    }
    if n == 0 {
        return Ok(without_list(6, &args));
    }
    let t = called_bare(alloc, context, p, qualified, of)?;
    Ok(list_behind(alloc, context, n - 1, t, args)?)
}

fn value_list(
    alloc: Global,
    context: Context<'_>,
    t: Typed,
    args: Vec<Supplied>,
) -> Result<Meaning, Mem>
    requires { IsContext context }
    ensures { IfOk result (λ m. meaning_of m ≡ value_list (declared_in context.entry) (typed_of t) (map supplied_of args.items)) }
{
    Ok(list_behind(alloc, context, count_classes(context), t, args)?)
}

fn behind_procedure(
    alloc: Global,
    context: Context<'_>,
    p: ProcId,
    qualified: bool,
    of: Option<Box<BoundExpr>>,
    given: Option<Vec<Supplied>>,
    args: Vec<Supplied>,
) -> Result<Meaning, Mem>
    requires { IsContext context }
    ensures { IfOk result (λ m. meaning_of m ≡ list_meaning (declared_in context.entry) (meanings.procedure p.0 qualified (object_of of) (listed_of given)) (map supplied_of args.items)) }
{
    match given {
        Some(given) => {
            let t = called(alloc, context, p.0, qualified, of, given)?;
            Ok(value_list(alloc, context, t, args)?)
        }
        None => Ok(procedure_list(
            alloc,
            context,
            count_classes(context),
            p.0,
            qualified,
            of,
            args,
        )?),
    }
}

fn behind_library(
    alloc: Global,
    context: Context<'_>,
    call: LibCall,
    given: Option<Vec<Supplied>>,
    args: Vec<Supplied>,
) -> Result<Meaning, Mem>
    requires { IsContext context }
    ensures { IfOk result (λ m. meaning_of m ≡ list_meaning (declared_in context.entry) (meanings.library_word call (listed_of given)) (map supplied_of args.items)) }
{
    match given {
        Some(given) => {
            let t = library_called(alloc, context, call, given)?;
            Ok(value_list(alloc, context, t, args)?)
        }
        None => Ok(Meaning::Library(call, Some(args))),
    }
}

fn behind_err_member(
    member: ErrMember,
    given: Option<Vec<Supplied>>,
    args: Vec<Supplied>,
) -> Meaning
    ensures { meaning_of result ≡ behind_err_member member (listed_of given) (map supplied_of args.items) }
{
    match given {
        Some(given) => {
            let flaw = with_slack(Flaw::breaks(19), &given);
            Meaning::Value(Typed::Unknown(with_slack(flaw, &args)))
        }
        None => Meaning::ErrMember(member, Some(args)),
    }
}

/// An argument list behind an expression.
pub fn list_meaning(
    alloc: Global,
    context: Context<'_>,
    meaning: Meaning,
    args: Vec<Supplied>,
) -> Result<Meaning, Mem>
    requires { IsContext context }
    ensures { IfOk result (λ m. meaning_of m ≡ list_meaning (declared_in context.entry) (meaning_of meaning) (map supplied_of args.items)) }
{
    match meaning {
        Meaning::Value(t) => Ok(value_list(alloc, context, t, args)?),
        Meaning::Procedure(p, qualified, of, given) => Ok(behind_procedure(
            alloc, context, p, qualified, of, given, args,
        )?),
        Meaning::Library(call, given) => Ok(behind_library(alloc, context, call, given, args)?),
        Meaning::Module(_) => Ok(without_list(3, &args)),
        Meaning::Enum(_) => Ok(without_list(3, &args)),
        Meaning::Err => Ok(without_list(19, &args)),
        Meaning::ErrMember(member, given) => Ok(behind_err_member(member, given, args)),
    }
}

// ---- single words

/// Me, which a standard module has not.
pub fn me_value(scope: Scope<'_>) -> Typed
    requires { IsContext scope.context }
    ensures { typed_of result ≡ me_value (scope_of scope.entry) }
{
    match class_of_file(scope.context, scope.site.file) {
        Some(class) => Typed::Known(BoundExpr {
            ty: Type6::Class(class),
            node: BoundNode::Me,
        }),
        None => Typed::breaks(3),
    }
}

/// What the innermost With keeps.
pub fn kept_value(alloc: Global, kept: &Kept) -> Result<Typed, Mem>
    ensures { IfOk result (λ t. typed_of t ≡ kept_value (kept_of kept.now)) }
{
    match kept {
        Kept::Nothing => Ok(Typed::breaks(3)),
        Kept::Keeps(ty, root) => {
            let ty = copy_type(alloc, ty)?;
            let node = BoundNode::WithObject(*root);
            Ok(Typed::Known(BoundExpr { ty, node }))
        }
        Kept::Unknown(cause) => Ok(Typed::Unknown(Flaw {
            rules: RuleSet::new(),
            cause: *cause,
        })),
    }
}

fn new_of(found: Use6) -> Typed
    ensures { typed_of result ≡ new_of found }
{
    match found {
        Use6::Class(class) => Typed::Known(BoundExpr {
            ty: Type6::Class(class.0),
            node: BoundNode::New(class),
        }),
        Use6::Ambiguous => Typed::breaks(20),
        _ => Typed::breaks(3),
    }
}

/// A new object of a class.
pub fn new_value(scope: Scope<'_>, name: &Name) -> Typed
    requires { IsContext scope.context }
    ensures { typed_of result ≡ new_value (scope_of scope.entry) name.now }
{
    let context = scope.context;
    new_of(found_type(context.tables, &context.declared, scope.site, name))
}

fn type_flaw_of(found: Use6) -> Flaw
    ensures { result ≡ type_flaw_of found }
{
    match found {
        Use6::Ambiguous => Flaw::breaks(20),
        Use6::Undeclared => Flaw::breaks(3),
        _ => Flaw::new(),
    }
}

fn type_flaw(scope: Scope<'_>, name: &Name) -> Flaw
    requires { IsContext scope.context }
    ensures { result ≡ type_flaw (scope_of scope.entry) (lower_case name.now) }
{
    if is_type_name(name) {
        return Flaw::new();
    }
    let context = scope.context;
    type_flaw_of(found_type(context.tables, &context.declared, scope.site, name))
}

/// A test of a type, which isn't translated.
pub fn type_test(scope: Scope<'_>, t: &Typed, name: &Name) -> Typed
    requires { IsContext scope.context }
    ensures { typed_of result ≡ type_test (scope_of scope.entry) (typed_of t.now) name.now }
{
    let flaw = Flaw::breaks(2).together(t.flaw());
    Typed::Unknown(flaw.together(type_flaw(scope, name)))
}
