//! Expressions without a type as they are kept: as they are written, but with names in the spelling of their declaration.
ghost use Rattle.std.specs.Prelude.{◌≡◌, ◌<◌, find, map, nat_eq, option_map, slice_get, Some, IfOk};
ghost use Rattle.up_base.specs.Names.{lower_case};
ghost use Rattle.vb_tree.specs.BoundTree as types;
ghost use Rattle.vb_tree.specs.BoundView.{type_of};
ghost use Rattle.vb_tree.specs.Tree as source;
ghost use Rattle.vb_tree.specs.View.{args_of, exp_of, given_of, module_of};
ghost use Rattle.expression_words.specs.Meanings as meanings;
ghost use Rattle.expression_words.specs.View.{IsContext, IsScope, declared_in, meaning_of, scope_of, typed_of};
ghost use Rattle.bound_exprs.specs.Spelled.{alone_if, as_name, behind_if, class_name, constant_at, constant_name, enum_member, enum_member_name, field_at, field_name, file_name, in_place, kept_member_name, member_name, module_name, name_at, name_by_type, name_of, new_name, or_name, put, spelled, spelled_args, spelled_bracketed, spelled_given, spelled_member, spelled_plain, spelled_word, spelt_as, use_name, user_field_name, variable_name};
ghost use Rattle.bound_exprs.specs.SpelledView.{arg_of, name_in, spelled_arg, spelt_of};

use crate::resolving::{as_qualifier, as_value, meaning, with_list};
use bound_tree::{ConstId, EnumDecl, EnumId, Named, TypeDecl};
use expression_words::{
    Context, Lookup, Meaning, Scope, Typed, is_keyword, kept_value, module_use, spelling_of,
    use_of, valued,
};
use name_tables::{
    Spelling, Use6, class_file, found_field, found_in_enum, found_member, found_type,
};
use std::alloc::Global;
use up_base::{Mem, Name, Wide};
use vb_tree::{
    Arg6, BinOp, ClassId, Expr6, Literal6, Module6, ProcId, Suffix, Type6, TypeId, UnOp, VarId,
};

// ---- names of declarations

fn variable_name<'a>(context: Context<'a>, v: VarId) -> Option<&'a Name>
    ensures { name_in result ≡ variable_name (slice_get (declared_in context.entry).vars v.0) }
{
    match context.declared.vars.get(v.0 as usize) {
        Some(x) => Some(&x.name),
        None => None,
    }
}

fn constant_name<'a>(context: Context<'a>, c: ConstId) -> Option<&'a Name>
    ensures { name_in result ≡ constant_name (slice_get (declared_in context.entry).consts c.0) }
{
    match context.declared.consts.get(c.0 as usize) {
        Some(x) => Some(&x.name),
        None => None,
    }
}

fn procedure_name<'a>(context: Context<'a>, p: ProcId) -> Option<&'a Name>
    ensures { name_in result ≡ name_of (declared_in context.entry) (Named.Proc p) }
{
    match context.declared.procs.get(p.0 as usize) {
        Some(x) => Some(&x.name),
        None => None,
    }
}

fn type_name<'a>(context: Context<'a>, t: TypeId) -> Option<&'a Name>
    ensures { name_in result ≡ name_of (declared_in context.entry) (Named.Type t) }
{
    match context.declared.types.get(t.0 as usize) {
        Some(x) => Some(&x.name),
        None => None,
    }
}

fn enum_name<'a>(context: Context<'a>, e: EnumId) -> Option<&'a Name>
    ensures { name_in result ≡ name_of (declared_in context.entry) (Named.Enum e) }
{
    match context.declared.enums.get(e.0 as usize) {
        Some(x) => Some(&x.name),
        None => None,
    }
}

// The spelling of a declared name.
fn name_of<'a>(context: Context<'a>, named: Named) -> Option<&'a Name>
    ensures { name_in result ≡ name_of (declared_in context.entry) named }
{
    match named {
        Named::Var(v) => variable_name(context, v),
        Named::Const(c) => constant_name(context, c),
        Named::Proc(p) => procedure_name(context, p),
        Named::Type(t) => type_name(context, t),
        Named::Enum(e) => enum_name(context, e),
    }
}

fn name_at<'a>(context: Context<'a>, named: Option<Named>) -> Option<&'a Name>
    ensures { name_in result ≡ name_at (declared_in context.entry) named }
{
    match named {
        Some(named) => name_of(context, named),
        None => None,
    }
}

fn module_named(modules: &[Module6], file: u32) -> Option<&Name>
    ensures { name_in result ≡ option_map (λ (m : source.Module). m.name) (find (λ (m : source.Module). nat_eq m.file file) (map module_of modules.now)) }
{
    for m in modules {
        if m.file == file {
            return Some(&m.name);
        }
    }
    None
}

// The name of the module of a file.
fn module_name<'a>(context: Context<'a>, file: u32) -> Option<&'a Name>
    ensures { name_in result ≡ module_name (declared_in context.entry).project file }
{
    module_named(context.declared.project.modules.as_slice(), file)
}

fn or_name<'a>(name: &'a Name, declared: Option<&'a Name>) -> &'a Name
    ensures { result.now ≡ or_name name.now (name_in declared.entry) }
{
    match declared {
        Some(name) => name,
        None => name,
    }
}

// ---- words

// How a word is spelled.
#[derive(Clone, Copy)]
enum Spelt<'a> {
    /// As it stands.
    Stands,
    Alone(&'a Name),
    /// Behind the name of its module.
    Behind(&'a Name, &'a Name),
}

fn alone_if(name: Option<&Name>) -> Spelt<'_>
    ensures { spelt_of result ≡ alone_if (name_in name.entry) }
{
    match name {
        Some(name) => Spelt::Alone(name),
        None => Spelt::Stands,
    }
}

fn behind_if<'a>(from: Option<&'a Name>, name: Option<&'a Name>) -> Spelt<'a>
    ensures { spelt_of result ≡ behind_if (name_in from.entry) (name_in name.entry) }
{
    match from {
        Some(from) => match name {
            Some(name) => Spelt::Behind(from, name),
            None => Spelt::Stands,
        },
        None => Spelt::Stands,
    }
}

fn spelt_as<'a>(context: Context<'a>, found: Use6) -> Spelt<'a>
    ensures { spelt_of result ≡ spelt_as (declared_in context.entry) found }
{
    match found {
        Use6::Local(named) => alone_if(name_of(context, named)),
        Use6::Own(named) => alone_if(name_of(context, named)),
        Use6::Foreign(file, named) => {
            behind_if(module_name(context, file), name_of(context, named))
        }
        Use6::Module(file) => alone_if(module_name(context, file)),
        _ => Spelt::Stands,
    }
}

// A name in brackets, where it is no keyword.
fn as_name(alloc: Global, name: &Name) -> Result<Expr6, Mem>
    ensures { IfOk result (λ e. exp_of e ≡ as_name name.now) }
{
    Ok(Expr6::Bracketed(name.copy(alloc)?, Suffix::Absent))
}

fn member(alloc: Global, of: Expr6, name: &Name) -> Result<Expr6, Mem>
    ensures { IfOk result (λ e. exp_of e ≡ source.member (exp_of of) name.now) }
{
    let name = name.copy(alloc)?;
    Ok(Expr6::Member(Box::new(alloc, of)?, name))
}

fn behind(alloc: Global, from: &Name, name: &Name) -> Result<Expr6, Mem>
    ensures { IfOk result (λ e. exp_of e ≡ source.member (as_name from.now) name.now) }
{
    let of = as_name(alloc, from)?;
    Ok(member(alloc, of, name)?)
}

fn bracketed_word(alloc: Global, name: &Name, suffix: Suffix, how: Spelt<'_>) -> Result<Expr6, Mem>
    ensures { IfOk result (λ e. exp_of e ≡ put (source.bracketed name.now suffix) (spelt_of how.entry)) }
{
    match how {
        Spelt::Stands => Ok(Expr6::Bracketed(name.copy(alloc)?, suffix)),
        Spelt::Alone(name) => Ok(as_name(alloc, name)?),
        Spelt::Behind(from, name) => Ok(behind(alloc, from, name)?),
    }
}

fn plain_word(alloc: Global, name: &Name, suffix: Suffix, how: Spelt<'_>) -> Result<Expr6, Mem>
    ensures { IfOk result (λ e. exp_of e ≡ put (source.word name.now suffix) (spelt_of how.entry)) }
{
    match how {
        Spelt::Stands => Ok(Expr6::Word(name.copy(alloc)?, suffix)),
        Spelt::Alone(name) => Ok(as_name(alloc, name)?),
        Spelt::Behind(from, name) => Ok(behind(alloc, from, name)?),
    }
}

fn spelled_bracketed(
    alloc: Global,
    scope: Scope<'_>,
    lookup: Lookup,
    name: &Name,
    suffix: Suffix,
) -> Result<Expr6, Mem>
    requires { IsScope scope }
    ensures { IfOk result (λ e. exp_of e ≡ spelled_bracketed (scope_of scope.entry) lookup name.now suffix) }
{
    let found = use_of(scope, lookup, Spelling::Bracketed, name);
    Ok(bracketed_word(alloc, name, suffix, spelt_as(scope.context, found))?)
}

fn spelled_plain(
    alloc: Global,
    scope: Scope<'_>,
    lookup: Lookup,
    name: &Name,
    suffix: Suffix,
) -> Result<Expr6, Mem>
    requires { IsScope scope }
    ensures { IfOk result (λ e. exp_of e ≡ spelled_plain (scope_of scope.entry) lookup name.now suffix) }
{
    let found = use_of(scope, lookup, spelling_of(suffix), name);
    Ok(plain_word(alloc, name, suffix, spelt_as(scope.context, found))?)
}

/// A word outside of brackets.
pub fn spelled_word(
    alloc: Global,
    scope: Scope<'_>,
    lookup: Lookup,
    name: &Name,
    suffix: Suffix,
) -> Result<Expr6, Mem>
    requires { IsScope scope }
    ensures { IfOk result (λ e. exp_of e ≡ spelled_word (scope_of scope.entry) lookup name.now suffix) }
{
    if is_keyword(name) {
        Ok(Expr6::Word(name.copy(alloc)?, suffix))
    } else {
        Ok(spelled_plain(alloc, scope, lookup, name, suffix)?)
    }
}

// ---- members

// What is declared behind the name of its module.
fn use_name<'a>(context: Context<'a>, found: Use6) -> Option<&'a Name>
    ensures { name_in result ≡ use_name (declared_in context.entry) found }
{
    match found {
        Use6::Local(named) => name_of(context, named),
        Use6::Own(named) => name_of(context, named),
        Use6::Foreign(_, named) => name_of(context, named),
        _ => None,
    }
}

fn field_name<'a>(context: Context<'a>, v: Option<VarId>) -> Option<&'a Name>
    ensures { name_in result ≡ field_name (declared_in context.entry) v }
{
    match v {
        Some(v) => variable_name(context, v),
        None => None,
    }
}

fn field_at<'a>(context: Context<'a>, ty: &TypeDecl, k: Option<u32>) -> Option<&'a Name>
    ensures { name_in result ≡ field_at (declared_in context.entry) ty.now k }
{
    match k {
        Some(k) => field_name(context, ty.fields.get(k as usize).copied()),
        None => None,
    }
}

fn field_named<'a>(
    context: Context<'a>,
    ty: &TypeDecl,
    name: &Name,
) -> Result<Option<&'a Name>, Mem>
    ensures { IfOk result (λ n. name_in n ≡ user_field_name (declared_in context.entry) (lower_case name.now) (Some ty.now)) }
{
    let k = found_field(&context.declared, ty, name)?;
    Ok(field_at(context, ty, k))
}

fn user_field_name<'a>(context: Context<'a>, t: u32, name: &Name) -> Result<Option<&'a Name>, Mem>
    ensures { IfOk result (λ n. name_in n ≡ user_field_name (declared_in context.entry) (lower_case name.now) (slice_get (declared_in context.entry).types t)) }
{
    match context.declared.types.get(t as usize) {
        Some(ty) => Ok(field_named(context, ty, name)?),
        None => Ok(None),
    }
}

fn class_member_name<'a>(scope: Scope<'a>, class: u32, name: &Name) -> Option<&'a Name>
    requires { IsContext scope.context }
    ensures { name_in result ≡ name_by_type (scope_of scope.entry) (lower_case name.now) (types.class class) }
{
    let context = scope.context;
    let found = found_member(
        context.tables,
        &context.declared,
        scope.site,
        ClassId(class),
        name,
    );
    name_at(context, found)
}

// The name of a member of what has a type.
fn name_by_type<'a>(scope: Scope<'a>, name: &Name, ty: &Type6) -> Result<Option<&'a Name>, Mem>
    requires { IsContext scope.context }
    ensures { IfOk result (λ n. name_in n ≡ name_by_type (scope_of scope.entry) (lower_case name.now) (type_of ty.now)) }
{
    match ty {
        Type6::User(t) => Ok(user_field_name(scope.context, *t, name)?),
        Type6::Class(class) => Ok(class_member_name(scope, *class, name)),
        _ => Ok(None),
    }
}

fn member_name<'a>(scope: Scope<'a>, name: &Name, of: &Typed) -> Result<Option<&'a Name>, Mem>
    requires { IsContext scope.context }
    ensures { IfOk result (λ n. name_in n ≡ member_name (scope_of scope.entry) (lower_case name.now) (typed_of of.now)) }
{
    match of {
        Typed::Known(e) => Ok(name_by_type(scope, name, &e.ty)?),
        Typed::Unknown(_) => Ok(None),
    }
}

fn constant_at<'a>(context: Context<'a>, c: Option<ConstId>) -> Option<&'a Name>
    ensures { name_in result ≡ constant_at (declared_in context.entry) c }
{
    match c {
        Some(c) => constant_name(context, c),
        None => None,
    }
}

fn enum_constant<'a>(context: Context<'a>, e: &EnumDecl, name: &Name) -> Option<&'a Name>
    ensures { name_in result ≡ enum_member_name (declared_in context.entry) (lower_case name.now) (Some e.now) }
{
    constant_at(context, found_in_enum(&context.declared, e, name))
}

fn enum_member_name<'a>(context: Context<'a>, e: EnumId, name: &Name) -> Option<&'a Name>
    ensures { name_in result ≡ enum_member_name (declared_in context.entry) (lower_case name.now) (slice_get (declared_in context.entry).enums e.0) }
{
    match context.declared.enums.get(e.0 as usize) {
        Some(e) => enum_constant(context, e, name),
        None => None,
    }
}

// A name in the place of an Enum's.
fn in_place(alloc: Global, of: Expr6, name: &Name) -> Result<Expr6, Mem>
    ensures { IfOk result (λ e. exp_of e ≡ in_place (exp_of of) name.now) }
{
    match of {
        Expr6::Member(of, _) => Ok(Expr6::Member(of, name.copy(alloc)?)),
        _ => Ok(as_name(alloc, name)?),
    }
}

fn enum_member(alloc: Global, of: Expr6, name: &Name, declared: Option<&Name>) -> Result<Expr6, Mem>
    ensures { IfOk result (λ e. exp_of e ≡ enum_member (exp_of of) name.now (name_in declared.entry)) }
{
    match declared {
        Some(declared) => Ok(in_place(alloc, of, declared)?),
        None => Ok(member(alloc, of, name)?),
    }
}

fn value_member(
    alloc: Global,
    scope: Scope<'_>,
    meaning: Meaning,
    of: Expr6,
    name: &Name,
) -> Result<Expr6, Mem>
    requires { IsContext scope.context }
    ensures { IfOk result (λ e. exp_of e ≡ source.member (exp_of of) (or_name name.now (member_name (scope_of scope.entry) (lower_case name.now) (meanings.valued (declared_in scope.entry.context) (meaning_of meaning))))) }
{
    let t = valued(alloc, scope.context, meaning)?;
    let declared = member_name(scope, name, &t)?;
    Ok(member(alloc, of, or_name(name, declared))?)
}

// A name behind what means this and is spelled so.
fn spelled_member(
    alloc: Global,
    scope: Scope<'_>,
    lookup: Lookup,
    meaning: Meaning,
    of: Expr6,
    name: &Name,
) -> Result<Expr6, Mem>
    requires { IsContext scope.context }
    ensures { IfOk result (λ e. exp_of e ≡ spelled_member (scope_of scope.entry) lookup (meaning_of meaning) (exp_of of) name.now) }
{
    match meaning {
        Meaning::Module(file) => {
            let declared = use_name(scope.context, module_use(scope, lookup, file, name));
            Ok(member(alloc, of, or_name(name, declared))?)
        }
        Meaning::Enum(e) => {
            let declared = enum_member_name(scope.context, e, name);
            Ok(enum_member(alloc, of, name, declared)?)
        }
        Meaning::Err => Ok(member(alloc, of, name)?),
        meaning => Ok(value_member(alloc, scope, meaning, of, name)?),
    }
}

fn kept_member_name<'a>(alloc: Global, scope: Scope<'a>, name: &'a Name) -> Result<&'a Name, Mem>
    requires { IsContext scope.context }
    ensures { IfOk result (λ n. n.now ≡ kept_member_name (scope_of scope.entry) name.now) }
{
    let t = kept_value(alloc, scope.kept)?;
    let declared = member_name(scope, name, &t)?;
    Ok(or_name(name, declared))
}

fn kept_member(alloc: Global, scope: Scope<'_>, name: &Name) -> Result<Expr6, Mem>
    requires { IsContext scope.context }
    ensures { IfOk result (λ e. exp_of e ≡ source.with_member (kept_member_name (scope_of scope.entry) name.now)) }
{
    let declared = kept_member_name(alloc, scope, name)?;
    Ok(Expr6::WithMember(declared.copy(alloc)?))
}

fn file_name<'a>(context: Context<'a>, file: Option<u32>) -> Option<&'a Name>
    ensures { name_in result ≡ file_name (declared_in context.entry).project file }
{
    match file {
        Some(file) => module_name(context, file),
        None => None,
    }
}

fn class_name<'a>(context: Context<'a>, found: Use6) -> Option<&'a Name>
    requires { IsContext context }
    ensures { name_in result ≡ class_name (declared_in context.entry) found }
{
    match found {
        Use6::Class(class) => {
            let file = class_file(context.tables, &context.declared, class);
            file_name(context, file)
        }
        _ => None,
    }
}

fn new_name<'a>(scope: Scope<'a>, name: &'a Name) -> &'a Name
    requires { IsContext scope.context }
    ensures { result.now ≡ new_name (scope_of scope.entry) name.now }
{
    let context = scope.context;
    let found = found_type(context.tables, &context.declared, scope.site, name);
    or_name(name, class_name(context, found))
}

// ---- expressions

fn copy_literal(alloc: Global, l: &Literal6) -> Result<Literal6, Mem>
    ensures { IfOk result (λ copy. copy ≡ l.now) }
{
    match l {
        Literal6::Int(z, hexadecimal) => Ok(Literal6::Int(*z, *hexadecimal)),
        Literal6::Long(z, hexadecimal) => Ok(Literal6::Long(*z, *hexadecimal)),
        Literal6::Cur(z) => Ok(Literal6::Cur(*z)),
        Literal6::Plain(z) => Ok(Literal6::Plain(*z)),
        Literal6::Floating => Ok(Literal6::Floating),
        Literal6::Date => Ok(Literal6::Date),
        Literal6::Str(units) => Ok(Literal6::Str(Wide::from_slice(alloc, units.as_slice())?)),
    }
}

#[tactic(auto, using(crate::proofs::SpelledLists::index_shown))]
fn index(alloc: Global, of: Expr6, args: Vec<Arg6>) -> Result<Expr6, Mem>
    ensures { IfOk result (λ e. exp_of e ≡ source.index (exp_of of) (args_of args.items)) }
{
    Ok(Expr6::Index(Box::new(alloc, of)?, args))
}

fn unary(alloc: Global, op: UnOp, of: Expr6) -> Result<Expr6, Mem>
    ensures { IfOk result (λ e. exp_of e ≡ source.unary op (exp_of of)) }
{
    Ok(Expr6::Unary(op, Box::new(alloc, of)?))
}

fn binary(alloc: Global, op: BinOp, x: Expr6, y: Expr6) -> Result<Expr6, Mem>
    ensures { IfOk result (λ e. exp_of e ≡ source.binary op (exp_of x) (exp_of y)) }
{
    let x = Box::new(alloc, x)?;
    let y = Box::new(alloc, y)?;
    Ok(Expr6::Binary(op, x, y))
}

fn paren(alloc: Global, of: Expr6) -> Result<Expr6, Mem>
    ensures { IfOk result (λ e. exp_of e ≡ source.paren (exp_of of)) }
{
    Ok(Expr6::Paren(Box::new(alloc, of)?))
}

fn bang(alloc: Global, of: Expr6, name: &Name) -> Result<Expr6, Mem>
    ensures { IfOk result (λ e. exp_of e ≡ source.bang (exp_of of) name.now) }
{
    let name = name.copy(alloc)?;
    Ok(Expr6::Bang(Box::new(alloc, of)?, name))
}

fn type_test(alloc: Global, of: Expr6, name: &Name) -> Result<Expr6, Mem>
    ensures { IfOk result (λ e. exp_of e ≡ source.type_of (exp_of of) name.now) }
{
    let name = name.copy(alloc)?;
    Ok(Expr6::TypeOf(Box::new(alloc, of)?, name))
}

/// An expression with its names in the spelling of their declarations.
#[cycle(spellings)]
pub fn spelled(alloc: Global, scope: Scope<'_>, lookup: Lookup, e: &Expr6) -> Result<Expr6, Mem>
    requires names { IsScope scope }
    requires rule { scope.missing < 32 }
    ensures { IfOk result (λ s. exp_of s ≡ spelled (scope_of scope.entry) lookup (exp_of e.now)) }
{
    match e {
        Expr6::Lit(l) => Ok(Expr6::Lit(copy_literal(alloc, l)?)),
        Expr6::Word(name, suffix) => Ok(spelled_word(alloc, scope, lookup, name, *suffix)?),
        Expr6::Bracketed(name, suffix) => {
            Ok(spelled_bracketed(alloc, scope, lookup, name, *suffix)?)
        }
        Expr6::Me => Ok(Expr6::Me),
        Expr6::Member(of, name) => {
            let m = meaning(alloc, scope, as_qualifier(), of)?;
            let of = spelled(alloc, scope, as_qualifier(), of)?;
            Ok(spelled_member(alloc, scope, lookup, m, of, name)?)
        }
        Expr6::WithMember(name) => Ok(kept_member(alloc, scope, name)?),
        Expr6::WithBang(name) => Ok(Expr6::WithBang(name.copy(alloc)?)),
        Expr6::Index(of, args) => {
            let of = spelled(alloc, scope, with_list(lookup), of)?;
            let args = spelled_args(alloc, scope, args)?;
            Ok(index(alloc, of, args)?)
        }
        Expr6::Unary(op, of) => {
            let of = spelled(alloc, scope, as_value(), of)?;
            Ok(unary(alloc, *op, of)?)
        }
        Expr6::Binary(op, x, y) => {
            let x = spelled(alloc, scope, as_value(), x)?;
            let y = spelled(alloc, scope, as_value(), y)?;
            Ok(binary(alloc, *op, x, y)?)
        }
        Expr6::Paren(of) => {
            let of = spelled(alloc, scope, as_value(), of)?;
            Ok(paren(alloc, of)?)
        }
        Expr6::New(name) => Ok(Expr6::New(new_name(scope, name).copy(alloc)?)),
        Expr6::Bang(of, name) => {
            let of = spelled(alloc, scope, as_value(), of)?;
            Ok(bang(alloc, of, name)?)
        }
        Expr6::TypeOf(of, name) => {
            let of = spelled(alloc, scope, as_value(), of)?;
            Ok(type_test(alloc, of, name)?)
        }
        Expr6::AddressOf(name) => Ok(Expr6::AddressOf(name.copy(alloc)?)),
    }
}

#[cycle(spellings)]
fn spelled_given(
    alloc: Global,
    scope: Scope<'_>,
    value: &Option<Expr6>,
) -> Result<Option<Expr6>, Mem>
    requires names { IsScope scope }
    requires rule { scope.missing < 32 }
    ensures { IfOk result (λ v. given_of v ≡ spelled_given (scope_of scope.entry) (given_of value.now)) }
{
    match value {
        Some(e) => Ok(Some(spelled(alloc, scope, as_value(), e)?)),
        None => Ok(None),
    }
}

fn copy_name(alloc: Global, name: &Option<Name>) -> Result<Option<Name>, Mem>
    ensures { IfOk result (λ copy. copy ≡ name.now) }
{
    match name {
        Some(name) => Ok(Some(name.copy(alloc)?)),
        None => Ok(None),
    }
}

#[cycle(spellings)]
fn spelled_arg(alloc: Global, scope: Scope<'_>, arg: &Arg6) -> Result<Arg6, Mem>
    requires names { IsScope scope }
    requires rule { scope.missing < 32 }
    ensures { IfOk result (λ a. arg_of a ≡ spelled_arg (scope_of scope.entry) (arg_of arg.now)) }
{
    let name = copy_name(alloc, &arg.name)?;
    let value = spelled_given(alloc, scope, &arg.value)?;
    Ok(Arg6 {
        name,
        marked: arg.marked,
        value,
    })
}

#[cycle(spellings)]
fn spelled_args(alloc: Global, scope: Scope<'_>, args: &[Arg6]) -> Result<Vec<Arg6>, Mem>
    requires names { IsScope scope }
    requires rule { scope.missing < 32 }
    ensures { IfOk result (λ v. map arg_of v.items ≡ map (spelled_arg (scope_of scope.entry)) (map arg_of args.now)) }
{
    let mut all = Vec::new(alloc);
    for arg in args {
        all.push(spelled_arg(alloc, scope, arg)?)?;
    }
    Ok(all)
}

/// An expression with an argument list behind it.
#[tactic(auto, using(crate::proofs::SpelledLists::args_spelled))]
pub fn spelled_index(
    alloc: Global,
    scope: Scope<'_>,
    lookup: Lookup,
    of: &Expr6,
    args: &[Arg6],
) -> Result<Expr6, Mem>
    requires names { IsScope scope }
    requires rule { scope.missing < 32 }
    ensures { IfOk result (λ e. exp_of e ≡ spelled (scope_of scope.entry) lookup (source.index (exp_of of.now) (args_of args.now))) }
{
    let of = spelled(alloc, scope, with_list(lookup), of)?;
    let args = spelled_args(alloc, scope, args)?;
    Ok(index(alloc, of, args)?)
}
