//! What a word stands for.
ghost use Rattle.std.specs.Prelude.{◌≡◌, ◌<◌, nat_eq, map, option_map, slice_get, IfOk};
ghost use Rattle.std.specs.Cmp.Lexicographic.{pointwise};
ghost use Rattle.std.specs.List.{list_any};
ghost use Rattle.up_base.specs.Names.{lower_case};
ghost use Rattle.vb_tree.specs.BoundView.{type_of};
ghost use Rattle.bound_tree.specs.declared.body.Mention.TheVariants as mention;
ghost use Rattle.bound_tree.specs.declared.expression.Origin.TheVariants.{Declared};
ghost use Rattle.bound_tree.specs.Tree.{constant, variable};
ghost use Rattle.typing_rows.specs.Library as library;
ghost use Rattle.expression_words.specs.Meanings as meanings;
ghost use Rattle.expression_words.specs.Meanings.{bracketed_meaning, constant_term, constant_value, declared_word, is_floating_suffix, is_type_word, is_later, is_undeclared, keyword_of, library_meaning, library_text, library_word_or_text, missing_rule, named_meaning, of_variable, or_use, spelling_of, type_words, use_as, use_meaning, use_of, variable_value, with_suffix, word_meaning};
ghost use Rattle.expression_words.specs.View.{IsScope, declared_in, meaning_of, scope_of, typed_of};

use crate::converting::is_unknown;
use crate::copies::{copy_type, copy_value};
use crate::operators::constant;
use crate::{Context, Flaw, Lookup, Meaning, Scope, Typed};
use bound_tree::{BoundExpr, BoundNode, ConstDecl, ConstId, Mention, Named, Origin, VarDecl};
use name_tables::{Spelling, Use6, Wanted, found};
use std::alloc::Global;
use typing_rows::{TextConstant, is_library_suffix, library_call, library_constant};
use up_base::{Mem, Name, Wide};
use vb_tree::{Suffix, Type6, Value6, VarId};

pub(crate) fn without_value(rule: u8) -> Meaning
    requires { rule < 32 }
    ensures { meaning_of result ≡ meanings.without_value rule }
{
    Meaning::Value(Typed::breaks(rule))
}

pub(crate) fn is_word(name: &Name, word: &[u8]) -> bool
    ensures { result ≡ pointwise nat_eq (lower_case name.now) word.now }
{
    name.lower_bytes() == word
}

// True, False, Nothing, Empty and Null.
fn keyword_of(name: &Name) -> Option<Typed>
    ensures { option_map typed_of result ≡ keyword_of (lower_case name.now) }
{
    if is_word(name, b"true") {
        return Some(constant(Type6::Boolean, Value6::Boolean(true), Origin::Literal));
    }
    if is_word(name, b"false") {
        return Some(constant(Type6::Boolean, Value6::Boolean(false), Origin::Literal));
    }
    if is_word(name, b"nothing") {
        return Some(constant(Type6::Nothing, Value6::Nothing, Origin::Literal));
    }
    if is_word(name, b"empty") {
        return Some(constant(Type6::Variant, Value6::Empty, Origin::Literal));
    }
    if is_word(name, b"null") {
        return Some(Typed::breaks(5));
    }
    None
}

static TYPE_WORDS: [&[u8]; 11] = [
    b"boolean",
    b"byte",
    b"currency",
    b"date",
    b"double",
    b"integer",
    b"long",
    b"object",
    b"single",
    b"string",
    b"variant",
];

fn type_words() -> &'static [&'static [u8]]
    ensures { map (λ w. w.now) result.now ≡ type_words }
{
    &TYPE_WORDS
}

// Whether a word is one of these.
fn is_among(word: &[u8], words: &[&[u8]]) -> bool
    ensures { result ≡ list_any (λ w. pointwise nat_eq word.now w.now) words.now }
{
    words.iter().any(|w| word == *w)
}

fn is_type_key(key: &[u8]) -> bool
    ensures { result ≡ list_any (pointwise nat_eq key.now) type_words }
{
    is_among(key, type_words())
}

/// Whether a name is that of a type which can't be declared outside of brackets.
pub(crate) fn is_type_name(name: &Name) -> bool
    ensures { result ≡ list_any (pointwise nat_eq (lower_case name.now)) type_words }
{
    is_type_key(name.lower_bytes())
}

fn is_type_word(spelling: Spelling, name: &Name) -> bool
    ensures { result ≡ is_type_word spelling (lower_case name.now) }
{
    match spelling {
        Spelling::Bracketed => false,
        Spelling::Plain => is_type_name(name),
        Spelling::Suffixed => is_type_name(name),
    }
}

fn variable_known(alloc: Global, x: &VarDecl, v: VarId, qualified: bool) -> Result<Typed, Mem>
    ensures { IfOk result (λ t. typed_of t ≡ of_variable (type_of x.now.ty) (mention.Var v) (variable v qualified)) }
{
    if is_unknown(&x.ty) {
        return Ok(Typed::Unknown(Flaw::lacks(Mention::Var(v))));
    }
    let ty = copy_type(alloc, &x.ty)?;
    let node = BoundNode::Var(v, qualified);
    Ok(Typed::Known(BoundExpr { ty, node }))
}

fn variable_value(
    alloc: Global,
    context: Context<'_>,
    v: VarId,
    qualified: bool,
) -> Result<Typed, Mem>
    ensures { IfOk result (λ t. typed_of t ≡ variable_value (slice_get (declared_in context.entry).vars v.0) v qualified) }
{
    match context.declared.vars.get(v.0 as usize) {
        Some(x) => Ok(variable_known(alloc, x, v, qualified)?),
        None => Ok(Typed::breaks(3)),
    }
}

fn constant_known(alloc: Global, ty: &Type6, c: ConstId, value: &Value6) -> Result<Typed, Mem>
    ensures { IfOk result (λ t. typed_of t ≡ of_variable (type_of ty.now) (mention.Const c) (constant value.now (Declared c))) }
{
    if is_unknown(ty) {
        return Ok(Typed::Unknown(Flaw::lacks(Mention::Const(c))));
    }
    let ty = copy_type(alloc, ty)?;
    let value = copy_value(alloc, value)?;
    Ok(constant(ty, value, Origin::Declared(c)))
}

fn constant_declared(alloc: Global, k: &ConstDecl, c: ConstId) -> Result<Typed, Mem>
    ensures { IfOk result (λ t. typed_of t ≡ constant_term (type_of k.now.ty) c k.now.value) }
{
    match &k.value {
        Some(value) => Ok(constant_known(alloc, &k.ty, c, value)?),
        None => Ok(Typed::Unknown(Flaw::lacks(Mention::Const(c)))),
    }
}

/// The value of a constant.
pub(crate) fn constant_value(alloc: Global, context: Context<'_>, c: ConstId) -> Result<Typed, Mem>
    ensures { IfOk result (λ t. typed_of t ≡ constant_value (slice_get (declared_in context.entry).consts c.0) c) }
{
    match context.declared.consts.get(c.0 as usize) {
        Some(k) => Ok(constant_declared(alloc, k, c)?),
        None => Ok(Typed::breaks(3)),
    }
}

/// What a declaration means.
pub(crate) fn named_meaning(
    alloc: Global,
    context: Context<'_>,
    qualified: bool,
    named: Named,
) -> Result<Meaning, Mem>
    ensures { IfOk result (λ m. meaning_of m ≡ named_meaning (declared_in context.entry) qualified named) }
{
    match named {
        Named::Var(v) => {
            let t = variable_value(alloc, context, v, qualified)?;
            Ok(Meaning::Value(t))
        }
        Named::Const(c) => {
            let t = constant_value(alloc, context, c)?;
            Ok(Meaning::Value(t))
        }
        Named::Proc(p) => Ok(Meaning::Procedure(p, qualified, None, None)),
        Named::Type(_) => Ok(without_value(3)),
        Named::Enum(e) => Ok(Meaning::Enum(e)),
    }
}

fn library_text(alloc: Global, c: Option<TextConstant>) -> Result<Meaning, Mem>
    ensures { IfOk result (λ m. meaning_of m ≡ library_text c) }
{
    match c {
        Some(c) => {
            let units = Wide::from_slice(alloc, c.units())?;
            let t = constant(Type6::Str, Value6::Str(units), Origin::Literal);
            Ok(Meaning::Value(t))
        }
        None => Ok(without_value(3)),
    }
}

fn library_word(alloc: Global, name: &Name) -> Result<Meaning, Mem>
    ensures { IfOk result (λ m. meaning_of m ≡ library_word_or_text name.now (library.library_call name.now)) }
{
    match library_call(name) {
        Some(call) => Ok(Meaning::Library(call, None)),
        None => Ok(library_text(alloc, library_constant(name))?),
    }
}

fn library_meaning(alloc: Global, name: &Name, suffix: Suffix) -> Result<Meaning, Mem>
    ensures { IfOk result (λ m. meaning_of m ≡ library_meaning name.now suffix) }
{
    if !is_library_suffix(suffix) {
        return Ok(without_value(3));
    }
    if is_word(name, b"err") {
        return Ok(Meaning::Err);
    }
    Ok(library_word(alloc, name)?)
}

fn use_meaning(
    alloc: Global,
    scope: Scope<'_>,
    rule: u8,
    name: &Name,
    suffix: Suffix,
    found: Use6,
) -> Result<Meaning, Mem>
    requires { rule < 32 }
    ensures { IfOk result (λ m. meaning_of m ≡ use_meaning (scope_of scope.entry) rule name.now suffix found) }
{
    match found {
        Use6::Local(named) => Ok(named_meaning(alloc, scope.context, false, named)?),
        Use6::Own(named) => Ok(named_meaning(alloc, scope.context, false, named)?),
        Use6::Foreign(_, named) => Ok(named_meaning(alloc, scope.context, false, named)?),
        Use6::Ambiguous => Ok(without_value(20)),
        Use6::Module(file) => Ok(Meaning::Module(file)),
        Use6::Class(_) => Ok(without_value(3)),
        Use6::Unusable => Ok(without_value(3)),
        Use6::Library => Ok(library_meaning(alloc, name, suffix)?),
        Use6::Undeclared => Ok(without_value(rule)),
    }
}

fn is_undeclared(found: Use6) -> bool
    ensures { result ≡ is_undeclared found }
{
    matches!(found, Use6::Undeclared)
}

/// Of two uses the second where the first is none.
pub(crate) fn or_use(first: Use6, second: Use6) -> Use6
    ensures { result ≡ or_use first second }
{
    if is_undeclared(first) { second } else { first }
}

// Whether it is a local variable that only later lines use.
fn is_later(first: u32, found: Use6) -> bool
    ensures { result ≡ is_later first found }
{
    match found {
        Use6::Local(Named::Var(v)) => v.0 >= first,
        _ => false,
    }
}

fn use_as(scope: Scope<'_>, wanted: Wanted, spelling: Spelling, name: &Name) -> Use6
    requires { IsScope scope }
    ensures { result ≡ use_as (scope_of scope.entry) wanted spelling (lower_case name.now) }
{
    let context = scope.context;
    let seen = found(
        context.tables,
        &context.declared,
        scope.site,
        wanted,
        spelling,
        name,
    );
    if is_later(scope.later, seen) {
        let written = scope.written;
        found(
            written.tables,
            &written.declared,
            scope.site,
            wanted,
            spelling,
            name,
        )
    } else {
        seen
    }
}

/// What a word stands for.
pub fn use_of(scope: Scope<'_>, lookup: Lookup, spelling: Spelling, name: &Name) -> Use6
    requires { IsScope scope }
    ensures { result ≡ use_of (scope_of scope.entry) lookup spelling (lower_case name.now) }
{
    let first = use_as(scope, lookup.first, spelling, name);
    match lookup.next {
        Some(next) => or_use(first, use_as(scope, next, spelling, name)),
        None => first,
    }
}

// The rule that a word breaks that is declared nowhere.
fn missing_rule(scope: Scope<'_>, lookup: Lookup, spelling: Spelling, name: &Name) -> u8
    requires { scope.missing < 32 }
    ensures rule { result ≡ missing_rule (scope_of scope.entry) lookup spelling (lower_case name.now) }
    ensures small { result < 32 }
{
    if lookup.first.is_plain() && !is_type_word(spelling, name) {
        scope.missing
    } else {
        3
    }
}

fn is_floating(suffix: Suffix) -> bool
    ensures { result ≡ is_floating_suffix suffix }
{
    match suffix {
        Suffix::Single => true,
        Suffix::Double => true,
        _ => false,
    }
}

fn with_suffix(suffix: Suffix, meaning: Meaning) -> Meaning
    ensures { meaning_of result ≡ with_suffix suffix (meaning_of meaning) }
{
    if is_floating(suffix) {
        without_value(1)
    } else {
        meaning
    }
}

fn declared_word(
    alloc: Global,
    scope: Scope<'_>,
    lookup: Lookup,
    spelling: Spelling,
    name: &Name,
    suffix: Suffix,
) -> Result<Meaning, Mem>
    requires names { IsScope scope }
    requires rule { scope.missing < 32 }
    ensures { IfOk result (λ m. meaning_of m ≡ declared_word (scope_of scope.entry) lookup spelling name.now suffix) }
{
    let found = use_of(scope, lookup, spelling, name);
    let rule = missing_rule(scope, lookup, spelling, name);
    let meaning = use_meaning(alloc, scope, rule, name, suffix, found)?;
    Ok(with_suffix(suffix, meaning))
}

/// How a word outside of brackets is spelt.
pub fn spelling_of(suffix: Suffix) -> Spelling
    ensures { result ≡ spelling_of suffix }
{
    match suffix {
        Suffix::Absent => Spelling::Plain,
        _ => Spelling::Suffixed,
    }
}

/// What a word means.
pub fn word_meaning(
    alloc: Global,
    scope: Scope<'_>,
    lookup: Lookup,
    name: &Name,
    suffix: Suffix,
) -> Result<Meaning, Mem>
    requires names { IsScope scope }
    requires rule { scope.missing < 32 }
    ensures { IfOk result (λ m. meaning_of m ≡ word_meaning (scope_of scope.entry) lookup name.now suffix) }
{
    match keyword_of(name) {
        Some(t) => Ok(Meaning::Value(t)),
        None => Ok(declared_word(alloc, scope, lookup, spelling_of(suffix), name, suffix)?),
    }
}

/// What a word in brackets means.
pub fn bracketed_meaning(
    alloc: Global,
    scope: Scope<'_>,
    lookup: Lookup,
    name: &Name,
    suffix: Suffix,
) -> Result<Meaning, Mem>
    requires names { IsScope scope }
    requires rule { scope.missing < 32 }
    ensures { IfOk result (λ m. meaning_of m ≡ bracketed_meaning (scope_of scope.entry) lookup name.now suffix) }
{
    Ok(declared_word(alloc, scope, lookup, Spelling::Bracketed, name, suffix)?)
}
