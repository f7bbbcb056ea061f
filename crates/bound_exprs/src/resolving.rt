//! Expressions with every name replaced by what it stands for and every conversion written out.
ghost use Rattle.std.specs.Prelude.{◌≡◌, ◌<◌, map, IfOk};
ghost use Rattle.vb_tree.specs.View.{args_of, exp_of, given_of};
ghost use Rattle.expression_words.specs.Flaws as flaws;
ghost use Rattle.expression_words.specs.Meanings as meanings;
ghost use Rattle.expression_words.specs.Operators as operators;
ghost use Rattle.expression_words.specs.View.{IsContext, IsScope, declared_in, meaning_of, scope_of, supplied_of, typed_of, value_of};
ghost use Rattle.bound_exprs.specs.Resolved.{as_callee, as_qualifier, as_target, as_value, is_parenthesised_in, meaning, resolved, supplied, supplied_as, value_in, with_list, with_list_in, with_list_next};

use expression_words::{
    Context, Lookup, Meaning, Scope, Supplied, Typed, binary_over, bracketed_meaning, kept_value,
    list_meaning, literal, me_value, member_meaning, new_value, type_test, unary_over, valued,
    word_meaning,
};
use name_tables::Wanted;
use std::alloc::Global;
use up_base::{Mem, Name};
use vb_tree::{Arg6, BinOp, Expr6, Literal6, UnOp};

/// The lookup of a value.
pub fn as_value() -> Lookup
    ensures { result ≡ as_value }
{
    Lookup {
        first: Wanted::Value,
        next: None,
    }
}

/// The lookup of what is given a value: a Sub is found too, which can't be.
pub fn as_target() -> Lookup
    ensures { result ≡ as_target }
{
    Lookup {
        first: Wanted::Value,
        next: Some(Wanted::Callee),
    }
}

/// The lookup of what a statement enters: a variable or a property is found too, which can't be.
pub fn as_callee() -> Lookup
    ensures { result ≡ as_callee }
{
    Lookup {
        first: Wanted::Callee,
        next: Some(Wanted::Value),
    }
}

/// The lookup of what stands before a full stop: a Sub is found too, which gives no value.
pub fn as_qualifier() -> Lookup
    ensures { result ≡ as_qualifier }
{
    Lookup {
        first: Wanted::Qualifier,
        next: Some(Wanted::Callee),
    }
}

fn with_list_in(wanted: Wanted) -> Wanted
    ensures { result ≡ with_list_in wanted }
{
    match wanted {
        Wanted::Callee => Wanted::Callee,
        _ => Wanted::Indexed,
    }
}

fn with_list_next(next: Option<Wanted>) -> Option<Wanted>
    ensures { result ≡ with_list_next next }
{
    match next {
        Some(next) => Some(with_list_in(next)),
        None => None,
    }
}

/// The lookup of what an argument list stands behind.
pub fn with_list(lookup: Lookup) -> Lookup
    ensures { result ≡ with_list lookup }
{
    Lookup {
        first: with_list_in(lookup.first),
        next: with_list_next(lookup.next),
    }
}

fn of_literal(alloc: Global, l: &Literal6) -> Result<Meaning, Mem>
    ensures { IfOk result (λ m. meaning_of m ≡ meanings.value (operators.literal_of l.now)) }
{
    let t = literal(alloc, l)?;
    Ok(Meaning::Value(t))
}

// A member of what the innermost With keeps.
fn kept_member(alloc: Global, scope: Scope<'_>, lookup: Lookup, name: &Name) -> Result<Meaning, Mem>
    requires { IsScope scope }
    ensures { IfOk result (λ m. meaning_of m ≡ meanings.member_meaning (scope_of scope.entry) lookup (meanings.value (meanings.kept_value (scope_of scope.entry).kept)) name.now) }
{
    let of = kept_value(alloc, scope.kept)?;
    Ok(member_meaning(alloc, scope, lookup, Meaning::Value(of), name)?)
}

fn kept_bang(alloc: Global, scope: Scope<'_>) -> Result<Meaning, Mem>
    ensures { IfOk result (λ m. meaning_of m ≡ meanings.value (flaws.flawed_by 6 (meanings.kept_value (scope_of scope.entry).kept))) }
{
    let of = kept_value(alloc, scope.kept)?;
    Ok(Meaning::Value(of.flawed_by(6)))
}

fn unary_meaning(alloc: Global, context: Context<'_>, op: UnOp, of: Meaning) -> Result<Meaning, Mem>
    requires { IsContext context }
    ensures { IfOk result (λ m. meaning_of m ≡ meanings.value (operators.unary_over (declared_in context.entry) op (meanings.valued (declared_in context.entry) (meaning_of of)))) }
{
    let of = valued(alloc, context, of)?;
    let t = unary_over(alloc, context, op, of)?;
    Ok(Meaning::Value(t))
}

fn binary_meaning(
    alloc: Global,
    context: Context<'_>,
    op: BinOp,
    x: Meaning,
    y: Meaning,
) -> Result<Meaning, Mem>
    requires { IsContext context }
    ensures { IfOk result (λ m. meaning_of m ≡ meanings.value (operators.binary_over (declared_in context.entry) op (meanings.valued (declared_in context.entry) (meaning_of x)) (meanings.valued (declared_in context.entry) (meaning_of y)))) }
{
    let x = valued(alloc, context, x)?;
    let y = valued(alloc, context, y)?;
    let t = binary_over(alloc, context, op, x, y)?;
    Ok(Meaning::Value(t))
}

fn paren_meaning(alloc: Global, context: Context<'_>, of: Meaning) -> Result<Meaning, Mem>
    requires { IsContext context }
    ensures { IfOk result (λ m. meaning_of m ≡ meanings.value (meanings.valued (declared_in context.entry) (meaning_of of))) }
{
    let t = valued(alloc, context, of)?;
    Ok(Meaning::Value(t))
}

fn bang_meaning(alloc: Global, context: Context<'_>, of: Meaning) -> Result<Meaning, Mem>
    requires { IsContext context }
    ensures { IfOk result (λ m. meaning_of m ≡ meanings.value (flaws.flawed_by 6 (meanings.valued (declared_in context.entry) (meaning_of of)))) }
{
    let t = valued(alloc, context, of)?;
    Ok(Meaning::Value(t.flawed_by(6)))
}

fn test_meaning(alloc: Global, scope: Scope<'_>, of: Meaning, name: &Name) -> Result<Meaning, Mem>
    requires { IsScope scope }
    ensures { IfOk result (λ m. meaning_of m ≡ meanings.value (meanings.type_test (scope_of scope.entry) (meanings.valued (scope_of scope.entry).declarations (meaning_of of)) name.now)) }
{
    let t = valued(alloc, scope.context, of)?;
    Ok(Meaning::Value(type_test(scope, &t, name)))
}

/// What an expression means.
#[cycle(meanings)]
pub fn meaning(alloc: Global, scope: Scope<'_>, lookup: Lookup, e: &Expr6) -> Result<Meaning, Mem>
    requires names { IsScope scope }
    requires rule { scope.missing < 32 }
    ensures { IfOk result (λ m. meaning_of m ≡ meaning (scope_of scope.entry) lookup (exp_of e.now)) }
{
    match e {
        Expr6::Lit(l) => Ok(of_literal(alloc, l)?),
        Expr6::Word(name, suffix) => Ok(word_meaning(alloc, scope, lookup, name, *suffix)?),
        Expr6::Bracketed(name, suffix) => {
            Ok(bracketed_meaning(alloc, scope, lookup, name, *suffix)?)
        }
        Expr6::Me => Ok(Meaning::Value(me_value(scope))),
        Expr6::Member(of, name) => {
            let of = meaning(alloc, scope, as_qualifier(), of)?;
            Ok(member_meaning(alloc, scope, lookup, of, name)?)
        }
        Expr6::WithMember(name) => Ok(kept_member(alloc, scope, lookup, name)?),
        Expr6::WithBang(_) => Ok(kept_bang(alloc, scope)?),
        Expr6::Index(of, args) => {
            let of = meaning(alloc, scope, with_list(lookup), of)?;
            let args = supplied(alloc, scope, args)?;
            Ok(list_meaning(alloc, scope.context, of, args)?)
        }
        Expr6::Unary(op, of) => {
            let of = meaning(alloc, scope, as_value(), of)?;
            Ok(unary_meaning(alloc, scope.context, *op, of)?)
        }
        Expr6::Binary(op, x, y) => {
            let x = meaning(alloc, scope, as_value(), x)?;
            let y = meaning(alloc, scope, as_value(), y)?;
            Ok(binary_meaning(alloc, scope.context, *op, x, y)?)
        }
        Expr6::Paren(of) => {
            let of = meaning(alloc, scope, as_value(), of)?;
            Ok(paren_meaning(alloc, scope.context, of)?)
        }
        Expr6::New(name) => Ok(Meaning::Value(new_value(scope, name))),
        Expr6::Bang(of, _) => {
            let of = meaning(alloc, scope, as_value(), of)?;
            Ok(bang_meaning(alloc, scope.context, of)?)
        }
        Expr6::TypeOf(of, name) => {
            let of = meaning(alloc, scope, as_value(), of)?;
            Ok(test_meaning(alloc, scope, of, name)?)
        }
        Expr6::AddressOf(_) => Ok(Meaning::Value(Typed::breaks(2))),
    }
}

fn is_parenthesised(value: &Option<Expr6>) -> bool
    ensures { result ≡ is_parenthesised_in (given_of value.now) }
{
    match value {
        Some(Expr6::Paren(_)) => true,
        _ => false,
    }
}

#[cycle(meanings)]
fn value_in(alloc: Global, scope: Scope<'_>, value: &Option<Expr6>) -> Result<Option<Typed>, Mem>
    requires names { IsScope scope }
    requires rule { scope.missing < 32 }
    ensures { IfOk result (λ v. value_of v ≡ value_in (scope_of scope.entry) (given_of value.now)) }
{
    match value {
        Some(e) => {
            let m = meaning(alloc, scope, as_value(), e)?;
            let t = valued(alloc, scope.context, m)?;
            Ok(Some(t))
        }
        None => Ok(None),
    }
}

#[cycle(meanings)]
fn supplied_one(alloc: Global, scope: Scope<'_>, arg: &Arg6) -> Result<Supplied, Mem>
    requires names { IsScope scope }
    requires rule { scope.missing < 32 }
    ensures { IfOk result (λ s. supplied_of s ≡ supplied_as arg.now.name arg.now.marked (is_parenthesised_in (given_of arg.now.value)) (value_in (scope_of scope.entry) (given_of arg.now.value))) }
{
    let value = value_in(alloc, scope, &arg.value)?;
    Ok(Supplied {
        named: arg.name.is_some(),
        marked: arg.marked,
        parenthesised: is_parenthesised(&arg.value),
        value,
    })
}

/// Arguments as they are supplied.
#[cycle(meanings)]
pub fn supplied(alloc: Global, scope: Scope<'_>, args: &[Arg6]) -> Result<Vec<Supplied>, Mem>
    requires names { IsScope scope }
    requires rule { scope.missing < 32 }
    ensures { IfOk result (λ v. map supplied_of v.items ≡ supplied (scope_of scope.entry) (args_of args.now)) }
{
    let mut all = Vec::new(alloc);
    for arg in args {
        let given = supplied_one(alloc, scope, arg)?;
        all.push(given)?;
    }
    Ok(all)
}

/// The value of an expression.
pub fn resolved(alloc: Global, scope: Scope<'_>, e: &Expr6) -> Result<Typed, Mem>
    requires names { IsScope scope }
    requires rule { scope.missing < 32 }
    ensures { IfOk result (λ t. typed_of t ≡ resolved (scope_of scope.entry) (exp_of e.now)) }
{
    let m = meaning(alloc, scope, as_value(), e)?;
    Ok(valued(alloc, scope.context, m)?)
}
