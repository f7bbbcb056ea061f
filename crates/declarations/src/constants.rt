//! What a constant gives by the declarations so far, and the rules that it breaks.
ghost use Rattle.std.specs.Prelude.{◌≡◌, ◌<◌, ◌+◌, ◌++◌, ◌&&◌, ℕ, Bool, true, false, length, map, nat_lt, option_map, slice_get, IfOk, OnOk};
ghost use Rattle.vb_tree.specs.BoundView.{type_of};
ghost use Rattle.vb_tree.specs.View.{exp_of, type_name_of};
ghost use Rattle.bound_tree.specs.View.{constant_of};
ghost use Rattle.vb_tree.specs.BoundTree.{unknown};
ghost use Rattle.reach_table.specs.Chains.{is_marked};
ghost use Rattle.declared_names.specs.View.{constant_of as named_constant, names_of};
ghost use Rattle.expression_words.specs.View.{declared_in, IsScope, scope_of};
ghost use Rattle.declared_names.specs.Declaring.{NamedConstant};
ghost use Rattle.declarations.specs.Constants as constants;
ghost use Rattle.declarations.specs.Constants.{as_declared, by_choice, choice_rules, constant_by, constant_rules, is_member, member_numbers, member_outcome, naming_rules, next_member, next_of, of_length, of_type, outcome_of, suffix_rules, unfixed, value_at, written_choice};
ghost use Rattle.declarations.specs.Numbered.{numbered};
ghost use Rattle.declarations.specs.View.{choice_shown, length_shown, outcome_shown, IsKnown};

use crate::constant_exprs::{Outcome, breaks, const_outcome, constant_outcome};
use crate::lengths::{Length, written_length};
use crate::named_types::{Choice, choice_by_suffix, single};
use crate::places::{Known, file_of, scope_for};
use bound_facts::marks_of;
use bound_tree::{ConstDecl, ConstId, EnumDecl, RuleSet};
use declared_names::{DeclaredNames, NamedConst};
use expression_words::Scope;
use std::alloc::Global;
use up_base::Mem;
use vb_tree::{Expr6, Suffix, Type6, TypeName6, Value6};

// ---- members of Enums

fn push_members(members: &[ConstId], to: &mut Vec<u32>) -> Result<(), Mem>
    ensures { OnOk result (to.new.items ≡ to.old.items ++ map (λ (c : ConstId). c.0) members.now) }
{
    for c in members {
        to.push(c.0)?;
    }
    Ok(())
}

fn member_numbers(alloc: Global, enums: &[EnumDecl]) -> Result<Vec<u32>, Mem>
    ensures { IfOk result (λ v. v.items ≡ member_numbers enums.now) }
{
    let mut all = Vec::new(alloc);
    for e in enums {
        push_members(e.members.as_slice(), &mut all)?;
    }
    Ok(all)
}

/// A number of items. It wants memory past the last number that there is.
pub(crate) fn count(len: usize) -> Result<u32, Mem>
    ensures { IfOk result (λ n. n ≡ len) }
{
    match u32::try_from(len) {
        Ok(n) => Ok(n),
        Err(_) => Err(Mem),
    }
}

/// For each constant whether it is a member of an Enum.
pub(crate) fn members_of(alloc: Global, names: &DeclaredNames<'_>) -> Result<Vec<bool>, Mem>
    ensures { IfOk result (λ v. (k : ℕ) → is_marked v.items k ≡ is_member (names_of names.now) k) }
{
    let numbers = member_numbers(alloc, names.enums.as_slice())?;
    Ok(marks_of(alloc, count(names.consts.len())?, &numbers)?)
}

pub(crate) fn is_at(marks: &[bool], n: usize) -> bool
    ensures { result ≡ is_marked marks.now n }
{
    match marks.get(n) {
        Some(mark) => *mark,
        None => false,
    }
}

fn value_at(c: Option<&ConstDecl>) -> Option<&Value6>
    ensures { option_map (λ x. x.now) result ≡ value_at (option_map (λ k. constant_of k.now) c.entry) }
{
    match c {
        Some(c) => c.value.as_ref(),
        None => None,
    }
}

fn next_of(value: Option<&Value6>) -> Outcome
    ensures { outcome_shown result ≡ next_of (option_map (λ x. x.now) value.entry) }
{
    match value {
        Some(Value6::Long(z)) => {
            if *z < 2147483647 {
                Outcome::Value(Type6::Long, Value6::Long(*z + 1))
            } else {
                breaks(25)
            }
        }
        _ => breaks(25),
    }
}

// A member of an Enum without an expression.
fn next_member(known: Known<'_>, before: Option<ConstId>) -> Outcome
    ensures { outcome_shown result ≡ next_member (declared_in known.entry.context) before }
{
    match before {
        Some(k) => next_of(value_at(known.context.declared.consts.get(k.0 as usize))),
        None => Outcome::Value(Type6::Long, Value6::Long(0)),
    }
}

fn member_outcome(alloc: Global, known: Known<'_>, c: &NamedConst<'_>) -> Result<Outcome, Mem>
    requires { IsKnown known }
    ensures { IfOk result (λ o. outcome_shown o ≡ member_outcome (declared_in known.entry.context) (named_constant c.now) (named_constant c.now).value) }
{
    match c.value {
        Some(e) => {
            let scope = scope_for(known, c.owner);
            Ok(constant_outcome(alloc, scope, Some(&Type6::Long), e)?)
        }
        None => Ok(next_member(known, c.before)),
    }
}

// ---- constants

fn choice_behind(known: Known<'_>, c: &NamedConst<'_>, ty: &TypeName6) -> Choice
    requires { IsKnown known }
    ensures { Some (choice_shown result) ≡ written_choice (declared_in known.entry.context) (named_constant c.now) (Some (type_name_of ty.now)) }
{
    let file = file_of(known.context, c.owner);
    single(known, file, c.name, c.suffix, false, Some(ty))
}

// The type that is written, if one is.
fn written_choice(known: Known<'_>, c: &NamedConst<'_>) -> Option<Choice>
    requires { IsKnown known }
    ensures { option_map choice_shown result ≡ written_choice (declared_in known.entry.context) (named_constant c.now) (named_constant c.now).ty }
{
    match c.ty {
        Some(ty) => Some(choice_behind(known, c, ty)),
        None => choice_by_suffix(c.suffix),
    }
}

// A constant of a fixed length is a String.
fn unfixed(ty: Type6) -> Type6
    ensures { type_of result ≡ unfixed (type_of ty) }
{
    match ty {
        Type6::Fixed(_) => Type6::Str,
        ty => ty,
    }
}

fn as_declared(outcome: Outcome) -> Outcome
    ensures { outcome_shown result ≡ as_declared (outcome_shown outcome) }
{
    match outcome {
        Outcome::Value(ty, value) => Outcome::Value(unfixed(ty), value),
        Outcome::Broken(rules) => Outcome::Broken(rules),
    }
}

// One of a type that isn't known has no value.
fn of_unknown(alloc: Global, scope: Scope<'_>, e: &Expr6) -> Result<Outcome, Mem>
    requires names { IsScope scope }
    requires rule { scope.missing < 32 }
    ensures { IfOk result (λ o. outcome_shown o ≡ of_type (scope_of scope.entry) (exp_of e.now) unknown) }
{
    let outcome = const_outcome(alloc, scope, None, e)?;
    Ok(Outcome::Broken(outcome.rules()))
}

fn of_declared(alloc: Global, scope: Scope<'_>, e: &Expr6, ty: &Type6) -> Result<Outcome, Mem>
    requires names { IsScope scope }
    requires rule { scope.missing < 32 }
    ensures { IfOk result (λ o. outcome_shown o ≡ constants.of_declared (scope_of scope.entry) (exp_of e.now) (type_of ty.now)) }
{
    let outcome = const_outcome(alloc, scope, Some(ty), e)?;
    Ok(as_declared(outcome))
}

fn of_type(alloc: Global, scope: Scope<'_>, e: &Expr6, ty: &Type6) -> Result<Outcome, Mem>
    requires names { IsScope scope }
    requires rule { scope.missing < 32 }
    ensures { IfOk result (λ o. outcome_shown o ≡ of_type (scope_of scope.entry) (exp_of e.now) (type_of ty.now)) }
{
    match ty {
        Type6::Unknown => Ok(of_unknown(alloc, scope, e)?),
        _ => Ok(of_declared(alloc, scope, e, ty)?),
    }
}

fn of_length(
    alloc: Global,
    scope: Scope<'_>,
    e: &Expr6,
    ty: &Type6,
    length: Length,
) -> Result<Outcome, Mem>
    requires names { IsScope scope }
    requires rule { scope.missing < 32 }
    ensures { IfOk result (λ o. outcome_shown o ≡ of_length (scope_of scope.entry) (exp_of e.now) (type_of ty.now) (length_shown length)) }
{
    match length {
        Length::Open => Ok(of_type(alloc, scope, e, ty)?),
        Length::Of(n) => Ok(of_type(alloc, scope, e, &Type6::Fixed(n))?),
        Length::Broken(rules) => Ok(Outcome::Broken(rules)),
    }
}

fn of_choice(
    alloc: Global,
    scope: Scope<'_>,
    ty: Option<&TypeName6>,
    e: &Expr6,
    choice: Choice,
) -> Result<Outcome, Mem>
    requires names { IsScope scope }
    requires rule { scope.missing < 32 }
    ensures { IfOk result (λ o. outcome_shown o ≡ by_choice (scope_of scope.entry) (option_map (λ t. type_name_of t.now) ty.entry) (exp_of e.now) (Some (choice_shown choice))) }
{
    let length = written_length(alloc, scope, ty)?;
    Ok(of_length(alloc, scope, e, &choice.ty, length)?)
}

fn by_choice(
    alloc: Global,
    scope: Scope<'_>,
    ty: Option<&TypeName6>,
    e: &Expr6,
    choice: Option<Choice>,
) -> Result<Outcome, Mem>
    requires names { IsScope scope }
    requires rule { scope.missing < 32 }
    ensures { IfOk result (λ o. outcome_shown o ≡ by_choice (scope_of scope.entry) (option_map (λ t. type_name_of t.now) ty.entry) (exp_of e.now) (option_map choice_shown choice)) }
{
    match choice {
        Some(choice) => Ok(of_choice(alloc, scope, ty, e, choice)?),
        None => Ok(const_outcome(alloc, scope, None, e)?),
    }
}

fn constant_by(alloc: Global, known: Known<'_>, c: &NamedConst<'_>) -> Result<Outcome, Mem>
    requires { IsKnown known }
    ensures { IfOk result (λ o. outcome_shown o ≡ constant_by (declared_in known.entry.context) (named_constant c.now) (named_constant c.now).value) }
{
    match c.value {
        Some(e) => {
            let scope = scope_for(known, c.owner);
            let choice = written_choice(known, c);
            Ok(by_choice(alloc, scope, c.ty, e, choice)?)
        }
        None => Ok(breaks(25)),
    }
}

/// What a constant gives by the declarations so far.
pub(crate) fn outcome_of(
    alloc: Global,
    known: Known<'_>,
    member: bool,
    c: &NamedConst<'_>,
) -> Result<Outcome, Mem>
    requires { IsKnown known }
    ensures { IfOk result (λ o. outcome_shown o ≡ outcome_of (declared_in known.entry.context) member (named_constant c.now)) }
{
    if member {
        Ok(member_outcome(alloc, known, c)?)
    } else {
        Ok(constant_by(alloc, known, c)?)
    }
}

// ---- rules

/// That of a suffix of a floating type.
pub(crate) fn suffix_rules(suffix: Suffix) -> RuleSet
    ensures { result ≡ suffix_rules suffix }
{
    match suffix {
        Suffix::Single => RuleSet::new().with(1),
        Suffix::Double => RuleSet::new().with(1),
        _ => RuleSet::new(),
    }
}

fn choice_rules(choice: Option<Choice>) -> RuleSet
    ensures { result ≡ choice_rules (option_map choice_shown choice) }
{
    match choice {
        Some(choice) => choice.rules,
        None => RuleSet::new(),
    }
}

fn naming_rules(known: Known<'_>, member: bool, c: &NamedConst<'_>) -> RuleSet
    requires { IsKnown known }
    ensures { result ≡ naming_rules (declared_in known.entry.context) member (named_constant c.now) }
{
    if member {
        suffix_rules(c.suffix)
    } else {
        choice_rules(written_choice(known, c))
    }
}

fn constant_rules(
    alloc: Global,
    known: Known<'_>,
    member: bool,
    c: &NamedConst<'_>,
) -> Result<RuleSet, Mem>
    requires { IsKnown known }
    ensures { IfOk result (λ r. r ≡ constant_rules (declared_in known.entry.context) member (named_constant c.now)) }
{
    let outcome = outcome_of(alloc, known, member, c)?;
    Ok(naming_rules(known, member, c).union(outcome.rules()))
}

/// The rules that constants break by their types and values.
pub(crate) fn constants_rules(
    alloc: Global,
    known: Known<'_>,
    members: &[bool],
    all: &[NamedConst<'_>],
) -> Result<Vec<RuleSet>, Mem>
    requires { IsKnown known }
    ensures { IfOk result (λ v. v.items ≡ numbered (λ (k : ℕ) (c : NamedConstant). constant_rules (declared_in known.entry.context) (is_marked members.now k) c) 0 (map named_constant all.now)) }
{
    let mut rules = Vec::new(alloc);
    let mut k = 0;
    for c in all {
        rules.push(constant_rules(alloc, known, is_at(members, k), c)?)?;
        k += 1;
    }
    Ok(rules)
}
