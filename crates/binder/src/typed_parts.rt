//! What the expressions of a line are.
ghost use Rattle.std.specs.Prelude.{◌≡◌, ◌<◌, ◌++◌, map, IfOk, OnOk};
ghost use Rattle.vb_tree.specs.BoundTree.{Ty};
ghost use Rattle.vb_tree.specs.BoundView.{type_of};
ghost use Rattle.vb_tree.specs.Tree as source;
ghost use Rattle.vb_tree.specs.View.{args_of, exp_of};
ghost use Rattle.typing_rows.specs.Conversions.{assigned};
ghost use Rattle.expression_words.specs.Converting.{NamesRule};
ghost use Rattle.expression_words.specs.View.{IsScope, asks_of, meaning_of, scope_of, typed_of};
ghost use Rattle.bound_exprs.specs.Resolved as expected;
ghost use Rattle.declarations.specs.ConstantExpressions as constants;
ghost use Rattle.binder.specs.Lines.{asked, behind_target, flawed_where, set_value, target_type, typed_as, typed_part, typed_parts, used_as};
ghost use Rattle.binder.specs.Parts.{lookup_of};
ghost use Rattle.binder.specs.View.{part_of, source_of};

use crate::parts::{Part, Source, Task};
use bound_exprs::{as_value, meaning, supplied, with_list};
use declarations::resolved_as;
use expression_words::{
    Asks, Lookup, Meaning, Scope, Typed, copy_type, counter, let_target, list_meaning, resized,
    set_target, statement, valued, wanted, wanted_typed, word_meaning,
};
use std::alloc::Global;
use typing_rows::{CaseType, Conversion};
use up_base::Mem;
use vb_tree::{Arg6, Expr6, Type6};

fn invoked_meaning(
    alloc: Global,
    scope: Scope<'_>,
    lookup: Lookup,
    callee: &Expr6,
    args: &[Arg6],
) -> Result<Meaning, Mem>
    requires names { IsScope scope }
    requires rule { scope.missing < 32 }
    ensures { IfOk result (λ m. meaning_of m ≡ expected.meaning (scope_of scope.entry) lookup (source.index (exp_of callee.now) (args_of args.now))) }
{
    let m = meaning(alloc, scope, with_list(lookup), callee)?;
    let args = supplied(alloc, scope, args)?;
    Ok(list_meaning(alloc, scope.context, m, args)?)
}

fn source_meaning(
    alloc: Global,
    scope: Scope<'_>,
    lookup: Lookup,
    source: Source<'_>,
) -> Result<Meaning, Mem>
    requires names { IsScope scope }
    requires rule { scope.missing < 32 }
    ensures { IfOk result (λ m. meaning_of m ≡ expected.meaning (scope_of scope.entry) lookup (source_of source.entry)) }
{
    match source {
        Source::Whole(e) => Ok(meaning(alloc, scope, lookup, e)?),
        Source::Invoked(callee, args) => Ok(invoked_meaning(alloc, scope, lookup, callee, args)?),
        Source::Word(name, suffix) => Ok(word_meaning(alloc, scope, lookup, name, suffix)?),
    }
}

/// The value of an expression of a line.
pub fn source_value(alloc: Global, scope: Scope<'_>, source: Source<'_>) -> Result<Typed, Mem>
    requires names { IsScope scope }
    requires rule { scope.missing < 32 }
    ensures { IfOk result (λ t. typed_of t ≡ expected.resolved (scope_of scope.entry) (source_of source.entry)) }
{
    let m = source_meaning(alloc, scope, as_value(), source)?;
    Ok(valued(alloc, scope.context, m)?)
}

// A number with decimals stands in no list of arguments, and is no name.
#[tactic(auto, using(crate::proofs::PlainValues::index_as, crate::proofs::PlainValues::word_as))]
fn source_value_as(
    alloc: Global,
    scope: Scope<'_>,
    source: Source<'_>,
    ty: &Type6,
) -> Result<Typed, Mem>
    requires names { IsScope scope }
    requires rule { scope.missing < 32 }
    ensures { IfOk result (λ t. typed_of t ≡ constants.resolved_as (scope_of scope.entry) (source_of source.entry) (type_of ty.now)) }
{
    match source {
        Source::Whole(e) => Ok(resolved_as(alloc, scope, e, ty)?),
        Source::Invoked(_, _) => Ok(source_value(alloc, scope, source)?),
        Source::Word(_, _) => Ok(source_value(alloc, scope, source)?),
    }
}

// A value where one is wanted.
fn asked(alloc: Global, scope: Scope<'_>, asks: Asks<'_>, source: Source<'_>) -> Result<Typed, Mem>
    requires names { IsScope scope }
    requires rule { scope.missing < 32 }
    ensures { IfOk result (λ t. typed_of t ≡ asked (scope_of scope.entry) (asks_of asks.entry) (expected.resolved (scope_of scope.entry) (source_of source.entry))) }
{
    let t = source_value(alloc, scope, source)?;
    Ok(wanted_typed(alloc, scope.context, asks, t)?)
}

fn let_value(
    alloc: Global,
    scope: Scope<'_>,
    target: &Type6,
    source: Source<'_>,
) -> Result<Typed, Mem>
    requires names { IsScope scope }
    requires rule { scope.missing < 32 }
    ensures { IfOk result (λ t. typed_of t ≡ asked (scope_of scope.entry) (λ (s : Ty). assigned s (type_of target.now)) (constants.resolved_as (scope_of scope.entry) (source_of source.entry) (type_of target.now))) }
{
    let t = source_value_as(alloc, scope, source, target)?;
    Ok(wanted_typed(alloc, scope.context, Asks::Assigned(target), t)?)
}

fn flawed_where(conversion: Conversion, t: Typed) -> Typed
    requires { NamesRule conversion }
    ensures { typed_of result ≡ flawed_where conversion (typed_of t) }
{
    match conversion {
        Conversion::Stands => t,
        Conversion::To(_) => t,
        Conversion::ByDefault => t,
        Conversion::Breaks(rule) => t.flawed_by(rule),
    }
}

fn set_typed(alloc: Global, scope: Scope<'_>, target: &Type6, t: Typed) -> Result<Typed, Mem>
    requires { IsScope scope }
    ensures { IfOk result (λ r. typed_of r ≡ set_value (scope_of scope.entry) (type_of target.now) (typed_of t)) }
{
    match t {
        Typed::Known(e) => Ok(wanted(alloc, scope.context, Asks::SetTo(target), e)?),
        Typed::Unknown(flaw) => {
            let conversion = Asks::SetTo(target).of(&Type6::Unknown);
            Ok(flawed_where(conversion, Typed::Unknown(flaw)))
        }
    }
}

fn set_value(
    alloc: Global,
    scope: Scope<'_>,
    target: &Type6,
    source: Source<'_>,
) -> Result<Typed, Mem>
    requires names { IsScope scope }
    requires rule { scope.missing < 32 }
    ensures { IfOk result (λ t. typed_of t ≡ set_value (scope_of scope.entry) (type_of target.now) (expected.resolved (scope_of scope.entry) (source_of source.entry))) }
{
    let t = source_value(alloc, scope, source)?;
    Ok(set_typed(alloc, scope, target, t)?)
}

// What is given a value, entered, counted in or made anew.
fn target(alloc: Global, scope: Scope<'_>, task: Task, m: Meaning) -> Result<Typed, Mem>
    requires { IsScope scope }
    ensures { IfOk result (λ t. typed_of t ≡ used_as (scope_of scope.entry).declarations task (meaning_of m)) }
{
    match task {
        Task::LetTarget => Ok(let_target(alloc, scope.context, m)?),
        Task::SetTarget => Ok(set_target(alloc, scope.context, m)?),
        Task::Counter => Ok(counter(alloc, scope.context, m)?),
        Task::Array => Ok(resized(alloc, scope.context, m)?),
        Task::Callee => Ok(statement(alloc, scope.context, m)?),
        _ => Ok(valued(alloc, scope.context, m)?),
    }
}

fn used(alloc: Global, scope: Scope<'_>, task: Task, source: Source<'_>) -> Result<Typed, Mem>
    requires names { IsScope scope }
    requires rule { scope.missing < 32 }
    ensures { IfOk result (λ t. typed_of t ≡ used_as (scope_of scope.entry).declarations task (expected.meaning (scope_of scope.entry) (lookup_of task) (source_of source.entry))) }
{
    let m = source_meaning(alloc, scope, task.lookup(), source)?;
    Ok(target(alloc, scope, task, m)?)
}

fn typed_as(
    alloc: Global,
    scope: Scope<'_>,
    cases: CaseType,
    target: &Type6,
    task: Task,
    source: Source<'_>,
) -> Result<Typed, Mem>
    requires names { IsScope scope }
    requires rule { scope.missing < 32 }
    ensures { IfOk result (λ t. typed_of t ≡ typed_as (scope_of scope.entry) cases (type_of target.now) task (source_of source.entry)) }
{
    match task {
        Task::LetValue => Ok(let_value(alloc, scope, target, source)?),
        Task::SetValue => Ok(set_value(alloc, scope, target, source)?),
        Task::Limit => Ok(asked(alloc, scope, Asks::Limit(target), source)?),
        Task::Condition => Ok(asked(alloc, scope, Asks::Condition, source)?),
        Task::Printed => Ok(asked(alloc, scope, Asks::Printed, source)?),
        Task::Bound => Ok(asked(alloc, scope, Asks::Index, source)?),
        Task::Choice => Ok(asked(alloc, scope, Asks::Case(cases), source)?),
        task => Ok(used(alloc, scope, task, source)?),
    }
}

fn typed_part(
    alloc: Global,
    scope: Scope<'_>,
    cases: CaseType,
    target: &Type6,
    part: &Part<'_>,
) -> Result<Typed, Mem>
    requires names { IsScope scope }
    requires rule { scope.missing < 32 }
    ensures { IfOk result (λ t. typed_of t ≡ typed_part (scope_of scope.entry) cases (type_of target.now) (part_of part.now)) }
{
    Ok(typed_as(alloc, scope, cases, target, part.task, part.source)?)
}

// The type of what is given a value or counted in.
fn target_type(alloc: Global, t: &Typed) -> Result<Type6, Mem>
    ensures { IfOk result (λ ty. type_of ty ≡ target_type (typed_of t.now)) }
{
    match t {
        Typed::Known(e) => Ok(copy_type(alloc, &e.ty)?),
        Typed::Unknown(_) => Ok(Type6::Unknown),
    }
}

fn push_behind(
    alloc: Global,
    scope: Scope<'_>,
    cases: CaseType,
    target: &Type6,
    parts: &[Part<'_>],
    to: &mut Vec<Typed>,
) -> Result<(), Mem>
    requires names { IsScope scope }
    requires rule { scope.missing < 32 }
    ensures { OnOk result (map typed_of to.new.items ≡ map typed_of to.old.items ++ map (typed_part (scope_of scope.entry) cases (type_of target.now)) (map part_of parts.now)) }
{
    for part in parts {
        let t = typed_part(alloc, scope, cases, target, part)?;
        to.push(t)?;
    }
    Ok(())
}

// An expression and those behind it, for which it is the target.
fn behind_target(
    alloc: Global,
    scope: Scope<'_>,
    cases: CaseType,
    t: Typed,
    parts: &[Part<'_>],
) -> Result<Vec<Typed>, Mem>
    requires names { IsScope scope }
    requires rule { scope.missing < 32 }
    ensures { IfOk result (λ v. map typed_of v.items ≡ behind_target (scope_of scope.entry) cases (typed_of t) (map part_of parts.now)) }
{
    let target = target_type(alloc, &t)?;
    let mut all = Vec::new(alloc);
    all.push(t)?;
    push_behind(alloc, scope, cases, &target, parts, &mut all)?;
    Ok(all)
}

/// What the expressions of a line are.
pub fn typed_parts(
    alloc: Global,
    scope: Scope<'_>,
    cases: CaseType,
    parts: &[Part<'_>],
) -> Result<Vec<Typed>, Mem>
    requires names { IsScope scope }
    requires rule { scope.missing < 32 }
    ensures { IfOk result (λ v. map typed_of v.items ≡ typed_parts (scope_of scope.entry) cases (map part_of parts.now)) }
{
    match parts {
        [] => Ok(Vec::new(alloc)),
        [first, rest @ ..] => {
            let t = typed_part(alloc, scope, cases, &Type6::Unknown, first)?;
            Ok(behind_target(alloc, scope, cases, t, rest)?)
        }
    }
}
