//! Declarations of the local variables that no line declares, behind those that lines declare.
ghost use Rattle.std.specs.Prelude.{◌≡◌, ◌+◌, ◌++◌, cond, length, map, nat_eq, OnOk, IfOk};
ghost use Rattle.std.specs.Cmp.Lexicographic.{pointwise};
ghost use Rattle.std.specs.List.{list_any};
ghost use Rattle.vb_tree.specs.BoundTree as types;
ghost use Rattle.vb_tree.specs.BoundView.{type_of};
ghost use Rattle.vb_tree.specs.View.{module_of};
ghost use Rattle.bound_tree.specs.View as bound;
ghost use Rattle.bound_tree.specs.View.{declarations_of};
ghost use Rattle.declared_names.specs.Rules.{is_module_name, is_reserved, reserved_names};
ghost use Rattle.expression_words.specs.View.{declared_in};
ghost use Rattle.declarations.specs.View.{choice_shown};
ghost use Rattle.binder.specs.ImplicitLocals.{all_variables, choice_of, declared_as, entries_from, entry_at, is_taken, rules_of, variable_of};
ghost use Rattle.binder.specs.View.{implicit_of, locals_shown, IsSurvey};

use crate::homes::sum;
use crate::locals::{Implicit, Locals, Survey};
use bound_tree::{Declared, Named, NamedEntry, RuleSet, Scope, VarDecl};
use declarations::{Choice, choice_by_letter, choice_by_suffix, letter_of};
use expression_words::copy_type;
use std::alloc::Global;
use up_base::{Mem, Name, Sequence};
use vb_tree::{Module6, Owner, Type6, VarId};

static RESERVED_NAMES: [&[u8]; 3] = [b"upgradesupport", b"system", b"microsoft"];

#[tactic(auto, unfolding(declared_names::specs::Rules::reserved_names))]
fn reserved_names() -> &'static [&'static [u8]]
    ensures { map (λ w. w.now) result.now ≡ reserved_names }
{
    &RESERVED_NAMES
}

fn is_among(word: &[u8], words: &[&[u8]]) -> bool
    ensures { result ≡ list_any (λ w. pointwise nat_eq word.now w.now) words.now }
{
    words.iter().any(|w| word == *w)
}

// Whether each written project has something of this name beside its modules.
fn is_reserved(name: &Name) -> bool
    ensures { result ≡ is_reserved name.now }
{
    is_among(name.lower_bytes(), reserved_names())
}

fn is_module_name(modules: &[Module6], name: &Name) -> bool
    ensures { result ≡ is_module_name (map module_of modules.now) name.now }
{
    for module in modules {
        if !module.class && module.name == *name {
            return true;
        }
    }
    false
}

fn is_taken(survey: Survey<'_>, name: &Name) -> bool
    ensures { result ≡ is_taken (declared_in survey.entry.context) name.now }
{
    let modules = survey.context.declared.project.modules.as_slice();
    is_reserved(name) || is_module_name(modules, name)
}

// The rules that such a variable breaks by its name.
fn rules_of(survey: Survey<'_>, x: &Implicit) -> RuleSet
    ensures { result ≡ rules_of (declared_in survey.entry.context) (implicit_of x.now) }
{
    RuleSet::new().with_if(20, is_taken(survey, &x.name))
}

// Its type, by its suffix or its first letter.
fn choice_of(survey: Survey<'_>, x: &Implicit) -> Choice
    requires { IsSurvey survey }
    ensures { choice_shown result ≡ choice_of (declared_in survey.entry.context) (implicit_of x.now) }
{
    match choice_by_suffix(x.suffix) {
        Some(choice) => choice,
        None => choice_by_letter(letter_of(survey.facts, x.file, x.name.as_bytes())),
    }
}

fn type_unless(taken: bool, alloc: Global, ty: &Type6) -> Result<Type6, Mem>
    ensures { IfOk result (λ t. type_of t ≡ cond taken types.unknown (type_of ty.now)) }
{
    if taken {
        Ok(Type6::Unknown)
    } else {
        Ok(copy_type(alloc, ty)?)
    }
}

fn declared_as(alloc: Global, taken: bool, x: &Implicit, choice: Choice) -> Result<VarDecl, Mem>
    ensures { IfOk result (λ v. bound.variable_of v ≡ declared_as taken (implicit_of x.now) (choice_shown choice)) }
{
    let ty = type_unless(taken, alloc, &choice.ty)?;
    let name = x.name.copy(alloc)?;
    Ok(VarDecl {
        name,
        place: x.place,
        statement: x.statement,
        owner: Owner::Local(x.procedure),
        ty,
        named: choice.ty,
        qualified: false,
        lettered: choice.lettered,
        bounds: Sequence::new(alloc),
        auto: false,
        preset: None,
    })
}

fn variable_of(alloc: Global, survey: Survey<'_>, x: &Implicit) -> Result<VarDecl, Mem>
    requires { IsSurvey survey }
    ensures { IfOk result (λ v. bound.variable_of v ≡ variable_of (declared_in survey.entry.context) (implicit_of x.now)) }
{
    let choice = choice_of(survey, x);
    Ok(declared_as(alloc, is_taken(survey, &x.name), x, choice)?)
}

fn push_variables(
    alloc: Global,
    survey: Survey<'_>,
    all: &[Implicit],
    to: &mut Vec<VarDecl>,
) -> Result<(), Mem>
    requires { IsSurvey survey }
    ensures { OnOk result (map bound.variable_of to.new.items ≡ map bound.variable_of to.old.items ++ map (variable_of (declared_in survey.entry.context)) (map implicit_of all.now)) }
{
    for x in all {
        let v = variable_of(alloc, survey, x)?;
        to.push(v)?;
    }
    Ok(())
}

/// The declarations of variables.
pub fn variables_of(
    alloc: Global,
    survey: Survey<'_>,
    locals: &[Locals],
) -> Result<Vec<VarDecl>, Mem>
    requires { IsSurvey survey }
    ensures { IfOk result (λ v. map bound.variable_of v.items ≡ map (variable_of (declared_in survey.entry.context)) (all_variables (map locals_shown locals.now))) }
{
    let mut all = Vec::new(alloc);
    for own in locals {
        push_variables(alloc, survey, &own.variables, &mut all)?;
    }
    Ok(all)
}

fn push_rules(survey: Survey<'_>, all: &[Implicit], to: &mut Vec<RuleSet>) -> Result<(), Mem>
    ensures { OnOk result (to.new.items ≡ to.old.items ++ map (rules_of (declared_in survey.entry.context)) (map implicit_of all.now)) }
{
    for x in all {
        to.push(rules_of(survey, x))?;
    }
    Ok(())
}

/// The rules that they break.
pub fn variables_rules(
    alloc: Global,
    survey: Survey<'_>,
    locals: &[Locals],
) -> Result<Vec<RuleSet>, Mem>
    ensures { IfOk result (λ v. v.items ≡ map (rules_of (declared_in survey.entry.context)) (all_variables (map locals_shown locals.now))) }
{
    let mut all = Vec::new(alloc);
    for own in locals {
        push_rules(survey, &own.variables, &mut all)?;
    }
    Ok(all)
}

fn entry_of(alloc: Global, k: u32, x: &Implicit) -> Result<NamedEntry, Mem>
    ensures { IfOk result (λ e. e ≡ entry_at k (implicit_of x.now)) }
{
    Ok(NamedEntry {
        name: x.name.copy(alloc)?,
        scope: Scope::Local(x.procedure),
        named: Named::Var(VarId(k)),
    })
}

// Appends the names of variables that are numbered from a number, and answers the number behind the last one.
fn push_entries(
    alloc: Global,
    k: u32,
    all: &[Implicit],
    to: &mut Vec<NamedEntry>,
) -> Result<u32, Mem>
    ensures entries { OnOk result (to.new.items ≡ to.old.items ++ entries_from k (map implicit_of all.now)) }
    ensures next { IfOk result (λ n. n ≡ k + length all.now) }
{
    let mut next = k;
    for x in all {
        let entry = entry_of(alloc, next, x)?;
        to.push(entry)?;
        next = sum(next, 1)?;
    }
    Ok(next)
}

/// Their names, numbered from a number.
pub fn entries_of(alloc: Global, first: u32, locals: &[Locals]) -> Result<Vec<NamedEntry>, Mem>
    ensures { IfOk result (λ v. v.items ≡ entries_from first (all_variables (map locals_shown locals.now))) }
{
    let mut all = Vec::new(alloc);
    let mut next = first;
    for own in locals {
        next = push_entries(alloc, next, &own.variables, &mut all)?;
    }
    Ok(all)
}

fn add_names(names: Vec<NamedEntry>, to: &mut Declared) -> Result<(), Mem>
    ensures declarations { OnOk result (declarations_of to.new ≡ record (declarations_of to.old) { names = to.old.names ++ names.items }) }
    ensures marks { OnOk result (to.new.marks ≡ to.old.marks) }
{
    for name in names {
        to.names.push(name)?;
    }
    Ok(())
}

fn add_variables(vars: Vec<VarDecl>, to: &mut Declared) -> Result<(), Mem>
    ensures declarations { OnOk result (declarations_of to.new ≡ record (declarations_of to.old) { vars = map bound.variable_of to.old.vars ++ map bound.variable_of vars.items }) }
    ensures marks { OnOk result (to.new.marks ≡ to.old.marks) }
{
    for v in vars {
        to.vars.push(v)?;
    }
    Ok(())
}

/// Puts names and variables behind those that lines declare.
pub fn add_locals(names: Vec<NamedEntry>, vars: Vec<VarDecl>, to: &mut Declared) -> Result<(), Mem>
    ensures declarations { OnOk result (declarations_of to.new ≡ record (declarations_of to.old) { names = to.old.names ++ names.items; vars = map bound.variable_of to.old.vars ++ map bound.variable_of vars.items }) }
    ensures marks { OnOk result (to.new.marks ≡ to.old.marks) }
{
    add_names(names, to)?;
    add_variables(vars, to)?;
    Ok(())
}
