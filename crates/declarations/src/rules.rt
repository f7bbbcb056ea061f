//! The rules that declarations break, and what they are left with.
ghost use Rattle.std.specs.Prelude.{◌≡◌, ◌<◌, ℕ, map, option_map, slice_get, IfOk};
ghost use Rattle.std.specs.List.{list_any};
ghost use Rattle.vb_tree.specs.BoundView.{type_of};
ghost use Rattle.bound_tree.specs.RuleSets.{has};
ghost use Rattle.bound_tree.specs.View.{constant_of, procedure_of, variable_of};
ghost use Rattle.reach_table.specs.Chains.{is_marked};
ghost use Rattle.declared_names.specs.View.{procedure_of as named_procedure};
ghost use Rattle.declarations.specs.Finals as finals;
ghost use Rattle.declarations.specs.Finals.{answer_rules, by_owner, final_constant, final_procedure, final_result, final_variable, flagging, group_rules, head_rules, is_flagged, own_rules, params_rules, plan_rules, planned_at, rules_at, rules_of_variable, set_at, type_at, variable_rules, with_plan};
ghost use Rattle.declarations.specs.Numbered.{numbered};
ghost use Rattle.declarations.specs.View.{plan_shown};

use crate::constants::{is_at, suffix_rules};
use crate::plans::Plan;
use bound_tree::{ConstDecl, ProcDecl, RuleSet, VarDecl};
use declared_names::NamedProc;
use expression_words::{copy_type, copy_value};
use std::alloc::Global;
use up_base::{Mem, Sequence};
use vb_tree::{Owner, Suffix, Type6, Value6, VarId};

fn set_at(set: Option<&RuleSet>) -> RuleSet
    ensures { result ≡ set_at (option_map (λ s. s.now) set.entry) }
{
    match set {
        Some(set) => *set,
        None => RuleSet::new(),
    }
}

/// The rules of the item of a number.
pub(crate) fn rules_at(sets: &[RuleSet], n: usize) -> RuleSet
    ensures { result ≡ rules_at sets.now n }
{
    set_at(sets.get(n))
}

static FLAGGING: [u8; 13] = [1, 2, 3, 4, 5, 6, 16, 18, 19, 20, 21, 22, 25];

#[tactic(auto, unfolding(crate::specs::Finals::flagging))]
fn flagging() -> &'static [u8]
    ensures { result.now ≡ flagging }
{
    &FLAGGING
}

fn has_any(set: RuleSet, rules: &[u8]) -> bool
    ensures { result ≡ list_any (has set) rules.now }
{
    rules.iter().any(|rule| set.has(*rule))
}

// Whether a declaration that breaks the rules is left without a type.
fn is_flagged(set: RuleSet) -> bool
    ensures { result ≡ is_flagged set }
{
    has_any(set, flagging())
}

// ---- heads of procedures

fn plan_rules(plan: Option<&Plan>) -> RuleSet
    ensures { result ≡ plan_rules (option_map (λ p. plan_shown p.now) plan.entry) }
{
    match plan {
        Some(plan) => plan.rules,
        None => RuleSet::new(),
    }
}

fn rules_of_variable(plans: &[Plan], v: VarId) -> RuleSet
    ensures { result ≡ rules_of_variable (map plan_shown plans.now) v }
{
    plan_rules(plans.get(v.0 as usize))
}

fn params_rules(plans: &[Plan], rules: RuleSet, params: &[VarId]) -> RuleSet
    ensures { result ≡ params_rules (map plan_shown plans.now) rules params.now }
{
    let mut all = rules;
    for v in params {
        all = all.union(rules_of_variable(plans, *v));
    }
    all
}

fn answer_rules(plans: &[Plan], suffix: Suffix, answer: Option<VarId>) -> RuleSet
    ensures { result ≡ answer_rules (map plan_shown plans.now) suffix answer }
{
    match answer {
        Some(v) => rules_of_variable(plans, v),
        None => suffix_rules(suffix),
    }
}

// By its name, its parameters and its result.
fn head_rules(names: &[RuleSet], plans: &[Plan], n: usize, p: &NamedProc<'_>) -> RuleSet
    ensures { result ≡ head_rules names.now (map plan_shown plans.now) n (named_procedure p.now) }
{
    let rules = params_rules(plans, rules_at(names, n), p.params.as_slice());
    rules.union(answer_rules(plans, p.suffix, p.answer))
}

/// The rules that the heads of procedures break.
pub(crate) fn heads_rules(
    alloc: Global,
    names: &[RuleSet],
    plans: &[Plan],
    all: &[NamedProc<'_>],
) -> Result<Vec<RuleSet>, Mem>
    ensures { IfOk result (λ v. v.items ≡ numbered (head_rules names.now (map plan_shown plans.now)) 0 (map named_procedure all.now)) }
{
    let mut rules = Vec::new(alloc);
    let mut n = 0;
    for p in all {
        rules.push(head_rules(names, plans, n, p))?;
        n += 1;
    }
    Ok(rules)
}

// ---- variables

fn own_rules(names: &[RuleSet], circular: &[bool], plans: &[Plan], k: usize) -> RuleSet
    ensures { result ≡ own_rules names.now (is_marked circular.now) (map plan_shown plans.now) k }
{
    let rules = plan_rules(plans.get(k)).with_if(3, is_at(circular, k));
    rules_at(names, k).union(rules)
}

// A result variable breaks what the head of its procedure breaks.
fn by_owner(owner: Owner, heads: &[RuleSet], own: RuleSet) -> RuleSet
    ensures { result ≡ by_owner owner heads.now own }
{
    match owner {
        Owner::Answer(p) => rules_at(heads, p.0 as usize),
        _ => own,
    }
}

fn variable_rules(
    names: &[RuleSet],
    heads: &[RuleSet],
    circular: &[bool],
    plans: &[Plan],
    k: usize,
    x: &VarDecl,
) -> RuleSet
    ensures { result ≡ variable_rules names.now heads.now (is_marked circular.now) (map plan_shown plans.now) k (variable_of x.now) }
{
    by_owner(x.owner, heads, own_rules(names, circular, plans, k))
}

/// The rules that variables break.
pub(crate) fn variables_rules(
    alloc: Global,
    names: &[RuleSet],
    heads: &[RuleSet],
    circular: &[bool],
    plans: &[Plan],
    vars: &[VarDecl],
) -> Result<Vec<RuleSet>, Mem>
    ensures { IfOk result (λ v. v.items ≡ numbered (variable_rules names.now heads.now (is_marked circular.now) (map plan_shown plans.now)) 0 (map variable_of vars.now)) }
{
    let mut rules = Vec::new(alloc);
    let mut k = 0;
    for x in vars {
        rules.push(variable_rules(names, heads, circular, plans, k, x))?;
        k += 1;
    }
    Ok(rules)
}

fn copy_preset(alloc: Global, preset: &Option<Value6>) -> Result<Option<Value6>, Mem>
    ensures { IfOk result (λ p. p ≡ preset.now) }
{
    match preset {
        Some(value) => Ok(Some(copy_value(alloc, value)?)),
        None => Ok(None),
    }
}

fn type_unless(alloc: Global, flagged: bool, ty: &Type6) -> Result<Type6, Mem>
    ensures { IfOk result (λ t. type_of t ≡ finals.type_unless flagged (type_of ty.now)) }
{
    if flagged {
        Ok(Type6::Unknown)
    } else {
        Ok(copy_type(alloc, ty)?)
    }
}

fn bounds_unless(
    alloc: Global,
    flagged: bool,
    bounds: &[(i32, i32)],
) -> Result<Sequence<(i32, i32)>, Mem>
    ensures { IfOk result (λ s. s ≡ finals.bounds_unless flagged bounds.now) }
{
    if flagged {
        Ok(Sequence::new(alloc))
    } else {
        Ok(Sequence::from_slice(alloc, bounds)?)
    }
}

fn with_plan(alloc: Global, x: VarDecl, plan: &Plan, flagged: bool) -> Result<VarDecl, Mem>
    ensures { IfOk result (λ v. variable_of v ≡ with_plan (variable_of x) (plan_shown plan.now) flagged) }
{
    let ty = type_unless(alloc, flagged, &plan.named)?;
    let named = copy_type(alloc, &plan.named)?;
    let bounds = bounds_unless(alloc, flagged, &plan.bounds)?;
    let preset = copy_preset(alloc, &plan.preset)?;
    Ok(VarDecl {
        ty,
        named,
        bounds,
        preset,
        ..x
    })
}

fn planned_at(alloc: Global, x: VarDecl, flagged: bool, plan: Option<&Plan>) -> Result<VarDecl, Mem>
    ensures { IfOk result (λ v. variable_of v ≡ planned_at (variable_of x) flagged (option_map (λ p. plan_shown p.now) plan.entry)) }
{
    match plan {
        Some(plan) => Ok(with_plan(alloc, x, plan, flagged)?),
        None => Ok(x),
    }
}

fn plan_at(plans: &[Plan], k: usize) -> Option<&Plan>
    ensures { option_map (λ p. plan_shown p.now) result ≡ slice_get (map plan_shown plans.now) k }
{
    plans.get(k)
}

fn final_variable(
    alloc: Global,
    plans: &[Plan],
    rules: &[RuleSet],
    k: usize,
    x: VarDecl,
) -> Result<VarDecl, Mem>
    ensures { IfOk result (λ v. variable_of v ≡ final_variable (map plan_shown plans.now) rules.now k (variable_of x)) }
{
    let flagged = is_flagged(rules_at(rules, k));
    Ok(planned_at(alloc, x, flagged, plan_at(plans, k))?)
}

/// Variables with all that is known of them; one that breaks a rule is left without a type.
pub(crate) fn final_variables(
    alloc: Global,
    plans: &[Plan],
    rules: &[RuleSet],
    vars: Vec<VarDecl>,
) -> Result<Vec<VarDecl>, Mem>
    ensures { IfOk result (λ v. map variable_of v.items ≡ numbered (final_variable (map plan_shown plans.now) rules.now) 0 (map variable_of vars.items)) }
{
    let mut all = Vec::new(alloc);
    let mut k = 0;
    for x in vars {
        let x = final_variable(alloc, plans, rules, k, x)?;
        all.push(x)?;
        k += 1;
    }
    Ok(all)
}

// ---- procedures

fn type_at(alloc: Global, x: Option<&VarDecl>) -> Result<Type6, Mem>
    ensures { IfOk result (λ t. type_of t ≡ type_at (option_map (λ v. variable_of v.now) x.entry)) }
{
    match x {
        Some(x) => Ok(copy_type(alloc, &x.ty)?),
        None => Ok(Type6::Unknown),
    }
}

fn final_result(
    alloc: Global,
    vars: &[VarDecl],
    flagged: bool,
    ty: Type6,
    answer: Option<VarId>,
) -> Result<Type6, Mem>
    ensures { IfOk result (λ t. type_of t ≡ final_result (map variable_of vars.now) flagged (type_of ty) answer) }
{
    if flagged {
        return Ok(Type6::Unknown);
    }
    match answer {
        Some(v) => Ok(type_at(alloc, vars.get(v.0 as usize))?),
        None => Ok(ty),
    }
}

fn with_result(alloc: Global, vars: &[VarDecl], flagged: bool, p: ProcDecl) -> Result<ProcDecl, Mem>
    ensures { IfOk result (λ q. procedure_of q ≡ finals.with_final_result (map variable_of vars.now) flagged (procedure_of p)) }
{
    let result = final_result(alloc, vars, flagged, p.result, p.answer)?;
    Ok(ProcDecl { result, ..p })
}

/// Procedures with the types of their results; one whose head breaks a rule is left without one.
pub(crate) fn final_procedures(
    alloc: Global,
    vars: &[VarDecl],
    heads: &[RuleSet],
    procs: Vec<ProcDecl>,
) -> Result<Vec<ProcDecl>, Mem>
    ensures { IfOk result (λ v. map procedure_of v.items ≡ numbered (final_procedure (map variable_of vars.now) heads.now) 0 (map procedure_of procs.items)) }
{
    let mut all = Vec::new(alloc);
    let mut n = 0;
    for p in procs {
        let p = with_result(alloc, vars, is_flagged(rules_at(heads, n)), p)?;
        all.push(p)?;
        n += 1;
    }
    Ok(all)
}

// ---- constants

/// The rules of constants by their names, their types and their values.
pub(crate) fn all_rules(
    alloc: Global,
    names: &[RuleSet],
    own: &[RuleSet],
) -> Result<Vec<RuleSet>, Mem>
    ensures { IfOk result (λ v. v.items ≡ numbered (finals.joint_rules names.now) 0 own.now) }
{
    let mut rules = Vec::new(alloc);
    let mut k = 0;
    for set in own {
        rules.push(rules_at(names, k).union(*set))?;
        k += 1;
    }
    Ok(rules)
}

fn without_value(c: ConstDecl) -> ConstDecl
    ensures { constant_of result ≡ finals.without_value (constant_of c) }
{
    ConstDecl {
        ty: Type6::Unknown,
        value: None,
        ..c
    }
}

fn final_constant(flagged: bool, c: ConstDecl) -> ConstDecl
    ensures { constant_of result ≡ finals.kept_constant flagged (constant_of c) }
{
    if flagged { without_value(c) } else { c }
}

/// Constants of which those that break a rule are left without a value, members of Enums apart.
pub(crate) fn final_constants(
    alloc: Global,
    members: &[bool],
    rules: &[RuleSet],
    consts: Vec<ConstDecl>,
) -> Result<Vec<ConstDecl>, Mem>
    ensures { IfOk result (λ v. map constant_of v.items ≡ numbered (finals.final_constant (is_marked members.now) rules.now) 0 (map constant_of consts.items)) }
{
    let mut all = Vec::new(alloc);
    let mut k = 0;
    for c in consts {
        let flagged = is_flagged(rules_at(rules, k)) && !is_at(members, k);
        all.push(final_constant(flagged, c))?;
        k += 1;
    }
    Ok(all)
}

// ---- Types and Enums

/// The rules of Types or Enums by their names and their suffixes.
pub(crate) fn groups_rules(
    alloc: Global,
    names: &[RuleSet],
    suffixes: &[Suffix],
) -> Result<Vec<RuleSet>, Mem>
    ensures { IfOk result (λ v. v.items ≡ numbered (group_rules names.now) 0 suffixes.now) }
{
    let mut rules = Vec::new(alloc);
    let mut n = 0;
    for suffix in suffixes {
        rules.push(rules_at(names, n).union(suffix_rules(*suffix)))?;
        n += 1;
    }
    Ok(rules)
}
