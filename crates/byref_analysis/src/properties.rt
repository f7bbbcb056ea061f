//! Properties with an index parameter by reference that isn't quiet.
ghost use Rattle.std.specs.Prelude.{◌≡◌, ◌++◌, ℕ, IfOk, OnOk, map, slice_get};
ghost use Rattle.std.specs.List.{flat_map, list_any};
ghost use Rattle.reach_table.specs.Chains.{is_marked};
ghost use Rattle.bound_tree.specs.View.{declarations_of, procedure_of, variable_of};
ghost use Rattle.byref_analysis.specs.FactsOf.{quiet_by};
ghost use Rattle.byref_analysis.specs.Properties.{is_open, is_open_part, is_open_property, is_part, is_reference, is_reference_owner, open_item};
ghost use Rattle.byref_analysis.specs.Rows.{head_rules, heads_rules};

use crate::facts::Facts;
use crate::numbers::{flag_at, index};
use crate::quiet::is_quiet;
use bound_facts::marks_of;
use bound_tree::{Declared, ProcDecl, RuleSet, VarDecl};
use std::alloc::Global;
use up_base::{Mem, Sequence};
use vb_tree::{Owner, ProcKind, VarId};

/// Whether a procedure is a part of a property.
pub(crate) fn is_part(kind: ProcKind) -> bool
    ensures { result ≡ is_part kind }
{
    match kind {
        ProcKind::Get => true,
        ProcKind::Let => true,
        ProcKind::Set => true,
        _ => false,
    }
}

fn is_reference_owner(owner: Owner) -> bool
    ensures { result ≡ is_reference_owner owner }
{
    match owner {
        Owner::Reference(_) => true,
        _ => false,
    }
}

fn is_reference(vars: &Sequence<VarDecl>, w: VarId) -> bool
    ensures { result ≡ is_reference (slice_get (map variable_of vars.now) w.0) }
{
    match vars.get(w.0 as usize) {
        Some(v) => is_reference_owner(v.owner),
        None => false,
    }
}

// Whether a parameter takes a reference and isn't quiet.
fn is_open(declared: &Declared, facts: &Facts, w: VarId) -> bool
    ensures { result ≡ is_open (map variable_of declared.now.vars) (quiet_by declared.now facts.now) w }
{
    is_reference(&declared.vars, w) && !is_quiet(declared, facts, w)
}

fn some_open(declared: &Declared, facts: &Facts, params: &[VarId]) -> bool
    ensures { result ≡ list_any (is_open (map variable_of declared.now.vars) (quiet_by declared.now facts.now)) params.now }
{
    for w in params {
        if is_open(declared, facts, *w) {
            return true;
        }
    }
    false
}

fn is_open_part(declared: &Declared, facts: &Facts, p: &ProcDecl) -> bool
    ensures { result ≡ is_open_part (map variable_of declared.now.vars) (quiet_by declared.now facts.now) (procedure_of p.now) }
{
    is_part(p.kind) && some_open(declared, facts, p.params.as_slice())
}

fn push_open(declared: &Declared, facts: &Facts, p: &ProcDecl, to: &mut Vec<u32>) -> Result<(), Mem>
    ensures { OnOk result (to.new.items ≡ to.old.items ++ open_item (map variable_of declared.now.vars) (quiet_by declared.now facts.now) (procedure_of p.now)) }
{
    if !is_open_part(declared, facts, p) {
        return Ok(());
    }
    Ok(to.push(p.first.0)?)
}

fn open_items(
    alloc: Global,
    declared: &Declared,
    facts: &Facts,
    procs: &[ProcDecl],
) -> Result<Vec<u32>, Mem>
    ensures { IfOk result (λ v. v.items ≡ flat_map (open_item (map variable_of declared.now.vars) (quiet_by declared.now facts.now)) (map procedure_of procs.now)) }
{
    let mut all = Vec::new(alloc);
    for p in procs {
        push_open(declared, facts, p, &mut all)?;
    }
    Ok(all)
}

// For each procedure whether it is the first part of a property that has such a part.
fn open_flags(alloc: Global, declared: &Declared, facts: &Facts) -> Result<Vec<bool>, Mem>
    ensures { IfOk result (λ v. (n : ℕ) → is_marked v.items n ≡ is_open_property (declarations_of declared.now) (quiet_by declared.now facts.now) n) }
{
    let list = open_items(alloc, declared, facts, declared.procs.as_slice())?;
    let count = index(declared.procs.len())?;
    Ok(marks_of(alloc, count, &list)?)
}

fn head_rules(opens: &[bool], p: &ProcDecl) -> RuleSet
    ensures { result ≡ head_rules (is_marked opens.now) (procedure_of p.now) }
{
    RuleSet::new().with_if(7, is_part(p.kind) && flag_at(opens, p.first.0 as usize))
}

fn rules_by(alloc: Global, opens: &[bool], procs: &[ProcDecl]) -> Result<Vec<RuleSet>, Mem>
    ensures { IfOk result (λ v. v.items ≡ map (head_rules (is_marked opens.now)) (map procedure_of procs.now)) }
{
    let mut sets = Vec::new(alloc);
    for p in procs {
        sets.push(head_rules(opens, p))?;
    }
    Ok(sets)
}

/// The sets of the heads of procedures.
pub(crate) fn heads_rules(
    alloc: Global,
    declared: &Declared,
    facts: &Facts,
) -> Result<Vec<RuleSet>, Mem>
    ensures { IfOk result (λ v. v.items ≡ heads_rules (declarations_of declared.now) (quiet_by declared.now facts.now)) }
{
    let opens = open_flags(alloc, declared, facts)?;
    Ok(rules_by(alloc, &opens, declared.procs.as_slice())?)
}
