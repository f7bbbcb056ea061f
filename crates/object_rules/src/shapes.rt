//! What is noted of properties, by the number of their first part.
ghost use Rattle.std.specs.Prelude.{◌≡◌, ◌++◌, IfOk, OnOk, map, option_map, length};
ghost use Rattle.reach_table.specs.Chains.{is_marked};
ghost use Rattle.bound_tree.specs.View.{declarations_of, procedure_of};
ghost use Rattle.object_rules.specs.Shapes.{AreFlags, AreShapes, breaks_noted, first_if, firsts, is_apart, is_broken_part, is_let_part, is_set_part};
ghost use Rattle.object_rules.specs.Shown.{shown_procedure};

use crate::parts::{are_alike, is_let, is_property, is_set, lacks_value};
use bound_facts::marks_of;
use bound_tree::{Declared, ProcDecl};
use std::alloc::Global;
use up_base::Mem;

/// For each procedure, whether it is the first part of a property with a part that differs from it or lacks its value, of
/// one with a Let, and of one with a Set.
#[derive(Drop)]
pub(crate) struct NotedParts {
    broken: Vec<bool>,
    lets: Vec<bool>,
    sets: Vec<bool>,
}

fn is_apart(declared: &Declared, first: Option<&ProcDecl>, p: &ProcDecl) -> bool
    ensures { result ≡ is_apart (declarations_of declared.now) (option_map shown_procedure first.entry) (procedure_of p.now) }
{
    match first {
        None => false,
        Some(first) => !are_alike(declared, first, p) || lacks_value(p),
    }
}

fn is_broken_part(declared: &Declared, p: &ProcDecl) -> bool
    ensures { result ≡ is_broken_part (declarations_of declared.now) (procedure_of p.now) }
{
    is_property(p.kind) && is_apart(declared, declared.procs.get(p.first.0 as usize), p)
}

fn push_first(test: bool, p: &ProcDecl, to: &mut Vec<u32>) -> Result<(), Mem>
    ensures { OnOk result (to.new.items ≡ to.old.items ++ first_if test (procedure_of p.now)) }
{
    if !test {
        return Ok(());
    }
    Ok(to.push(p.first.0)?)
}

fn broken_firsts(alloc: Global, declared: &Declared, procs: &[ProcDecl]) -> Result<Vec<u32>, Mem>
    ensures { IfOk result (λ v. v.items ≡ firsts (is_broken_part (declarations_of declared.now)) (map procedure_of procs.now)) }
{
    let mut all = Vec::new(alloc);
    for p in procs {
        push_first(is_broken_part(declared, p), p, &mut all)?;
    }
    Ok(all)
}

fn let_firsts(alloc: Global, procs: &[ProcDecl]) -> Result<Vec<u32>, Mem>
    ensures { IfOk result (λ v. v.items ≡ firsts is_let_part (map procedure_of procs.now)) }
{
    let mut all = Vec::new(alloc);
    for p in procs {
        push_first(is_let(p.kind), p, &mut all)?;
    }
    Ok(all)
}

fn set_firsts(alloc: Global, procs: &[ProcDecl]) -> Result<Vec<u32>, Mem>
    ensures { IfOk result (λ v. v.items ≡ firsts is_set_part (map procedure_of procs.now)) }
{
    let mut all = Vec::new(alloc);
    for p in procs {
        push_first(is_set(p.kind), p, &mut all)?;
    }
    Ok(all)
}

// The flags of the procedures whose numbers are in a list.
fn flags(alloc: Global, declared: &Declared, list: &[u32]) -> Result<Vec<bool>, Mem>
    ensures { IfOk result (λ v. AreFlags (declarations_of declared.now) list.now v.items) }
{
    let count = declared.procs.len();
    if count > 4294967295 {
        return Err(Mem);
    }
    Ok(marks_of(alloc, count as u32, list)?)
}

fn broken_flags(alloc: Global, declared: &Declared) -> Result<Vec<bool>, Mem>
    ensures { IfOk result (λ v. AreFlags (declarations_of declared.now) (firsts (is_broken_part (declarations_of declared.now)) (map procedure_of declared.now.procs)) v.items) }
{
    let list = broken_firsts(alloc, declared, declared.procs.as_slice())?;
    Ok(flags(alloc, declared, &list)?)
}

fn let_flags(alloc: Global, declared: &Declared) -> Result<Vec<bool>, Mem>
    ensures { IfOk result (λ v. AreFlags (declarations_of declared.now) (firsts is_let_part (map procedure_of declared.now.procs)) v.items) }
{
    let list = let_firsts(alloc, declared.procs.as_slice())?;
    Ok(flags(alloc, declared, &list)?)
}

fn set_flags(alloc: Global, declared: &Declared) -> Result<Vec<bool>, Mem>
    ensures { IfOk result (λ v. AreFlags (declarations_of declared.now) (firsts is_set_part (map procedure_of declared.now.procs)) v.items) }
{
    let list = set_firsts(alloc, declared.procs.as_slice())?;
    Ok(flags(alloc, declared, &list)?)
}

/// What is noted of the properties of a project.
pub(crate) fn noted_parts(alloc: Global, declared: &Declared) -> Result<NotedParts, Mem>
    ensures { IfOk result (λ s. AreShapes (declarations_of declared.now) s) }
{
    let broken = broken_flags(alloc, declared)?;
    let lets = let_flags(alloc, declared)?;
    let sets = set_flags(alloc, declared)?;
    Ok(NotedParts { broken, lets, sets })
}

fn flag_at(flags: &[bool], n: u32) -> bool
    ensures { result ≡ is_marked flags.now n }
{
    match flags.get(n as usize) {
        Some(flag) => *flag,
        None => false,
    }
}

/// Whether a procedure is a part of a property that has no right shape, by what is noted.
pub(crate) fn breaks_noted(noted: &NotedParts, p: &ProcDecl) -> bool
    ensures { result ≡ breaks_noted noted.now (procedure_of p.now) }
{
    let first = p.first.0;
    is_property(p.kind)
        && (flag_at(&noted.broken, first)
            || (flag_at(&noted.lets, first) && flag_at(&noted.sets, first)))
}
