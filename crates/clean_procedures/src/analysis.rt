//! Which procedures are clean.
ghost use Rattle.std.specs.Prelude.{◌≡◌, ◌<◌, ◌↔◌, ◌++◌, ◌*◌, ℕ, IsTrue, length, IfOk, OnOk, map};
ghost use Rattle.reach_table.specs.Chains.{is_marked};
ghost use Rattle.vb_tree.specs.View.{project_of};
ghost use Rattle.bound_tree.specs.View.{declarations_of, program_of};
ghost use Rattle.clean_procedures.specs.Broken.{broken_points, option_points, statement_points, statements};
ghost use Rattle.clean_procedures.specs.Numbers.{number};
ghost use Rattle.clean_procedures.specs.Options.{noted};
ghost use Rattle.clean_procedures.specs.Pairs.{all_pairs, body_pairs, declared_pairs};
ghost use Rattle.clean_procedures.specs.Reaching.{LeadTo};
ghost use Rattle.clean_procedures.specs.Verdicts.{AreClean, clean_to, shown_marks};

use crate::broken::{push_marks, push_options, push_statements};
use crate::captured::push_captured;
use crate::classes::{Home, class_table};
use crate::declared::{push_constants, push_types, push_variables};
use crate::lines::push_bodies;
use crate::numbers::{index, procedure_point};
use crate::options::noted_modules;
use crate::reaching::leading;
use crate::statements::statement_set;
use bound_tree::{Bound, Declared, Marks, bound_lines};
use std::alloc::Global;
use up_base::Mem;

/// For each procedure whether it is clean by the marks of all passes: no chain of mentions leads from it to a procedure or a
/// declaration with a line that breaks a rule.
pub fn clean_procedures(alloc: Global, bound: &Bound, marks: &[&Marks]) -> Result<Vec<bool>, Mem>
    requires { 0 < length marks.now }
    ensures { IfOk result (λ flags. AreClean (program_of bound.now) (map shown_marks marks.now) flags.items) }
{
    let dirty = dirty(alloc, bound, marks)?;
    Ok(clean_flags(alloc, &dirty, bound.declared.procs.len())?)
}

// For each number of a point whether a chain leads from it to a point that breaks a rule.
fn dirty(alloc: Global, bound: &Bound, marks: &[&Marks]) -> Result<Vec<bool>, Mem>
    ensures { IfOk result (λ flags. (n : ℕ) → IsTrue (is_marked flags.items n) ↔ LeadTo (all_pairs (program_of bound.now)) (map number (broken_points (program_of bound.now).declarations (map shown_marks marks.now))) n) }
{
    let pairs = pairs(alloc, bound)?;
    let broken = broken(alloc, &bound.declared, marks)?;
    Ok(leading(alloc, &pairs, &broken)?)
}

fn is_dirty(dirty: &[bool], p: u32) -> Result<bool, Mem>
    ensures { IfOk result (λ b. b ≡ is_marked dirty.now (5 * p)) }
{
    let n = procedure_point(p)?;
    Ok(flag_at(dirty, n))
}

fn flag_at(flags: &[bool], n: u32) -> bool
    ensures { result ≡ is_marked flags.now n }
{
    match flags.get(n as usize) {
        Some(flag) => *flag,
        None => false,
    }
}

// For so many procedures whether they are clean.
fn clean_flags(alloc: Global, dirty: &[bool], count: usize) -> Result<Vec<bool>, Mem>
    ensures { IfOk result (λ flags. flags.items ≡ clean_to dirty.now count) }
{
    let mut flags = Vec::new(alloc);
    for i in 0..count {
        let p = index(i)?;
        let broken = is_dirty(dirty, p)?;
        flags.push(!broken)?;
    }
    Ok(flags)
}

fn push_lines(alloc: Global, bound: &Bound, to: &mut Vec<(u32, u32)>) -> Result<(), Mem>
    ensures { OnOk result (to.new.items ≡ to.old.items ++ body_pairs (program_of bound.now)) }
{
    let lines = bound_lines(alloc, bound)?;
    let subs = class_table(alloc, &bound.declared)?;
    let home = Home {
        declared: &bound.declared,
        subs: &subs,
    };
    Ok(push_bodies(alloc, &home, &lines, to)?)
}

fn push_declared(declared: &Declared, to: &mut Vec<(u32, u32)>) -> Result<(), Mem>
    ensures { OnOk result (to.new.items ≡ to.old.items ++ declared_pairs (declarations_of declared.now)) }
{
    push_variables(declared.vars.as_slice(), to)?;
    push_constants(declared.consts.as_slice(), to)?;
    push_types(declared.types.as_slice(), to)?;
    Ok(())
}

// The pairs of points of which the first leads to the second.
fn pairs(alloc: Global, bound: &Bound) -> Result<Vec<(u32, u32)>, Mem>
    ensures { IfOk result (λ v. v.items ≡ all_pairs (program_of bound.now)) }
{
    let mut all = Vec::new(alloc);
    push_lines(alloc, bound, &mut all)?;
    push_declared(&bound.declared, &mut all)?;
    push_captured(alloc, &bound.declared, &mut all)?;
    Ok(all)
}

fn push_broken_statements(
    alloc: Global,
    declared: &Declared,
    marks: &[&Marks],
    to: &mut Vec<u32>,
) -> Result<(), Mem>
    ensures { OnOk result (to.new.items ≡ to.old.items ++ map number (statement_points (declarations_of declared.now) (statements (declarations_of declared.now) (map shown_marks marks.now)))) }
{
    let set = statement_set(alloc, declared, marks)?;
    Ok(push_statements(alloc, declared, &set, to)?)
}

fn push_broken_options(alloc: Global, declared: &Declared, to: &mut Vec<u32>) -> Result<(), Mem>
    ensures { OnOk result (to.new.items ≡ to.old.items ++ map number (option_points (declarations_of declared.now) (map noted (project_of declared.now.project).modules))) }
{
    let modules = noted_modules(alloc, declared.project.modules.as_slice())?;
    Ok(push_options(alloc, declared, &modules, to)?)
}

// The points that break a rule.
fn broken(alloc: Global, declared: &Declared, marks: &[&Marks]) -> Result<Vec<u32>, Mem>
    ensures { IfOk result (λ v. v.items ≡ map number (broken_points (declarations_of declared.now) (map shown_marks marks.now))) }
{
    let mut all = Vec::new(alloc);
    push_marks(alloc, marks, &mut all)?;
    push_broken_statements(alloc, declared, marks, &mut all)?;
    push_broken_options(alloc, declared, &mut all)?;
    Ok(all)
}
