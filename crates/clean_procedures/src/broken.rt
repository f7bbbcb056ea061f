//! The numbers of points that break a rule.
ghost use Rattle.std.specs.Prelude.{◌≡◌, ◌++◌, IfOk, OnOk, map};
ghost use Rattle.bound_tree.specs.RuleSets.{is_broken};
ghost use Rattle.bound_tree.specs.View.{constant_of, declarations_of, procedure_of, variable_of};
ghost use Rattle.bound_facts.specs.Clean.{constant, procedure, user_type, variable};
ghost use Rattle.clean_procedures.specs.Broken.{is_constant_among, is_lettered, is_lettered_by, is_under, is_variable_among, mark_points, number_if, option_points, pass_points, some_broken, statement_points, those_from};
ghost use Rattle.clean_procedures.specs.Numbers.{number};
ghost use Rattle.clean_procedures.specs.Options.{shown};
ghost use Rattle.clean_procedures.specs.Verdicts.{shown_marks};

use crate::numbers::{constant_point, index, procedure_point, type_point, variable_point};
use crate::options::{ModuleLines, has_broken, is_broken, is_broken_at};
use crate::statements::{Statement, is_among, of_constant, of_variable};
use bound_tree::{ConstDecl, Declared, Marks, ProcDecl, RuleSet, VarDecl};
use std::alloc::Global;
use std::collections::HashSet;
use up_base::{Mem, Sequence};

fn push_if(test: bool, k: usize, to: &mut Vec<u32>) -> Result<(), Mem>
    ensures { OnOk result (to.new.items ≡ to.old.items ++ number_if test k) }
{
    if !test {
        return Ok(());
    }
    let n = index(k)?;
    Ok(to.push(n)?)
}

// The numbers of the sets that have a rule.
fn broken_sets(alloc: Global, sets: &[RuleSet]) -> Result<Vec<u32>, Mem>
    ensures { IfOk result (λ v. v.items ≡ those_from is_broken 0 sets.now) }
{
    let mut all = Vec::new(alloc);
    for (i, set) in sets.iter().enumerate() {
        push_if(is_broken(*set), i, &mut all)?;
    }
    Ok(all)
}

fn some_broken(sets: &[RuleSet]) -> bool
    ensures { result ≡ some_broken sets.now }
{
    for set in sets {
        if is_broken(*set) {
            return true;
        }
    }
    false
}

// The numbers of the lists with such a set.
fn broken_groups(alloc: Global, groups: &[Sequence<RuleSet>]) -> Result<Vec<u32>, Mem>
    ensures { IfOk result (λ v. v.items ≡ those_from some_broken 0 groups.now) }
{
    let mut all = Vec::new(alloc);
    for (i, group) in groups.iter().enumerate() {
        push_if(some_broken(group.as_slice()), i, &mut all)?;
    }
    Ok(all)
}

fn push_procedures(list: &[u32], to: &mut Vec<u32>) -> Result<(), Mem>
    ensures { OnOk result (to.new.items ≡ to.old.items ++ map number (map procedure list.now)) }
{
    for n in list {
        to.push(procedure_point(*n)?)?;
    }
    Ok(())
}

fn push_variables(list: &[u32], to: &mut Vec<u32>) -> Result<(), Mem>
    ensures { OnOk result (to.new.items ≡ to.old.items ++ map number (map variable list.now)) }
{
    for n in list {
        to.push(variable_point(*n)?)?;
    }
    Ok(())
}

fn push_constants(list: &[u32], to: &mut Vec<u32>) -> Result<(), Mem>
    ensures { OnOk result (to.new.items ≡ to.old.items ++ map number (map constant list.now)) }
{
    for n in list {
        to.push(constant_point(*n)?)?;
    }
    Ok(())
}

fn push_types(list: &[u32], to: &mut Vec<u32>) -> Result<(), Mem>
    ensures { OnOk result (to.new.items ≡ to.old.items ++ map number (map user_type list.now)) }
{
    for n in list {
        to.push(type_point(*n)?)?;
    }
    Ok(())
}

fn push_heads(alloc: Global, sets: &[RuleSet], to: &mut Vec<u32>) -> Result<(), Mem>
    ensures { OnOk result (to.new.items ≡ to.old.items ++ map number (map procedure (those_from is_broken 0 sets.now))) }
{
    let list = broken_sets(alloc, sets)?;
    Ok(push_procedures(&list, to)?)
}

fn push_lines(alloc: Global, groups: &[Sequence<RuleSet>], to: &mut Vec<u32>) -> Result<(), Mem>
    ensures { OnOk result (to.new.items ≡ to.old.items ++ map number (map procedure (those_from some_broken 0 groups.now))) }
{
    let list = broken_groups(alloc, groups)?;
    Ok(push_procedures(&list, to)?)
}

fn push_type_heads(alloc: Global, sets: &[RuleSet], to: &mut Vec<u32>) -> Result<(), Mem>
    ensures { OnOk result (to.new.items ≡ to.old.items ++ map number (map user_type (those_from is_broken 0 sets.now))) }
{
    let list = broken_sets(alloc, sets)?;
    Ok(push_types(&list, to)?)
}

fn push_pass(alloc: Global, marks: &Marks, to: &mut Vec<u32>) -> Result<(), Mem>
    ensures { OnOk result (to.new.items ≡ to.old.items ++ map number (pass_points marks.now)) }
{
    push_heads(alloc, marks.heads.as_slice(), to)?;
    push_lines(alloc, marks.lines.as_slice(), to)?;
    push_type_heads(alloc, marks.types.as_slice(), to)?;
    Ok(())
}

/// Appends the procedures and user types whose head or lines break a rule.
pub(crate) fn push_marks(alloc: Global, marks: &[&Marks], to: &mut Vec<u32>) -> Result<(), Mem>
    ensures { OnOk result (to.new.items ≡ to.old.items ++ map number (mark_points (map shown_marks marks.now))) }
{
    for one in marks {
        push_pass(alloc, one, to)?;
    }
    Ok(())
}

fn variables_among(
    alloc: Global,
    set: &HashSet<Statement>,
    vars: &[VarDecl],
) -> Result<Vec<u32>, Mem>
    ensures { IfOk result (λ v. v.items ≡ those_from (is_variable_among set.now.keys) 0 (map variable_of vars.now)) }
{
    let mut all = Vec::new(alloc);
    for (i, v) in vars.iter().enumerate() {
        push_if(is_among(set, of_variable(v)), i, &mut all)?;
    }
    Ok(all)
}

fn constants_among(
    alloc: Global,
    set: &HashSet<Statement>,
    consts: &[ConstDecl],
) -> Result<Vec<u32>, Mem>
    ensures { IfOk result (λ v. v.items ≡ those_from (is_constant_among set.now.keys) 0 (map constant_of consts.now)) }
{
    let mut all = Vec::new(alloc);
    for (i, c) in consts.iter().enumerate() {
        push_if(is_among(set, of_constant(c)), i, &mut all)?;
    }
    Ok(all)
}

fn push_variables_among(
    alloc: Global,
    set: &HashSet<Statement>,
    vars: &[VarDecl],
    to: &mut Vec<u32>,
) -> Result<(), Mem>
    ensures { OnOk result (to.new.items ≡ to.old.items ++ map number (map variable (those_from (is_variable_among set.now.keys) 0 (map variable_of vars.now)))) }
{
    let list = variables_among(alloc, set, vars)?;
    Ok(push_variables(&list, to)?)
}

fn push_constants_among(
    alloc: Global,
    set: &HashSet<Statement>,
    consts: &[ConstDecl],
    to: &mut Vec<u32>,
) -> Result<(), Mem>
    ensures { OnOk result (to.new.items ≡ to.old.items ++ map number (map constant (those_from (is_constant_among set.now.keys) 0 (map constant_of consts.now)))) }
{
    let list = constants_among(alloc, set, consts)?;
    Ok(push_constants(&list, to)?)
}

/// Appends the variables and constants of the statements in a set.
pub(crate) fn push_statements(
    alloc: Global,
    declared: &Declared,
    set: &HashSet<Statement>,
    to: &mut Vec<u32>,
) -> Result<(), Mem>
    ensures { OnOk result (to.new.items ≡ to.old.items ++ map number (statement_points (declarations_of declared.now) set.now.keys)) }
{
    push_variables_among(alloc, set, declared.vars.as_slice(), to)?;
    push_constants_among(alloc, set, declared.consts.as_slice(), to)?;
    Ok(())
}

fn procedures_under(
    alloc: Global,
    modules: &[ModuleLines],
    procs: &[ProcDecl],
) -> Result<Vec<u32>, Mem>
    ensures { IfOk result (λ v. v.items ≡ those_from (is_under (map shown modules.now)) 0 (map procedure_of procs.now)) }
{
    let mut all = Vec::new(alloc);
    for (i, p) in procs.iter().enumerate() {
        push_if(has_broken(modules, p.module), i, &mut all)?;
    }
    Ok(all)
}

fn is_lettered_by(modules: &[ModuleLines], file: u32, statement: Option<u32>) -> bool
    ensures { result ≡ is_lettered_by (map shown modules.now) file statement }
{
    match statement {
        None => false,
        Some(n) => is_broken_at(modules, file, n),
    }
}

fn variables_lettered(
    alloc: Global,
    modules: &[ModuleLines],
    vars: &[VarDecl],
) -> Result<Vec<u32>, Mem>
    ensures { IfOk result (λ v. v.items ≡ those_from (is_lettered (map shown modules.now)) 0 (map variable_of vars.now)) }
{
    let mut all = Vec::new(alloc);
    for (i, v) in vars.iter().enumerate() {
        push_if(
            is_lettered_by(modules, v.place.file, v.lettered),
            i,
            &mut all,
        )?;
    }
    Ok(all)
}

fn push_procedures_under(
    alloc: Global,
    modules: &[ModuleLines],
    procs: &[ProcDecl],
    to: &mut Vec<u32>,
) -> Result<(), Mem>
    ensures { OnOk result (to.new.items ≡ to.old.items ++ map number (map procedure (those_from (is_under (map shown modules.now)) 0 (map procedure_of procs.now)))) }
{
    let list = procedures_under(alloc, modules, procs)?;
    Ok(push_procedures(&list, to)?)
}

fn push_variables_lettered(
    alloc: Global,
    modules: &[ModuleLines],
    vars: &[VarDecl],
    to: &mut Vec<u32>,
) -> Result<(), Mem>
    ensures { OnOk result (to.new.items ≡ to.old.items ++ map number (map variable (those_from (is_lettered (map shown modules.now)) 0 (map variable_of vars.now)))) }
{
    let list = variables_lettered(alloc, modules, vars)?;
    Ok(push_variables(&list, to)?)
}

/// Appends the procedures of modules with an Option or a Def line that breaks a rule, and the variables that have their type by one.
pub(crate) fn push_options(
    alloc: Global,
    declared: &Declared,
    modules: &[ModuleLines],
    to: &mut Vec<u32>,
) -> Result<(), Mem>
    ensures { OnOk result (to.new.items ≡ to.old.items ++ map number (option_points (declarations_of declared.now) (map shown modules.now))) }
{
    push_procedures_under(alloc, modules, declared.procs.as_slice(), to)?;
    push_variables_lettered(alloc, modules, declared.vars.as_slice(), to)?;
    Ok(())
}
