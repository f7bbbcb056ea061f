//! Statements of which a declaration breaks a rule.
ghost use Rattle.std.specs.Prelude.{◌≡◌, ◌++◌, IfOk, OnOk, map, slice_get};
ghost use Rattle.bound_tree.specs.View.{constant_of, declarations_of, variable_of};
ghost use Rattle.bound_facts.specs.Clean.{set_broken};
ghost use Rattle.clean_procedures.specs.Broken.{AreStatements, Statement, constant_statements, is_among, of_constant, of_variable, pass_statements, statement_if, statements, variable_statements};
ghost use Rattle.clean_procedures.specs.Verdicts.{shown_marks};

use crate::options::is_broken;
use bound_tree::{ConstDecl, Declared, Marks, RuleSet, VarDecl};
use std::alloc::Global;
use std::collections::HashSet;
use up_base::Mem;

/// A statement by its file and its number in it.
pub(crate) type Statement = (u32, u32);

// The set with a number, where there is one.
fn set_at(sets: &[RuleSet], i: usize) -> Option<RuleSet>
    ensures { result ≡ slice_get sets.now i }
{
    sets.get(i).copied()
}

fn set_broken(set: Option<RuleSet>) -> bool
    ensures { result ≡ set_broken set }
{
    match set {
        None => false,
        Some(set) => is_broken(set),
    }
}

pub(crate) fn of_variable(v: &VarDecl) -> Statement
    ensures { result ≡ of_variable (variable_of v.now) }
{
    (v.place.file, v.statement)
}

pub(crate) fn of_constant(c: &ConstDecl) -> Statement
    ensures { result ≡ of_constant (constant_of c.now) }
{
    (c.place.file, c.statement)
}

fn push_if(test: bool, statement: Statement, to: &mut Vec<Statement>) -> Result<(), Mem>
    ensures { OnOk result (to.new.items ≡ to.old.items ++ statement_if test statement) }
{
    if !test {
        return Ok(());
    }
    Ok(to.push(statement)?)
}

fn push_variables(sets: &[RuleSet], vars: &[VarDecl], to: &mut Vec<Statement>) -> Result<(), Mem>
    ensures { OnOk result (to.new.items ≡ to.old.items ++ variable_statements sets.now 0 (map variable_of vars.now)) }
{
    for (i, v) in vars.iter().enumerate() {
        push_if(set_broken(set_at(sets, i)), of_variable(v), to)?;
    }
    Ok(())
}

fn push_constants(
    sets: &[RuleSet],
    consts: &[ConstDecl],
    to: &mut Vec<Statement>,
) -> Result<(), Mem>
    ensures { OnOk result (to.new.items ≡ to.old.items ++ constant_statements sets.now 0 (map constant_of consts.now)) }
{
    for (i, c) in consts.iter().enumerate() {
        push_if(set_broken(set_at(sets, i)), of_constant(c), to)?;
    }
    Ok(())
}

fn push_pass(declared: &Declared, marks: &Marks, to: &mut Vec<Statement>) -> Result<(), Mem>
    ensures { OnOk result (to.new.items ≡ to.old.items ++ pass_statements (declarations_of declared.now) marks.now) }
{
    push_variables(marks.vars.as_slice(), declared.vars.as_slice(), to)?;
    push_constants(marks.consts.as_slice(), declared.consts.as_slice(), to)?;
    Ok(())
}

fn statements(alloc: Global, declared: &Declared, marks: &[&Marks]) -> Result<Vec<Statement>, Mem>
    ensures { IfOk result (λ v. v.items ≡ statements (declarations_of declared.now) (map shown_marks marks.now)) }
{
    let mut all = Vec::new(alloc);
    for one in marks {
        push_pass(declared, one, &mut all)?;
    }
    Ok(all)
}

fn set_of(alloc: Global, list: &[Statement]) -> Result<HashSet<Statement>, Mem>
    ensures { IfOk result (λ set. AreStatements set list.now) }
{
    let mut set = HashSet::new(alloc);
    for statement in list {
        set.insert(*statement)?;
    }
    Ok(set)
}

/// The set of these statements.
pub(crate) fn statement_set(
    alloc: Global,
    declared: &Declared,
    marks: &[&Marks],
) -> Result<HashSet<Statement>, Mem>
    ensures { IfOk result (λ set. AreStatements set (statements (declarations_of declared.now) (map shown_marks marks.now))) }
{
    let list = statements(alloc, declared, marks)?;
    Ok(set_of(alloc, &list)?)
}

/// Whether a statement is in the set.
pub(crate) fn is_among(set: &HashSet<Statement>, statement: Statement) -> bool
    ensures { result ≡ is_among set.now.keys statement }
{
    set.contains(&statement)
}
