//! The rules that the declarations of a project break by their names, and its labels.
ghost use Rattle.std.specs.Prelude.{◌≡◌, ◌++◌, map, IfOk, OnOk};
ghost use Rattle.std.specs.List.{flat_map};
ghost use Rattle.vb_tree.specs.Tree.{Module};
ghost use Rattle.vb_tree.specs.View.{member_of, module_of, project_of};
ghost use Rattle.bound_tree.specs.Source.{procedures_in, procedures_of};
ghost use Rattle.declared_names.specs.Rivals.{AreRivals};
ghost use Rattle.declared_names.specs.Rules.{constant_rules, enum_rules, head_rules, line_sets, name_marks, sets, type_rules, variable_rules};
ghost use Rattle.declared_names.specs.View.{constant_of, names_of, procedure_of, variable_of};

use crate::DeclaredNames;
use crate::labels::line_sets;
use crate::rivals::{Rivals, rivals_of};
use crate::rules::{constant_rules, enum_rules, head_rules, type_rules, variable_rules};
use crate::variables::sum;
use bound_tree::{Marks, RuleSet};
use std::alloc::Global;
use up_base::{Mem, Sequence};
use vb_tree::{Member6, Module6, Project6};

/// The rules that the declarations of a project break by their names, and those that its code lines break by their labels.
pub fn name_marks(alloc: Global, project: &Project6, d: &DeclaredNames) -> Result<Marks, Mem>
    ensures { IfOk result (λ m. m ≡ name_marks (project_of project.now) (names_of d.now)) }
{
    let rivals = rivals_of(alloc, d)?;
    let marks = marks_by(alloc, project, d, &rivals);
    drop(rivals);
    marks
}

// The same by tables that are made.
fn marks_by(
    alloc: Global,
    project: &Project6,
    d: &DeclaredNames,
    rivals: &Rivals,
) -> Result<Marks, Mem>
    requires { AreRivals rivals.now (names_of d.now) }
    ensures { IfOk result (λ m. m ≡ name_marks (project_of project.now) (names_of d.now)) }
{
    let modules = project.modules.as_slice();
    Ok(Marks {
        lines: labels(alloc, modules)?,
        heads: heads(alloc, modules, d, rivals)?,
        vars: vars(alloc, modules, d, rivals)?,
        consts: consts(alloc, modules, d, rivals)?,
        types: types(alloc, modules, d, rivals)?,
        enums: enums(alloc, modules, d, rivals)?,
    })
}

// A set for each code line of each procedure.
fn labels(alloc: Global, modules: &[Module6]) -> Result<Sequence<Sequence<RuleSet>>, Mem>
    ensures { IfOk result (λ s. s ≡ map line_sets (flat_map (λ (m : Module). flat_map procedures_in m.members) (map module_of modules.now))) }
{
    let mut all = Sequence::new(alloc);
    for module in modules {
        push_members(alloc, module.members.as_slice(), &mut all)?;
    }
    Ok(all)
}

fn push_members(
    alloc: Global,
    members: &[Member6],
    to: &mut Sequence<Sequence<RuleSet>>,
) -> Result<(), Mem>
    ensures { OnOk result (to.new ≡ to.old ++ map line_sets (flat_map procedures_in (map member_of members.now))) }
{
    for member in members {
        push_member(alloc, member, to)?;
    }
    Ok(())
}

fn push_member(
    alloc: Global,
    member: &Member6,
    to: &mut Sequence<Sequence<RuleSet>>,
) -> Result<(), Mem>
    ensures { OnOk result (to.new ≡ to.old ++ map line_sets (procedures_in (member_of member.now))) }
{
    match member {
        Member6::Line(_) => Ok(()),
        Member6::Group(_, _, _) => Ok(()),
        Member6::Proc(_, body, _) => Ok(to.push(line_sets(alloc, body.as_slice())?)?),
    }
}

// A set for each of the procedures.
fn heads(
    alloc: Global,
    modules: &[Module6],
    d: &DeclaredNames,
    rivals: &Rivals,
) -> Result<Sequence<RuleSet>, Mem>
    requires { AreRivals rivals.now (names_of d.now) }
    ensures { IfOk result (λ s. s ≡ sets (head_rules (map module_of modules.now) (names_of d.now)) 0 (map procedure_of d.now.procs)) }
{
    let mut all = Sequence::new(alloc);
    let mut next = 0;
    for item in d.procs.as_slice() {
        all.push(head_rules(modules, d, rivals, next, item))?;
        next = sum(next, 1)?;
    }
    Ok(all)
}

// A set for each of the variables.
fn vars(
    alloc: Global,
    modules: &[Module6],
    d: &DeclaredNames,
    rivals: &Rivals,
) -> Result<Sequence<RuleSet>, Mem>
    requires { AreRivals rivals.now (names_of d.now) }
    ensures { IfOk result (λ s. s ≡ sets (variable_rules (map module_of modules.now) (names_of d.now)) 0 (map variable_of d.now.vars)) }
{
    let mut all = Sequence::new(alloc);
    let mut next = 0;
    for item in d.vars.as_slice() {
        all.push(variable_rules(modules, d, rivals, next, item))?;
        next = sum(next, 1)?;
    }
    Ok(all)
}

// A set for each of the constants.
fn consts(
    alloc: Global,
    modules: &[Module6],
    d: &DeclaredNames,
    rivals: &Rivals,
) -> Result<Sequence<RuleSet>, Mem>
    requires { AreRivals rivals.now (names_of d.now) }
    ensures { IfOk result (λ s. s ≡ sets (constant_rules (map module_of modules.now) (names_of d.now)) 0 (map constant_of d.now.consts)) }
{
    let mut all = Sequence::new(alloc);
    let mut next = 0;
    for item in d.consts.as_slice() {
        all.push(constant_rules(modules, d, rivals, next, item))?;
        next = sum(next, 1)?;
    }
    Ok(all)
}

// A set for each of the Types.
fn types(
    alloc: Global,
    modules: &[Module6],
    d: &DeclaredNames,
    rivals: &Rivals,
) -> Result<Sequence<RuleSet>, Mem>
    requires { AreRivals rivals.now (names_of d.now) }
    ensures { IfOk result (λ s. s ≡ sets (type_rules (map module_of modules.now) (names_of d.now)) 0 (d.now.types)) }
{
    let mut all = Sequence::new(alloc);
    let mut next = 0;
    for item in d.types.as_slice() {
        all.push(type_rules(modules, d, rivals, next, item))?;
        next = sum(next, 1)?;
    }
    Ok(all)
}

// A set for each of the Enums.
fn enums(
    alloc: Global,
    modules: &[Module6],
    d: &DeclaredNames,
    rivals: &Rivals,
) -> Result<Sequence<RuleSet>, Mem>
    requires { AreRivals rivals.now (names_of d.now) }
    ensures { IfOk result (λ s. s ≡ sets (enum_rules (map module_of modules.now) (names_of d.now)) 0 (d.now.enums)) }
{
    let mut all = Sequence::new(alloc);
    let mut next = 0;
    for item in d.enums.as_slice() {
        all.push(enum_rules(modules, d, rivals, next, item))?;
        next = sum(next, 1)?;
    }
    Ok(all)
}
