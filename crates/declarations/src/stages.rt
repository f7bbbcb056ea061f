//! The stages of a project's declarations, one after the other.
ghost use Rattle.std.specs.Prelude.{◌≡◌, ℕ, length, map, IfOk};
ghost use Rattle.vb_tree.specs.View.{project_of};
ghost use Rattle.bound_tree.specs.View.{declarations_of, variable_of};
ghost use Rattle.reach_table.specs.Chains.{is_marked};
ghost use Rattle.declared_names.specs.Declaring.{lists_of as all_lists};
ghost use Rattle.declared_names.specs.Rules.{name_marks as marks_of_names};
ghost use Rattle.declared_names.specs.View.{names_of};
ghost use Rattle.declarations.specs.Bare.{bare as bare_declarations};
ghost use Rattle.declarations.specs.Circles.{AreCircles};
ghost use Rattle.declarations.specs.Constants.{is_member, settled as settled_declarations};
ghost use Rattle.declarations.specs.Finals as finals;
ghost use Rattle.declarations.specs.Finals.{AreDeclared, IsDeclared};
ghost use Rattle.declarations.specs.Typed.{typed as typed_declarations};
ghost use Rattle.declarations.specs.View.{AreTablesOf, filled_by, filled_in, IsFixed, listed_in, plan_shown};

use crate::bare::{Filled, bare};
use crate::circles::circles_of;
use crate::constants::{constants_rules, members_of};
use crate::fixed::{Fixed, known_by};
use crate::groups::{enum_suffixes, type_suffixes};
use crate::module_facts::{ModuleFacts, facts_of};
use crate::plans::{Plan, plans_of};
use crate::rounds::rounds;
use crate::rules::{
    all_rules, final_constants, final_procedures, final_variables, groups_rules, heads_rules,
    variables_rules,
};
use crate::typed::{typed_variables, with_variables};
use bound_tree::{Declared, EnumDecl, Marks, NamedEntry, RuleSet, TypeDecl};
use declared_names::{DeclaredNames, declared_names, name_marks};
use expression_words::{Kept, MemberTables};
use name_tables::NameTables;
use std::alloc::Global;
use up_base::{Issues, Mem, Sequence};
use vb_tree::Project6;

// Whole lists and tables are let go of by `drop`, so that no proof goes through their parts at each way out.

/// The tables in which declarations are looked up, and what modules say.
#[derive(Drop)]
pub(crate) struct Tables<'a> {
    pub tables: NameTables,
    pub member_tables: MemberTables,
    pub facts: Vec<ModuleFacts<'a>>,
    /// For each constant whether it is a member of an Enum.
    pub members: Vec<bool>,
}

fn tables_of<'a>(
    alloc: Global,
    project: &'a Project6,
    names: &DeclaredNames<'_>,
    bare: &Filled,
) -> Result<Tables<'a>, Mem>
    ensures { IfOk result (λ t. AreTablesOf t project.now names.now bare.now) }
{
    let declared = bare.declared(project, names);
    let members = members_of(alloc, names)?;
    let facts = facts_of(alloc, project)?;
    let member_tables = match MemberTables::make(alloc, &declared) {
        Ok(made) => made,
        Err(Mem) => {
            drop(facts);
            return Err(Mem);
        }
    };
    match NameTables::make(alloc, &declared) {
        Ok(tables) => Ok(Tables {
            tables,
            member_tables,
            facts,
            members,
        }),
        Err(Mem) => {
            drop(member_tables);
            drop(facts);
            Err(Mem)
        }
    }
}

// The lists with the types that variables name, and the results of procedures.
fn typed(alloc: Global, fixed: &Fixed<'_>, bare: Filled) -> Result<Filled, Mem>
    requires fixed { IsFixed fixed.now bare }
    requires bare { filled_by fixed.now bare ≡ bare_declarations (project_of fixed.now.project.now) (names_of fixed.now.names.now) }
    ensures typed { IfOk result (λ f. filled_by fixed.now f ≡ typed_declarations (project_of fixed.now.project.now) (names_of fixed.now.names.now)) }
    ensures fixed { IfOk result (λ f. IsFixed fixed.now f) }
{
    match typed_variables(alloc, known_by(fixed, &bare), fixed.names.vars.as_slice()) {
        Ok(vars) => Ok(with_variables(alloc, vars, bare)?),
        Err(Mem) => {
            drop(bare);
            Err(Mem)
        }
    }
}

// The lists with the values of constants too.
fn settled(alloc: Global, fixed: &Fixed<'_>, typed: Filled) -> Result<Filled, Mem>
    requires fixed { IsFixed fixed.now typed }
    requires typed { filled_by fixed.now typed ≡ typed_declarations (project_of fixed.now.project.now) (names_of fixed.now.names.now) }
    ensures settled { IfOk result (λ f. filled_by fixed.now f ≡ settled_declarations (is_marked fixed.now.members.now) (project_of fixed.now.project.now) (names_of fixed.now.names.now)) }
    ensures fixed { IfOk result (λ f. IsFixed fixed.now f) }
{
    let mut filled = typed;
    match rounds(alloc, fixed, &mut filled, fixed.names.consts.as_slice()) {
        Ok(()) => Ok(filled),
        Err(Mem) => {
            drop(filled);
            Err(Mem)
        }
    }
}

/// What is known of the lists before those that break rules lose their types.
#[derive(Drop)]
struct Findings {
    circular: Vec<bool>,
    plans: Vec<Plan>,
    constants: Vec<RuleSet>,
}

fn found(alloc: Global, fixed: &Fixed<'_>, settled: &Filled) -> Result<Findings, Mem>
    requires { IsFixed fixed.now settled.now }
    ensures circular { IfOk result (λ r. AreCircles (length fixed.now.names.now.types) (filled_by fixed.now settled.now).vars (is_marked r.circular.items)) }
    ensures plans { IfOk result (λ r. map plan_shown r.plans.items ≡ finals.plans_of (filled_by fixed.now settled.now) (names_of fixed.now.names.now)) }
    ensures constants { IfOk result (λ r. r.constants.items ≡ finals.constants_rules (is_marked fixed.now.members.now) (filled_by fixed.now settled.now) (names_of fixed.now.names.now)) }
{
    let known = known_by(fixed, settled);
    let circular = circles_of(alloc, fixed.names.types.len(), &settled.vars)?;
    let constants = constants_rules(alloc, known, fixed.members, fixed.names.consts.as_slice())?;
    let plans = plans_of(alloc, known, fixed.names.vars.as_slice())?;
    Ok(Findings {
        circular,
        plans,
        constants,
    })
}

fn heads_of(
    alloc: Global,
    names: &DeclaredNames<'_>,
    plans: &[Plan],
    marks: &Marks,
) -> Result<Vec<RuleSet>, Mem>
    ensures { IfOk result (λ v. v.items ≡ finals.heads_rules marks.now (names_of names.now) (map plan_shown plans.now)) }
{
    Ok(heads_rules(alloc, marks.heads.as_slice(), plans, names.procs.as_slice())?)
}

/// The rules that Types and Enums break.
#[derive(Drop)]
struct Groups {
    types: Vec<RuleSet>,
    enums: Vec<RuleSet>,
}

fn groups_of(alloc: Global, project: &Project6, marks: &Marks) -> Result<Groups, Mem>
    ensures types { IfOk result (λ g. g.types.items ≡ finals.types_rules marks.now (project_of project.now)) }
    ensures enums { IfOk result (λ g. g.enums.items ≡ finals.enums_rules marks.now (project_of project.now)) }
{
    let modules = project.modules.as_slice();
    let suffixes = type_suffixes(alloc, modules)?;
    let types = groups_rules(alloc, marks.types.as_slice(), &suffixes)?;
    let suffixes = enum_suffixes(alloc, modules)?;
    let enums = groups_rules(alloc, marks.enums.as_slice(), &suffixes)?;
    Ok(Groups { types, enums })
}

fn marks_with(
    alloc: Global,
    settled: &Filled,
    found: &Findings,
    names: Marks,
    heads: Vec<RuleSet>,
    groups: Groups,
) -> Result<Marks, Mem>
    ensures { IfOk result (λ m. m ≡ finals.marks_with names (map variable_of settled.now.vars.items) (is_marked found.now.circular.items) (map plan_shown found.now.plans.items) found.now.constants.items heads.items groups.types.items groups.enums.items) }
{
    let vars = variables_rules(
        alloc,
        names.vars.as_slice(),
        &heads,
        &found.circular,
        &found.plans,
        &settled.vars,
    )?;
    let consts = all_rules(alloc, names.consts.as_slice(), &found.constants)?;
    Ok(Marks {
        lines: names.lines,
        heads: Sequence::from_vec(heads),
        vars: Sequence::from_vec(vars),
        consts: Sequence::from_vec(consts),
        types: Sequence::from_vec(groups.types),
        enums: Sequence::from_vec(groups.enums),
    })
}

fn marks_by(
    alloc: Global,
    fixed: &Fixed<'_>,
    settled: &Filled,
    found: &Findings,
    names: Marks,
) -> Result<Marks, Mem>
    ensures { IfOk result (λ m. m ≡ finals.marks_by names (project_of fixed.now.project.now) (names_of fixed.now.names.now) (map variable_of settled.now.vars.items) (is_marked found.now.circular.items) (map plan_shown found.now.plans.items) found.now.constants.items) }
{
    let heads = heads_of(alloc, fixed.names, &found.plans, &names)?;
    let groups = groups_of(alloc, fixed.project, &names)?;
    Ok(marks_with(alloc, settled, found, names, heads, groups)?)
}

fn marks_of(
    alloc: Global,
    fixed: &Fixed<'_>,
    settled: &Filled,
    found: &Findings,
) -> Result<Marks, Mem>
    ensures { IfOk result (λ m. m ≡ finals.marks_by (marks_of_names (project_of fixed.now.project.now) (names_of fixed.now.names.now)) (project_of fixed.now.project.now) (names_of fixed.now.names.now) (map variable_of settled.now.vars.items) (is_marked found.now.circular.items) (map plan_shown found.now.plans.items) found.now.constants.items) }
{
    let names = name_marks(alloc, fixed.project, fixed.names)?;
    Ok(marks_by(alloc, fixed, settled, found, names)?)
}

fn completed(
    alloc: Global,
    fixed: &Fixed<'_>,
    settled: Filled,
    plans: &[Plan],
    marks: &Marks,
) -> Result<Filled, Mem>
    ensures { IfOk result (λ f. filled_by fixed.now f ≡ finals.final (is_marked fixed.now.members.now) (filled_by fixed.now settled) (map plan_shown plans.now) marks.now) }
{
    let vars = final_variables(alloc, plans, marks.vars.as_slice(), settled.vars)?;
    let procs = final_procedures(alloc, &vars, marks.heads.as_slice(), settled.procs)?;
    let consts = final_constants(
        alloc,
        fixed.members,
        marks.consts.as_slice(),
        settled.consts,
    )?;
    Ok(Filled {
        vars,
        consts,
        procs,
        defaults: settled.defaults,
    })
}

/// The lists as they are at last, and the rules that they break.
#[derive(Drop)]
struct Finished {
    filled: Filled,
    marks: Marks,
}

fn flagged(alloc: Global, fixed: &Fixed<'_>, settled: Filled) -> Result<Finished, Mem>
    requires fixed { IsFixed fixed.now settled }
    requires members { (k : ℕ) → is_marked fixed.now.members.now k ≡ is_member (names_of fixed.now.names.now) k }
    requires settled { filled_by fixed.now settled ≡ settled_declarations (is_marked fixed.now.members.now) (project_of fixed.now.project.now) (names_of fixed.now.names.now) }
    ensures { IfOk result (λ r. AreDeclared (project_of fixed.now.project.now) (names_of fixed.now.names.now) (filled_by fixed.now r.filled) r.marks) }
{
    let found = match found(alloc, fixed, &settled) {
        Ok(found) => found,
        Err(Mem) => {
            drop(settled);
            return Err(Mem);
        }
    };
    let marks = match marks_of(alloc, fixed, &settled, &found) {
        Ok(marks) => marks,
        Err(Mem) => {
            drop(found);
            drop(settled);
            return Err(Mem);
        }
    };
    let filled = completed(alloc, fixed, settled, &found.plans, &marks);
    drop(found);
    match filled {
        Ok(filled) => Ok(Finished { filled, marks }),
        Err(Mem) => {
            drop(marks);
            Err(Mem)
        }
    }
}

fn in_stages(alloc: Global, fixed: &Fixed<'_>, bare: Filled) -> Result<Finished, Mem>
    requires fixed { IsFixed fixed.now bare }
    requires members { (k : ℕ) → is_marked fixed.now.members.now k ≡ is_member (names_of fixed.now.names.now) k }
    requires bare { filled_by fixed.now bare ≡ bare_declarations (project_of fixed.now.project.now) (names_of fixed.now.names.now) }
    ensures { IfOk result (λ r. AreDeclared (project_of fixed.now.project.now) (names_of fixed.now.names.now) (filled_by fixed.now r.filled) r.marks) }
{
    let typed = typed(alloc, fixed, bare)?;
    let settled = settled(alloc, fixed, typed)?;
    Ok(flagged(alloc, fixed, settled)?)
}

fn with_tables(
    alloc: Global,
    project: &Project6,
    names: &DeclaredNames<'_>,
    tables: &Tables<'_>,
    bare: Filled,
) -> Result<Finished, Mem>
    requires tables { AreTablesOf tables.now project.now names.now bare }
    requires bare { filled_in project.now names.now bare ≡ bare_declarations (project_of project.now) (names_of names.now) }
    ensures { IfOk result (λ r. AreDeclared (project_of project.now) (names_of names.now) (filled_in project.now names.now r.filled) r.marks) }
{
    let kept = Kept::Nothing;
    let fixed = Fixed {
        project,
        names,
        tables: &tables.tables,
        member_tables: &tables.member_tables,
        facts: &tables.facts,
        kept: &kept,
        members: &tables.members,
    };
    Ok(in_stages(alloc, &fixed, bare)?)
}

fn filled_lists(
    alloc: Global,
    project: &Project6,
    names: &DeclaredNames<'_>,
) -> Result<Finished, Mem>
    ensures { IfOk result (λ r. AreDeclared (project_of project.now) (names_of names.now) (filled_in project.now names.now r.filled) r.marks) }
{
    let bare = bare(alloc, project, names)?;
    match tables_of(alloc, project, names, &bare) {
        Ok(tables) => {
            let finished = with_tables(alloc, project, names, &tables, bare);
            drop(tables);
            finished
        }
        Err(Mem) => {
            drop(bare);
            Err(Mem)
        }
    }
}

/// All lists of a project.
#[derive(Drop)]
pub(crate) struct AllLists {
    pub names: Sequence<NamedEntry>,
    pub types: Sequence<TypeDecl>,
    pub enums: Sequence<EnumDecl>,
    pub filled: Filled,
    pub marks: Marks,
}

fn lists_of(alloc: Global, project: &Project6) -> Result<AllLists, Mem>
    ensures { IfOk result (λ l. IsDeclared (project_of project.now) (listed_in project.now l) l.marks) }
{
    let names = declared_names(alloc, project)?;
    match filled_lists(alloc, project, &names) {
        Ok(finished) => Ok(AllLists {
            names: names.names,
            types: names.types,
            enums: names.enums,
            filled: finished.filled,
            marks: finished.marks,
        }),
        Err(Mem) => {
            drop(names);
            Err(Mem)
        }
    }
}

/// What a project declares.
pub fn declare(alloc: Global, project: Project6) -> Result<Declared, Mem>
    ensures declared { IfOk result (λ d. IsDeclared (project_of project) (declarations_of d) d.marks) }
    ensures project { IfOk result (λ d. d.project ≡ project) }
{
    match lists_of(alloc, &project) {
        Ok(lists) => {
            let filled = lists.filled;
            Ok(Declared {
                project,
                names: lists.names,
                vars: Sequence::from_vec(filled.vars),
                consts: Sequence::from_vec(filled.consts),
                procs: Sequence::from_vec(filled.procs),
                types: lists.types,
                enums: lists.enums,
                defaults: Sequence::from_vec(filled.defaults),
                marks: lists.marks,
                issues: Issues::new(alloc),
            })
        }
        Err(Mem) => {
            drop(project);
            Err(Mem)
        }
    }
}
