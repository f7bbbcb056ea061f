//! A project whose names are bound.
ghost use Rattle.std.specs.Prelude.{◌≡◌, ◌++◌, [], List, length, map, option_map, replicate, take, IfOk, OnOk};
ghost use Rattle.vb_tree.specs.View.{line_of};
ghost use Rattle.bound_tree.specs.RuleSets.{none};
ghost use Rattle.bound_tree.specs.View.{bindings_of, declarations_of};
ghost use Rattle.name_tables.specs.Tables.{AreTables};
ghost use Rattle.name_tables.specs.View.{shown_declarations};
ghost use Rattle.expression_words.specs.View.{declared_in};
ghost use Rattle.declarations.specs.ModuleFacts.{facts_in};
ghost use Rattle.declarations.specs.View as view;
ghost use Rattle.binder.specs.Bodies.{bound_body};
ghost use Rattle.binder.specs.ImplicitLocals as implicit;
ghost use Rattle.binder.specs.ImplicitLocals.{project_locals};
ghost use Rattle.binder.specs.Programs.{IsBound, bodies_from, body_with, inside};
ghost use Rattle.binder.specs.View as shown;
ghost use Rattle.binder.specs.View.{AreTablesOf, IsFound, IsInside, IsMade, IsPlan, IsSurvey, IsWhole, body_shown, front_of, home_of, lines_shown, locals_shown, marks_by, rules_shown};

use crate::bodies::bound_body;
use crate::declaring::{add_locals, entries_of, variables_of, variables_rules};
use crate::homes::{Home, code_of, project_homes, sum};
use crate::inside::Inside;
use crate::locals::{Locals, Survey, project_locals};
use bound_tree::{
    Bound, BoundBody, BoundLine, Declared, InterfaceFacts, Marks, NamedEntry, RuleSet, VarDecl,
};
use declarations::{ModuleFacts, facts_of};
use expression_words::{Context, Kept, MemberTables, Written};
use name_tables::{DeclaredRef, NameTables, Site};
use std::alloc::Global;
use up_base::{Issues, Mem, Sequence};
use vb_tree::{CodeLine, ProcId};

// Whole trees and tables are let go of by `drop`, so that no proof goes through their parts at each way out.

/// The tables of declarations.
#[derive(Drop)]
struct Tables {
    names: NameTables,
    members: MemberTables,
}

fn tables_by(alloc: Global, d: &DeclaredRef) -> Result<Tables, Mem>
    ensures { IfOk result (λ t. AreTablesOf t (shown_declarations d.now)) }
{
    let members = MemberTables::make(alloc, d)?;
    let names = NameTables::make(alloc, d)?;
    Ok(Tables { names, members })
}

fn tables_of(alloc: Global, declared: &Declared) -> Result<Tables, Mem>
    ensures { IfOk result (λ t. AreTablesOf t (declarations_of declared.now)) }
{
    let d = DeclaredRef::of(declared);
    Ok(tables_by(alloc, &d)?)
}

/// The local variables that no line declares, with their declarations and the rules that they break.
#[derive(Drop)]
struct Found {
    locals: Vec<Locals>,
    entries: Vec<NamedEntry>,
    vars: Vec<VarDecl>,
    rules: Vec<RuleSet>,
}

fn declared_found(
    alloc: Global,
    survey: Survey<'_>,
    first: u32,
    locals: Vec<Locals>,
) -> Result<Found, Mem>
    requires survey { IsSurvey survey }
    requires first { first ≡ length (declared_in survey.context).vars }
    requires locals { map locals_shown locals.items ≡ project_locals (declared_in survey.context) }
    ensures { IfOk result (λ f. IsFound f (declared_in survey.entry.context)) }
{
    let entries = entries_of(alloc, first, &locals)?;
    let vars = variables_of(alloc, survey, &locals)?;
    let rules = variables_rules(alloc, survey, &locals)?;
    Ok(Found {
        locals,
        entries,
        vars,
        rules,
    })
}

fn found_in(alloc: Global, survey: Survey<'_>, homes: &[Home<'_>]) -> Result<Found, Mem>
    requires survey { IsSurvey survey }
    requires homes { map home_of homes.now ≡ implicit.homes (declared_in survey.context).project }
    ensures { IfOk result (λ f. IsFound f (declared_in survey.entry.context)) }
{
    let first = sum(0, survey.context.declared.vars.len())?;
    let locals = project_locals(alloc, survey, first, homes)?;
    Ok(declared_found(alloc, survey, first, locals)?)
}

fn found_by(
    alloc: Global,
    d: DeclaredRef<'_>,
    tables: &Tables,
    facts: &[ModuleFacts<'_>],
) -> Result<Found, Mem>
    requires tables { AreTablesOf tables.now (shown_declarations d) }
    requires facts { map view.facts_of facts.now ≡ map facts_in (shown_declarations d).project.modules }
    ensures { IfOk result (λ f. IsFound f (shown_declarations d.entry)) }
{
    let homes = project_homes(alloc, d.project)?;
    let kept = Kept::Nothing;
    let survey = Survey {
        context: Context {
            declared: d,
            tables: &tables.names,
            members: &tables.members,
        },
        facts,
        kept: &kept,
    };
    Ok(found_in(alloc, survey, &homes)?)
}

fn find_locals(alloc: Global, d: DeclaredRef<'_>, tables: &Tables) -> Result<Found, Mem>
    requires { AreTablesOf tables.now (shown_declarations d) }
    ensures { IfOk result (λ f. IsFound f (shown_declarations d.entry)) }
{
    let facts = facts_of(alloc, d.project)?;
    Ok(found_by(alloc, d, tables, &facts)?)
}

/// What is known before the lines are bound: the tables of what lines declare, and the variables that no line declares.
#[derive(Drop)]
struct Plan {
    tables: Tables,
    found: Found,
}

fn plan_with(alloc: Global, declared: &Declared, tables: Tables) -> Result<Plan, Mem>
    requires { AreTablesOf tables (declarations_of declared.now) }
    ensures { IfOk result (λ p. IsPlan p (declarations_of declared.now)) }
{
    let d = DeclaredRef::of(declared);
    match find_locals(alloc, d, &tables) {
        Ok(found) => Ok(Plan { tables, found }),
        Err(Mem) => {
            drop(tables);
            Err(Mem)
        }
    }
}

fn plan_of(alloc: Global, declared: &Declared) -> Result<Plan, Mem>
    ensures { IfOk result (λ p. IsPlan p (declarations_of declared.now)) }
{
    let tables = tables_of(alloc, declared)?;
    Ok(plan_with(alloc, declared, tables)?)
}

/// What serves all procedures: the declarations with their tables, and those that lines declare with theirs.
#[derive(Clone, Copy)]
struct Whole<'a> {
    declared: &'a Declared,
    context: Context<'a>,
    written: Written<'a>,
    /// Nothing.
    kept: &'a Kept,
}

fn inside_of<'a>(
    whole: Whole<'a>,
    p: ProcId,
    file: u32,
    lines: &'a [&'a CodeLine],
    laters: &'a [u32],
) -> Inside<'a>
    requires { IsWhole whole }
    ensures shown { shown.inside_of result ≡ record { declarations = declared_in whole.entry.context; written = shown_declarations whole.entry.written.declared; site = record { file = file; procedure = Some p }; lines = map (λ l. line_of l.now) lines.now; laters = laters.now } }
    ensures inside { IsInside result }
{
    Inside {
        declared: whole.declared,
        context: whole.context,
        written: whole.written,
        site: Site {
            file,
            procedure: Some(p),
        },
        lines,
        laters,
    }
}

fn body_of(
    alloc: Global,
    whole: Whole<'_>,
    p: ProcId,
    home: &Home<'_>,
    laters: &[u32],
) -> Result<Sequence<BoundLine>, Mem>
    requires { IsWhole whole }
    ensures { IfOk result (λ s. (all : List _) → map bindings_of s ≡ lines_shown (bound_body (inside (shown_declarations whole.entry.written.declared) (declared_in whole.entry.context) p (home_of home.now) (record { variables = all; laters = laters.now })) (home_of home.now).body)) }
{
    let lines = code_of(alloc, home.body)?;
    let inside = inside_of(whole, p, home.file, &lines, laters);
    Ok(bound_body(alloc, inside, whole.kept, home.body)?)
}

fn push_body(
    alloc: Global,
    whole: Whole<'_>,
    p: ProcId,
    home: &Home<'_>,
    locals: Option<&Locals>,
    to: &mut Sequence<BoundBody>,
) -> Result<(), Mem>
    requires { IsWhole whole }
    ensures { OnOk result (map body_shown to.new ≡ map body_shown to.old ++ map lines_shown (body_with (shown_declarations whole.entry.written.declared) (declared_in whole.entry.context) p (home_of home.now) (option_map (λ l. locals_shown l.now) locals.entry))) }
{
    match locals {
        Some(locals) => {
            let lines = body_of(alloc, whole, p, home, &locals.laters)?;
            Ok(to.push(BoundBody {
                procedure: p,
                lines,
            })?)
        }
        None => Ok(()),
    }
}

fn bodies_in(
    alloc: Global,
    whole: Whole<'_>,
    homes: &[Home<'_>],
    locals: &[Locals],
) -> Result<Sequence<BoundBody>, Mem>
    requires { IsWhole whole }
    ensures { IfOk result (λ s. map body_shown s ≡ map lines_shown (bodies_from (shown_declarations whole.entry.written.declared) (declared_in whole.entry.context) (map locals_shown locals.now) 0 (map home_of homes.now))) }
{
    let mut all = Sequence::new(alloc);
    let mut p = 0;
    for home in homes {
        push_body(
            alloc,
            whole,
            ProcId(p),
            home,
            locals.get(p as usize),
            &mut all,
        )?;
        p = sum(p, 1)?;
    }
    Ok(all)
}

// What lines declare, of all declarations: so many names and variables.
fn written_ref<'a>(d: DeclaredRef<'a>, names: usize, vars: usize) -> DeclaredRef<'a>
    ensures { shown_declarations result ≡ front_of (shown_declarations d.entry) names vars }
{
    DeclaredRef {
        project: d.project,
        names: front(d.names, names),
        vars: front(d.vars, vars),
        consts: d.consts,
        procs: d.procs,
        types: d.types,
        enums: d.enums,
        defaults: d.defaults,
    }
}

fn front<T>(items: &[T], n: usize) -> &[T]
    ensures { result.now ≡ take n items.now }
{
    if n <= items.len() { &items[..n] } else { items }
}

fn bodies_by(
    alloc: Global,
    declared: &Declared,
    tables: &Tables,
    written: Written<'_>,
    locals: &[Locals],
) -> Result<Sequence<BoundBody>, Mem>
    requires tables { AreTablesOf tables.now (declarations_of declared.now) }
    requires written { AreTables written.tables.now (shown_declarations written.declared) }
    ensures { IfOk result (λ s. map body_shown s ≡ map lines_shown (bodies_from (shown_declarations written.entry.declared) (declarations_of declared.now) (map locals_shown locals.now) 0 (implicit.homes (declarations_of declared.now).project))) }
{
    let d = DeclaredRef::of(declared);
    let homes = project_homes(alloc, d.project)?;
    let kept = Kept::Nothing;
    let whole = Whole {
        declared,
        context: Context {
            declared: d,
            tables: &tables.names,
            members: &tables.members,
        },
        written,
        kept: &kept,
    };
    Ok(bodies_in(alloc, whole, &homes, locals)?)
}

fn written_by<'a>(
    declared: &'a Declared,
    names: usize,
    vars: usize,
    plan: &'a Tables,
) -> Written<'a>
    requires { AreTablesOf plan.now (front_of (declarations_of declared.now) names vars) }
    ensures shown { shown_declarations result.declared ≡ front_of (declarations_of declared.now) names vars }
    ensures tables { AreTables result.tables.now (shown_declarations result.declared) }
{
    let d = DeclaredRef::of(declared);
    Written {
        declared: written_ref(d, names, vars),
        tables: &plan.names,
    }
}

fn bodies_between(
    alloc: Global,
    declared: &Declared,
    names: usize,
    vars: usize,
    plan: &Tables,
    tables: &Tables,
    locals: &[Locals],
) -> Result<Sequence<BoundBody>, Mem>
    requires plan { AreTablesOf plan.now (front_of (declarations_of declared.now) names vars) }
    requires tables { AreTablesOf tables.now (declarations_of declared.now) }
    ensures { IfOk result (λ s. map body_shown s ≡ map lines_shown (bodies_from (front_of (declarations_of declared.now) names vars) (declarations_of declared.now) (map locals_shown locals.now) 0 (implicit.homes (declarations_of declared.now).project))) }
{
    let written = written_by(declared, names, vars, plan);
    Ok(bodies_by(alloc, declared, tables, written, locals)?)
}

fn bodies_of(
    alloc: Global,
    declared: &Declared,
    names: usize,
    vars: usize,
    plan: &Tables,
    locals: &[Locals],
) -> Result<Sequence<BoundBody>, Mem>
    requires { AreTablesOf plan.now (front_of (declarations_of declared.now) names vars) }
    ensures { IfOk result (λ s. map body_shown s ≡ map lines_shown (bodies_from (front_of (declarations_of declared.now) names vars) (declarations_of declared.now) (map locals_shown locals.now) 0 (implicit.homes (declarations_of declared.now).project))) }
{
    let tables = tables_of(alloc, declared)?;
    let bodies = bodies_between(alloc, declared, names, vars, plan, &tables, locals);
    drop(tables);
    bodies
}

fn rules_of(alloc: Global, lines: &[BoundLine]) -> Result<Sequence<RuleSet>, Mem>
    ensures { IfOk result (λ s. s ≡ rules_shown (map bindings_of lines.now)) }
{
    let mut all = Sequence::new(alloc);
    for line in lines {
        all.push(line.rules)?;
    }
    Ok(all)
}

fn lines_rules(alloc: Global, bodies: &[BoundBody]) -> Result<Sequence<Sequence<RuleSet>>, Mem>
    ensures { IfOk result (λ s. s ≡ map rules_shown (map body_shown bodies.now)) }
{
    let mut all = Sequence::new(alloc);
    for body in bodies {
        let rules = rules_of(alloc, body.lines.as_slice())?;
        all.push(rules)?;
    }
    Ok(all)
}

// The rules of all variables: none of so many, and these of those behind them.
fn vars_rules(alloc: Global, count: usize, rules: &[RuleSet]) -> Result<Sequence<RuleSet>, Mem>
    ensures { IfOk result (λ s. s ≡ replicate count none ++ rules.now) }
{
    let mut all = no_rules(alloc, count)?;
    all.extend_from_slice(rules)?;
    Ok(all)
}

fn no_rules(alloc: Global, count: usize) -> Result<Sequence<RuleSet>, Mem>
    ensures { IfOk result (λ s. s ≡ replicate count none) }
{
    let mut all = Sequence::new(alloc);
    for _i in 0..count {
        all.push(RuleSet::new())?;
    }
    Ok(all)
}

fn marks_of(
    alloc: Global,
    bodies: &[BoundBody],
    count: usize,
    rules: &[RuleSet],
) -> Result<Marks, Mem>
    ensures { IfOk result (λ m. m ≡ marks_by (map body_shown bodies.now) count rules.now) }
{
    let lines = lines_rules(alloc, bodies)?;
    let vars = vars_rules(alloc, count, rules)?;
    Ok(Marks {
        lines,
        heads: Sequence::new(alloc),
        vars,
        consts: Sequence::new(alloc),
        types: Sequence::new(alloc),
        enums: Sequence::new(alloc),
    })
}

fn no_interfaces(alloc: Global) -> InterfaceFacts
    ensures interfaces { result.interfaces ≡ [] }
    ensures parts { result.parts ≡ [] }
{
    InterfaceFacts {
        interfaces: Sequence::new(alloc),
        parts: Sequence::new(alloc),
        issues: Issues::new(alloc),
    }
}

fn bound_with(
    alloc: Global,
    declared: Declared,
    bodies: Sequence<BoundBody>,
    count: usize,
    rules: &[RuleSet],
) -> Result<Bound, Mem>
    ensures declared { IfOk result (λ b. b.declared ≡ declared) }
    ensures bodies { IfOk result (λ b. b.bodies ≡ bodies) }
    ensures marks { IfOk result (λ b. b.marks ≡ marks_by (map body_shown bodies) count rules.now) }
    ensures interfaces { IfOk result (λ b. b.interfaces.interfaces ≡ []) }
    ensures interface_parts { IfOk result (λ b. b.interfaces.parts ≡ []) }
{
    match marks_of(alloc, bodies.as_slice(), count, rules) {
        Ok(marks) => Ok(Bound {
            declared,
            bodies,
            interfaces: no_interfaces(alloc),
            marks,
            issues: Issues::new(alloc),
        }),
        Err(Mem) => {
            drop(bodies);
            drop(declared);
            Err(Mem)
        }
    }
}

/// How many names and variables lines declare, and what else is known of them.
#[derive(Drop)]
struct Counted {
    names: usize,
    vars: usize,
    tables: Tables,
    locals: Vec<Locals>,
    rules: Vec<RuleSet>,
}

fn bound_extended(alloc: Global, declared: Declared, counted: &Counted) -> Result<Bound, Mem>
    requires { AreTablesOf counted.now.tables (front_of (declarations_of declared) counted.now.names counted.now.vars) }
    ensures { IfOk result (λ b. IsMade b declared counted.now) }
{
    match bodies_of(
        alloc,
        &declared,
        counted.names,
        counted.vars,
        &counted.tables,
        &counted.locals,
    ) {
        Ok(bodies) => Ok(bound_with(alloc, declared, bodies, counted.vars, &counted.rules)?),
        Err(Mem) => {
            drop(declared);
            Err(Mem)
        }
    }
}

fn bound_planned(alloc: Global, declared: Declared, plan: Plan) -> Result<Bound, Mem>
    requires { IsPlan plan (declarations_of declared) }
    ensures { IfOk result (λ b. IsBound declared b) }
{
    let mut declared = declared;
    let counted = Counted {
        names: declared.names.len(),
        vars: declared.vars.len(),
        tables: plan.tables,
        locals: plan.found.locals,
        rules: plan.found.rules,
    };
    match add_locals(plan.found.entries, plan.found.vars, &mut declared) {
        Ok(()) => {
            let made = bound_extended(alloc, declared, &counted);
            drop(counted);
            made
        }
        Err(Mem) => {
            drop(counted);
            drop(declared);
            Err(Mem)
        }
    }
}

/// A project whose names are bound: what it declares, with the local variables that no line declares behind all others, and
/// for each code line its expressions, the rules that it breaks and what it mentions.
pub fn bind(alloc: Global, declared: Declared) -> Result<Bound, Mem>
    ensures { IfOk result (λ b. IsBound declared b) }
{
    match plan_of(alloc, &declared) {
        Ok(plan) => bound_planned(alloc, declared, plan),
        Err(Mem) => {
            drop(declared);
            Err(Mem)
        }
    }
}
