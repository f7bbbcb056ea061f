//! Where the first declaration of each name stands in its scope, and the first field of each name in its Type. The tables are
//! made once for a project.
ghost use Rattle.std.specs.Prelude.{◌≡◌, cond, map, IfOk, None};
ghost use Rattle.name_places.specs.Places.{keyed};
ghost use Rattle.declared_names.specs.Rivals.{AreFirst, AreMembers, AreRivals, field_row, member_home, is_part, local_row, member_row, local_home, field_home};
ghost use Rattle.declared_names.specs.Rules.{is_same_part, part_of};
ghost use Rattle.declared_names.specs.View.{names_of, procedure_of, variable_of};

use crate::twice::{is_same_part, part_of};
use crate::{DeclaredNames, NamedProc, NamedVar};
use bound_tree::{NamedEntry, Scope};
use name_places::{NamePlaces, Row, places_of};
use std::alloc::Global;
use up_base::{Mem, Sequence};
use vb_tree::{Owner, ProcKind};

// Tables are let go of by `drop`, so that no proof goes through their parts at each way out.

/// The first names of modules by file, apart by the part of a property that they are.
#[derive(Drop)]
pub(crate) struct MemberPlaces {
    pub others: NamePlaces,
    pub gets: NamePlaces,
    pub lets: NamePlaces,
    pub sets: NamePlaces,
}

/// The first names of procedures by procedure, those of modules by file, and the first fields by Type.
#[derive(Drop)]
pub(crate) struct Rivals {
    pub locals: NamePlaces,
    pub members: MemberPlaces,
    pub fields: NamePlaces,
}

/// The tables of the declarations of a project.
pub(crate) fn rivals_of(alloc: Global, d: &DeclaredNames) -> Result<Rivals, Mem>
    ensures { IfOk result (λ t. AreRivals t (names_of d.now)) }
{
    let locals = local_places(alloc, d.names.as_slice())?;
    let fields = match field_places(alloc, d.vars.as_slice()) {
        Ok(fields) => fields,
        Err(Mem) => {
            drop(locals);
            return Err(Mem);
        }
    };
    match member_places(alloc, d.names.as_slice(), &d.procs) {
        Ok(members) => Ok(Rivals {
            locals,
            members,
            fields,
        }),
        Err(Mem) => {
            drop(fields);
            drop(locals);
            Err(Mem)
        }
    }
}

fn local_places(alloc: Global, names: &[NamedEntry]) -> Result<NamePlaces, Mem>
    ensures { IfOk result (λ t. AreFirst t local_row names.now) }
{
    let rows = local_rows(alloc, names)?;
    Ok(places_of(alloc, &rows)?)
}

fn local_rows<'a>(alloc: Global, names: &'a [NamedEntry]) -> Result<Vec<Row<'a>>, Mem>
    ensures { IfOk result (λ v. map keyed v.items ≡ map local_row names.now) }
{
    let mut all = Vec::new(alloc);
    for e in names {
        all.push(Row {
            home: local_home(e.scope),
            name: &e.name,
        })?;
    }
    Ok(all)
}

// The procedure of a name of a procedure's own.
fn local_home(scope: Scope) -> Option<u32>
    ensures { result ≡ local_home scope }
{
    match scope {
        Scope::Local(procedure) => Some(procedure.0),
        Scope::Public(_) => None,
        Scope::Private(_) => None,
    }
}

fn member_places(
    alloc: Global,
    names: &[NamedEntry],
    procs: &Sequence<NamedProc>,
) -> Result<MemberPlaces, Mem>
    ensures { IfOk result (λ t. AreMembers t (map procedure_of procs.now) names.now) }
{
    let others = part_places(alloc, names, procs, None)?;
    let gets = match part_places(alloc, names, procs, Some(ProcKind::Get)) {
        Ok(gets) => gets,
        Err(Mem) => {
            drop(others);
            return Err(Mem);
        }
    };
    let lets = match part_places(alloc, names, procs, Some(ProcKind::Let)) {
        Ok(lets) => lets,
        Err(Mem) => {
            drop(gets);
            drop(others);
            return Err(Mem);
        }
    };
    match part_places(alloc, names, procs, Some(ProcKind::Set)) {
        Ok(sets) => Ok(MemberPlaces {
            others,
            gets,
            lets,
            sets,
        }),
        Err(Mem) => {
            drop(lets);
            drop(gets);
            drop(others);
            Err(Mem)
        }
    }
}

// Names of modules that are a part of a property, or none.
fn part_places(
    alloc: Global,
    names: &[NamedEntry],
    procs: &Sequence<NamedProc>,
    part: Option<ProcKind>,
) -> Result<NamePlaces, Mem>
    ensures { IfOk result (λ t. AreFirst t (member_row (map procedure_of procs.now) part) names.now) }
{
    let rows = part_rows(alloc, names, procs, part)?;
    Ok(places_of(alloc, &rows)?)
}

fn part_rows<'a>(
    alloc: Global,
    names: &'a [NamedEntry],
    procs: &Sequence<NamedProc>,
    part: Option<ProcKind>,
) -> Result<Vec<Row<'a>>, Mem>
    ensures { IfOk result (λ v. map keyed v.items ≡ map (member_row (map procedure_of procs.now) part) names.now) }
{
    let mut all = Vec::new(alloc);
    for e in names {
        all.push(Row {
            home: part_home(part, part_of(procs, e.named), e.scope),
            name: &e.name,
        })?;
    }
    Ok(all)
}

// The file of a module's name, where that is a part of a property.
fn part_home(part: Option<ProcKind>, of: Option<ProcKind>, scope: Scope) -> Option<u32>
    ensures { result ≡ cond (is_part part of) (member_home scope) None }
{
    if !is_part(part, of) {
        return None;
    }
    member_home(scope)
}

// Whether it is this part of a property, or none where this is none.
fn is_part(part: Option<ProcKind>, of: Option<ProcKind>) -> bool
    ensures { result ≡ is_part part of }
{
    match (part, of) {
        (None, None) => true,
        (Some(part), Some(of)) => is_same_part(part, of),
        _ => false,
    }
}

// The file of a module's name.
fn member_home(scope: Scope) -> Option<u32>
    ensures { result ≡ member_home scope }
{
    match scope {
        Scope::Public(file) => Some(file),
        Scope::Private(file) => Some(file),
        Scope::Local(_) => None,
    }
}

fn field_places(alloc: Global, vars: &[NamedVar]) -> Result<NamePlaces, Mem>
    ensures { IfOk result (λ t. AreFirst t field_row (map variable_of vars.now)) }
{
    let rows = field_rows(alloc, vars)?;
    Ok(places_of(alloc, &rows)?)
}

fn field_rows<'a>(alloc: Global, vars: &[NamedVar<'a>]) -> Result<Vec<Row<'a>>, Mem>
    ensures { IfOk result (λ v. map keyed v.items ≡ map field_row (map variable_of vars.now)) }
{
    let mut all = Vec::new(alloc);
    for v in vars {
        all.push(Row {
            home: field_home(v.owner),
            name: v.name,
        })?;
    }
    Ok(all)
}

// The Type of a field.
fn field_home(owner: Owner) -> Option<u32>
    ensures { result ≡ field_home owner }
{
    match owner {
        Owner::Field(ty) => Some(ty.0),
        _ => None,
    }
}
