//! The places of code lines and declarations.
ghost use Rattle.std.specs.Prelude.{◌≡◌, IfOk, OnOk, map};
ghost use Rattle.bound_tree.specs.Lines.{lines_of};
ghost use Rattle.bound_tree.specs.Tree.{Constant, Procedure, Variable};
ghost use Rattle.bound_tree.specs.View.{constant_of, procedure_of, program_of, shown_line, variable_of};
ghost use Rattle.bound_tree.specs.declared.declared.EnumDecl.{EnumDecl};
ghost use Rattle.bound_tree.specs.declared.declared.TypeDecl.{TypeDecl};
ghost use Rattle.issue_sets.specs.Places.{items_of, line_place, places_of, shown_places};

use bound_tree::{Bound, ConstDecl, EnumDecl, LineRef, ProcDecl, TypeDecl, VarDecl, bound_lines};
use std::alloc::Global;
use up_base::{Mem, Place, Sequence};

/// The places of code lines by procedure, and those of declarations by their kind, in order.
#[derive(Drop)]
pub(crate) struct PlaceLists {
    pub lines: Vec<Vec<Place>>,
    pub heads: Vec<Place>,
    pub vars: Vec<Place>,
    pub consts: Vec<Place>,
    pub types: Vec<Place>,
    pub enums: Vec<Place>,
}

fn places_of_body(alloc: Global, lines: &[LineRef]) -> Result<Vec<Place>, Mem>
    ensures { IfOk result (λ v. v.items ≡ map line_place (map shown_line lines.now)) }
{
    let mut places = Vec::with_capacity(alloc, lines.len())?;
    for line in lines {
        places.push(line.source.place)?;
    }
    Ok(places)
}

fn places_of_bodies(alloc: Global, bodies: &[Vec<LineRef>]) -> Result<Vec<Vec<Place>>, Mem>
    ensures { IfOk result (λ v. map items_of v.items ≡ map (map line_place) (map lines_of bodies.now)) }
{
    let mut all = Vec::new(alloc);
    for body in bodies {
        all.push(places_of_body(alloc, body)?)?;
    }
    Ok(all)
}

fn places_of_lines(alloc: Global, bound: &Bound) -> Result<Vec<Vec<Place>>, Mem>
    ensures { IfOk result (λ v. map items_of v.items ≡ map (map line_place) (program_of bound.now).bodies) }
{
    let lines = bound_lines(alloc, bound)?;
    Ok(places_of_bodies(alloc, &lines)?)
}

fn places_of_heads(alloc: Global, procs: &Sequence<ProcDecl>) -> Result<Vec<Place>, Mem>
    ensures { IfOk result (λ v. v.items ≡ map (λ (p : Procedure). p.place) (map procedure_of procs.now)) }
{
    let mut places = Vec::with_capacity(alloc, procs.len())?;
    for p in procs.as_slice() {
        places.push(p.place)?;
    }
    Ok(places)
}

fn places_of_variables(alloc: Global, vars: &Sequence<VarDecl>) -> Result<Vec<Place>, Mem>
    ensures { IfOk result (λ places. places.items ≡ map (λ (v : Variable). v.place) (map variable_of vars.now)) }
{
    let mut places = Vec::with_capacity(alloc, vars.len())?;
    for v in vars.as_slice() {
        places.push(v.place)?;
    }
    Ok(places)
}

fn places_of_constants(alloc: Global, consts: &Sequence<ConstDecl>) -> Result<Vec<Place>, Mem>
    ensures { IfOk result (λ v. v.items ≡ map (λ (c : Constant). c.place) (map constant_of consts.now)) }
{
    let mut places = Vec::with_capacity(alloc, consts.len())?;
    for c in consts.as_slice() {
        places.push(c.place)?;
    }
    Ok(places)
}

fn places_of_types(alloc: Global, types: &Sequence<TypeDecl>) -> Result<Vec<Place>, Mem>
    ensures { IfOk result (λ v. v.items ≡ map (λ (t : TypeDecl). t.place) types.now) }
{
    let mut places = Vec::with_capacity(alloc, types.len())?;
    for t in types.as_slice() {
        places.push(t.place)?;
    }
    Ok(places)
}

fn places_of_enums(alloc: Global, enums: &Sequence<EnumDecl>) -> Result<Vec<Place>, Mem>
    ensures { IfOk result (λ v. v.items ≡ map (λ (e : EnumDecl). e.place) enums.now) }
{
    let mut places = Vec::with_capacity(alloc, enums.len())?;
    for e in enums.as_slice() {
        places.push(e.place)?;
    }
    Ok(places)
}

/// The places of a project.
pub(crate) fn places(alloc: Global, bound: &Bound) -> Result<PlaceLists, Mem>
    ensures { IfOk result (λ lists. shown_places lists ≡ places_of (program_of bound.now)) }
{
    let declared = &bound.declared;
    let lines = places_of_lines(alloc, bound)?;
    let heads = places_of_heads(alloc, &declared.procs)?;
    let vars = places_of_variables(alloc, &declared.vars)?;
    let consts = places_of_constants(alloc, &declared.consts)?;
    let types = places_of_types(alloc, &declared.types)?;
    let enums = places_of_enums(alloc, &declared.enums)?;
    Ok(PlaceLists {
        lines,
        heads,
        vars,
        consts,
        types,
        enums,
    })
}
