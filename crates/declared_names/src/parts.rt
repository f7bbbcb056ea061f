//! The first part of each property, by a table of first parts.
ghost use Rattle.std.specs.Prelude.{◌≡◌, cond, map, IfOk, None, Some};
ghost use Rattle.name_places.specs.Places.{keyed};
ghost use Rattle.declared_names.specs.Parts.{first_parts, is_property};
ghost use Rattle.declared_names.specs.Rivals.{AreFirst, firsts_by, or_own, property_place, property_row};
ghost use Rattle.declared_names.specs.View.{names_of, procedure_of};

use crate::variables::sum;
use crate::{DeclaredNames, NamedProc};
use name_places::{NamePlaces, Row, places_of};
use std::alloc::Global;
use up_base::{Mem, Sequence};
use vb_tree::{ProcId, ProcKind};

/// For each procedure the first part of its property in its module, and the procedure itself where it is no part of one.
pub fn first_parts(alloc: Global, d: &DeclaredNames) -> Result<Sequence<ProcId>, Mem>
    ensures { IfOk result (λ s. s ≡ first_parts (names_of d.now)) }
{
    let procs = d.procs.as_slice();
    let places = property_places(alloc, procs)?;
    Ok(firsts(alloc, &places, procs)?)
}

fn property_places(alloc: Global, procs: &[NamedProc]) -> Result<NamePlaces, Mem>
    ensures { IfOk result (λ t. AreFirst t property_row (map procedure_of procs.now)) }
{
    let rows = property_rows(alloc, procs)?;
    Ok(places_of(alloc, &rows)?)
}

fn property_rows<'a>(alloc: Global, procs: &[NamedProc<'a>]) -> Result<Vec<Row<'a>>, Mem>
    ensures { IfOk result (λ v. map keyed v.items ≡ map property_row (map procedure_of procs.now)) }
{
    let mut all = Vec::new(alloc);
    for procedure in procs {
        all.push(Row {
            home: property_home(procedure.kind, procedure.module),
            name: procedure.name,
        })?;
    }
    Ok(all)
}

// The module of a part of a property.
fn property_home(kind: ProcKind, file: u32) -> Option<u32>
    ensures { result ≡ cond (is_property kind) (Some file) None }
{
    if !is_property(kind) {
        return None;
    }
    Some(file)
}

fn firsts(alloc: Global, places: &NamePlaces, procs: &[NamedProc]) -> Result<Sequence<ProcId>, Mem>
    ensures { IfOk result (λ s. s ≡ firsts_by places.now 0 (map procedure_of procs.now)) }
{
    let mut all = Sequence::new(alloc);
    let mut own = 0;
    for procedure in procs {
        all.push(ProcId(or_own(own, property_place(places, procedure))?))?;
        own = sum(own, 1)?;
    }
    Ok(all)
}

// The place of the first part of a procedure's property.
fn property_place(places: &NamePlaces, procedure: &NamedProc) -> Option<usize>
    ensures { result ≡ property_place places.now (procedure_of procedure.now) }
{
    if !is_property(procedure.kind) {
        return None;
    }
    places.place(procedure.module, procedure.name.lower_bytes())
}

// A place as a number, and the procedure's own where there is none. No more than 4,294,967,296 procedures are counted.
fn or_own(own: u32, place: Option<usize>) -> Result<u32, Mem>
    ensures { IfOk result (λ n. n ≡ or_own own place) }
{
    match place {
        Some(i) => {
            if i > 4294967295 {
                return Err(Mem);
            }
            Ok(i as u32)
        }
        None => Ok(own),
    }
}

fn is_property(kind: ProcKind) -> bool
    ensures { result ≡ is_property kind }
{
    matches!(kind, ProcKind::Get | ProcKind::Let | ProcKind::Set)
}
