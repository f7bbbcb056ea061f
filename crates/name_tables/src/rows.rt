//! The rows of each table.
ghost use Rattle.std.specs.Prelude.{◌≡◌, map, IfOk};
ghost use Rattle.vb_tree.specs.View.{module_of};
ghost use Rattle.name_tables.specs.EventView.{event_shown};
ghost use Rattle.name_tables.specs.Places.{keyed};
ghost use Rattle.name_tables.specs.Rows.{class_row, classes_in, local_row, member_row, own_event_row, public_row, seen_event_row, standard_row, home_if, file_of, public_file_of, procedure_of};

use crate::events::EventRef;
use crate::places::Row;
use bound_tree::{NamedEntry, Scope};
use std::alloc::Global;
use up_base::Mem;
use vb_tree::Module6;

// The procedure of a name of a procedure's own.
fn procedure_of(scope: Scope) -> Option<u32>
    ensures { result ≡ procedure_of scope }
{
    match scope {
        Scope::Local(procedure) => Some(procedure.0),
        Scope::Public(_) => None,
        Scope::Private(_) => None,
    }
}

// The file of a module's name.
fn file_of(scope: Scope) -> Option<u32>
    ensures { result ≡ file_of scope }
{
    match scope {
        Scope::Public(file) => Some(file),
        Scope::Private(file) => Some(file),
        Scope::Local(_) => None,
    }
}

/// The file of a module's name that all modules see.
pub(crate) fn public_file_of(scope: Scope) -> Option<u32>
    ensures { result ≡ public_file_of scope }
{
    match scope {
        Scope::Public(file) => Some(file),
        Scope::Private(_) => None,
        Scope::Local(_) => None,
    }
}

// The one home of a table without homes, for what stands in it.
fn home_if(stands: bool) -> Option<u32>
    ensures { result ≡ home_if stands }
{
    if stands { Some(0) } else { None }
}

/// Names of procedures' own, by procedure.
pub(crate) fn local_rows<'a>(alloc: Global, names: &'a [NamedEntry]) -> Result<Vec<Row<'a>>, Mem>
    ensures { IfOk result (λ v. map keyed v.items ≡ map local_row names.now) }
{
    let mut all = Vec::new(alloc);
    for e in names {
        all.push(Row {
            home: procedure_of(e.scope),
            name: &e.name,
        })?;
    }
    Ok(all)
}

/// Names of modules, by file.
pub(crate) fn member_rows<'a>(alloc: Global, names: &'a [NamedEntry]) -> Result<Vec<Row<'a>>, Mem>
    ensures { IfOk result (λ v. map keyed v.items ≡ map member_row names.now) }
{
    let mut all = Vec::new(alloc);
    for e in names {
        all.push(Row {
            home: file_of(e.scope),
            name: &e.name,
        })?;
    }
    Ok(all)
}

/// Names of modules that all modules see, by file.
pub(crate) fn public_rows<'a>(alloc: Global, names: &'a [NamedEntry]) -> Result<Vec<Row<'a>>, Mem>
    ensures { IfOk result (λ v. map keyed v.items ≡ map public_row names.now) }
{
    let mut all = Vec::new(alloc);
    for e in names {
        all.push(Row {
            home: public_file_of(e.scope),
            name: &e.name,
        })?;
    }
    Ok(all)
}

/// Standard modules.
pub(crate) fn standard_rows<'a>(alloc: Global, modules: &'a [Module6]) -> Result<Vec<Row<'a>>, Mem>
    ensures { IfOk result (λ v. map keyed v.items ≡ map standard_row (map module_of modules.now)) }
{
    let mut all = Vec::new(alloc);
    for m in modules {
        all.push(Row {
            home: home_if(!m.class),
            name: &m.name,
        })?;
    }
    Ok(all)
}

/// Class modules.
pub(crate) fn class_rows<'a>(alloc: Global, modules: &'a [Module6]) -> Result<Vec<Row<'a>>, Mem>
    ensures { IfOk result (λ v. map keyed v.items ≡ map class_row (classes_in (map module_of modules.now))) }
{
    let mut all = Vec::new(alloc);
    for m in modules {
        if m.class {
            all.push(Row {
                home: Some(0),
                name: &m.name,
            })?;
        }
    }
    Ok(all)
}

/// Names of lines that declare nothing, by file.
pub(crate) fn own_event_rows<'a>(
    alloc: Global,
    events: &[EventRef<'a>],
) -> Result<Vec<Row<'a>>, Mem>
    ensures { IfOk result (λ v. map keyed v.items ≡ map own_event_row (map event_shown events.now)) }
{
    let mut all = Vec::new(alloc);
    for e in events {
        all.push(Row {
            home: Some(e.file),
            name: e.name,
        })?;
    }
    Ok(all)
}

/// Names of lines that declare nothing, where other modules see them.
pub(crate) fn seen_event_rows<'a>(
    alloc: Global,
    events: &[EventRef<'a>],
) -> Result<Vec<Row<'a>>, Mem>
    ensures { IfOk result (λ v. map keyed v.items ≡ map seen_event_row (map event_shown events.now)) }
{
    let mut all = Vec::new(alloc);
    for e in events {
        all.push(Row {
            home: home_if(e.seen),
            name: e.name,
        })?;
    }
    Ok(all)
}
