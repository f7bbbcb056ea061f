//! The tables of a project, made once. No look-up in them searches a list that grows with the project.
ghost use Rattle.std.specs.Prelude.{◌≡◌, map, position, IfOk, slice_get};
ghost use Rattle.vb_tree.specs.Tree.{Module};
ghost use Rattle.vb_tree.specs.View.{module_of, project_of};
ghost use Rattle.name_tables.specs.EventView.{event_shown};
ghost use Rattle.name_tables.specs.Events.{events_of};
ghost use Rattle.name_tables.specs.Homes.{list_in};
ghost use Rattle.name_tables.specs.Places.{noted, placed};
ghost use Rattle.name_tables.specs.Rows.{classes_in};
ghost use Rattle.name_tables.specs.Tables.{AreClassFiles, AreClasses, AreEvents, AreHomes, AreLocals, AreMembers, AreModules, AreOwnEvents, ArePublics, AreScopes, AreSeenEvents, AreStandards, AreTables};
ghost use Rattle.name_tables.specs.View.{shown_declarations};

use crate::DeclaredRef;
use crate::events::{EventRef, events_of};
use crate::homes::{Home, all_homes, enum_members};
use crate::places::{NamePlaces, places_of};
use crate::rows::{
    class_rows, local_rows, member_rows, own_event_rows, public_rows, seen_event_rows,
    standard_rows,
};
use bound_tree::NamedEntry;
use indexmap::IndexMap;
use std::alloc::Global;
use up_base::Mem;
use vb_tree::{Module6, ProcId, Project6};

// The places of declared names.
#[derive(Drop)]
struct ScopePlaces {
    locals: NamePlaces,
    members: NamePlaces,
    publics: NamePlaces,
}

// The places of modules, and the file of each class.
#[derive(Drop)]
struct ModulePlaces {
    standards: NamePlaces,
    classes: NamePlaces,
    files: Vec<u32>,
}

// The places of names of lines that declare nothing.
#[derive(Drop)]
struct EventPlaces {
    own: NamePlaces,
    seen: NamePlaces,
}

/// Tables of the names of a project: where the first declaration of each stands. They hold no reference, and depend on the
/// declared names, the project and the Enums alone: other lists may change while they serve.
#[derive(Drop)]
pub struct NameTables {
    scopes: ScopePlaces,
    modules: ModulePlaces,
    events: EventPlaces,
    homes: IndexMap<Vec<u8>, Vec<Home>>,
}

fn local_places(alloc: Global, names: &[NamedEntry]) -> Result<NamePlaces, Mem>
    ensures { IfOk result (λ t. AreLocals t names.now) }
{
    let rows = local_rows(alloc, names)?;
    Ok(places_of(alloc, &rows)?)
}

fn member_places(alloc: Global, names: &[NamedEntry]) -> Result<NamePlaces, Mem>
    ensures { IfOk result (λ t. AreMembers t names.now) }
{
    let rows = member_rows(alloc, names)?;
    Ok(places_of(alloc, &rows)?)
}

fn public_places(alloc: Global, names: &[NamedEntry]) -> Result<NamePlaces, Mem>
    ensures { IfOk result (λ t. ArePublics t names.now) }
{
    let rows = public_rows(alloc, names)?;
    Ok(places_of(alloc, &rows)?)
}

fn standard_places(alloc: Global, modules: &[Module6]) -> Result<NamePlaces, Mem>
    ensures { IfOk result (λ t. AreStandards t (map module_of modules.now)) }
{
    let rows = standard_rows(alloc, modules)?;
    Ok(places_of(alloc, &rows)?)
}

fn class_places(alloc: Global, modules: &[Module6]) -> Result<NamePlaces, Mem>
    ensures { IfOk result (λ t. AreClasses t (classes_in (map module_of modules.now))) }
{
    let rows = class_rows(alloc, modules)?;
    Ok(places_of(alloc, &rows)?)
}

fn class_files(alloc: Global, modules: &[Module6]) -> Result<Vec<u32>, Mem>
    ensures { IfOk result (λ v. AreClassFiles v (classes_in (map module_of modules.now))) }
{
    let mut all = Vec::new(alloc);
    for m in modules {
        if m.class {
            all.push(m.file)?;
        }
    }
    Ok(all)
}

fn own_event_places(alloc: Global, events: &[EventRef]) -> Result<NamePlaces, Mem>
    ensures { IfOk result (λ t. AreOwnEvents t (map event_shown events.now)) }
{
    let rows = own_event_rows(alloc, events)?;
    Ok(places_of(alloc, &rows)?)
}

fn seen_event_places(alloc: Global, events: &[EventRef]) -> Result<NamePlaces, Mem>
    ensures { IfOk result (λ t. AreSeenEvents t (map event_shown events.now)) }
{
    let rows = seen_event_rows(alloc, events)?;
    Ok(places_of(alloc, &rows)?)
}

fn scope_places(alloc: Global, names: &[NamedEntry]) -> Result<ScopePlaces, Mem>
    ensures { IfOk result (λ t. AreScopes t names.now) }
{
    let locals = local_places(alloc, names)?;
    let members = member_places(alloc, names)?;
    let publics = public_places(alloc, names)?;
    Ok(ScopePlaces {
        locals,
        members,
        publics,
    })
}

fn module_places(alloc: Global, modules: &[Module6]) -> Result<ModulePlaces, Mem>
    ensures { IfOk result (λ t. AreModules t (map module_of modules.now)) }
{
    let standards = standard_places(alloc, modules)?;
    let classes = class_places(alloc, modules)?;
    let files = class_files(alloc, modules)?;
    Ok(ModulePlaces {
        standards,
        classes,
        files,
    })
}

fn event_places(alloc: Global, events: &[EventRef]) -> Result<EventPlaces, Mem>
    ensures { IfOk result (λ t. AreEvents t (map event_shown events.now)) }
{
    let own = own_event_places(alloc, events)?;
    let seen = seen_event_places(alloc, events)?;
    Ok(EventPlaces { own, seen })
}

fn project_events(alloc: Global, project: &Project6) -> Result<EventPlaces, Mem>
    ensures { IfOk result (λ t. AreEvents t (events_of (project_of project.now))) }
{
    let events = events_of(alloc, project)?;
    Ok(event_places(alloc, &events)?)
}

fn homes(
    alloc: Global,
    d: &DeclaredRef,
    publics: &NamePlaces,
) -> Result<IndexMap<Vec<u8>, Vec<Home>>, Mem>
    requires { ArePublics publics.now d.now.names.now }
    ensures { IfOk result (λ m. AreHomes m (shown_declarations d.now)) }
{
    let members = enum_members(alloc, d.enums)?;
    Ok(all_homes(alloc, d, publics, &members)?)
}

impl NameTables {
    /// The tables of a project.
    pub fn make(alloc: Global, d: &DeclaredRef) -> Result<NameTables, Mem>
        ensures { IfOk result (λ t. AreTables t (shown_declarations d.now)) }
    {
        let scopes = scope_places(alloc, d.names)?;
        let modules = module_places(alloc, d.project.modules.as_slice())?;
        let events = project_events(alloc, d.project)?;
        let homes = homes(alloc, d, &scopes.publics)?;
        Ok(NameTables {
            scopes,
            modules,
            events,
            homes,
        })
    }

    pub(crate) fn local_place(&self, procedure: ProcId, key: &[u8]) -> Option<usize>
        ensures { result ≡ placed self.now.scopes.locals procedure.0 key.now }
    {
        self.scopes.locals.place(procedure.0, key)
    }

    pub(crate) fn member_place(&self, file: u32, key: &[u8]) -> Option<usize>
        ensures { result ≡ placed self.now.scopes.members file key.now }
    {
        self.scopes.members.place(file, key)
    }

    pub(crate) fn public_place(&self, file: u32, key: &[u8]) -> Option<usize>
        ensures { result ≡ placed self.now.scopes.publics file key.now }
    {
        self.scopes.publics.place(file, key)
    }

    pub(crate) fn standard_place(&self, key: &[u8]) -> Option<usize>
        ensures { result ≡ placed self.now.modules.standards 0 key.now }
    {
        self.modules.standards.place(0, key)
    }

    pub(crate) fn class_place(&self, key: &[u8]) -> Option<usize>
        ensures { result ≡ placed self.now.modules.classes 0 key.now }
    {
        self.modules.classes.place(0, key)
    }

    pub(crate) fn class_file_at(&self, class: u32) -> Option<u32>
        ensures { result ≡ slice_get self.now.modules.files.items class }
    {
        self.modules.files.get(class as usize).copied()
    }

    pub(crate) fn own_event_place(&self, file: u32, key: &[u8]) -> Option<usize>
        ensures { result ≡ placed self.now.events.own file key.now }
    {
        self.events.own.place(file, key)
    }

    pub(crate) fn seen_event_place(&self, key: &[u8]) -> Option<usize>
        ensures { result ≡ placed self.now.events.seen 0 key.now }
    {
        self.events.seen.place(0, key)
    }

    pub(crate) fn homes(&self, key: &[u8]) -> &[Home]
        ensures { result.now ≡ list_in (noted self.now.homes key.now) }
    {
        match self.homes.get(key) {
            Some(homes) => homes.as_slice(),
            None => &[],
        }
    }
}
