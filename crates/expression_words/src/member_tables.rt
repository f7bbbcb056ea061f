//! The tables of a project's members, made once. No look-up in them searches a list that grows with the project.
ghost use Rattle.std.specs.Prelude.{◌≡◌, ◌==◌, ◌&&◌, ◌+◌, ℕ, None, Some, cond, length, map, nat_eq, position, slice_get, IfOk, OnOk};
ghost use Rattle.vb_tree.specs.View.{module_of};
ghost use Rattle.bound_tree.specs.View.{procedure_of, variable_of};
ghost use Rattle.bound_facts.specs.Members.{is_of_module, variables_from};
ghost use Rattle.indexmap.specs.IndexMap.{get};
ghost use Rattle.name_tables.specs.Places.{is_same_pair};
ghost use Rattle.name_tables.specs.Scopes.{first_of};
ghost use Rattle.name_tables.specs.View.{shown_declarations};
ghost use Rattle.expression_words.specs.MemberTables.{AreMemberTables, class_files_in, counted, noted_part};
ghost use Rattle.expression_words.specs.Members.{is_kind, is_part};

use bound_tree::{ProcDecl, VarDecl};
use indexmap::IndexMap;
use name_tables::DeclaredRef;
use std::alloc::Global;
use up_base::Mem;
use vb_tree::{Module6, Owner, ProcKind};

/// The numbers of the parts of properties and of classes, and the places of variables in their modules.
#[derive(Drop)]
pub struct MemberTables {
    // by its first part the part of each kind that a property has
    subs: IndexMap<u32, u32>,
    functions: IndexMap<u32, u32>,
    gets: IndexMap<u32, u32>,
    lets: IndexMap<u32, u32>,
    sets: IndexMap<u32, u32>,
    // the file of each class
    class_files: Vec<u32>,
    // the number of the class of a file
    classes: IndexMap<u32, u32>,
    // the place of a variable, by the file of its module and its number
    places: IndexMap<(u32, u32), u32>,
}

impl MemberTables {
    /// The tables of a project.
    pub fn make(alloc: Global, d: &DeclaredRef) -> Result<MemberTables, Mem>
        ensures { IfOk result (λ t. AreMemberTables t (shown_declarations d.now)) }
    {
        let subs = parts_of(alloc, ProcKind::Sub, d.procs)?;
        let functions = parts_of(alloc, ProcKind::Function, d.procs)?;
        let gets = parts_of(alloc, ProcKind::Get, d.procs)?;
        let lets = parts_of(alloc, ProcKind::Let, d.procs)?;
        let sets = parts_of(alloc, ProcKind::Set, d.procs)?;
        let class_files = class_files(alloc, d.project.modules.as_slice())?;
        let classes = firsts_of(alloc, &class_files)?;
        let places = places_of(alloc, d.vars)?;
        Ok(MemberTables {
            subs,
            functions,
            gets,
            lets,
            sets,
            class_files,
            classes,
            places,
        })
    }

    /// The part of a kind of the property with this first part.
    pub(crate) fn part(&self, kind: ProcKind, first: u32) -> Option<u32>
        ensures { result ≡ noted_part self.now kind first }
    {
        match kind {
            ProcKind::Sub => self.subs.get(&first).copied(),
            ProcKind::Function => self.functions.get(&first).copied(),
            ProcKind::Get => self.gets.get(&first).copied(),
            ProcKind::Let => self.lets.get(&first).copied(),
            ProcKind::Set => self.sets.get(&first).copied(),
        }
    }

    /// How many classes there are.
    pub(crate) fn count_classes(&self) -> usize
        ensures { result ≡ length self.now.class_files.items }
    {
        self.class_files.len()
    }

    /// The file of a class.
    pub(crate) fn class_file(&self, class: u32) -> Option<u32>
        ensures { result ≡ slice_get self.now.class_files.items class }
    {
        self.class_files.get(class as usize).copied()
    }

    /// The number of the class whose module has this file.
    pub(crate) fn class_of_file(&self, file: u32) -> Option<u32>
        ensures { result ≡ get nat_eq self.now.classes file }
    {
        self.classes.get(&file).copied()
    }

    /// The place of a variable among those of the module with this file.
    pub(crate) fn place(&self, file: u32, v: u32) -> Option<u32>
        ensures { result ≡ get is_same_pair self.now.places (file, v) }
    {
        self.places.get(&(file, v)).copied()
    }
}

// A place as a short number. It wants memory past the last number that there is.
fn number(place: usize) -> Result<u32, Mem>
    ensures { IfOk result (λ n. n ≡ place) }
{
    match u32::try_from(place) {
        Ok(n) => Ok(n),
        Err(_) => Err(Mem),
    }
}

fn next(count: u32) -> Result<u32, Mem>
    ensures { IfOk result (λ n. n ≡ count + 1) }
{
    match count.checked_add(1) {
        Some(n) => Ok(n),
        None => Err(Mem),
    }
}

// Notes the place of an item with a key, where the key has none yet.
fn note_first(to: &mut IndexMap<u32, u32>, key: u32, place: usize) -> Result<(), Mem>
    ensures { OnOk result ((k : ℕ) → get nat_eq to.new k ≡ first_of (get nat_eq to.old k) (cond (key == k) (Some place) None)) }
{
    if to.get(&key).is_none() {
        to.insert(key, number(place)?)?;
    }
    Ok(())
}

fn is_kind(a: ProcKind, b: ProcKind) -> bool
    ensures { result ≡ is_kind a b }
{
    match a {
        ProcKind::Sub => matches!(b, ProcKind::Sub),
        ProcKind::Function => matches!(b, ProcKind::Function),
        ProcKind::Get => matches!(b, ProcKind::Get),
        ProcKind::Let => matches!(b, ProcKind::Let),
        ProcKind::Set => matches!(b, ProcKind::Set),
    }
}

fn note_part(
    to: &mut IndexMap<u32, u32>,
    kind: ProcKind,
    q: &ProcDecl,
    place: usize,
) -> Result<(), Mem>
    ensures { OnOk result ((first : ℕ) → get nat_eq to.new first ≡ first_of (get nat_eq to.old first) (cond (is_part first kind (procedure_of q.now)) (Some place) None)) }
{
    if is_kind(kind, q.kind) {
        Ok(note_first(to, q.first.0, place)?)
    } else {
        Ok(())
    }
}

// By its first part the part of a kind that each property has.
fn parts_of(alloc: Global, kind: ProcKind, procs: &[ProcDecl]) -> Result<IndexMap<u32, u32>, Mem>
    ensures { IfOk result (λ m. (first : ℕ) → get nat_eq m first ≡ position (is_part first kind) (map procedure_of procs.now)) }
{
    let mut all = IndexMap::new(alloc);
    for (i, q) in procs.iter().enumerate() {
        note_part(&mut all, kind, q, i)?;
    }
    Ok(all)
}

fn class_files(alloc: Global, modules: &[Module6]) -> Result<Vec<u32>, Mem>
    ensures { IfOk result (λ v. v.items ≡ class_files_in (map module_of modules.now)) }
{
    let mut all = Vec::new(alloc);
    for m in modules {
        if m.class {
            all.push(m.file)?;
        }
    }
    Ok(all)
}

// The place of the first of each number.
fn firsts_of(alloc: Global, numbers: &[u32]) -> Result<IndexMap<u32, u32>, Mem>
    ensures { IfOk result (λ m. (n : ℕ) → get nat_eq m n ≡ position (nat_eq n) numbers.now) }
{
    let mut all = IndexMap::new(alloc);
    for (i, n) in numbers.iter().enumerate() {
        note_first(&mut all, *n, i)?;
    }
    Ok(all)
}

fn count_at(counts: &IndexMap<u32, u32>, file: u32) -> u32
    ensures { result ≡ counted counts.now file }
{
    match counts.get(&file) {
        Some(count) => *count,
        None => 0,
    }
}

fn note_pair(to: &mut IndexMap<(u32, u32), u32>, file: u32, v: u32, place: u32) -> Result<(), Mem>
    ensures { OnOk result ((f w : ℕ) → get is_same_pair to.new (f, w) ≡ first_of (get is_same_pair to.old (f, w)) (cond ((file == f) && (v == w)) (Some place) None)) }
{
    if to.get(&(file, v)).is_none() {
        to.insert((file, v), place)?;
    }
    Ok(())
}

fn count_one(counts: &mut IndexMap<u32, u32>, file: u32) -> Result<(), Mem>
    ensures { OnOk result ((f : ℕ) → counted counts.new f ≡ counted counts.old f + cond (file == f) 1 0) }
{
    let count = next(count_at(counts, file))?;
    counts.insert(file, count)?;
    Ok(())
}

// Notes the place of a variable among those of its module, of which there were so many before it.
fn note_variable(
    to: &mut IndexMap<(u32, u32), u32>,
    counts: &mut IndexMap<u32, u32>,
    owner: Owner,
    v: u32,
) -> Result<(), Mem>
    ensures places { OnOk result ((f w : ℕ) → get is_same_pair to.new (f, w) ≡ first_of (get is_same_pair to.old (f, w)) (cond (is_of_module f owner && nat_eq w v) (Some (counted counts.old f)) None)) }
    ensures counts { OnOk result ((f : ℕ) → counted counts.new f ≡ counted counts.old f + cond (is_of_module f owner) 1 0) }
{
    match owner {
        Owner::Module(file) => {
            note_pair(to, file, v, count_at(counts, file))?;
            Ok(count_one(counts, file)?)
        }
        _ => Ok(()),
    }
}

fn places_of(alloc: Global, vars: &[VarDecl]) -> Result<IndexMap<(u32, u32), u32>, Mem>
    ensures { IfOk result (λ m. (file v : ℕ) → get is_same_pair m (file, v) ≡ position (nat_eq v) (variables_from file 0 (map variable_of vars.now))) }
{
    let mut all = IndexMap::new(alloc);
    let mut counts = IndexMap::new(alloc);
    for (i, v) in vars.iter().enumerate() {
        note_variable(&mut all, &mut counts, v.owner, number(i)?)?;
    }
    Ok(all)
}
