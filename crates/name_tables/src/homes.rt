//! For each name that all modules see the modules that have it, in project order. So a look-up of a name of another module walks
//! over those modules alone.
ghost use Rattle.std.specs.Prelude.{◌≡◌, ◌++◌, ℕ, List, [], Some, None, cond, filter_map, map, nat_eq, option_map, is_some, ◌&&◌, ◌||◌, ◌==◌, IfOk, OnOk};
ghost use Rattle.std.specs.Cmp.Lexicographic.{pointwise};
ghost use Rattle.std.specs.List.{cons_option, list_any};
ghost use Rattle.vb_tree.specs.View.{module_of};
ghost use Rattle.name_tables.specs.Homes.{AreNumbers, has_number, home_in, homes_of, is_public_at, is_public_name, lists_noted};
ghost use Rattle.name_tables.specs.Scopes.{first_named, first_of, is_enum_member};
ghost use Rattle.name_tables.specs.Tables.{AreHomes, ArePublics};
ghost use Rattle.name_tables.specs.View.{shown_declarations};

use crate::DeclaredRef;
use crate::named::named_at;
use crate::places::NamePlaces;
use crate::rows::public_file_of;
use bound_tree::{ConstId, EnumDecl, Named, NamedEntry};
use indexmap::{IndexMap, IndexSet};
use std::alloc::Global;
use up_base::Mem;
use vb_tree::Module6;

/// What a module has under a name that all modules see.
#[derive(Clone, Copy)]
pub(crate) struct Home {
    /// The number of the module's file.
    pub file: u32,
    /// Whether it is a class module.
    pub class: bool,
    pub named: Named,
    /// Whether it is a member of an Enum.
    pub enum_member: bool,
}

/// The numbers of the members of Enums.
pub(crate) fn enum_members(alloc: Global, enums: &[EnumDecl]) -> Result<IndexSet<u32>, Mem>
    ensures { IfOk result (λ s. AreNumbers s enums.now) }
{
    let mut all = IndexSet::new(alloc);
    for e in enums {
        add_members(e.members.as_slice(), &mut all)?;
    }
    Ok(all)
}

fn add_members(members: &[ConstId], to: &mut IndexSet<u32>) -> Result<(), Mem>
    ensures { OnOk result ((n : ℕ) → has_number to.new n ≡ (has_number to.old n || list_any (λ m. m.0 == n) members.now)) }
{
    for m in members {
        to.insert(m.0)?;
    }
    Ok(())
}

fn is_enum_member(d: &DeclaredRef, members: &IndexSet<u32>, named: Named) -> bool
    requires { AreNumbers members.now d.now.enums.now }
    ensures { result ≡ is_enum_member (shown_declarations d.now) named }
{
    match named {
        Named::Const(c) => members.contains(&c.0),
        Named::Var(_) => false,
        Named::Proc(_) => false,
        Named::Type(_) => false,
        Named::Enum(_) => false,
    }
}

// What a name of a module is declared as that all modules see. The name is in small letters.
#[tactic(auto, using(crate::proofs::NamedFirsts::named_first))]
fn public_named(names: &[NamedEntry], publics: &NamePlaces, file: u32, key: &[u8]) -> Option<Named>
    requires { ArePublics publics.now names.now }
    ensures { result ≡ first_named (is_public_at file key.now) names.now }
{
    named_at(names, publics.place(file, key))
}

// What a module has under a name, which is in small letters.
fn home_in(
    d: &DeclaredRef,
    publics: &NamePlaces,
    members: &IndexSet<u32>,
    key: &[u8],
    module: &Module6,
) -> Option<Home>
    requires publics { ArePublics publics.now d.now.names.now }
    requires members { AreNumbers members.now d.now.enums.now }
    ensures { result ≡ home_in (shown_declarations d.now) key.now (module_of «module».now) }
{
    match public_named(d.names, publics, module.file, key) {
        Some(named) => Some(Home {
            file: module.file,
            class: module.class,
            named,
            enum_member: is_enum_member(d, members, named),
        }),
        None => None,
    }
}

fn push_home(home: Option<Home>, to: &mut Vec<Home>) -> Result<(), Mem>
    ensures { OnOk result (to.new.items ≡ to.old.items ++ cons_option home []) }
{
    match home {
        Some(home) => Ok(to.push(home)?),
        None => Ok(()),
    }
}

fn homes_among(
    alloc: Global,
    d: &DeclaredRef,
    publics: &NamePlaces,
    members: &IndexSet<u32>,
    key: &[u8],
    modules: &[Module6],
) -> Result<Vec<Home>, Mem>
    requires publics { ArePublics publics.now d.now.names.now }
    requires members { AreNumbers members.now d.now.enums.now }
    ensures { IfOk result (λ v. v.items ≡ filter_map (home_in (shown_declarations d.now) key.now) (map module_of modules.now)) }
{
    let mut all = Vec::new(alloc);
    for module in modules {
        push_home(home_in(d, publics, members, key, module), &mut all)?;
    }
    Ok(all)
}

fn homes_of(
    alloc: Global,
    d: &DeclaredRef,
    publics: &NamePlaces,
    members: &IndexSet<u32>,
    key: &[u8],
) -> Result<Vec<Home>, Mem>
    requires publics { ArePublics publics.now d.now.names.now }
    requires members { AreNumbers members.now d.now.enums.now }
    ensures { IfOk result (λ v. v.items ≡ homes_of (shown_declarations d.now) key.now) }
{
    let modules = d.project.modules.as_slice();
    Ok(homes_among(alloc, d, publics, members, key, modules)?)
}

// Notes the modules that have a name, where they aren't noted yet.
fn note_word(
    alloc: Global,
    d: &DeclaredRef,
    publics: &NamePlaces,
    members: &IndexSet<u32>,
    word: &[u8],
    to: &mut IndexMap<Vec<u8>, Vec<Home>>,
) -> Result<(), Mem>
    requires publics { ArePublics publics.now d.now.names.now }
    requires members { AreNumbers members.now d.now.enums.now }
    ensures { OnOk result ((key : List ℕ) → lists_noted to.new key ≡ first_of (lists_noted to.old key) (cond (pointwise nat_eq word.now key) (Some (homes_of (shown_declarations d.now) key)) None)) }
{
    if to.get(word).is_none() {
        let homes = homes_of(alloc, d, publics, members, word)?;
        to.insert(Vec::from_slice(alloc, word)?, homes)?;
    }
    Ok(())
}

fn note_name(
    alloc: Global,
    d: &DeclaredRef,
    publics: &NamePlaces,
    members: &IndexSet<u32>,
    e: &NamedEntry,
    to: &mut IndexMap<Vec<u8>, Vec<Home>>,
) -> Result<(), Mem>
    requires publics { ArePublics publics.now d.now.names.now }
    requires members { AreNumbers members.now d.now.enums.now }
    ensures { OnOk result ((key : List ℕ) → lists_noted to.new key ≡ first_of (lists_noted to.old key) (cond (is_public_name key e.now) (Some (homes_of (shown_declarations d.now) key)) None)) }
{
    if public_file_of(e.scope).is_none() {
        return Ok(());
    }
    Ok(note_word(alloc, d, publics, members, e.name.lower_bytes(), to)?)
}

/// For each name the modules that have it.
pub(crate) fn all_homes(
    alloc: Global,
    d: &DeclaredRef,
    publics: &NamePlaces,
    members: &IndexSet<u32>,
) -> Result<IndexMap<Vec<u8>, Vec<Home>>, Mem>
    requires publics { ArePublics publics.now d.now.names.now }
    requires members { AreNumbers members.now d.now.enums.now }
    ensures { IfOk result (λ m. AreHomes m (shown_declarations d.now)) }
{
    let mut all = IndexMap::new(alloc);
    for e in d.names {
        note_name(alloc, d, publics, members, e, &mut all)?;
    }
    Ok(all)
}
