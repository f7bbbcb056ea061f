//! What a word stands for that is used as a value, as a callee or before a full stop.
ghost use Rattle.std.specs.Prelude.{◌≡◌, map, option_map, is_some, slice_get};
ghost use Rattle.up_base.specs.Names.{lower_case};
ghost use Rattle.bound_tree.specs.View.{procedure_of};
ghost use Rattle.name_tables.specs.Library.{is_library};
ghost use Rattle.name_tables.specs.Scopes.{enum_use, first_of, found, local_in, local_use, other_use, own_use, qualifier, is_answer, is_variable, unless_answer, standard_named, unknown, unvalued, value_use};
ghost use Rattle.name_tables.specs.Tables.{AreTables};
ghost use Rattle.name_tables.specs.Used.{local_of, own_of};
ghost use Rattle.name_tables.specs.View.{shown_declarations};

use crate::foreign::{foreign_use, has_class_constant, has_own_event, has_seen_event, unusable_if};
use crate::modules::standard_named;
use crate::named::{has_key, if_fits, local_named, member_named};
use crate::{DeclaredRef, Kinds, NameTables, Site, Spelling, Use6, Wanted};
use bound_tree::{Named, ProcDecl};
use typing_rows::is_library_name;
use up_base::Name;
use vb_tree::{ProcId, VarId};

fn is_variable(v: VarId, answer: Option<VarId>) -> bool
    ensures { result ≡ is_variable v answer }
{
    match answer {
        Some(w) => v.0 == w.0,
        None => false,
    }
}

fn is_answer_of(p: &ProcDecl, named: Named) -> bool
    ensures { result ≡ is_answer (Some (procedure_of p.now)) named }
{
    match named {
        Named::Var(v) => is_variable(v, p.answer),
        Named::Const(_) => false,
        Named::Proc(_) => false,
        Named::Type(_) => false,
        Named::Enum(_) => false,
    }
}

fn is_answer(procs: &[ProcDecl], p: ProcId, named: Named) -> bool
    ensures { result ≡ is_answer (slice_get (map procedure_of procs.now) p.0) named }
{
    match procs.get(p.0 as usize) {
        Some(p) => is_answer_of(p, named),
        None => false,
    }
}

// A local, which the result variable is by a plain name alone.
fn unless_answer(
    procs: &[ProcDecl],
    wanted: Wanted,
    p: ProcId,
    local: Option<Named>,
) -> Option<Named>
    ensures { result ≡ unless_answer wanted (slice_get (map procedure_of procs.now) p.0) local }
{
    match local {
        Some(named) => {
            if !wanted.is_plain() && is_answer(procs, p, named) {
                None
            } else {
                Some(named)
            }
        }
        None => None,
    }
}

fn local_in(
    tables: &NameTables,
    d: &DeclaredRef,
    wanted: Wanted,
    key: &[u8],
    procedure: Option<ProcId>,
) -> Option<Named>
    requires { AreTables tables.now (shown_declarations d.now) }
    ensures { result ≡ local_in (shown_declarations d.now) wanted key.now procedure }
{
    match procedure {
        Some(p) => {
            let local = if_fits(d, wanted.kinds(), local_named(tables, d, p, key));
            unless_answer(d.procs, wanted, p, local)
        }
        None => None,
    }
}

fn local_of(named: Option<Named>) -> Option<Use6>
    ensures { result ≡ local_of named }
{
    match named {
        Some(named) => Some(Use6::Local(named)),
        None => None,
    }
}

fn own_of(named: Option<Named>) -> Option<Use6>
    ensures { result ≡ own_of named }
{
    match named {
        Some(named) => Some(Use6::Own(named)),
        None => None,
    }
}

fn local_use(
    tables: &NameTables,
    d: &DeclaredRef,
    site: Site,
    wanted: Wanted,
    key: &[u8],
) -> Option<Use6>
    requires { AreTables tables.now (shown_declarations d.now) }
    ensures { result ≡ local_use (shown_declarations d.now) site wanted key.now }
{
    local_of(local_in(tables, d, wanted, key, site.procedure))
}

/// A declaration of its module.
pub(crate) fn own_use(
    tables: &NameTables,
    d: &DeclaredRef,
    site: Site,
    kinds: Kinds,
    key: &[u8],
) -> Option<Use6>
    requires { AreTables tables.now (shown_declarations d.now) }
    ensures { result ≡ own_use (shown_declarations d.now) site kinds key.now }
{
    own_of(if_fits(d, kinds, member_named(tables, d, site.file, site.file, key)))
}

fn value_use(
    tables: &NameTables,
    d: &DeclaredRef,
    site: Site,
    wanted: Wanted,
    key: &[u8],
) -> Option<Use6>
    requires { AreTables tables.now (shown_declarations d.now) }
    ensures { result ≡ value_use (shown_declarations d.now) site wanted key.now }
{
    if let Some(found) = local_use(tables, d, site, wanted, key) {
        return Some(found);
    }
    if let Some(found) = own_use(tables, d, site, wanted.kinds(), key) {
        return Some(found);
    }
    if has_own_event(tables, d, site.file, key) {
        return Some(Use6::Unusable);
    }
    if let Some(found) = foreign_use(tables, d, wanted.kinds(), site.file, key) {
        return Some(found);
    }
    unusable_if(has_seen_event(tables, d, key) || has_class_constant(tables, d, site.file, key))
}

fn enum_use(tables: &NameTables, d: &DeclaredRef, site: Site, key: &[u8]) -> Option<Use6>
    requires { AreTables tables.now (shown_declarations d.now) }
    ensures { result ≡ enum_use (shown_declarations d.now) site key.now }
{
    if let Some(found) = own_use(tables, d, site, Kinds::Enums, key) {
        return Some(found);
    }
    foreign_use(tables, d, Kinds::Enums, site.file, key)
}

#[tactic(auto, unfolding(typing_rows::specs::LibraryNames::is_library_name))]
fn is_library(spelling: Spelling, name: &Name) -> bool
    ensures { result ≡ is_library spelling (lower_case name.now) }
{
    match spelling {
        Spelling::Plain => is_library_name(name) || has_key(b"err", name),
        Spelling::Suffixed => is_library_name(name),
        Spelling::Bracketed => false,
    }
}

fn unknown(spelling: Spelling, name: &Name) -> Use6
    ensures { result ≡ unknown spelling (lower_case name.now) }
{
    if is_library(spelling, name) {
        Use6::Library
    } else {
        Use6::Undeclared
    }
}

fn unvalued(spelling: Spelling, name: &Name, standard: bool, is_enum: bool) -> Use6
    ensures { result ≡ unvalued spelling (lower_case name.now) standard is_enum }
{
    if is_enum && !standard {
        Use6::Unusable
    } else {
        unknown(spelling, name)
    }
}

// A word that is no value, before a full stop, if it is a standard module or an Enum.
fn qualifier(tables: &NameTables, d: &DeclaredRef, site: Site, key: &[u8]) -> Option<Use6>
    requires { AreTables tables.now (shown_declarations d.now) }
    ensures { result ≡ first_of (option_map Use6.Module (standard_named (shown_declarations d.now) key.now)) (enum_use (shown_declarations d.now) site key.now) }
{
    if let Some(file) = standard_named(tables, d, key) {
        return Some(Use6::Module(file));
    }
    enum_use(tables, d, site, key)
}

fn qualified(
    tables: &NameTables,
    d: &DeclaredRef,
    site: Site,
    spelling: Spelling,
    name: &Name,
) -> Use6
    requires { AreTables tables.now (shown_declarations d.now) }
    ensures { result ≡ qualifier (shown_declarations d.now) site spelling (lower_case name.now) }
{
    if let Some(found) = qualifier(tables, d, site, name.lower_bytes()) {
        return found;
    }
    unknown(spelling, name)
}

fn is_standard(tables: &NameTables, d: &DeclaredRef, name: &Name) -> bool
    requires { AreTables tables.now (shown_declarations d.now) }
    ensures { result ≡ is_some (standard_named (shown_declarations d.now) (lower_case name.now)) }
{
    standard_named(tables, d, name.lower_bytes()).is_some()
}

fn is_enum(tables: &NameTables, d: &DeclaredRef, site: Site, name: &Name) -> bool
    requires { AreTables tables.now (shown_declarations d.now) }
    ensures { result ≡ is_some (enum_use (shown_declarations d.now) site (lower_case name.now)) }
{
    enum_use(tables, d, site, name.lower_bytes()).is_some()
}

fn bare(tables: &NameTables, d: &DeclaredRef, site: Site, spelling: Spelling, name: &Name) -> Use6
    requires { AreTables tables.now (shown_declarations d.now) }
    ensures { result ≡ unvalued spelling (lower_case name.now) (is_some (standard_named (shown_declarations d.now) (lower_case name.now))) (is_some (enum_use (shown_declarations d.now) site (lower_case name.now))) }
{
    unvalued(
        spelling,
        name,
        is_standard(tables, d, name),
        is_enum(tables, d, site, name),
    )
}

fn other_use(
    tables: &NameTables,
    d: &DeclaredRef,
    site: Site,
    wanted: Wanted,
    spelling: Spelling,
    name: &Name,
) -> Use6
    requires { AreTables tables.now (shown_declarations d.now) }
    ensures { result ≡ other_use (shown_declarations d.now) site wanted spelling (lower_case name.now) }
{
    match wanted {
        Wanted::Qualifier => qualified(tables, d, site, spelling, name),
        Wanted::Value => bare(tables, d, site, spelling, name),
        Wanted::Indexed => bare(tables, d, site, spelling, name),
        Wanted::Callee => bare(tables, d, site, spelling, name),
    }
}

/// What a word stands for that is used as a value, as a callee or before a full stop.
pub fn found(
    tables: &NameTables,
    d: &DeclaredRef,
    site: Site,
    wanted: Wanted,
    spelling: Spelling,
    name: &Name,
) -> Use6
    requires { AreTables tables.now (shown_declarations d.now) }
    ensures { result ≡ found (shown_declarations d.now) site wanted spelling (lower_case name.now) }
{
    if let Some(found) = value_use(tables, d, site, wanted, name.lower_bytes()) {
        return found;
    }
    other_use(tables, d, site, wanted, spelling, name)
}
