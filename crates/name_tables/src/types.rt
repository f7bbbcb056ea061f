//! What the name of a type stands for, `n` or `m.n`.
ghost use Rattle.std.specs.Prelude.{◌≡◌, ◌+◌, ◌==◌, drop, position, take};
ghost use Rattle.up_base.specs.Names.{lower_case};
ghost use Rattle.name_tables.specs.Scopes.{found_type, split_use, stop_in, type_in, type_use};
ghost use Rattle.name_tables.specs.Tables.{AreTables};
ghost use Rattle.name_tables.specs.View.{shown_declarations};

use crate::foreign::foreign_use;
use crate::members::uses_in;
use crate::modules::{class_named, standard_named};
use crate::named::{if_fits, member_named};
use crate::values::own_use;
use crate::{DeclaredRef, Kinds, NameTables, Site, Use6};
use up_base::Name;

fn type_use(tables: &NameTables, d: &DeclaredRef, site: Site, key: &[u8]) -> Option<Use6>
    requires { AreTables tables.now (shown_declarations d.now) }
    ensures { result ≡ type_use (shown_declarations d.now) site key.now }
{
    if let Some(found) = own_use(tables, d, site, Kinds::Types, key) {
        return Some(found);
    }
    if let Some(class) = class_named(tables, d, key) {
        return Some(Use6::Class(class));
    }
    foreign_use(tables, d, Kinds::Types, site.file, key)
}

// A type of the standard module of a file number.
fn type_in(
    tables: &NameTables,
    d: &DeclaredRef,
    site: Site,
    key: &[u8],
    file: Option<u32>,
) -> Option<Use6>
    requires { AreTables tables.now (shown_declarations d.now) }
    ensures { result ≡ type_in (shown_declarations d.now) site key.now file }
{
    match file {
        Some(file) => uses_in(
            site.file,
            file,
            if_fits(
                d,
                Kinds::Types,
                member_named(tables, d, site.file, file, key),
            ),
        ),
        None => None,
    }
}

// The place of the first full stop.
fn stop_in(key: &[u8]) -> Option<usize>
    ensures { result ≡ stop_in key.now }
{
    key.iter().position(|c| *c == 46)
}

fn front(key: &[u8], stop: usize) -> &[u8]
    ensures { result.now ≡ take stop key.now }
{
    if stop <= key.len() { &key[..stop] } else { key }
}

fn behind(key: &[u8], stop: usize) -> &[u8]
    ensures { result.now ≡ drop (stop + 1) key.now }
{
    if stop < key.len() {
        &key[stop + 1..]
    } else {
        &[]
    }
}

fn split_use(
    tables: &NameTables,
    d: &DeclaredRef,
    site: Site,
    key: &[u8],
    stop: Option<usize>,
) -> Option<Use6>
    requires { AreTables tables.now (shown_declarations d.now) }
    ensures { result ≡ split_use (shown_declarations d.now) site key.now stop }
{
    match stop {
        Some(i) => {
            let file = standard_named(tables, d, front(key, i));
            type_in(tables, d, site, behind(key, i), file)
        }
        None => type_use(tables, d, site, key),
    }
}

fn found_key(tables: &NameTables, d: &DeclaredRef, site: Site, key: &[u8]) -> Use6
    requires { AreTables tables.now (shown_declarations d.now) }
    ensures { result ≡ found_type (shown_declarations d.now) site key.now }
{
    match split_use(tables, d, site, key, stop_in(key)) {
        Some(found) => found,
        None => Use6::Undeclared,
    }
}

/// What the name of a type stands for, `n` or `m.n`: a Type, an Enum or a class.
pub fn found_type(tables: &NameTables, d: &DeclaredRef, site: Site, name: &Name) -> Use6
    requires { AreTables tables.now (shown_declarations d.now) }
    ensures { result ≡ found_type (shown_declarations d.now) site (lower_case name.now) }
{
    found_key(tables, d, site, name.lower_bytes())
}
