//! Names of other modules, and names that are known and are no values.
ghost use Rattle.std.specs.Prelude.{◌≡◌, filter_map, option_map, is_some};
ghost use Rattle.std.specs.List.{list_any};
ghost use Rattle.name_tables.specs.Homes.{foreign_at, foreign_of, is_class_constant};
ghost use Rattle.name_tables.specs.Scopes.{foreign_use, has_class_constant, has_own_event, has_seen_event, joined, the_only, unusable_if};
ghost use Rattle.name_tables.specs.Tables.{AreTables};
ghost use Rattle.name_tables.specs.View.{shown_declarations};

use crate::homes::Home;
use crate::named::if_fits;
use crate::{DeclaredRef, Kinds, NameTables, Use6};
use bound_tree::Named;

fn foreign_of(file: u32, named: Option<Named>) -> Option<Use6>
    ensures { result ≡ foreign_of file named }
{
    match named {
        Some(named) => Some(Use6::Foreign(file, named)),
        None => None,
    }
}

// What is a fitting declaration of another standard module than that of the file `from`.
fn foreign_at(d: &DeclaredRef, kinds: Kinds, from: u32, home: Home) -> Option<Use6>
    ensures { result ≡ foreign_at (shown_declarations d.now) kinds from home }
{
    if home.class || home.file == from {
        None
    } else {
        foreign_of(home.file, if_fits(d, kinds, Some(home.named)))
    }
}

fn joined(a: Option<Use6>, b: Option<Use6>) -> Option<Use6>
    ensures { result ≡ joined a b }
{
    match a {
        Some(a) => match b {
            Some(_) => Some(Use6::Ambiguous),
            None => Some(a),
        },
        None => b,
    }
}

fn only_foreign(d: &DeclaredRef, kinds: Kinds, from: u32, homes: &[Home]) -> Option<Use6>
    ensures { result ≡ the_only (filter_map (foreign_at (shown_declarations d.now) kinds from) homes.now) }
{
    let mut only = None;
    for home in homes {
        only = joined(only, foreign_at(d, kinds, from, *home));
    }
    only
}

/// The declaration of another standard module than that of the file `from`, where not two of them have one.
pub(crate) fn foreign_use(
    tables: &NameTables,
    d: &DeclaredRef,
    kinds: Kinds,
    from: u32,
    key: &[u8],
) -> Option<Use6>
    requires { AreTables tables.now (shown_declarations d.now) }
    ensures { result ≡ foreign_use (shown_declarations d.now) kinds from key.now }
{
    only_foreign(d, kinds, from, tables.homes(key))
}

fn is_class_constant(from: u32, home: Home) -> bool
    ensures { result ≡ is_class_constant from home }
{
    home.class && home.file != from && home.enum_member
}

fn any_class_constant(from: u32, homes: &[Home]) -> bool
    ensures { result ≡ list_any (is_class_constant from) homes.now }
{
    for home in homes {
        if is_class_constant(from, *home) {
            return true;
        }
    }
    false
}

/// Whether another class module than that of the file `from` has a member of an Enum with a name.
pub(crate) fn has_class_constant(
    tables: &NameTables,
    d: &DeclaredRef,
    from: u32,
    key: &[u8],
) -> bool
    requires { AreTables tables.now (shown_declarations d.now) }
    ensures { result ≡ has_class_constant (shown_declarations d.now) from key.now }
{
    any_class_constant(from, tables.homes(key))
}

/// Whether a line of a module that declares nothing has a name.
pub(crate) fn has_own_event(tables: &NameTables, d: &DeclaredRef, file: u32, key: &[u8]) -> bool
    requires { AreTables tables.now (shown_declarations d.now) }
    ensures { result ≡ has_own_event (shown_declarations d.now) file key.now }
{
    tables.own_event_place(file, key).is_some()
}

/// Whether a line of any module that declares nothing has a name that all modules see.
pub(crate) fn has_seen_event(tables: &NameTables, d: &DeclaredRef, key: &[u8]) -> bool
    requires { AreTables tables.now (shown_declarations d.now) }
    ensures { result ≡ has_seen_event (shown_declarations d.now) key.now }
{
    tables.seen_event_place(key).is_some()
}

/// That a name can't be used, where it is so.
pub(crate) fn unusable_if(is_so: bool) -> Option<Use6>
    ensures { result ≡ unusable_if is_so }
{
    if is_so { Some(Use6::Unusable) } else { None }
}
