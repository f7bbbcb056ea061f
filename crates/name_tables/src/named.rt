//! The first declaration of a name in a scope. A key is a name in small letters.
ghost use Rattle.std.specs.Prelude.{◌≡◌, ◌&&◌, position, map, option_map, slice_get};
ghost use Rattle.bound_tree.specs.View.{procedure_of};
ghost use Rattle.name_tables.specs.Rows.{entry_named, named_at};
ghost use Rattle.name_tables.specs.Scopes.{fits, has_key, if_fits, is_callee, is_seen, is_sub, local_named, member_named, proc_fits, some_proc_fits, var_fits, const_fits, type_fits, enum_fits};
ghost use Rattle.name_tables.specs.Tables.{AreTables};
ghost use Rattle.name_tables.specs.View.{shown_declarations};

use crate::{DeclaredRef, Kinds, NameTables};
use bound_tree::{Named, NamedEntry, ProcDecl};
use up_base::Name;
use vb_tree::{ProcId, ProcKind};

/// Whether a name is the one of a key.
pub(crate) fn has_key(key: &[u8], name: &Name) -> bool
    ensures { result ≡ has_key key.now name.now }
{
    name.lower_bytes() == key
}

/// What the name at a place is declared as.
pub(crate) fn named_at(names: &[NamedEntry], at: Option<usize>) -> Option<Named>
    ensures { result ≡ named_at names.now at }
{
    match at {
        Some(i) => entry_named(names, i),
        None => None,
    }
}

fn entry_named(names: &[NamedEntry], i: usize) -> Option<Named>
    ensures { result ≡ entry_named (slice_get names.now i) }
{
    match names.get(i) {
        Some(e) => Some(e.named),
        None => None,
    }
}

/// What a name of a procedure's own is declared as.
pub(crate) fn local_named(
    tables: &NameTables,
    d: &DeclaredRef,
    procedure: ProcId,
    key: &[u8],
) -> Option<Named>
    requires { AreTables tables.now (shown_declarations d.now) }
    ensures { result ≡ local_named (shown_declarations d.now) procedure key.now }
{
    named_at(d.names, tables.local_place(procedure, key))
}

// The place of the first name of a module, seen from the module of the file `from`.
fn member_place(
    tables: &NameTables,
    d: &DeclaredRef,
    from: u32,
    file: u32,
    key: &[u8],
) -> Option<usize>
    requires { AreTables tables.now (shown_declarations d.now) }
    ensures { result ≡ position (is_seen from file key.now) d.now.names.now }
{
    if from == file {
        tables.member_place(file, key)
    } else {
        tables.public_place(file, key)
    }
}

/// What a name of a module is declared as, seen from the module of the file `from`.
pub(crate) fn member_named(
    tables: &NameTables,
    d: &DeclaredRef,
    from: u32,
    file: u32,
    key: &[u8],
) -> Option<Named>
    requires { AreTables tables.now (shown_declarations d.now) }
    ensures { result ≡ member_named (shown_declarations d.now) from file key.now }
{
    named_at(d.names, member_place(tables, d, from, file, key))
}

fn var_fits(kinds: Kinds) -> bool
    ensures { result ≡ var_fits kinds }
{
    matches!(kinds, Kinds::Values | Kinds::Members)
}

fn const_fits(kinds: Kinds) -> bool
    ensures { result ≡ const_fits kinds }
{
    matches!(kinds, Kinds::Values)
}

fn type_fits(kinds: Kinds) -> bool
    ensures { result ≡ type_fits kinds }
{
    matches!(kinds, Kinds::Types)
}

fn enum_fits(kinds: Kinds) -> bool
    ensures { result ≡ enum_fits kinds }
{
    matches!(kinds, Kinds::Types | Kinds::Enums)
}

fn is_sub(kind: ProcKind) -> bool
    ensures { result ≡ is_sub kind }
{
    matches!(kind, ProcKind::Sub)
}

fn is_callee(kind: ProcKind) -> bool
    ensures { result ≡ is_callee kind }
{
    matches!(kind, ProcKind::Sub | ProcKind::Function)
}

fn proc_fits(kinds: Kinds, kind: ProcKind) -> bool
    ensures { result ≡ proc_fits kinds kind }
{
    match kinds {
        Kinds::Values => !is_sub(kind),
        Kinds::Callees => is_callee(kind),
        Kinds::Members => true,
        Kinds::Enums => false,
        Kinds::Types => false,
    }
}

fn proc_fits_at(procs: &[ProcDecl], kinds: Kinds, p: ProcId) -> bool
    ensures { result ≡ some_proc_fits kinds (slice_get (map procedure_of procs.now) p.0) }
{
    match procs.get(p.0 as usize) {
        Some(p) => proc_fits(kinds, p.kind),
        None => false,
    }
}

fn fits(d: &DeclaredRef, kinds: Kinds, named: Named) -> bool
    ensures { result ≡ fits (shown_declarations d.now) kinds named }
{
    match named {
        Named::Var(_) => var_fits(kinds),
        Named::Const(_) => const_fits(kinds),
        Named::Proc(p) => proc_fits_at(d.procs, kinds, p),
        Named::Type(_) => type_fits(kinds),
        Named::Enum(_) => enum_fits(kinds),
    }
}

/// A declaration, where its kind fits.
pub(crate) fn if_fits(d: &DeclaredRef, kinds: Kinds, named: Option<Named>) -> Option<Named>
    ensures { result ≡ if_fits (shown_declarations d.now) kinds named }
{
    match named {
        Some(named) => if fits(d, kinds, named) {
            Some(named)
        } else {
            None
        },
        None => None,
    }
}
