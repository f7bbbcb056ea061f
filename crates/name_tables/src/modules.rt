//! Modules by name.
ghost use Rattle.std.specs.Prelude.{◌≡◌, map, option_map, position, slice_get};
ghost use Rattle.vb_tree.specs.View.{module_of, project_of};
ghost use Rattle.name_tables.specs.Rows.{file_at, module_file};
ghost use Rattle.name_tables.specs.Scopes.{class_file, class_named, class_numbered, standard_named};
ghost use Rattle.name_tables.specs.Tables.{AreTables};
ghost use Rattle.name_tables.specs.View.{shown_declarations};

use crate::{DeclaredRef, NameTables};
use vb_tree::{ClassId, Module6};

fn module_file(modules: &[Module6], i: usize) -> Option<u32>
    ensures { result ≡ module_file (slice_get (map module_of modules.now) i) }
{
    match modules.get(i) {
        Some(m) => Some(m.file),
        None => None,
    }
}

fn file_at(modules: &[Module6], at: Option<usize>) -> Option<u32>
    ensures { result ≡ file_at (map module_of modules.now) at }
{
    match at {
        Some(i) => module_file(modules, i),
        None => None,
    }
}

/// The file number of the standard module with a name.
pub(crate) fn standard_named(tables: &NameTables, d: &DeclaredRef, key: &[u8]) -> Option<u32>
    requires { AreTables tables.now (shown_declarations d.now) }
    ensures { result ≡ standard_named (shown_declarations d.now) key.now }
{
    file_at(d.project.modules.as_slice(), tables.standard_place(key))
}

fn class_numbered(at: Option<usize>) -> Option<ClassId>
    ensures { result ≡ class_numbered at }
{
    match at {
        Some(n) => {
            if n < 4294967296 {
                Some(ClassId(n as u32))
            } else {
                None
            }
        }
        None => None,
    }
}

/// The class with a name.
pub(crate) fn class_named(tables: &NameTables, d: &DeclaredRef, key: &[u8]) -> Option<ClassId>
    requires { AreTables tables.now (shown_declarations d.now) }
    ensures { result ≡ class_named (shown_declarations d.now) key.now }
{
    class_numbered(tables.class_place(key))
}

/// The file number of the module of a class.
pub fn class_file(tables: &NameTables, d: &DeclaredRef, class: ClassId) -> Option<u32>
    requires { AreTables tables.now (shown_declarations d.now) }
    ensures { result ≡ class_file (shown_declarations d.now) class }
{
    tables.class_file_at(class.0)
}
