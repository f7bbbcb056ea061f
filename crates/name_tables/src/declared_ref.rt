//! What a project declares, by reference to each of its lists.
ghost use Rattle.std.specs.Prelude.{◌≡◌};
ghost use Rattle.bound_tree.specs.View.{declarations_of};
ghost use Rattle.name_tables.specs.View.{shown_declarations};

use bound_tree::{ConstDecl, Declared, EnumDecl, NamedEntry, ProcDecl, TypeDecl, VarDecl};
use vb_tree::{ProcId, Project6};

/// A project and all that it declares. The lists may belong to a `Declared`, or be ones that are still being made.
#[derive(Clone, Copy)]
pub struct DeclaredRef<'a> {
    pub project: &'a Project6,
    pub names: &'a [NamedEntry],
    pub vars: &'a [VarDecl],
    pub consts: &'a [ConstDecl],
    pub procs: &'a [ProcDecl],
    pub types: &'a [TypeDecl],
    pub enums: &'a [EnumDecl],
    pub defaults: &'a [Option<ProcId>],
}

impl<'a> DeclaredRef<'a> {
    /// References to what a `Declared` has.
    pub fn of(declared: &'a Declared) -> DeclaredRef<'a>
        ensures { shown_declarations result ≡ declarations_of declared.now }
    {
        DeclaredRef {
            project: &declared.project,
            names: declared.names.as_slice(),
            vars: declared.vars.as_slice(),
            consts: declared.consts.as_slice(),
            procs: declared.procs.as_slice(),
            types: declared.types.as_slice(),
            enums: declared.enums.as_slice(),
            defaults: declared.defaults.as_slice(),
        }
    }
}
