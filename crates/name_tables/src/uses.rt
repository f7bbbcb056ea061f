//! What is asked of a name, and what it stands for.
ghost use Rattle.std.specs.Prelude.{◌≡◌};
ghost use Rattle.name_tables.specs.Scopes.{kinds_of, is_plain};

use bound_tree::Named;
use vb_tree::{ClassId, ProcId};

/// Where a word stands.
#[derive(Clone, Copy, Debug, PartialEq, Eq)]
pub struct Site {
    /// The number of its module's file.
    pub file: u32,
    /// Its procedure, and none outside of procedures.
    pub procedure: Option<ProcId>,
}

/// What a word is used as.
#[derive(Clone, Copy, Debug, PartialEq, Eq)]
pub enum Wanted {
    /// A value or a target.
    Value,
    /// A value or a target with arguments behind it: in a Function its own name is a call, and not its result.
    Indexed,
    /// The callee of a statement.
    Callee,
    /// What stands before a full stop: a value, a module or an Enum.
    Qualifier,
}

/// How a word is spelt.
#[derive(Clone, Copy, Debug, PartialEq, Eq)]
pub enum Spelling {
    /// Outside of brackets, without a suffix.
    Plain,
    /// Outside of brackets, with a suffix.
    Suffixed,
    Bracketed,
}

/// Which kinds of declarations fit where a word stands.
#[derive(Clone, Copy, Debug, PartialEq, Eq)]
pub enum Kinds {
    /// Variables, constants, Functions and properties.
    Values,
    /// Subs and Functions.
    Callees,
    /// Variables, procedures and properties.
    Members,
    Enums,
    /// Types and Enums.
    Types,
}

/// What a name stands for.
#[derive(Clone, Copy, Debug, PartialEq, Eq)]
pub enum Use6 {
    /// A variable, a parameter, a constant or the result variable of its procedure.
    Local(Named),
    /// A declaration of its module.
    Own(Named),
    /// A public declaration of the standard module of this file number.
    Foreign(u32, Named),
    /// Public declarations of two other standard modules.
    Ambiguous,
    /// The standard module of this file number.
    Module(u32),
    Class(ClassId),
    /// A name that is known and is no value: that of a line of Declare, Event or WithEvents, of an Enum, or of a member of
    /// an Enum in another class module.
    Unusable,
    /// A name of Visual Basic's own libraries.
    Library,
    /// Nothing.
    Undeclared,
}

impl Wanted {
    /// Which kinds of declarations fit.
    pub fn kinds(self) -> Kinds
        ensures { result ≡ kinds_of self }
    {
        match self {
            Wanted::Callee => Kinds::Callees,
            Wanted::Value => Kinds::Values,
            Wanted::Indexed => Kinds::Values,
            Wanted::Qualifier => Kinds::Values,
        }
    }

    /// Whether the result variable of a procedure fits.
    pub fn is_plain(self) -> bool
        ensures { result ≡ is_plain self }
    {
        match self {
            Wanted::Value => true,
            Wanted::Qualifier => true,
            Wanted::Indexed => false,
            Wanted::Callee => false,
        }
    }
}
