//! What names, members and argument lists mean before it is known how they are used.

use crate::{ErrMember, Supplied, Typed};
use bound_tree::{BoundExpr, EnumId, Mention, Root};
use vb_tree::{LibCall, ProcId, Type6};

/// What the innermost With round a line keeps.
#[derive(Drop)]
pub enum Kept {
    /// There is no With.
    Nothing,
    /// An object or a user type, and what it is a part of.
    Keeps(Type6, Root),
    /// An expression without a type, and the declaration without a type that it uses.
    Unknown(Option<Mention>),
}

/// What a name, a member or an argument list means. A procedure stands with the argument list behind it, if one was seen:
/// whether it is called, given a value or entered is told by the statement.
#[derive(Drop)]
pub enum Meaning {
    Value(Typed),
    /// A procedure, whether its module is named before it, and its object.
    Procedure(ProcId, bool, Option<Box<BoundExpr>>, Option<Vec<Supplied>>),
    /// A call of the library.
    Library(LibCall, Option<Vec<Supplied>>),
    /// The standard module of this file number, which a full stop follows.
    Module(u32),
    /// An Enum, which a full stop follows.
    Enum(EnumId),
    /// `Err`
    Err,
    /// `Err.Raise` or `Err.Clear`
    ErrMember(ErrMember, Option<Vec<Supplied>>),
}
