//! What a project declares, each kind of declaration in one list in project order, by which it is numbered.

use crate::Marks;
use up_base::{Issues, Name, Place, Sequence};
use vb_tree::{Owner, ProcId, ProcKind, Project6, Type6, TypeId, Value6, VarId, Visibility};

/// The number of a constant or of a member of an Enum in project order, from 0.
#[derive(Clone, Copy, Debug, PartialEq, Eq, PartialOrd, Ord)]
pub struct ConstId(pub u32);

/// The number of an Enum in project order, from 0.
#[derive(Clone, Copy, Debug, PartialEq, Eq, PartialOrd, Ord)]
pub struct EnumId(pub u32);

/// A variable, a parameter, a result variable or a field.
#[derive(Drop)]
pub struct VarDecl {
    pub name: Name,
    pub place: Place,
    /// The number of its statement in its module, from 0: two statements can share a place.
    pub statement: u32,
    pub owner: Owner,
    /// Its type; Unknown where its declaration breaks a rule that leaves it without one.
    pub ty: Type6,
    /// The type that its declaration names, whatever that breaks.
    pub named: Type6,
    /// Whether the declaration names the module of its type, `As M.T`.
    pub qualified: bool,
    /// The number of the statement in its module that gives it its type by its first letter, where a Def line does.
    pub lettered: Option<u32>,
    /// The lower and the upper bound of each dimension of a fixed array.
    pub bounds: Sequence<(i32, i32)>,
    /// Whether it is declared As New.
    pub auto: bool,
    /// The default of an Optional parameter.
    pub preset: Option<Value6>,
}

/// A constant or a member of an Enum.
#[derive(Drop)]
pub struct ConstDecl {
    pub name: Name,
    pub place: Place,
    /// The number of its statement in its module, from 0.
    pub statement: u32,
    pub owner: Owner,
    /// Its type; Unknown where its declaration breaks a rule that leaves it without one.
    pub ty: Type6,
    /// Its value, and none where it breaks a rule.
    pub value: Option<Value6>,
}

/// A procedure; each part of a property is one.
#[derive(Drop)]
pub struct ProcDecl {
    pub name: Name,
    pub place: Place,
    /// The file number of its module.
    pub module: u32,
    pub kind: ProcKind,
    /// The word before its head; Public where none stands there.
    pub visibility: Visibility,
    pub params: Sequence<VarId>,
    /// The type of its result; Nothing for any kind but a Function and a Property Get.
    pub result: Type6,
    /// The result variable of a Function or a Property Get.
    pub answer: Option<VarId>,
    /// The first part of its property in its module; of any other procedure itself.
    pub first: ProcId,
}

/// A user type.
#[derive(Drop)]
pub struct TypeDecl {
    pub name: Name,
    pub place: Place,
    /// The file number of its module.
    pub module: u32,
    pub fields: Sequence<VarId>,
}

/// An Enum.
#[derive(Drop)]
pub struct EnumDecl {
    pub name: Name,
    pub place: Place,
    /// The file number of its module.
    pub module: u32,
    pub members: Sequence<ConstId>,
}

/// Where a name is declared, and who sees it there.
#[derive(Clone, Copy, Debug, PartialEq, Eq)]
pub enum Scope {
    /// The module of this file number, seen by all modules.
    Public(u32),
    /// The module of this file number, seen by it alone.
    Private(u32),
    /// A procedure, as a variable, a parameter or a constant of its own.
    Local(ProcId),
}

/// What a name is declared as.
#[derive(Clone, Copy, Debug, PartialEq, Eq)]
pub enum Named {
    Var(VarId),
    Const(ConstId),
    Proc(ProcId),
    Type(TypeId),
    Enum(EnumId),
}

/// A declared name.
#[derive(Drop)]
pub struct NamedEntry {
    pub name: Name,
    pub scope: Scope,
    pub named: Named,
}

/// A project and all that it declares.
#[derive(Drop)]
pub struct Declared {
    pub project: Project6,
    /// All declared names in project order, fields apart: the one list in which scopes look. A result variable stands behind
    /// the parameters of its procedure.
    pub names: Sequence<NamedEntry>,
    pub vars: Sequence<VarDecl>,
    pub consts: Sequence<ConstDecl>,
    pub procs: Sequence<ProcDecl>,
    pub types: Sequence<TypeDecl>,
    pub enums: Sequence<EnumDecl>,
    /// The default member of each class; of a property its first part.
    pub defaults: Sequence<Option<ProcId>>,
    /// The rules that declarations break.
    pub marks: Marks,
    /// These as issues, with those of lines that declare nothing.
    pub issues: Issues,
}
