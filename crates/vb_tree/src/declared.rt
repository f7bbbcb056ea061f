//! Declarations.
ghost use Rattle.std.specs.Prelude.{◌≡◌};
ghost use Rattle.vb_tree.specs.Blocks.{procedure_block};

use crate::{BlockKind, Project6, Type6, Value6};
use up_base::{Issues, Name, Place, Sequence};

/// The number of a variable in project order, from 0.
#[derive(Clone, Copy, Debug, PartialEq, Eq, PartialOrd, Ord)]
pub struct VarId(pub u32);

/// The number of a procedure in project order, from 0.
#[derive(Clone, Copy, Debug, PartialEq, Eq, PartialOrd, Ord)]
pub struct ProcId(pub u32);

/// The number of a class in project order, from 0.
#[derive(Clone, Copy, Debug, PartialEq, Eq, PartialOrd, Ord)]
pub struct ClassId(pub u32);

/// The number of a user type in project order, from 0.
#[derive(Clone, Copy, Debug, PartialEq, Eq, PartialOrd, Ord)]
pub struct TypeId(pub u32);

/// What a variable belongs to.
#[derive(Clone, Copy, Debug, PartialEq, Eq)]
pub enum Owner {
    /// The module of this file number.
    Module(u32),
    /// A procedure, as a local.
    Local(ProcId),
    /// A procedure, as a local that keeps its value.
    Static(ProcId),
    /// A procedure, as a parameter that takes a value.
    Value(ProcId),
    /// A procedure, as a parameter that takes a reference.
    Reference(ProcId),
    /// A Function or a Property Get, as its result variable.
    Answer(ProcId),
    /// A user type, as a field.
    Field(TypeId),
}

/// A variable, a parameter or a field.
#[derive(Drop)]
pub struct VarDecl {
    pub name: Name,
    pub place: Place,
    pub owner: Owner,
    pub ty: Type6,
    /// The lower and the upper bound of each dimension of a fixed array.
    pub bounds: Sequence<(i32, i32)>,
    /// Whether it is declared As New.
    pub auto: bool,
    /// The default of an Optional parameter.
    pub preset: Option<Value6>,
}

/// What a procedure is.
#[derive(Clone, Copy, Debug, PartialEq, Eq)]
pub enum ProcKind {
    Sub,
    Function,
    Get,
    Let,
    Set,
}

impl ProcKind {
    /// The block that the head of such a procedure opens. All parts of a property are closed by the same line.
    pub fn block(self) -> BlockKind
        ensures { result ≡ procedure_block self }
    {
        match self {
            ProcKind::Sub => BlockKind::Sub,
            ProcKind::Function => BlockKind::Function,
            ProcKind::Get | ProcKind::Let | ProcKind::Set => BlockKind::Property,
        }
    }
}

/// A procedure.
#[derive(Drop)]
pub struct ProcDecl {
    pub name: Name,
    pub place: Place,
    /// The file number of its module.
    pub module: u32,
    pub kind: ProcKind,
    pub params: Sequence<VarId>,
    /// The type of its result; Nothing for any kind but a Function and a Property Get.
    pub result: Type6,
}

/// A user type.
#[derive(Drop)]
pub struct TypeDecl {
    pub name: Name,
    pub place: Place,
    /// The file number of its module.
    pub module: u32,
    pub fields: Sequence<VarId>,
}

/// A constant or a member of an Enum.
#[derive(Drop)]
pub struct ConstDecl {
    pub name: Name,
    pub place: Place,
    pub owner: Owner,
    /// Its value, and none where it breaks a rule.
    pub value: Option<Value6>,
}

/// A project and all that it declares.
#[derive(Drop)]
pub struct Declared {
    pub project: Project6,
    pub vars: Sequence<VarDecl>,
    pub procs: Sequence<ProcDecl>,
    pub types: Sequence<TypeDecl>,
    pub consts: Sequence<ConstDecl>,
    /// The default member of each class; of a property its first part.
    pub defaults: Sequence<Option<ProcId>>,
    pub issues: Issues,
}
