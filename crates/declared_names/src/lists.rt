//! What a line says of a declaration, by reference to the line.

use bound_tree::{ConstId, EnumDecl, NamedEntry, TypeDecl};
use up_base::{Name, Place, Sequence};
use vb_tree::{
    Bounds6, Expr6, Owner, Passing, ProcKind, Result6, Suffix, TypeName6, VarId, Visibility,
};

/// The bounds of what can be an array.
#[derive(Clone, Copy)]
pub enum Extents<'a> {
    /// No array.
    Single,
    /// An array without bounds.
    Dynamic,
    /// An array with bounds, or a dynamic one where the list is empty.
    Written(&'a Sequence<Bounds6>),
}

/// A variable, a parameter, a result variable or a field.
#[derive(Clone, Copy)]
pub struct NamedVar<'a> {
    pub name: &'a Name,
    pub suffix: Suffix,
    pub place: Place,
    /// The number of its statement in its module, from 0.
    pub statement: u32,
    pub owner: Owner,
    pub extents: Extents<'a>,
    /// Whether it is declared As New.
    pub auto: bool,
    /// The type behind As.
    pub ty: Option<&'a TypeName6>,
    /// How a parameter takes its argument; Unsaid for any other variable.
    pub passing: Passing,
    /// Whether it is an Optional parameter.
    pub optional: bool,
    /// Whether it is a ParamArray.
    pub param_array: bool,
    /// The default of an Optional parameter.
    pub preset: Option<&'a Expr6>,
}

/// A constant or a member of an Enum.
#[derive(Clone, Copy)]
pub struct NamedConst<'a> {
    pub name: &'a Name,
    pub suffix: Suffix,
    pub place: Place,
    /// The number of its statement in its module, from 0.
    pub statement: u32,
    pub owner: Owner,
    /// The type behind As.
    pub ty: Option<&'a TypeName6>,
    /// Its expression, which a member of an Enum can lack.
    pub value: Option<&'a Expr6>,
    /// The member before it in its Enum. A member without an expression is that one plus 1, or 0 where there is none.
    pub before: Option<ConstId>,
}

/// A procedure; each part of a property is one.
#[derive(Drop)]
pub struct NamedProc<'a> {
    pub name: &'a Name,
    pub suffix: Suffix,
    pub place: Place,
    /// The number of its head in its module, from 0.
    pub statement: u32,
    /// The file number of its module.
    pub module: u32,
    pub kind: ProcKind,
    /// Whether the word Static stands in its head.
    pub is_static: bool,
    /// The word before its head; Public where none stands there.
    pub visibility: Visibility,
    pub params: Sequence<VarId>,
    /// The type of its result, where one is written.
    pub result: Option<&'a Result6>,
    /// The result variable of a Function or a Property Get.
    pub answer: Option<VarId>,
}

/// All that a project declares, each kind of declaration in one list in project order.
#[derive(Drop)]
pub struct DeclaredNames<'a> {
    /// The declared names in project order, fields apart.
    pub names: Sequence<NamedEntry>,
    pub vars: Sequence<NamedVar<'a>>,
    pub consts: Sequence<NamedConst<'a>>,
    pub procs: Sequence<NamedProc<'a>>,
    pub types: Sequence<TypeDecl>,
    pub enums: Sequence<EnumDecl>,
}
