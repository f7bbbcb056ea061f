//! Declarations and procedures.

use crate::{NetExpr, NetLine, NetType};
use up_base::{Name, Wide};

/// Who sees a declaration.
#[derive(Clone, Copy, Debug, PartialEq, Eq)]
pub enum NetVisibility {
    Public,
    Private,
    Friend,
}

/// A variable, and the value that it begins with where one is written: `n As t [= e]`, an array `n() As t [= e]`.
#[derive(Drop)]
pub struct NetVariable {
    pub name: Name,
    pub ty: NetType,
    pub value: Option<Box<NetExpr>>,
}

/// A constant: `n As t = e`.
#[derive(Drop)]
pub struct NetConstant {
    pub name: Name,
    pub ty: NetType,
    pub value: Box<NetExpr>,
}

/// A declaration at the head of a procedure.
#[derive(Drop)]
pub enum NetDim {
    /// `Dim` and a variable.
    Local(NetVariable),
    /// `Static` and a variable.
    Static(NetVariable),
    /// `Const` and a constant.
    Const(NetConstant),
}

/// How a parameter takes its argument.
#[derive(Clone, Copy, Debug, PartialEq, Eq)]
pub enum NetPassing {
    /// `ByVal`
    Value,
    /// `ByRef`
    Reference,
}

/// A parameter: `ByVal n As t` or `ByRef n As t`, an array `n() As t`.
#[derive(Drop)]
pub struct NetParam {
    pub passing: NetPassing,
    pub name: Name,
    pub ty: NetType,
}

/// The head of a procedure, or of a part of a property.
#[derive(Drop)]
pub enum NetHead {
    /// `Public Sub n(params)`
    Sub(NetVisibility, Name, Vec<NetParam>),
    /// `Public Function n(params) As t`
    Function(NetVisibility, Name, Vec<NetParam>, NetType),
    /// `Public Sub New()`
    New,
    /// `Get`
    Get,
    /// `Set(ByVal n As t)`
    Set(Name, NetType),
}

/// The closing line of a procedure, or of a part of a property.
#[derive(Clone, Copy, Debug, PartialEq, Eq)]
pub enum NetClose {
    /// `End Sub`
    EndSub,
    /// `End Function`
    EndFunction,
    /// `End Get`
    EndGet,
    /// `End Set`
    EndSet,
}

/// A procedure, or a part of a property.
#[derive(Drop)]
pub struct NetProc {
    pub head: NetHead,
    /// The declarations of its locals.
    pub prologue: Vec<NetDim>,
    pub lines: Vec<NetLine>,
    pub close: NetClose,
}

/// A property: `Public Property n(params) As t`, with `ReadOnly` where it has no part that sets, and `WriteOnly` where it
/// has none that gets. Comments stand before a part alone that it has.
#[derive(Drop)]
pub struct NetProperty {
    pub visibility: NetVisibility,
    pub name: Name,
    pub params: Vec<NetParam>,
    pub ty: NetType,
    /// The comments right before `Get`, as UTF-16 units.
    pub get_comments: Vec<Wide>,
    pub get: Option<Box<NetProc>>,
    /// The comments right before `Set`, as UTF-16 units.
    pub set_comments: Vec<Wide>,
    pub set: Option<Box<NetProc>>,
}

/// What stands in a structure.
#[derive(Drop)]
pub enum NetField {
    /// `'` and a text of UTF-16 units.
    Comment(Wide),
    /// `Public n As t`, an array `Public n() As t`.
    Field(Name, NetType),
}

/// A structure: `Public Structure n`.
#[derive(Drop)]
pub struct NetStructure {
    pub name: Name,
    pub fields: Vec<NetField>,
}

/// What stands in a module.
#[derive(Drop)]
pub enum NetMember {
    /// `'` and a text of UTF-16 units.
    Comment(Wide),
    /// `Public` or `Private`, and a variable.
    Variable(NetVisibility, Box<NetVariable>),
    /// `Public Const` or `Private Const`, and a constant.
    Const(NetVisibility, Box<NetConstant>),
    Structure(Box<NetStructure>),
    Property(Box<NetProperty>),
    Proc(Box<NetProc>),
}
