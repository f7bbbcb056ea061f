//! Expressions whose names are replaced by what they stand for, and whose conversions are written out.

use crate::{BinOp, ClassId, Declared, Expr6, ProcId, Type6, UnOp, Value6, VarId};
use up_base::{Issues, Sequence};

/// A call of the library. A trailing `$` changes nothing.
#[derive(Clone, Copy, Debug, PartialEq, Eq)]
pub enum LibCall {
    Len,
    Left,
    Right,
    Mid,
    Trim,
    LTrim,
    RTrim,
    UCase,
    LCase,
    Space,
    Chr,
    Asc,
    InStr,
    Abs,
    CBool,
    CByte,
    CInt,
    CLng,
    CCur,
    CStr,
    IsEmpty,
    UBound,
    LBound,
    MsgBox,
    InputBox,
}

/// An operator with the kind of its operands: of declared types, or Variants. A unary one passes over its second operand.
#[derive(Clone, Copy, Debug, PartialEq, Eq)]
pub enum Op6 {
    Typed(BinOp),
    Variant(BinOp),
    TypedUn(UnOp),
    VariantUn(UnOp),
}

/// A bound expression with its type.
#[derive(Drop)]
#[cycle(bound_expression)]
pub struct BoundExpr {
    pub ty: Type6,
    pub node: BoundNode,
}

/// What a bound expression is.
#[derive(Drop)]
#[cycle(bound_expression)]
pub enum BoundNode {
    /// A constant, and whether the source has a number in hexadecimal or octal there.
    Const(Value6, bool),
    Var(VarId),
    /// A field of a user type or of an object, by its place among the fields or the module's variables.
    Field(Box<BoundExpr>, u32),
    /// An element of an array at its indexes.
    Element(Box<BoundExpr>, Vec<BoundExpr>),
    /// A call of a procedure, with its object where it has one.
    Call(ProcId, Option<Box<BoundExpr>>, Vec<BoundArg>),
    Lib(LibCall, Vec<BoundExpr>),
    Unary(UnOp, Box<BoundExpr>),
    Binary(BinOp, Box<BoundExpr>, Box<BoundExpr>),
    /// A conversion to a type.
    Convert(Type6, Box<BoundExpr>),
    /// A new object of a class.
    New(ClassId),
    Me,
    /// What the innermost With round the line keeps: its object, or its user type at the kept address.
    WithObject,
    /// `Err.Number`, of type Long.
    ErrNumber,
    /// `Err.Raise` of a number that is converted to Long. It has type Nothing.
    ErrRaise(Box<BoundExpr>),
    /// `Err.Clear`. It has type Nothing.
    ErrClear,
    /// `Is`
    Is(Box<BoundExpr>, Box<BoundExpr>),
    /// An expression of type Unknown, as it stands.
    Loose(Expr6),
}

/// An argument of a call.
#[derive(Drop)]
#[cycle(bound_expression)]
pub enum BoundArg {
    ByValue(BoundExpr),
    /// By reference. A variable of another type than its parameter's is a conversion to the parameter's type.
    ByReference(BoundExpr),
}

/// The bound lines of a procedure.
#[derive(Drop)]
pub struct BoundBody {
    pub procedure: ProcId,
    /// For each flat line of the procedure its expressions in source order.
    pub lines: Sequence<Sequence<BoundExpr>>,
}

/// A project whose names are bound. The implicit locals stand behind the declared variables, in order of first use.
#[derive(Drop)]
pub struct Bound {
    pub declared: Declared,
    pub bodies: Sequence<BoundBody>,
    pub issues: Issues,
}
