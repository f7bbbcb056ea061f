//! Expressions whose names are replaced by what they stand for, and whose conversions are written out.

use crate::{ConstId, RuleSet};
use vb_tree::{BinOp, ClassId, Expr6, LibCall, ProcId, Type6, UnOp, Value6, VarId};

/// What an address is a part of.
#[derive(Clone, Copy, Debug, PartialEq, Eq)]
pub enum Root {
    /// A variable or a parameter, itself or a part of it: a field of a user type or an element of an array, at any depth.
    Variable(VarId),
    /// An object, by a field of it.
    Object,
    /// What no variable holds: a user type that a procedure gave.
    Temporary,
}

/// What stands for a constant in the source.
#[derive(Clone, Copy, Debug, PartialEq, Eq)]
pub enum Origin {
    /// A literal, a word such as True, a constant of the library, or an argument that is left out.
    Literal,
    /// A literal in hexadecimal or octal.
    Hexadecimal,
    /// A use of a declared constant or of a member of an Enum.
    Declared(ConstId),
}

/// A bound expression with its type.
#[derive(Drop)]
#[cycle(bound_expression)]
pub struct BoundExpr {
    pub ty: Type6,
    pub node: BoundNode,
}

/// What a bound expression is. A use of a constant is its value, parentheses are left out, a default member is a call of
/// it, and an omitted Optional argument is a constant by value.
#[derive(Drop)]
#[cycle(bound_expression)]
pub enum BoundNode {
    /// A constant, and what stands for it in the source.
    Const(Value6, Origin),
    /// A variable or a parameter, and whether the source names its module before it.
    Var(VarId, bool),
    /// A field of a user type or of an object, by its place among the fields or the module's variables.
    Field(Box<BoundExpr>, u32),
    /// An element of an array at its indexes.
    Element(Box<BoundExpr>, Vec<BoundExpr>),
    /// A call of a procedure, and whether the source names its module before it, with its object where it has one. The use
    /// of a property is a call of its Get; as a target it is a call of its Let or Set without the value.
    Call(ProcId, bool, Option<Box<BoundExpr>>, Vec<BoundArg>),
    Lib(LibCall, Vec<BoundExpr>),
    Unary(UnOp, Box<BoundExpr>),
    Binary(BinOp, Box<BoundExpr>, Box<BoundExpr>),
    /// A conversion to a type.
    Convert(Type6, Box<BoundExpr>),
    /// A new object of a class.
    New(ClassId),
    Me,
    /// What the innermost With round the line keeps: its object, or its user type at the kept address; and what that is a
    /// part of.
    WithObject(Root),
    /// `Err.Number`, of type Long.
    ErrNumber,
    /// `Err.Raise` of a number that is converted to Long. It has type Nothing.
    ErrRaise(Box<BoundExpr>),
    /// `Err.Clear`. It has type Nothing.
    ErrClear,
    /// `Is`
    Is(Box<BoundExpr>, Box<BoundExpr>),
    /// An expression of type Unknown as it is written, names in the spelling of their declaration and members of other
    /// standard modules behind the module's name, and the rules that it and its parts break.
    Loose(Expr6, RuleSet),
}

/// An argument of a call.
#[derive(Drop)]
#[cycle(bound_expression)]
pub enum BoundArg {
    ByValue(BoundExpr),
    /// By reference. A variable of another type than its parameter's is a conversion to the parameter's type.
    ByReference(BoundExpr),
}
