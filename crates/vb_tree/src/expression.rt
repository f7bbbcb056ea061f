//! Expressions.

use crate::{Literal6, Suffix};
use up_base::Name;

/// An operator before one operand.
#[derive(Clone, Copy, Debug, PartialEq, Eq)]
pub enum UnOp {
    /// `-`
    Neg,
    /// `Not`
    Not,
}

/// An operator between two operands.
#[derive(Clone, Copy, Debug, PartialEq, Eq)]
pub enum BinOp {
    /// `^`
    Pow,
    /// `*`
    Mul,
    /// `/`
    Div,
    /// `\`
    IntDiv,
    /// `Mod`
    Mod,
    /// `+`
    Add,
    /// `-`
    Sub,
    /// `&`
    Concat,
    /// `=`
    Equal,
    /// `<>`
    NotEqual,
    /// `<`
    Less,
    /// `>`
    Greater,
    /// `<=`
    LessEqual,
    /// `>=`
    GreaterEqual,
    /// `Is`
    Is,
    /// `Like`
    Like,
    /// `And`
    And,
    /// `Or`
    Or,
    /// `Xor`
    Xor,
    /// `Eqv`
    Eqv,
    /// `Imp`
    Imp,
}

/// An expression, or a target.
#[derive(Drop)]
#[cycle(expression)]
pub enum Expr6 {
    Lit(Literal6),
    /// A name that stands alone; True, False, Nothing, Empty and Null are such words.
    Word(Name, Suffix),
    /// A name in brackets that stands alone. It is never one of the words above.
    Bracketed(Name, Suffix),
    Me,
    /// A member of an object or of a user type: `e.n`.
    Member(Box<Expr6>, Name),
    /// A member of the innermost With's object: `.n`.
    WithMember(Name),
    /// An item of the innermost With's object by its name: `!n`.
    WithBang(Name),
    /// An expression with an argument list: an element, a call, or a conversion.
    Index(Box<Expr6>, Vec<Arg6>),
    Unary(UnOp, Box<Expr6>),
    Binary(BinOp, Box<Expr6>, Box<Expr6>),
    /// An expression in parentheses.
    Paren(Box<Expr6>),
    /// `New` and the name of a class; `n.n` is one name with its full stop.
    New(Name),
    /// An item by its name: `e!n`.
    Bang(Box<Expr6>, Name),
    /// `TypeOf e Is n`
    TypeOf(Box<Expr6>, Name),
    /// `AddressOf n`
    AddressOf(Name),
}

/// An argument. One that is left out has no value.
#[derive(Drop)]
#[cycle(expression)]
pub struct Arg6 {
    /// The name before `:=`.
    pub name: Option<Name>,
    /// Whether `ByVal` or `#` stands before the value.
    pub marked: bool,
    pub value: Option<Expr6>,
}
