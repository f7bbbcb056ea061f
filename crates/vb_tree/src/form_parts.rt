//! The parts of code lines.

use crate::{BinOp, Expr6, Suffix};
use up_base::{Name, Sequence};

/// Who sees a declaration.
#[derive(Clone, Copy, Debug, PartialEq, Eq)]
pub enum Visibility {
    Public,
    Private,
    Friend,
    Global,
}

/// How texts are compared.
#[derive(Clone, Copy, Debug, PartialEq, Eq)]
pub enum Compare {
    Binary,
    Text,
}

/// A range of first letters of names, both ends included, as ASCII codes as they are spelt. A letter alone is a range of one.
#[derive(Clone, Copy, Debug, PartialEq, Eq)]
pub struct LetterRange {
    pub from: u8,
    pub to: u8,
}

/// The word of a line that gives names that begin with some letters their type, named for the type.
#[derive(Clone, Copy, Debug, PartialEq, Eq)]
pub enum DefWord {
    /// `DefBool`
    Boolean,
    /// `DefByte`
    Byte,
    /// `DefInt`
    Integer,
    /// `DefLng`
    Long,
    /// `DefCur`
    Currency,
    /// `DefStr`
    Str,
    /// `DefObj`
    Object,
    /// `DefVar`
    Variant,
    /// `DefSng`
    Single,
    /// `DefDbl`
    Double,
    /// `DefDate`
    Date,
}

/// The word that begins a declaration of variables.
#[derive(Clone, Copy, Debug, PartialEq, Eq)]
pub enum VarWord {
    Dim,
    Static,
    Public,
    Private,
    Global,
}

/// A type in a declaration.
#[derive(Drop)]
pub enum TypeName6 {
    /// A name; `n.n` is one name with its full stop.
    Named(Name),
    /// `String * e`: a text of a fixed number of units.
    FixedString(Box<Expr6>),
}

/// The bounds of one dimension of an array: `[e To] e`.
#[derive(Drop)]
pub struct Bounds6 {
    pub lower: Option<Expr6>,
    pub upper: Expr6,
}

/// The declaration of one variable: `n [([b])] [As [New] t]`.
#[derive(Drop)]
pub struct Declarator6 {
    pub name: Name,
    pub suffix: Suffix,
    /// The bounds of an array; none of them for a dynamic one.
    pub bounds: Option<Sequence<Bounds6>>,
    /// Whether `New` stands before the type.
    pub auto: bool,
    pub ty: Option<TypeName6>,
}

/// A field of a Type: `n [(b)] As t`.
#[derive(Drop)]
pub struct Field6 {
    pub name: Name,
    pub suffix: Suffix,
    /// The bounds of an array; none of them for a dynamic one.
    pub bounds: Option<Sequence<Bounds6>>,
    pub ty: TypeName6,
}

/// The declaration of one constant: `n [As t] = e`.
#[derive(Drop)]
pub struct Constant6 {
    pub name: Name,
    pub suffix: Suffix,
    pub ty: Option<TypeName6>,
    pub value: Expr6,
}

/// How a parameter takes its argument.
#[derive(Clone, Copy, Debug, PartialEq, Eq)]
pub enum Passing {
    /// Neither word is written.
    Unsaid,
    /// `ByVal`
    Value,
    /// `ByRef`
    Reference,
}

/// A parameter: `[Optional] [ByVal or ByRef] [ParamArray] n [()] [As t] [= e]`.
#[derive(Drop)]
pub struct Param6 {
    pub optional: bool,
    pub passing: Passing,
    pub param_array: bool,
    pub name: Name,
    pub suffix: Suffix,
    /// Whether `()` stands behind the name.
    pub array: bool,
    pub ty: Option<TypeName6>,
    pub preset: Option<Expr6>,
}

/// What the head of a procedure says beside its kind and its result: `[visibility] n [(params)]`.
#[derive(Drop)]
pub struct Signature6 {
    pub visibility: Option<Visibility>,
    pub name: Name,
    pub suffix: Suffix,
    pub params: Sequence<Param6>,
}

/// The type of a result: `As t [()]`.
#[derive(Drop)]
pub struct Result6 {
    pub ty: TypeName6,
    /// Whether `()` stands behind the type.
    pub array: bool,
}

/// A counter and its limits: `l = e To e [Step e]`.
#[derive(Drop)]
pub struct Counting6 {
    pub counter: Expr6,
    pub start: Expr6,
    pub limit: Expr6,
    pub step: Option<Expr6>,
}

/// What a Case asks for.
#[derive(Drop)]
pub enum CaseItem6 {
    /// `e`
    Value(Expr6),
    /// `e To e`
    Range(Expr6, Expr6),
    /// `Is op e`, with a comparison.
    Is(BinOp, Expr6),
}

/// A label: a word, or a whole number by its value.
#[derive(Drop)]
pub enum Label6 {
    Word(Name),
    Number(i32),
}

/// What an Exit leaves.
#[derive(Clone, Copy, Debug, PartialEq, Eq)]
pub enum ExitKind {
    Sub,
    Function,
    Property,
    For,
    Do,
}

/// An array that a ReDim makes: `l(b) [As t]`.
#[derive(Drop)]
pub struct ReDimItem6 {
    pub array: Expr6,
    pub bounds: Sequence<Bounds6>,
    pub ty: Option<TypeName6>,
}
