//! Code lines.

use crate::{NetBin, NetExpr};
use up_base::{Name, Sequence, Wide};

/// A label: a word, or a whole number by its value.
#[derive(Drop)]
pub enum NetLabel {
    Word(Name),
    Number(u32),
}

/// What a Case asks for.
#[derive(Drop)]
pub enum NetCase {
    /// `e`
    Value(NetExpr),
    /// `e To e`
    Range(NetExpr, NetExpr),
    /// `Is op e`, with a comparison.
    Is(NetBin, NetExpr),
}

/// A counter and its limits: `t = e To e [Step e]`.
#[derive(Drop)]
pub struct NetCounting {
    pub counter: NetExpr,
    pub start: NetExpr,
    pub limit: NetExpr,
    pub step: Option<NetExpr>,
}

/// An array that a ReDim makes, with the upper bound of each dimension: `t(e, e)`.
#[derive(Drop)]
pub struct NetReDim {
    pub array: NetExpr,
    pub bounds: Vec<NetExpr>,
}

/// What an Exit leaves.
#[derive(Clone, Copy, Debug, PartialEq, Eq)]
pub enum NetExit {
    Sub,
    Function,
    Property,
    For,
    Do,
}

/// A line of a procedure.
#[derive(Drop)]
pub enum NetLine {
    /// `'` and a text of UTF-16 units.
    Comment(Wide),
    /// `t = e`
    Assign(Box<NetExpr>, Box<NetExpr>),
    /// A callee with arguments: `e(args)`.
    Call(Box<NetExpr>, Sequence<NetExpr>),
    /// `If e Then`
    If(Box<NetExpr>),
    /// `ElseIf e Then`
    ElseIf(Box<NetExpr>),
    /// `Else`
    Else,
    /// `End If`
    EndIf,
    /// `Select Case e`
    Select(Box<NetExpr>),
    /// `Case` and items.
    Case(Sequence<NetCase>),
    /// `Case Else`
    CaseElse,
    /// `End Select`
    EndSelect,
    /// `For t = e To e [Step e]`
    For(Box<NetCounting>),
    /// `Next`
    Next,
    /// `Do`
    Do,
    /// `Do While e`
    DoWhile(Box<NetExpr>),
    /// `Do Until e`
    DoUntil(Box<NetExpr>),
    /// `Loop`
    Loop,
    /// `Loop While e`
    LoopWhile(Box<NetExpr>),
    /// `Loop Until e`
    LoopUntil(Box<NetExpr>),
    /// `While e`
    While(Box<NetExpr>),
    /// `End While`
    EndWhile,
    /// `With e`
    With(Box<NetExpr>),
    /// `End With`
    EndWith,
    /// `GoTo` a label.
    GoTo(NetLabel),
    /// A label and `:`.
    Label(NetLabel),
    /// `On Error GoTo` a label.
    OnErrorGoTo(NetLabel),
    /// `On Error GoTo 0`
    OnErrorGoToZero,
    /// `On Error Resume Next`
    OnErrorResumeNext,
    /// `Resume`
    Resume,
    /// `Resume Next`
    ResumeNext,
    /// `Resume` at a label.
    ResumeAt(NetLabel),
    /// `Exit Sub` and its like.
    Exit(NetExit),
    /// `ReDim [Preserve]` and arrays; whether Preserve is written.
    ReDim(bool, Sequence<NetReDim>),
}
