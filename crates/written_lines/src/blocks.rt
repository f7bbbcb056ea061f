//! The lines that open, part and close blocks. One that is replaced, since it breaks a rule, differs from one that is not in
//! its expression alone.
ghost use Rattle.std.specs.Prelude.{◌≡◌, IfOk, option_map};
ghost use Rattle.vb_tree.specs.View.{form_of};
ghost use Rattle.net_tree.specs.View.{exp_of, line_of};
ghost use Rattle.written_lines.specs.Groups.{head_of, headed, plain_line};

use net_tree::{NetExpr, NetLine};
use std::alloc::Global;
use up_base::Mem;
use vb_tree::Form6;

/// What is written for a line of a block that has no expression.
pub(crate) fn plain_line(form: &Form6) -> Option<NetLine>
    ensures { option_map line_of result ≡ plain_line (form_of form.now) }
{
    match form {
        Form6::Else => Some(NetLine::Else),
        Form6::EndIf => Some(NetLine::EndIf),
        Form6::CaseElse => Some(NetLine::CaseElse),
        Form6::EndSelect => Some(NetLine::EndSelect),
        Form6::Next(_) => Some(NetLine::Next),
        Form6::Do => Some(NetLine::Do),
        Form6::Loop => Some(NetLine::Loop),
        Form6::Wend => Some(NetLine::EndWhile),
        Form6::EndWith => Some(NetLine::EndWith),
        _ => None,
    }
}

/// What a line of a block with one expression is.
#[derive(Clone, Copy, Debug, PartialEq, Eq)]
pub(crate) enum Head {
    /// `If e Then`, also on one line.
    If,
    /// `ElseIf e Then`
    ElseIf,
    /// `Select Case e`
    Select,
    /// `Do While e`
    DoWhile,
    /// `Do Until e`
    DoUntil,
    /// `Loop While e`
    LoopWhile,
    /// `Loop Until e`
    LoopUntil,
    /// `While e`
    While,
    /// `With e`
    With,
}

/// What a line of a block with one expression is, where it is such a line.
pub(crate) fn head_of(form: &Form6) -> Option<Head>
    ensures { result ≡ head_of (form_of form.now) }
{
    match form {
        Form6::If(_) => Some(Head::If),
        Form6::LineIf(_) => Some(Head::If),
        Form6::ElseIf(_) => Some(Head::ElseIf),
        Form6::Select(_) => Some(Head::Select),
        Form6::DoWhile(_) => Some(Head::DoWhile),
        Form6::DoUntil(_) => Some(Head::DoUntil),
        Form6::LoopWhile(_) => Some(Head::LoopWhile),
        Form6::LoopUntil(_) => Some(Head::LoopUntil),
        Form6::While(_) => Some(Head::While),
        Form6::With(_) => Some(Head::With),
        _ => None,
    }
}

fn headed_by(head: Head, a: Box<NetExpr>) -> NetLine
    ensures { line_of result ≡ headed head (exp_of a.value) }
{
    match head {
        Head::If => NetLine::If(a),
        Head::ElseIf => NetLine::ElseIf(a),
        Head::Select => NetLine::Select(a),
        Head::DoWhile => NetLine::DoWhile(a),
        Head::DoUntil => NetLine::DoUntil(a),
        Head::LoopWhile => NetLine::LoopWhile(a),
        Head::LoopUntil => NetLine::LoopUntil(a),
        Head::While => NetLine::While(a),
        Head::With => NetLine::With(a),
    }
}

/// Such a line with its expression.
pub(crate) fn headed(alloc: Global, head: Head, a: NetExpr) -> Result<NetLine, Mem>
    ensures { IfOk result (λ l. line_of l ≡ headed head (exp_of a)) }
{
    let a = Box::new(alloc, a)?;
    Ok(headed_by(head, a))
}
