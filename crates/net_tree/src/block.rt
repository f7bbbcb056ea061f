//! Which lines open, part and close blocks.
ghost use Rattle.std.specs.Prelude.{◌≡◌};
ghost use Rattle.net_tree.specs.Blocks.{role_of};
ghost use Rattle.net_tree.specs.View.{line_of};

use crate::NetLine;

/// What a line of a procedure can open and another close.
#[derive(Clone, Copy, Debug, PartialEq, Eq)]
pub enum NetBlock {
    If,
    Select,
    For,
    Do,
    While,
    With,
}

/// What a line is to the blocks round it.
#[derive(Clone, Copy, Debug, PartialEq, Eq)]
pub enum NetRole {
    /// Nothing: it neither opens nor parts nor closes one.
    Plain,
    Opens(NetBlock),
    Parts(NetBlock),
    Closes(NetBlock),
}

impl NetLine {
    /// What the line is to the blocks round it.
    pub fn role(&self) -> NetRole
        ensures { result ≡ role_of (line_of self.now) }
    {
        match self {
            NetLine::Comment(_) => NetRole::Plain,
            NetLine::Assign(_, _) => NetRole::Plain,
            NetLine::Call(_, _) => NetRole::Plain,
            NetLine::If(_) => NetRole::Opens(NetBlock::If),
            NetLine::ElseIf(_) => NetRole::Parts(NetBlock::If),
            NetLine::Else => NetRole::Parts(NetBlock::If),
            NetLine::EndIf => NetRole::Closes(NetBlock::If),
            NetLine::Select(_) => NetRole::Opens(NetBlock::Select),
            NetLine::Case(_) => NetRole::Parts(NetBlock::Select),
            NetLine::CaseElse => NetRole::Parts(NetBlock::Select),
            NetLine::EndSelect => NetRole::Closes(NetBlock::Select),
            NetLine::For(_) => NetRole::Opens(NetBlock::For),
            NetLine::Next => NetRole::Closes(NetBlock::For),
            NetLine::Do => NetRole::Opens(NetBlock::Do),
            NetLine::DoWhile(_) => NetRole::Opens(NetBlock::Do),
            NetLine::DoUntil(_) => NetRole::Opens(NetBlock::Do),
            NetLine::Loop => NetRole::Closes(NetBlock::Do),
            NetLine::LoopWhile(_) => NetRole::Closes(NetBlock::Do),
            NetLine::LoopUntil(_) => NetRole::Closes(NetBlock::Do),
            NetLine::While(_) => NetRole::Opens(NetBlock::While),
            NetLine::EndWhile => NetRole::Closes(NetBlock::While),
            NetLine::With(_) => NetRole::Opens(NetBlock::With),
            NetLine::EndWith => NetRole::Closes(NetBlock::With),
            NetLine::GoTo(_) => NetRole::Plain,
            NetLine::Label(_) => NetRole::Plain,
            NetLine::OnErrorGoTo(_) => NetRole::Plain,
            NetLine::OnErrorGoToZero => NetRole::Plain,
            NetLine::OnErrorResumeNext => NetRole::Plain,
            NetLine::Resume => NetRole::Plain,
            NetLine::ResumeNext => NetRole::Plain,
            NetLine::ResumeAt(_) => NetRole::Plain,
            NetLine::Exit(_) => NetRole::Plain,
            NetLine::ReDim(_, _) => NetRole::Plain,
        }
    }
}
