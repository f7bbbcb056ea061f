//! Modules and what stands in them.

use crate::CodeLine;
use up_base::{Name, Sequence, Wide};

/// What stands in the body of a procedure.
#[derive(Drop)]
#[cycle(body)]
pub enum Node6 {
    Line(CodeLine),
    Block(Box<Block6>),
}

/// A block: the line that opens it, what stands behind that, the lines that part it, and the line that closes it.
#[derive(Drop)]
#[cycle(body)]
pub struct Block6 {
    pub head: CodeLine,
    pub body: Vec<Node6>,
    pub middles: Vec<Middle6>,
    pub close: CodeLine,
}

/// A line that parts a block, and what stands behind it.
#[derive(Drop)]
#[cycle(body)]
pub struct Middle6 {
    pub line: CodeLine,
    pub body: Vec<Node6>,
}

/// What stands in a module.
#[derive(Drop)]
pub enum Member6 {
    /// A line on its own.
    Line(CodeLine),
    /// A Type or an Enum: its head, its members and its closing line.
    Group(CodeLine, Sequence<CodeLine>, CodeLine),
    /// A procedure: its head, its body and its closing line.
    Proc(CodeLine, Sequence<Node6>, CodeLine),
}

/// A module.
#[derive(Drop)]
pub struct Module6 {
    /// The number of its file: that of its entry, from 1.
    pub file: u32,
    pub name: Name,
    /// Whether it is a class module.
    pub class: bool,
    pub members: Sequence<Member6>,
    /// The comments by the first physical line of their logical line, in order, as UTF-16 units.
    pub comments: Sequence<(u32, Wide)>,
}
