//! What is read of a file up to some line.

use net_tree::{NetBlock, NetModule, NetProc, NetProperty, NetStructure};
use std::collections::VecDeque;
use up_base::{Bytes, Name, Wide};

/// A module up to some line, and the comment at the head of its file.
#[derive(Drop)]
pub struct NotedModule {
    pub note: Option<Bytes>,
    pub tree: NetModule,
}

/// A procedure up to some line, whose closing line is still to come.
#[derive(Drop)]
pub struct Body {
    pub tree: NetProc,
    /// The blocks that are open, from the outermost.
    pub blocks: Vec<NetBlock>,
}

/// Which parts a property has.
#[derive(Clone, Copy)]
pub enum Access {
    Both,
    ReadOnly,
    WriteOnly,
}

/// A property up to some line, with the parts that its head asks for.
#[derive(Drop)]
pub struct Promised {
    pub access: Access,
    pub tree: NetProperty,
    /// The comments that stand before the part to come, as UTF-16 units.
    pub comments: Vec<Wide>,
}

/// What a line makes of a procedure.
#[derive(Drop)]
pub enum Grown {
    Going(Body),
    Closed(NetProc),
}

/// Where in a file the next line stands, with what is read so far.
#[derive(Drop)]
pub enum State {
    /// At the first line of the file of a name, where the comment at the head isn't known yet.
    AtFront(Name),
    /// Before the module's head, with the lines that are still to come before it.
    InFront(Option<Bytes>, Name, VecDeque<Bytes>),
    AmongMembers(NotedModule),
    InStructure(NotedModule, NetStructure),
    InProperty(NotedModule, Promised),
    InProcedure(NotedModule, Body),
    InPart(NotedModule, Promised, Body),
    Ended(NotedModule),
}
