//! Which lines open, part and close blocks.

/// What a line can open and another close.
#[derive(Clone, Copy, Debug, PartialEq, Eq)]
pub enum BlockKind {
    Type,
    Enum,
    Sub,
    Function,
    Property,
    If,
    Select,
    For,
    Do,
    While,
    With,
}

/// What a line is to the blocks round it.
#[derive(Clone, Copy, Debug, PartialEq, Eq)]
pub enum Role {
    /// Nothing: it neither opens nor parts nor closes one.
    Plain,
    Opens(BlockKind),
    Parts(BlockKind),
    Closes(BlockKind),
}
