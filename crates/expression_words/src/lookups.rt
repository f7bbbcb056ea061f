//! How a name is looked for, and the members of Err that are statements.

use name_tables::Wanted;

/// What a name is looked for as.
#[derive(Clone, Copy, Debug, PartialEq, Eq)]
pub struct Lookup {
    /// What it is looked for as at first.
    pub first: Wanted,
    /// What it is looked for as where that finds no declaration.
    pub next: Option<Wanted>,
}

/// A member of Err that is a statement.
#[derive(Clone, Copy, Debug, PartialEq, Eq)]
pub enum ErrMember {
    Raise,
    Clear,
}
