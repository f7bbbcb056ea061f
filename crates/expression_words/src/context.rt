//! Where an expression stands, and what is looked up there.

use crate::{Kept, MemberTables};
use name_tables::{DeclaredRef, NameTables, Site};

/// A project's declarations with the tables in which they are looked up.
#[derive(Clone, Copy)]
pub struct Context<'a> {
    pub declared: DeclaredRef<'a>,
    pub tables: &'a NameTables,
    pub members: &'a MemberTables,
}

/// The declarations that stand in lines, with the tables in which they are looked up.
#[derive(Clone, Copy)]
pub struct Written<'a> {
    pub declared: DeclaredRef<'a>,
    pub tables: &'a NameTables,
}

/// Where an expression stands.
#[derive(Clone, Copy)]
pub struct Scope<'a> {
    pub context: Context<'a>,
    /// What is declared without the local variables that no line declares.
    pub written: Written<'a>,
    /// The first of these that is used in later lines alone.
    pub later: u32,
    pub site: Site,
    /// What the innermost With round it keeps.
    pub kept: &'a Kept,
    /// The rule that a word breaks that could be a variable and is declared nowhere.
    pub missing: u8,
}
