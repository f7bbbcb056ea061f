//! Where something is written.

use crate::WrittenFacts;
use bound_tree::Declared;

/// Where something is written.
#[derive(Clone, Copy)]
pub struct Scope<'a> {
    pub declared: &'a Declared,
    pub facts: &'a WrittenFacts,
    /// The file number of the module.
    pub file: u32,
    /// The procedure, where it is in one.
    pub procedure: Option<u32>,
}
