//! Projects and their files.

use crate::Module6;
use up_base::{Name, Sequence, Wide};

/// What a project is compiled to.
#[derive(Clone, Copy, Debug, PartialEq, Eq)]
pub enum ProjectKind {
    /// A program.
    Exe,
    /// A library, and whatever else isn't a program.
    OleDll,
}

/// A module that a project file names.
#[derive(Drop)]
pub struct Entry {
    /// Its line in the project file, from 1.
    pub line: u32,
    /// Whether it is a class module.
    pub class: bool,
    pub name: Name,
    /// The name of its file.
    pub file: Name,
}

/// What a project file says.
#[derive(Drop)]
pub struct ProjectFile {
    pub kind: ProjectKind,
    /// `Sub Main` where the program starts with it, and the line that says so.
    pub startup: Option<(u32, Wide)>,
    pub entries: Sequence<Entry>,
    /// The lines that aren't carried over, in order.
    pub dropped: Sequence<u32>,
}

/// A project: its file, and for each entry its module.
#[derive(Drop)]
pub struct Project6 {
    pub file: ProjectFile,
    pub modules: Sequence<Module6>,
}
