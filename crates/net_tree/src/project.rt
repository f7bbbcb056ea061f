//! Modules, projects and their files.

use crate::NetMember;
use up_base::{Bytes, Name, Sequence};

/// A module: a standard module or a class.
#[derive(Drop)]
pub struct NetModule {
    pub name: Name,
    /// Whether it is a class.
    pub class: bool,
    pub members: Sequence<NetMember>,
}

/// A project.
#[derive(Drop)]
pub struct NetProject {
    /// Whether it is compiled to a library.
    pub library: bool,
    /// The module whose `Sub Main` a program starts with.
    pub main: Option<Name>,
    /// A comment at the head of each module: 0 to 200 printable ASCII characters.
    pub note: Option<Bytes>,
    pub modules: Sequence<NetModule>,
    /// The module of the support functions that the others use.
    pub support: NetModule,
}

/// The files that stand for a project, by name, in the order in which they are written.
pub type NetFiles = Sequence<(Name, Bytes)>;
