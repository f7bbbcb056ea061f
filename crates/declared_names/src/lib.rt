//! What a project declares, before types, constants and bounds are known: each kind of declaration in one list in project
//! order, by which it is numbered, and the rules that declarations break by their names alone.
//!
//! `declared_names` gathers the lists in one walk over modules, members and lines. What a line says of a declaration is kept
//! by reference to the line, and no name is looked up: time and memory are linear in the lines and declarations. A
//! declaration's number is its position in the list of its kind, so the number of the next one is the list's length.
//! `first_parts` tells which procedures are parts of one property.
//!
//! `name_marks` has a set of rules for each declaration, and for each code line as far as its label tells. A name is declared
//! twice where the first declaration that is in its way is another one; tables that are made once know where that one stands,
//! so no look-up searches the declared names. `line_rules` has the rules of a line that declares nothing, and `startup_rules`
//! those of the line that says where the program starts.
#![tactic(auto)]

mod groups;
mod heads;
mod labels;
mod lines;
mod lists;
mod marks;
mod parts;
mod procedures;
mod project;
mod rivals;
mod rules;
mod scopes;
mod taken;
mod twice;
mod variables;

pub use heads::{HeadRef, head_of};
pub use lines::{line_rules, startup_rules};
pub use lists::{DeclaredNames, Extents, NamedConst, NamedProc, NamedVar};
pub use marks::name_marks;
pub use parts::first_parts;
pub use project::declared_names;
