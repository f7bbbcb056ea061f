//! What a name stands for. The declared names of a project are one list in project order. A look-up asks scope by scope for the
//! first name that is the same without case, and takes it where its kind fits where the word stands: the locals of the
//! procedure, its module, the public names of the other standard modules; then names that are known and are no values, modules
//! and Enums, and the names of Visual Basic's own libraries. Its answer is a `Use6`.
//!
//! `NameTables` are made once and know where the first declaration of each name stands (`AreTables`). They hold no reference,
//! and depend on the declared names, the project and the Enums alone.
#![tactic(auto)]

mod declared_ref;
mod events;
mod foreign;
mod homes;
mod members;
mod modules;
mod named;
mod places;
mod rows;
mod tables;
mod types;
mod uses;
mod values;

pub use declared_ref::DeclaredRef;
pub use members::{found_field, found_in_enum, found_in_module, found_label, found_member};
pub use modules::class_file;
pub use tables::NameTables;
pub use types::found_type;
pub use uses::{Kinds, Site, Spelling, Use6, Wanted};
pub use values::found;
