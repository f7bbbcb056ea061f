//! What words, members and argument lists mean, and what becomes of that where they are used.
//!
//! A name is looked up in the tables of `name_tables` (`words`); a name behind a full stop and an argument list go on from
//! what stands before them (`uses`). What comes of it is a `Meaning`: a value, a procedure that is still to be called or given
//! a value, or a module, an Enum or Err, which only a full stop can follow. Its use makes an expression of it: a value
//! (`valued`), or a target, a counter, an array that is made anew or a statement (`targets`).
//!
//! An expression has a type, and each of its conversions is written out (`converting`, `passing`, `operators`,
//! `library_calls`, `elements`), or it has a flaw: the rules that it and its parts break, and the first declaration without a
//! type that it uses.
#![tactic(auto)]

mod asks;
mod context;
mod converting;
mod copies;
mod elements;
mod err_statements;
mod library_calls;
mod lookups;
mod meaning;
mod member_tables;
mod members;
mod operators;
mod passing;
mod queries;
mod slots;
mod supplied;
mod targets;
mod typed;
mod uses;
mod words;

pub use asks::Asks;
pub use context::{Context, Scope, Written};
pub use converting::{plain_typed, wanted, wanted_typed};
pub use copies::{copy_type, copy_value};
pub use library_calls::library_called;
pub use lookups::{ErrMember, Lookup};
pub use meaning::{Kept, Meaning};
pub use member_tables::MemberTables;
pub use operators::{binary_over, is_too_long, literal, unary_over};
pub use passing::{called, is_place};
pub use queries::{could_be_variable, is_keyword, module_use};
pub use supplied::Supplied;
pub use targets::{counter, let_target, resized, set_target, statement};
pub use typed::{Flaw, Typed};
pub use uses::{kept_value, list_meaning, me_value, member_meaning, new_value, type_test, valued};
pub use words::{bracketed_meaning, spelling_of, use_of, word_meaning};
