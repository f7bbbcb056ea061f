//! What is written for names, types, constants, conversions, operators and calls of the library.
//!
//! What is written for an expression is given to these as a tree, which they take as a part of theirs (`parts`). A row of a table is
//! a function here, and its clause is the row of `written_trees`. A name that is no name of .NET, or a number that no literal has
//! room for, is answered as want of memory: no project has one.
#![tactic(auto)]

mod conversions;
mod facts;
mod library;
mod literals;
mod names;
mod operators;
mod parts;
mod scope;
mod types;

pub use conversions::{converted, writes_nothing};
pub use facts::{ArrayShape, WrittenFacts};
pub use library::{conversion_of, library_call, low_at, low_exp};
pub use literals::{constant_exp, literal_as, number, text, text_exp, written_constant};
pub use names::{
    auto_name, class_path, copy_name, is_standard_module, name_of, new_name, procedure_name,
    procedure_path, type_path, variable_name, variable_path,
};
pub use operators::{binary_exp, checked, signed, unary_exp, unsigned};
pub use parts::{
    alone, binary, call_of, cast, member, one, paren, strings, support, support_call, three, two,
    unary,
};
pub use scope::Scope;
pub use types::{type_with, variable_type, written_element_type, written_type};
