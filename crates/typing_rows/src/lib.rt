//! The types of operators, conversions, library calls and conditions of Visual Basic 6.
//!
//! Whoever binds an expression asks here what becomes of its parts. Each answer is a small value that is copied: a `Row` says
//! to which type an operator's operands are converted and what it gives, a `Conversion` what becomes of an expression where
//! another type is wanted, a `CaseType` which type the expressions of a Select Case have in common. An answer names the rule
//! that is broken where there is none, and says where an object gives way to its default member, which is for the caller to
//! find; then the caller asks again. Of an expression without a type (`Unknown`) nothing is said.
//!
//! Types are taken by reference and no memory is needed. First each type becomes an `Operand`, which keeps what the tables
//! distinguish; the tables are those of `specs/`, which every function equals.
#![tactic(auto)]

mod cases;
mod conversions;
mod library;
mod library_names;
mod operands;
mod operators;
mod simple_types;

pub use cases::CaseType;
pub use conversions::{
    Conversion, assigned, condition, converts, error_number, index, is_counter, is_object_type,
    is_same_type, limit, printed, set_to,
};
pub use library::{
    TextConstant, Wanted, argument, argument_wanted, dimension_of, has_count, is_library_suffix,
    library_call, library_constant, result_type,
};
pub use library_names::is_library_name;
pub use operands::Operand;
pub use operators::{Row, binary_row, unary_row};
pub use simple_types::SimpleType;
