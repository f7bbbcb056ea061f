//! What an expression of the source means, by one recursion over its parts.
//!
//! Each part is looked up in the lookup in which it stands: as a value, as what is given a value or entered, or before a full
//! stop or an argument list (`resolving`). An expression without a type is kept as it is written, with the names of the
//! declarations that it uses (`spelling`).
#![tactic(auto)]

mod resolving;
mod spelling;

pub use resolving::{
    as_callee, as_qualifier, as_target, as_value, meaning, resolved, supplied, with_list,
};
pub use spelling::{spelled, spelled_index, spelled_word};
