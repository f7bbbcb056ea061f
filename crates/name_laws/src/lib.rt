//! What covered procedures and lines declare and name, and what is written for that.
#![tactic(auto)]

mod laws;

pub use laws::{
    autos_are_found, classes_are_found, clean_line_is_unreplaced, clean_lines_are_unreplaced,
    fields_are_written, initializers_are_found, line_uses_are_readable, names_are_open,
    nothing_initializes, owns_are_kept, stores_are_own, uses_are_placed, uses_are_readable,
};
