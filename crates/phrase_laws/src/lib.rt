//! That what was written is read back from the front of a text, and stays within its line.
#![tactic(auto)]

mod laws;

pub use laws::{
    arguments_are_read, arguments_stay_within_line, arguments_with_room_are_read,
    expressions_are_read, expressions_stay_within_line, expressions_with_room_are_read,
    labels_are_read, labels_stay_within_line, names_are_read, names_stay_within_line,
    nested_arguments_are_read, nested_expressions_are_read, paths_are_read, ranks_are_read,
    read_arguments_are_shallow, read_expressions_are_shallow, shallow_arguments_are_read,
    shallow_expressions_are_read, types_are_read, types_stay_within_line,
};
