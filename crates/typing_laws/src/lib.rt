//! That the source's meaning has a value for each covered procedure over scalars, arrays of scalars and user types whose lines are well
//! typed, up to where it leaves the tables.
#![tactic(auto)]

mod laws;

pub use laws::{
    edges_are_outside, expressions_have_types, inert_expressions_change_nothing,
    library_edges_are_outside, lines_keep_types, no_loud_is_quiet, runs_keep_types,
    runs_leave_at_edges, starts_are_sound,
};
