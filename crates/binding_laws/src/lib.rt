//! Laws on what binding makes of expressions.
#![tactic(auto)]

mod laws;

pub use laws::{
    bound_lines_are_typed, bound_runs_leave_at_edges, declared_have_results, untyped_has_a_cause,
    uses_have_types,
};
