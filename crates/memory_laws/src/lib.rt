//! In memories that match scalar variables are read, written and made, variables of objects are found, objects are made, and As New variables are set.
#![tactic(auto)]

mod laws;

pub use laws::{
    autos_are_set, locals_are_made, members_are_found, objects_are_made, scalars_are_written,
    variables_are_read,
};
