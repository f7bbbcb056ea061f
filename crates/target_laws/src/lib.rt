//! Laws on where control goes.
#![tactic(auto)]

mod laws;

pub use laws::{
    lines_in_order, other_step, other_test, same_aims, same_labels, same_step, same_test,
    same_tests,
};
