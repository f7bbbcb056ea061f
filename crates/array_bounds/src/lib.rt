//! Arrays: their lower bounds and ranks, and where they don't fit what is written for them.
//!
//! Arrays that are assigned whole to each other, or given to each other, are one class, and share their lower bounds and ranks
//! (`bounds`). A declaration is judged by those of its class, a line by the arrays that it makes anew (`resizing`), by its uses of
//! arrays (`misfits`) and by the elements that it gives by reference (`locking`). What a rule asks of the whole project is gathered
//! first, as tests on numbers and types (`facts`).
#![tactic(auto)]

mod analysis;
mod arrays;
mod bases;
mod bounds;
mod creations;
mod declaring;
mod elements;
mod facts;
mod found;
mod givens;
mod locking;
mod locks;
mod misfits;
mod numbers;
mod ranges;
mod resized;
mod resizes;
mod resizing;
mod ties;
mod types;

pub use analysis::analyse_arrays;
pub use bases::option_base_of;
pub use facts::{array_holders, made_holders};
pub use givens::low_in;
pub use resizes::{ExtentRef, ResizeRef, resizes_in};
