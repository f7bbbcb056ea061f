//! What is asked of bound expressions, and what the lines of a project give.
//!
//! All nodes of an expression are one list of references (`push_nodes`), so that no analysis goes down an expression by
//! itself: it asks whether a test on one node holds at some or at all of them (`any_of`, `all_of`). What a project gives is
//! gathered line by line in one walk (`push_items`), as numbers or pairs of numbers. A fact is such a list, or the numbers
//! from which chains of such pairs lead into one (`leading_to`); `classes_of` tells which numbers pairs connect. `folded` tells
//! the value of an expression that needs no variable, `can_raise` whether an expression can raise.
#![tactic(auto)]

mod any;
mod backward;
mod classes;
mod folding;
mod members;
mod node;
mod nodes;
mod numbers;
mod raising;
mod walk;

pub use any::{NodeTest, all_of, any_of, push_those};
pub use backward::leading;
pub use classes::classes_of;
pub use folding::folded;
pub use members::{field_of, file_of_class};
pub use node::{args_at, called, created, declared_at, is_array_type, is_object_type, is_variant};
pub use nodes::{push_line_nodes, push_nodes, push_parts};
pub use numbers::{leading_to, marks_of};
pub use raising::{Raising, can_raise, head_can_raise, raises};
pub use walk::{LineItems, push_items};
