//! Where the first of several rows with a name stands. A row is a name in a home, which has a number: a module, a procedure
//! or whatever else names are declared in.
//!
//! `places_of` makes the table of a list of rows, in time and memory that are linear in the rows. `NamePlaces::place` answers
//! what a search through the rows from the first one on would find. A word of the rows is numbered by the place of the first
//! row that has it at all, so that a look-up hashes the name once and then two numbers.
#![tactic(auto)]

mod places;

pub use places::{NamePlaces, Row, places_of};
