//! Objects: which variables make their object when they are used, and the rules on the shape of properties (7), on
//! Class_Terminate (13) and on As New variables that are declared in an array, given by reference or kept by a With (24).
//!
//! The parts of a property are compared with its first one (`specs/Properties.antt`). The code goes once over the procedures
//! and notes the first part of each property with a part that differs, with a Let and with a Set; a head then asks what was
//! noted of its property.
#![tactic(auto)]

mod analysis;
mod autos;
mod heads;
mod parts;
mod shapes;
mod terminators;
mod types;
mod uses;

pub use analysis::resolve_objects;
