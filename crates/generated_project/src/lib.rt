//! The project that `make N` translates: a valid input of any size from 1 to 200 modules, each of which fills an array
//! in a loop. Each third module has a line that breaks a rule, and the first one has the procedure Main.
//!
//! The files are written line by line, and their text is equal to `generated_files` of `specs/Generated.antt`, which
//! has the lines as they stand in the files.
#![tactic(auto)]

mod entries;
mod files;
mod lines;
mod modules;

pub use files::generated;
