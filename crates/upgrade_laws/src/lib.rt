//! What is made of a project meets what the laws on runs ask: its bodies are bound, its forms are quiet, and the marks of all passes together tell which
//! procedures and lines are clean.
#![tactic(auto)]

mod laws;

pub use laws::{
    bodies_are_bound, broken_project, forms_are_quiet, grammar_is_written, held_files_differ,
    held_modules_are_orderly, lines_are_clean, marks_are_united, mentions_have_variables,
    own_variables_are_declared, parts_stand_together, read_files_differ, read_modules_are_orderly,
    translation_parts, upgrade_is_written, uses_are_mentioned,
};
