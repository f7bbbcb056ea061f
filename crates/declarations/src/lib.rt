//! The declarations of a project with their types, values and bounds, and the rules that they break.
//!
//! `declare` goes stage by stage, since constants need expressions, expressions need types, and lengths and bounds need
//! constants. First each declaration stands there by its name alone (`bare`). Then each has the type that it names, without
//! a length (`typed`). Then constants are given their values in rounds (`constants`), where a constant expression is bound
//! like any other and folded (`constant_exprs`). Then lengths, bounds and defaults are found (`plans`), and at last the
//! declarations that break a rule lose their types (`rules`).
#![tactic(auto)]

mod bare;
mod circles;
mod constant_exprs;
mod constants;
mod defaults;
mod extents;
mod fixed;
mod groups;
mod lengths;
mod module_facts;
mod named_types;
mod places;
mod plans;
mod presets;
mod rounds;
mod rules;
mod stages;
mod typed;

pub use constant_exprs::{Outcome, constant_outcome, resolved_as};
pub use lengths::{Length, length_by};
pub use module_facts::{DefLine, Letter, ModuleFacts, facts_at, facts_of, letter_of};
pub use named_types::{Choice, choice_by_letter, choice_by_name, choice_by_suffix};
pub use stages::declare;
