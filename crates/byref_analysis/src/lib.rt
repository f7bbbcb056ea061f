//! Calls and references: which procedures call which, which are inward (neither they nor what they reach can be seen from outside but
//! by their result), which parameters by reference are quiet (their variable stays as it is), and three rules on them: 7 at heads of
//! properties, 8 at arguments that don't fit their parameters, and 26 where the order of effects shows.
//!
//! What the lines of a project give is gathered as lists: calls, procedures that act, variables that are touched, lines that keep a class
//! from being self-made (`facts`). Chains of calls tell from these which procedures aren't inward. Each rule is then a test on one node,
//! one line or one head over such flags, which contracts see as tests on numbers (`specs/FactsOf.antt`).
#![tactic(auto)]

mod acting;
mod analysis;
mod arguments;
mod calls;
mod facts;
mod lines;
mod node;
mod numbers;
mod order;
mod properties;
mod quiet;
mod rows;
mod self_made;
mod sorted;
mod stirring;
mod touched;

pub use analysis::analyse_refs;
