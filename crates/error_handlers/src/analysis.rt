//! The analysis of a project.
ghost use Rattle.std.specs.Prelude.{◌≡◌, [], IfOk};
ghost use Rattle.bound_tree.specs.View.{program_of};
ghost use Rattle.error_handlers.specs.Rows.{AreOfLines, line_rules, resumables};

use crate::resuming::resumables;
use crate::rows::bodies_rules;
use bound_tree::{Bound, HandlerFacts, Marks, RuleSet, bound_lines};
use std::alloc::Global;
use up_base::{Issues, Mem, Sequence};

/// For each procedure whether it goes on after an error, and for each code line which of the rules 14 and 15 it breaks. The list of
/// issues is left empty: it is made from the marks of all analyses.
pub fn analyse_handlers(alloc: Global, bound: &Bound) -> Result<HandlerFacts, Mem>
    ensures resumable { IfOk result (λ f. f.resumable ≡ resumables (program_of bound.now)) }
    ensures marks { IfOk result (λ f. AreOfLines f.marks (line_rules (program_of bound.now))) }
    ensures issues { IfOk result (λ f. f.issues ≡ []) }
{
    let lines = bound_lines(alloc, bound)?;
    let resumable = resumables(alloc, &lines)?;
    let sets = bodies_rules(alloc, &bound.declared, &lines)?;
    Ok(HandlerFacts {
        resumable: Sequence::from_vec(resumable),
        marks: line_marks(alloc, sets),
        issues: Issues::new(alloc),
    })
}

// The marks of code lines alone.
fn line_marks(alloc: Global, sets: Vec<Sequence<RuleSet>>) -> Marks
    ensures { AreOfLines result sets.items }
{
    Marks {
        lines: Sequence::from_vec(sets),
        heads: Sequence::new(alloc),
        vars: Sequence::new(alloc),
        consts: Sequence::new(alloc),
        types: Sequence::new(alloc),
        enums: Sequence::new(alloc),
    }
}
