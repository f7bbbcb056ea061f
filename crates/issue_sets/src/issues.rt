//! The set of issues.
ghost use Rattle.std.specs.Prelude.{◌≡◌, ◌++◌, ◌↔◌, true, IfOk, OnOk, map};
ghost use Rattle.std.specs.List.{Contains};
ghost use Rattle.up_base.specs.Issues.{are_ascending};
ghost use Rattle.up_base.specs.declared.issue.Issue.{Issue};
ghost use Rattle.bound_tree.specs.View.{program_of};
ghost use Rattle.issue_sets.specs.Found.{all_issues};
ghost use Rattle.issue_sets.specs.Marked.{AreIssues};
ghost use Rattle.issue_sets.specs.Places.{places_of, shown_marks};

use crate::found::push_all;
use crate::places::places;
use bound_tree::{Bound, Marks};
use std::alloc::Global;
use up_base::{Issue, Issues, Mem};

/// The issues of a project: one for each rule that some of the marks has at a code line or a declaration, at its place, and the
/// further ones, as those of lines that declare nothing. Each is there once.
pub fn issues_of(
    alloc: Global,
    bound: &Bound,
    marks: &[&Marks],
    further: Vec<Issue>,
) -> Result<Issues, Mem>
    ensures { IfOk result (λ issues. AreIssues (program_of bound.now) (map shown_marks marks.now) further.items issues) }
{
    let mut found = further;
    push_found(alloc, bound, marks, &mut found)?;
    Ok(as_set(found))
}

fn push_found(
    alloc: Global,
    bound: &Bound,
    marks: &[&Marks],
    to: &mut Vec<Issue>,
) -> Result<(), Mem>
    ensures { OnOk result (to.new.items ≡ to.old.items ++ all_issues (places_of (program_of bound.now)) (map shown_marks marks.now)) }
{
    let places = places(alloc, bound)?;
    Ok(push_all(&places, marks, to)?)
}

/// Issues in their order, each once.
pub fn as_set(found: Vec<Issue>) -> Issues
    ensures ascending { are_ascending result ≡ true }
    ensures same { (x : Issue) → Contains result x ↔ Contains found.items x }
{
    let mut issues = found;
    issues.sort_unstable();
    issues.dedup();
    Issues::from_vec(issues)
}
