//! The issues of marks, one after the other.
ghost use Rattle.std.specs.Prelude.{◌≡◌, ◌++◌, OnOk, map, slice_get};
ghost use Rattle.issue_sets.specs.Found.{all_issues, groups_from, issues_at, issues_from, pass_issues, set_issues};
ghost use Rattle.issue_sets.specs.Marked.{or_empty};
ghost use Rattle.issue_sets.specs.Places.{items_of, shown_marks, shown_places};

use crate::places::PlaceLists;
use bound_tree::{Marks, RuleSet, all_rules};
use up_base::{Issue, Mem, Place, Sequence};

/// Appends an issue at a place for each rule of a set.
pub fn push_set(place: Place, set: RuleSet, to: &mut Vec<Issue>) -> Result<(), Mem>
    ensures { OnOk result (to.new.items ≡ to.old.items ++ set_issues place set) }
{
    let rules = all_rules();
    for rule in &rules {
        if set.has(*rule) {
            to.push(Issue { place, rule: *rule })?;
        }
    }
    Ok(())
}

// The set with a number, where there is one.
fn set_at(sets: &[RuleSet], i: usize) -> Option<RuleSet>
    ensures { result ≡ slice_get sets.now i }
{
    sets.get(i).copied()
}

fn push_at(place: Place, set: Option<RuleSet>, to: &mut Vec<Issue>) -> Result<(), Mem>
    ensures { OnOk result (to.new.items ≡ to.old.items ++ issues_at place set) }
{
    match set {
        None => Ok(()),
        Some(set) => Ok(push_set(place, set, to)?),
    }
}

fn push_group(sets: &[RuleSet], places: &[Place], to: &mut Vec<Issue>) -> Result<(), Mem>
    ensures { OnOk result (to.new.items ≡ to.old.items ++ issues_from sets.now 0 places.now) }
{
    for (i, place) in places.iter().enumerate() {
        push_at(*place, set_at(sets, i), to)?;
    }
    Ok(())
}

// The sets of the procedure with a number, and none where there is no such list.
fn sets_at(sets: &[Sequence<RuleSet>], i: usize) -> &[RuleSet]
    ensures { result.now ≡ or_empty (slice_get sets.now i) }
{
    match sets.get(i) {
        Some(group) => group.as_slice(),
        None => &[],
    }
}

fn push_groups(
    sets: &[Sequence<RuleSet>],
    places: &[Vec<Place>],
    to: &mut Vec<Issue>,
) -> Result<(), Mem>
    ensures { OnOk result (to.new.items ≡ to.old.items ++ groups_from sets.now 0 (map items_of places.now)) }
{
    for (i, group) in places.iter().enumerate() {
        push_group(sets_at(sets, i), group, to)?;
    }
    Ok(())
}

fn push_pass(places: &PlaceLists, marks: &Marks, to: &mut Vec<Issue>) -> Result<(), Mem>
    ensures { OnOk result (to.new.items ≡ to.old.items ++ pass_issues (shown_places places.now) marks.now) }
{
    push_groups(marks.lines.as_slice(), &places.lines, to)?;
    push_group(marks.heads.as_slice(), &places.heads, to)?;
    push_group(marks.vars.as_slice(), &places.vars, to)?;
    push_group(marks.consts.as_slice(), &places.consts, to)?;
    push_group(marks.types.as_slice(), &places.types, to)?;
    push_group(marks.enums.as_slice(), &places.enums, to)?;
    Ok(())
}

/// Appends the issues of the marks of several passes.
pub(crate) fn push_all(
    places: &PlaceLists,
    marks: &[&Marks],
    to: &mut Vec<Issue>,
) -> Result<(), Mem>
    ensures { OnOk result (to.new.items ≡ to.old.items ++ all_issues (shown_places places.now) (map shown_marks marks.now)) }
{
    for one in marks {
        push_pass(places, one, to)?;
    }
    Ok(())
}
