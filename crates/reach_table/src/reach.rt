//! Which nodes the chains from marked nodes lead to.
ghost use Rattle.std.specs.Prelude.{◌≡◌, ℕ, ◌+◌, ◌<◌, ◌≤◌, ◌↔◌, length, take, drop, IsTrue, IfOk, OnOk};
ghost use Rattle.std.specs.List.{Contains};
ghost use Rattle.reach_table.specs.Chains.{Spread, is_marked};
ghost use Rattle.reach_table.specs.Worklists.{FollowedTo, GrowsBy, HasNext, IsFollowed, IsReachedFrom, has, out_degree, total_degree};

use crate::worklist::Worklist;
use crate::{Arrows, Steps};
use std::alloc::Global;
use std::sync::ledger::Ledger;
use up_base::Mem;

/// Whether a chain of pairs, perhaps an empty one, leads from a marked node to each node. It reads each pair at most
/// once. Want of memory is its only failure.
pub fn spread<L: Ledger>(
    alloc: Global,
    arrows: &Arrows,
    marked: &[bool],
    steps: &mut Steps<L>,
) -> Result<Vec<bool>, Mem>
    requires { length marked.now ≡ arrows.now.nodes }
    ensures len { IfOk result (λ reached. length reached.items ≡ arrows.now.nodes) }
    ensures spread { IfOk result (λ reached. (node : ℕ) →
        IsTrue (is_marked reached.items node) ↔ Spread arrows.now.pairs marked.now node) }
    ensures steps { steps.new ≤ steps.old + length arrows.now.pairs }
{
    let mut list = marked_nodes(alloc, arrows.nodes(), marked)?;
    follow_all(arrows, &mut list, 0, steps)?;
    Ok(list.into_marks())
}

// The marked nodes of those below the limit.
fn marked_nodes(alloc: Global, limit: u32, marked: &[bool]) -> Result<Worklist, Mem>
    requires { length marked.now ≡ limit }
    ensures limit { IfOk result (λ list. list.limit ≡ limit) }
    ensures nodes { IfOk result (λ list. (node : ℕ) → has list.nodes node ≡ is_marked marked.now node) }
{
    let mut list = Worklist::new(alloc, limit)?;
    for (node, is_marked) in marked.iter().enumerate() {
        if *is_marked {
            list.insert(node as u32)?;
        }
    }
    Ok(list)
}

// Follows the pairs from each node of the list from a place on, those that come in on the way included.
pub(crate) fn follow_all<L: Ledger>(
    arrows: &Arrows,
    list: &mut Worklist,
    from: usize,
    steps: &mut Steps<L>,
) -> Result<(), Mem>
    requires limit { list.old.limit ≡ arrows.now.nodes }
    requires from { from ≤ length list.old.nodes }
    requires followed { FollowedTo arrows.now.pairs list.old.nodes from }

    ensures grows { GrowsBy (IsReachedFrom arrows.now.pairs (drop from list.old.nodes)) list.old list.new }
    ensures followed { OnOk result (IsFollowed arrows.now.pairs list.new.nodes) }

    // A pair is read only where the node that it begins at is followed.
    ensures reads { OnOk result (steps.new + total_degree arrows.now.pairs (take from list.old.nodes)
        ≤ steps.old + total_degree arrows.now.pairs list.new.nodes) }
    ensures steps { steps.new + total_degree arrows.now.pairs (take from list.old.nodes)
        ≤ steps.old + length arrows.now.pairs }
{
    let mut place = from;
    while place < list.len() {
        follow(arrows, list.at(place), list, steps)?;
        place += 1;
    }
    Ok(())
}

// Puts the nodes into the list that a pair from this one leads to.
fn follow<L: Ledger>(
    arrows: &Arrows,
    node: u32,
    list: &mut Worklist,
    steps: &mut Steps<L>,
) -> Result<(), Mem>
    requires node { node < arrows.now.nodes }
    requires limit { list.old.limit ≡ arrows.now.nodes }
    ensures grows { GrowsBy (λ next. Contains arrows.now.pairs (node, next)) list.old list.new }
    ensures followed { OnOk result (HasNext arrows.now.pairs list.new.nodes node) }
    ensures steps { steps.new ≤ steps.old + out_degree arrows.now.pairs node }
{
    let (first, number) = arrows.run_of(node);
    for k in first..first + number {
        let (_, next) = arrows.at(k, steps);
        list.insert(next)?;
    }
    Ok(())
}
