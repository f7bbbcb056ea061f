//! The parts that the chains of pairs connect.
ghost use Rattle.std.specs.Prelude.{◌≡◌, ℕ, ◌+◌, ◌<◌, ◌≤◌, length, IfOk, OnOk, All, EachIndex, slice_index, if◌then◌else◌};
ghost use Rattle.reach_table.specs.Chains.{Chain, IsLeast, IsSymmetric};
ghost use Rattle.reach_table.specs.Worklists.{HasParts, has, total_degree};

use crate::reach::follow_all;
use crate::worklist::Worklist;
use crate::{Arrows, Steps};
use std::alloc::Global;
use std::sync::ledger::Ledger;
use up_base::Mem;

/// For each node the least node that a chain of pairs, perhaps an empty one, leads to from it, where with each pair
/// its reverse is in the table. It reads each pair at most once. Want of memory is its only failure.
pub fn parts<L: Ledger>(
    alloc: Global,
    arrows: &Arrows,
    steps: &mut Steps<L>,
) -> Result<Vec<u32>, Mem>
    requires { IsSymmetric arrows.now.pairs }
    ensures len { IfOk result (λ least. length least.items ≡ arrows.now.nodes) }
    ensures least { IfOk result (λ least. EachIndex least.items (λ node.
        IsLeast (Chain arrows.now.pairs node) (slice_index least.items node))) }
    ensures steps { steps.new ≤ steps.old + length arrows.now.pairs }
{
    let nodes = arrows.nodes();
    let mut list = Worklist::new(alloc, nodes)?;
    let mut least = vec![in alloc; 0; nodes as usize]?;
    for root in 0..nodes {
        add_part(arrows, root, &mut list, &mut least, steps)?;
    }
    Ok(least)
}

// The part of a node, unless it is a part of a smaller one.
fn add_part<L: Ledger>(
    arrows: &Arrows,
    root: u32,
    list: &mut Worklist,
    least: &mut [u32],
    steps: &mut Steps<L>,
) -> Result<(), Mem>
    requires symmetric { IsSymmetric arrows.now.pairs }
    requires root { root < arrows.now.nodes }
    requires limit { list.old.limit ≡ arrows.now.nodes }
    requires len { length least.old ≡ arrows.now.nodes }
    requires parts { HasParts arrows.now.pairs list.old.nodes least.old root }

    ensures limit { list.new.limit ≡ list.old.limit }
    ensures parts { OnOk result (HasParts arrows.now.pairs list.new.nodes least.new (root + 1)) }

    // A pair is read only where the node that it begins at is followed.
    ensures reads { OnOk result (steps.new + total_degree arrows.now.pairs list.old.nodes
        ≤ steps.old + total_degree arrows.now.pairs list.new.nodes) }
    ensures steps { steps.new + total_degree arrows.now.pairs list.old.nodes
        ≤ steps.old + length arrows.now.pairs }
{
    if list.contains(root) {
        return Ok(());
    }
    let from = list.len();
    list.insert(root)?;
    follow_all(arrows, list, from, steps)?;
    set_all(least, list.rest(from), root);
    Ok(())
}

// Gives each of these nodes the same least one.
fn set_all(least: &mut [u32], nodes: &[u32], root: u32)
    requires { All (λ n. n < length least.old) nodes.now }
    ensures { EachIndex least.new (λ n. slice_index least.new n
        ≡ (if has nodes.now n then root else slice_index least.old n)) }
{
    for node in nodes {
        least[*node as usize] = root;
    }
}
