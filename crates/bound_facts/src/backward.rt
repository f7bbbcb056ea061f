//! From which nodes chains of pairs lead to marked ones.
ghost use Rattle.std.specs.Prelude.{◌≡◌, ◌<◌, ℕ, ◌↔◌, length, map, IfOk, IsTrue, Contains, All};
ghost use Rattle.reach_table.specs.Chains.{Spread, is_marked};
ghost use Rattle.reach_table.specs.Table.{IsBelow};
ghost use Rattle.bound_facts.specs.Leading.{Leads, within, turned};

use reach_table::{Arrows, Steps, spread};
use std::alloc::Global;
use std::marker::Brand;
use std::sync::ledger::{Blank, Ledger};
use up_base::Mem;

/// For each node whether a chain of pairs, perhaps an empty one, leads from it to a marked node. Pairs with a number
/// that is no node are passed over.
pub fn leading(
    alloc: Global,
    nodes: u32,
    pairs: &[(u32, u32)],
    marked: &[bool],
) -> Result<Vec<bool>, Mem>
    requires { length marked.now ≡ nodes }
    ensures { IfOk result (λ leads. (n : ℕ) → IsTrue (is_marked leads.items n) ↔ Leads (within nodes pairs.now) marked.now n) }
{
    let turned = turned_within(alloc, nodes, pairs)?;
    let arrows = table(alloc, nodes, &turned)?;
    Ok(spread_on::<Brand>(alloc, &arrows, marked, Blank::new(1))?)
}

// Its steps are counted on a ledger of its own.
fn spread_on<L: Ledger>(
    alloc: Global,
    arrows: &Arrows,
    marked: &[bool],
    blank: Blank,
) -> Result<Vec<bool>, Mem>
    requires name { blank.name ≡ L.name }
    requires parts { blank.parts ≡ L.parts }
    requires some { 0 < blank.parts }
    requires marked { length marked.now ≡ arrows.now.nodes }
    ensures { IfOk result (λ reached. (node : ℕ) → IsTrue (is_marked reached.items node) ↔ Spread arrows.now.pairs marked.now node) }
{
    Ok(spread(alloc, arrows, marked, &mut Steps::<L>::new(blank))?)
}

// The pairs of nodes, each turned round.
fn turned_within(alloc: Global, nodes: u32, pairs: &[(u32, u32)]) -> Result<Vec<(u32, u32)>, Mem>
    ensures { IfOk result (λ v. v.items ≡ map turned (within nodes pairs.now)) }
{
    let mut all = Vec::new(alloc);
    for p in pairs {
        if p.0 < nodes && p.1 < nodes {
            all.push((p.1, p.0))?;
        }
    }
    Ok(all)
}

pub(crate) fn table(alloc: Global, nodes: u32, pairs: &[(u32, u32)]) -> Result<Arrows, Mem>
    requires { All (IsBelow nodes) pairs.now }
    ensures nodes { IfOk result (λ arrows. arrows.nodes ≡ nodes) }
    ensures pairs { IfOk result (λ arrows. (p : ℕ × ℕ) → Contains arrows.pairs p ↔ Contains pairs.now p) }
{
    if pairs.len() > 4294967295 {
        return Err(Mem);
    }
    Ok(Arrows::make(alloc, nodes, pairs)?)
}
