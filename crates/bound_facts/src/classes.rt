//! The classes that pairs connect.
ghost use Rattle.std.specs.Prelude.{◌≡◌, ℕ, ◌<◌, ◌↔◌, length, IfOk, EachIndex, slice_index};
ghost use Rattle.std.specs.List.{flat_map};
ghost use Rattle.reach_table.specs.Chains.{Chain, IsLeast, IsSymmetric};
ghost use Rattle.reach_table.specs.Table.{IsBelow};
ghost use Rattle.bound_facts.specs.Leading.{within, both_ways, Tied};

use crate::backward::table;
use reach_table::{Arrows, Steps, parts};
use std::alloc::Global;
use std::marker::Brand;
use std::sync::ledger::{Blank, Ledger};
use up_base::Mem;

/// For each node a number that is the same for those that a chain of pairs, in either direction, leads to, and for
/// no other.
pub fn classes_of(alloc: Global, nodes: u32, pairs: &[(u32, u32)]) -> Result<Vec<u32>, Mem>
    ensures len { IfOk result (λ classes. length classes.items ≡ nodes) }
    ensures below { IfOk result (λ classes. (a : ℕ) → a < nodes → slice_index classes.items a < nodes) }
    ensures same { IfOk result (λ classes. (a b : ℕ) → a < nodes → b < nodes →
        (slice_index classes.items a ≡ slice_index classes.items b) ↔ Tied nodes pairs.now a b) }
{
    let both = both_ways_within(alloc, nodes, pairs)?;
    let arrows = table(alloc, nodes, &both)?;
    Ok(parts_on::<Brand>(alloc, &arrows, Blank::new(1))?)
}

// Its steps are counted on a ledger of its own.
fn parts_on<L: Ledger>(alloc: Global, arrows: &Arrows, blank: Blank) -> Result<Vec<u32>, Mem>
    requires name { blank.name ≡ L.name }
    requires parts { blank.parts ≡ L.parts }
    requires some { 0 < blank.parts }
    requires symmetric { IsSymmetric arrows.now.pairs }
    ensures len { IfOk result (λ least. length least.items ≡ arrows.now.nodes) }
    ensures least { IfOk result (λ least. EachIndex least.items (λ node. IsLeast (Chain arrows.now.pairs node) (slice_index least.items node))) }
{
    Ok(parts(alloc, arrows, &mut Steps::<L>::new(blank))?)
}

// The pairs of nodes, each followed by itself turned round.
fn both_ways_within(alloc: Global, nodes: u32, pairs: &[(u32, u32)]) -> Result<Vec<(u32, u32)>, Mem>
    ensures { IfOk result (λ v. v.items ≡ both_ways (within nodes pairs.now)) }
{
    let mut all = Vec::new(alloc);
    for p in pairs {
        if p.0 < nodes && p.1 < nodes {
            all.push(*p)?;
            all.push((p.1, p.0))?;
        }
    }
    Ok(all)
}
