//! The table of pairs.
ghost use Rattle.std.specs.Prelude.{◌≡◌, ℕ, ◌+◌, ◌^◌, ◌<◌, ◌≤◌, ◌↔◌, length, All, AllPairs, Contains, IfOk, slice_get, count_by};
ghost use Rattle.reach_table.specs.Table.{AreStarts, IsBefore, IsBelow, IsRun, IsTable, begins_at};

use crate::Steps;
use std::alloc::Global;
use std::marker::Model;
use std::sync::ledger::Ledger;
use up_base::Mem;

/// Pairs of nodes, where the nodes are the numbers below a given one. Contracts see it as that number and the list of
/// the pairs, sorted by the first and then by the second number, equal pairs once.
#[derive(Drop)]
pub struct Arrows {
    nodes: u32,
    pairs: Vec<(u32, u32)>,
    // For each node, and for the number of nodes, how many pairs begin at a smaller one.
    starts: Vec<u32>,
}

impl Model for Arrows {
    ghost use Rattle.reach_table.specs.Table.{Table, IsIndexed};

    ghost Value = { Table };

    ghost view = { λ a. record { nodes = a.nodes; pairs = a.pairs.items } };

    ghost invariant = { λ a. IsIndexed a.nodes a.pairs.items a.starts.items };
}

impl Arrows {
    /// The table of these pairs, whose numbers are all below the number of nodes. Want of memory is its only failure.
    pub fn make(alloc: Global, nodes: u32, pairs: &[(u32, u32)]) -> Result<Arrows, Mem>
        requires below { All (IsBelow nodes) pairs.now }
        requires few { length pairs.now < 2 ^ 32 }
        ensures nodes { IfOk result (λ arrows. arrows.nodes ≡ nodes) }
        ensures sorted { IfOk result (λ arrows. AllPairs IsBefore arrows.pairs) }
        ensures pairs { IfOk result (λ arrows. (p : ℕ × ℕ) →
            Contains arrows.pairs p ↔ Contains pairs.now p) }
    {
        let pairs = sorted_pairs(alloc, pairs)?;
        let starts = starts_of(alloc, nodes, &pairs)?;
        Ok(Arrows {
            nodes,
            pairs,
            starts,
        })
    }

    /// The number of nodes.
    pub fn nodes(&self) -> u32
        ensures nodes { result ≡ self.now.nodes }
        ensures table { IsTable self.now }
    {
        self.nodes
    }

    /// The number of pairs.
    pub fn count(&self) -> u32
        ensures { result ≡ length self.now.pairs }
    {
        self.pairs.len() as u32
    }

    /// The place of the first pair that begins at the node, counted from 0, and the number of these pairs. The place
    /// is 0 where there are none.
    pub fn run_of(&self, node: u32) -> (u32, u32)
        requires { node < self.now.nodes }
        ensures run { IsRun self.now.pairs node result.0 result.1 }
        ensures number { result.1 ≡ count_by (begins_at node) self.now.pairs }
        ensures table { IsTable self.now }
    {
        let first = self.starts[node as usize];
        let number = self.starts[node as usize + 1] - first;
        if number == 0 { (0, 0) } else { (first, number) }
    }

    /// The pair at a place, counted from 0. It takes one step, and is the only way to read a pair.
    pub fn at<L: Ledger>(&self, k: u32, steps: &mut Steps<L>) -> (u32, u32)
        requires { k < length self.now.pairs }
        ensures pair { slice_get self.now.pairs k ≡ Some result }
        ensures step { steps.new ≡ steps.old + 1 }
    {
        steps.tick();
        self.pairs[k as usize]
    }
}

// The pairs in order, each once.
fn sorted_pairs(alloc: Global, pairs: &[(u32, u32)]) -> Result<Vec<(u32, u32)>, Mem>
    ensures sorted { IfOk result (λ v. AllPairs IsBefore v.items) }
    ensures pairs { IfOk result (λ v. (p : ℕ × ℕ) → Contains v.items p ↔ Contains pairs.now p) }
    ensures few { IfOk result (λ v. length v.items ≤ length pairs.now) }
{
    let mut sorted = Vec::from_slice(alloc, pairs)?;
    sorted.sort_unstable();
    sorted.dedup();
    Ok(sorted)
}

// For each number up to `nodes`, how many of the sorted pairs begin below it.
fn starts_of(alloc: Global, nodes: u32, pairs: &[(u32, u32)]) -> Result<Vec<u32>, Mem>
    requires sorted { AllPairs IsBefore pairs.now }
    requires few { length pairs.now < 2 ^ 32 }
    ensures { IfOk result (λ starts. AreStarts nodes pairs.now starts.items) }
{
    let mut starts = Vec::new(alloc);
    for node in 0..u64::from(nodes) + 1 {
        starts.push(pairs.partition_point(|p| u64::from(p.0) < node) as u32)?;
    }
    Ok(starts)
}
