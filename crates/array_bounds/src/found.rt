//! The lower bounds and the rank of each array.
ghost use Rattle.std.specs.Prelude.{◌≡◌, ◌++◌, IfOk, OnOk, map, min};
ghost use Rattle.bound_tree.specs.View.{variable_of};
ghost use Rattle.array_bounds.specs.FactsOf.{known_of};
ghost use Rattle.array_bounds.specs.Found.{low_entry, low_item, low_items, rank_entry, rank_item, rank_items, second_low};

use crate::facts::Facts;
use crate::numbers::index;
use bound_facts::is_array_type;
use bound_tree::VarDecl;
use std::alloc::Global;
use up_base::Mem;
use vb_tree::VarId;

fn second_low(facts: &Facts, k: usize) -> i32
    ensures { result ≡ second_low (known_of facts.now) k }
{
    if facts.bounds.rank(k) == 1 {
        0
    } else {
        facts.bounds.low(facts.declared, 1, k)
    }
}

fn push_low(facts: &Facts, k: usize, to: &mut Vec<(VarId, i32, i32)>) -> Result<(), Mem>
    ensures { OnOk result (to.new.items ≡ to.old.items ++ low_entry (known_of facts.now) k) }
{
    let id = index(k)?;
    let first = facts.bounds.low(facts.declared, 0, k);
    let second = second_low(facts, k);
    Ok(to.push((VarId(id), first, second))?)
}

fn push_low_of(
    facts: &Facts,
    k: usize,
    v: &VarDecl,
    to: &mut Vec<(VarId, i32, i32)>,
) -> Result<(), Mem>
    ensures { OnOk result (to.new.items ≡ to.old.items ++ low_item (known_of facts.now) k (variable_of v.now)) }
{
    if !is_array_type(&v.ty) {
        return Ok(());
    }
    Ok(push_low(facts, k, to)?)
}

/// The lower bounds of each array in the first and in the second dimension.
pub(crate) fn low_items(
    alloc: Global,
    facts: &Facts,
    vars: &[VarDecl],
) -> Result<Vec<(VarId, i32, i32)>, Mem>
    ensures { IfOk result (λ v. v.items ≡ low_items (known_of facts.now) 0 (map variable_of vars.now)) }
{
    let mut all = Vec::new(alloc);
    for (k, v) in vars.iter().enumerate() {
        push_low_of(facts, k, v, &mut all)?;
    }
    Ok(all)
}

// A rank as it is kept.
fn kept_rank(rank: u32) -> u8
    ensures { result ≡ min rank 255 }
{
    if rank < 255 { rank as u8 } else { 255 }
}

fn push_rank(facts: &Facts, k: usize, to: &mut Vec<(VarId, u8)>) -> Result<(), Mem>
    ensures { OnOk result (to.new.items ≡ to.old.items ++ rank_entry (known_of facts.now) k) }
{
    let id = index(k)?;
    Ok(to.push((VarId(id), kept_rank(facts.bounds.rank(k))))?)
}

fn push_rank_of(facts: &Facts, k: usize, v: &VarDecl, to: &mut Vec<(VarId, u8)>) -> Result<(), Mem>
    ensures { OnOk result (to.new.items ≡ to.old.items ++ rank_item (known_of facts.now) k (variable_of v.now)) }
{
    if !is_array_type(&v.ty) {
        return Ok(());
    }
    Ok(push_rank(facts, k, to)?)
}

/// The rank of each array.
pub(crate) fn rank_items(
    alloc: Global,
    facts: &Facts,
    vars: &[VarDecl],
) -> Result<Vec<(VarId, u8)>, Mem>
    ensures { IfOk result (λ v. v.items ≡ rank_items (known_of facts.now) 0 (map variable_of vars.now)) }
{
    let mut all = Vec::new(alloc);
    for (k, v) in vars.iter().enumerate() {
        push_rank_of(facts, k, v, &mut all)?;
    }
    Ok(all)
}
