//! The calls in order.
ghost use Rattle.std.specs.Prelude.{◌≡◌, ◌↔◌, ℕ, IfOk, map};
ghost use Rattle.std.specs.List.{AllPairs, Contains};
ghost use Rattle.reach_table.specs.Table.{IsBefore};
ghost use Rattle.byref_analysis.specs.Rows.{numbers_of};

use std::alloc::Global;
use up_base::Mem;
use vb_tree::ProcId;

fn sorted_pairs(alloc: Global, pairs: &[(u32, u32)]) -> Result<Vec<(u32, u32)>, Mem>
    ensures sorted { IfOk result (λ v. AllPairs IsBefore v.items) }
    ensures pairs { IfOk result (λ v. (p : ℕ × ℕ) → Contains v.items p ↔ Contains pairs.now p) }
{
    let mut sorted = Vec::from_slice(alloc, pairs)?;
    sorted.sort_unstable();
    sorted.dedup();
    Ok(sorted)
}

fn as_ids(alloc: Global, pairs: &[(u32, u32)]) -> Result<Vec<(ProcId, ProcId)>, Mem>
    ensures { IfOk result (λ v. map numbers_of v.items ≡ pairs.now) }
{
    let mut ids = Vec::new(alloc);
    for p in pairs {
        ids.push((ProcId(p.0), ProcId(p.1)))?;
    }
    Ok(ids)
}

/// Pairs of procedures in ascending order, each once.
pub(crate) fn sorted_calls(
    alloc: Global,
    pairs: &[(u32, u32)],
) -> Result<Vec<(ProcId, ProcId)>, Mem>
    ensures sorted { IfOk result (λ v. AllPairs IsBefore (map numbers_of v.items)) }
    ensures exact { IfOk result (λ v. (p : ℕ × ℕ) → Contains (map numbers_of v.items) p ↔ Contains pairs.now p) }
{
    let sorted = sorted_pairs(alloc, pairs)?;
    Ok(as_ids(alloc, &sorted)?)
}
