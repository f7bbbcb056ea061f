//! Lists of numbers as marks.
ghost use Rattle.std.specs.Prelude.{◌≡◌, ℕ, ◌<◌, ◌↔◌, ◌&&◌, ◌||◌, nat_lt, nat_eq, length, IfOk, IsTrue};
ghost use Rattle.reach_table.specs.Chains.{is_marked};
ghost use Rattle.bound_facts.specs.Leading.{LeadsTo, is_in, within};

use crate::backward::leading;
use std::alloc::Global;
use up_base::Mem;

/// For each number below the given one, whether it is in the list.
pub fn marks_of(alloc: Global, nodes: u32, list: &[u32]) -> Result<Vec<bool>, Mem>
    ensures len { IfOk result (λ marks. length marks.items ≡ nodes) }
    ensures marks { IfOk result (λ marks. (n : ℕ) → is_marked marks.items n ≡ (nat_lt n nodes && is_in list.now n)) }
{
    let mut marks = vec![in alloc; false; nodes as usize]?;
    for n in list {
        mark(&mut marks, *n);
    }
    Ok(marks)
}

fn mark(marks: &mut [bool], n: u32)
    ensures { (m : ℕ) → is_marked marks.new m ≡ (is_marked marks.old m || (nat_lt m (length marks.old) && nat_eq m n)) }
{
    if (n as usize) < marks.len() {
        marks[n as usize] = true;
    }
}

/// For each node whether a chain of pairs, perhaps an empty one, leads from it to a node of the list.
pub fn leading_to(
    alloc: Global,
    nodes: u32,
    pairs: &[(u32, u32)],
    list: &[u32],
) -> Result<Vec<bool>, Mem>
    ensures { IfOk result (λ leads. (n : ℕ) → IsTrue (is_marked leads.items n) ↔ LeadsTo nodes pairs.now list.now n) }
{
    let marked = marks_of(alloc, nodes, list)?;
    Ok(leading(alloc, nodes, pairs, &marked)?)
}
