//! Numbers from which chains of pairs lead to a number of a list, whatever the numbers are.
ghost use Rattle.std.specs.Prelude.{◌≡◌, ◌+◌, ◌↔◌, ℕ, IfOk, IsTrue, max};
ghost use Rattle.reach_table.specs.Chains.{is_marked};
ghost use Rattle.clean_procedures.specs.Reaching.{LeadTo, greatest_number, greatest_pair};

use crate::numbers::sum;
use bound_facts::leading_to;
use std::alloc::Global;
use up_base::Mem;

fn greater(a: u32, b: u32) -> u32
    ensures { result ≡ max a b }
{
    if a < b { b } else { a }
}

// The greatest number of pairs, 0 where there are none.
fn greatest_pair(pairs: &[(u32, u32)]) -> u32
    ensures { result ≡ greatest_pair pairs.now }
{
    let mut most = 0;
    for p in pairs {
        most = greater(most, greater(p.0, p.1));
    }
    most
}

// The greatest number of a list, 0 where it is empty.
fn greatest_number(list: &[u32]) -> u32
    ensures { result ≡ greatest_number list.now }
{
    let mut most = 0;
    for n in list {
        most = greater(most, *n);
    }
    most
}

// A number above all of them.
fn above(pairs: &[(u32, u32)], list: &[u32]) -> Result<u32, Mem>
    ensures { IfOk result (λ n. n ≡ max (greatest_pair pairs.now) (greatest_number list.now) + 1) }
{
    Ok(sum(greater(greatest_pair(pairs), greatest_number(list)), 1)?)
}

/// For each number whether a chain of pairs, perhaps an empty one, leads from it to a number of the list.
pub(crate) fn leading(alloc: Global, pairs: &[(u32, u32)], list: &[u32]) -> Result<Vec<bool>, Mem>
    ensures { IfOk result (λ flags. (n : ℕ) → IsTrue (is_marked flags.items n) ↔ LeadTo pairs.now list.now n) }
{
    let nodes = above(pairs, list)?;
    Ok(leading_to(alloc, nodes, pairs, list)?)
}
