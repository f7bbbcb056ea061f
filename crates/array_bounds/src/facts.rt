//! The facts that the rules ask for, gathered once.
ghost use Rattle.std.specs.Prelude.{◌≡◌, ◌↔◌, ℕ, Option, IsTrue, IfOk};
ghost use Rattle.reach_table.specs.Chains.{is_marked};
ghost use Rattle.bound_tree.specs.View.{declarations_of};
ghost use Rattle.bound_facts.specs.Node.{is_array_type};
ghost use Rattle.array_bounds.specs.Elements.{rank_at};
ghost use Rattle.array_bounds.specs.Facts.{AreFactsBy, LocksBy};
ghost use Rattle.array_bounds.specs.FactsOf.{known_of};
ghost use Rattle.array_bounds.specs.Programs.{shown_program};
ghost use Rattle.array_bounds.specs.Types.{Holds, is_made};

use crate::bounds::{ArrayBounds, make_bounds};
use crate::locks::{Lock, make_locks};
use crate::resized::resized_flags;
use crate::types::{Wanted, holders};
use bound_tree::{Declared, LineRef};
use std::alloc::Global;
use up_base::Mem;

/// The facts on arrays.
#[derive(Drop)]
pub(crate) struct Facts<'a> {
    pub declared: &'a Declared,
    pub bounds: ArrayBounds,
    /// Array variables that are made anew, erased or assigned whole, or passed on to a parameter that is.
    pub resized: Vec<bool>,
    /// User types that hold an array.
    pub holds_array: Vec<bool>,
    /// User types that hold an array or a fixed string.
    pub holds_made: Vec<bool>,
    /// The procedures that give arrays other elements, by the type of their elements.
    pub locks: Vec<Lock<'a>>,
}

/// For each user type whether it holds an array, in itself or in the types of its fields.
pub fn array_holders(alloc: Global, declared: &Declared) -> Result<Vec<bool>, Mem>
    ensures { IfOk result (λ v. (t : ℕ) → IsTrue (is_marked v.items t) ↔ Holds (declarations_of declared.now) is_array_type t) }
{
    Ok(holders(alloc, declared, &Wanted::Array)?)
}

/// For each user type whether it holds an array or a fixed string, in itself or in the types of its fields.
pub fn made_holders(alloc: Global, declared: &Declared) -> Result<Vec<bool>, Mem>
    ensures { IfOk result (λ v. (t : ℕ) → IsTrue (is_marked v.items t) ↔ Holds (declarations_of declared.now) is_made t) }
{
    Ok(holders(alloc, declared, &Wanted::Made)?)
}

/// Those of a project, by the pairs of procedures of which the first leads directly to the second.
pub(crate) fn make_facts<'a>(
    alloc: Global,
    declared: &'a Declared,
    lines: &[Vec<LineRef<'a>>],
    pairs: &[(u32, u32)],
) -> Result<Facts<'a>, Mem>
    ensures facts { IfOk result (λ f. AreFactsBy (shown_program declared.now lines.now) (LocksBy (shown_program declared.now lines.now) pairs.now) (known_of f)) }
    ensures declared { IfOk result (λ f. f.declared.now ≡ declared.now) }
{
    let bounds = make_bounds(alloc, declared, lines)?;
    let resized = resized_flags(alloc, declared, lines)?;
    let holds_array = array_holders(alloc, declared)?;
    let holds_made = made_holders(alloc, declared)?;
    let locks = make_locks(alloc, declared, lines, pairs)?;
    Ok(Facts {
        declared,
        bounds,
        resized,
        holds_array,
        holds_made,
        locks,
    })
}

/// The rank of an array; 1 of what no declaration stands for.
pub(crate) fn rank_at(facts: &Facts, array: Option<usize>) -> u32
    ensures { result ≡ rank_at (known_of facts.now) array }
{
    match array {
        Some(a) => facts.bounds.rank(a),
        None => 1,
    }
}
