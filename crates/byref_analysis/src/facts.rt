//! The facts of a project: what its lines give, and what chains of calls tell from it.
ghost use Rattle.std.specs.Prelude.{◌≡◌, ◌↔◌, ◌&&◌, ℕ, IfOk, IsTrue, nat_lt};
ghost use Rattle.reach_table.specs.Chains.{is_marked};
ghost use Rattle.bound_facts.specs.Calls.{calls, count_procedures, count_variables};
ghost use Rattle.bound_facts.specs.Effects.{outward, touched};
ghost use Rattle.bound_facts.specs.Facts.{ReachesOutward};
ghost use Rattle.bound_facts.specs.Leading.{is_in};
ghost use Rattle.bound_facts.specs.SelfMade.{unplain};
ghost use Rattle.byref_analysis.specs.FactsOf.{known_of, seen};
ghost use Rattle.byref_analysis.specs.Tests.{Tells};

use crate::acting::Outward;
use crate::calls::Calls;
use crate::numbers::index;
use crate::self_made::Unplain;
use crate::touched::Touched;
use bound_facts::{leading_to, marks_of, push_items};
use bound_tree::{Declared, LineRef};
use std::alloc::Global;
use up_base::Mem;

/// Flags of procedures and variables.
#[derive(Drop)]
pub(crate) struct Facts {
    /// For each procedure whether it isn't inward.
    pub outward: Vec<bool>,
    /// For each variable whether it is changed, a part of it is, or it is passed on by reference.
    pub touched: Vec<bool>,
    /// For each procedure whether it has a line that may not stand in the initializer of a self-made class.
    pub unplain: Vec<bool>,
}

/// The pairs of procedures of which the first leads directly to the second.
pub(crate) fn calls_of(
    alloc: Global,
    declared: &Declared,
    lines: &[Vec<LineRef>],
) -> Result<Vec<(u32, u32)>, Mem>
    ensures { IfOk result (λ v. v.items ≡ calls (seen declared.now lines.now)) }
{
    let mut pairs = Vec::new(alloc);
    push_items(alloc, lines, &Calls { declared }, &mut pairs)?;
    Ok(pairs)
}

fn outward_of(alloc: Global, declared: &Declared, lines: &[Vec<LineRef>]) -> Result<Vec<u32>, Mem>
    ensures { IfOk result (λ v. v.items ≡ outward (seen declared.now lines.now)) }
{
    let mut list = Vec::new(alloc);
    push_items(alloc, lines, &Outward { alloc, declared }, &mut list)?;
    Ok(list)
}

fn touched_of(alloc: Global, declared: &Declared, lines: &[Vec<LineRef>]) -> Result<Vec<u32>, Mem>
    ensures { IfOk result (λ v. v.items ≡ touched (seen declared.now lines.now)) }
{
    let mut list = Vec::new(alloc);
    push_items(alloc, lines, &Touched { alloc }, &mut list)?;
    Ok(list)
}

fn unplain_of(alloc: Global, declared: &Declared, lines: &[Vec<LineRef>]) -> Result<Vec<u32>, Mem>
    ensures { IfOk result (λ v. v.items ≡ unplain (seen declared.now lines.now)) }
{
    let mut list = Vec::new(alloc);
    push_items(alloc, lines, &Unplain { alloc, declared }, &mut list)?;
    Ok(list)
}

fn outward_flags(
    alloc: Global,
    declared: &Declared,
    lines: &[Vec<LineRef>],
    pairs: &[(u32, u32)],
) -> Result<Vec<bool>, Mem>
    requires { pairs.now ≡ calls (seen declared.now lines.now) }
    ensures { IfOk result (λ v. (p : ℕ) → IsTrue (is_marked v.items p) ↔ ReachesOutward (seen declared.now lines.now) p) }
{
    let list = outward_of(alloc, declared, lines)?;
    let count = index(declared.procs.len())?;
    Ok(leading_to(alloc, count, pairs, &list)?)
}

fn touched_flags(
    alloc: Global,
    declared: &Declared,
    lines: &[Vec<LineRef>],
) -> Result<Vec<bool>, Mem>
    ensures { IfOk result (λ m. (v : ℕ) → is_marked m.items v ≡ (nat_lt v (count_variables (seen declared.now lines.now)) && is_in (touched (seen declared.now lines.now)) v)) }
{
    let list = touched_of(alloc, declared, lines)?;
    let count = index(declared.vars.len())?;
    Ok(marks_of(alloc, count, &list)?)
}

fn unplain_flags(
    alloc: Global,
    declared: &Declared,
    lines: &[Vec<LineRef>],
) -> Result<Vec<bool>, Mem>
    ensures { IfOk result (λ m. (p : ℕ) → is_marked m.items p ≡ (nat_lt p (count_procedures (seen declared.now lines.now)) && is_in (unplain (seen declared.now lines.now)) p)) }
{
    let list = unplain_of(alloc, declared, lines)?;
    let count = index(declared.procs.len())?;
    Ok(marks_of(alloc, count, &list)?)
}

/// The flags of a project with these calls.
pub(crate) fn facts_of(
    alloc: Global,
    declared: &Declared,
    lines: &[Vec<LineRef>],
    pairs: &[(u32, u32)],
) -> Result<Facts, Mem>
    requires { pairs.now ≡ calls (seen declared.now lines.now) }
    ensures { IfOk result (λ f. Tells (seen declared.now lines.now) (known_of f)) }
{
    let outward = outward_flags(alloc, declared, lines, pairs)?;
    let touched = touched_flags(alloc, declared, lines)?;
    let unplain = unplain_flags(alloc, declared, lines)?;
    Ok(Facts {
        outward,
        touched,
        unplain,
    })
}
