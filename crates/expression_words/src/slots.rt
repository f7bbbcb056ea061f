//! What a parameter is given.
ghost use Rattle.std.specs.Prelude.{◌≡◌, ◌<◌, map, IfOk, OnOk};
ghost use Rattle.bound_tree.specs.Tree.{Passed};
ghost use Rattle.bound_tree.specs.View.{passed_of};
ghost use Rattle.expression_words.specs.Flaws.{breaks, no_flaw};
ghost use Rattle.expression_words.specs.Passing.{all_filled, flawed, is_filled, passed_in, slot_by_value, slot_flaw, slot_flaws_after, with_filled};
ghost use Rattle.expression_words.specs.View.{passed_before, slot_of, typed_of};

use crate::{Flaw, Typed};
use bound_tree::BoundArg;
use std::alloc::Global;
use up_base::Mem;

/// What a parameter is given: an argument, or none and why.
#[derive(Drop)]
pub(crate) enum Slot {
    Filled(BoundArg),
    Flawed(Flaw),
}

impl Slot {
    fn flaw(&self) -> Flaw
        ensures { result ≡ slot_flaw (slot_of self.now) }
    {
        match self {
            Slot::Filled(_) => Flaw::new(),
            Slot::Flawed(flaw) => *flaw,
        }
    }

    fn is_filled(&self) -> bool
        ensures { result ≡ is_filled (slot_of self.now) }
    {
        match self {
            Slot::Filled(_) => true,
            Slot::Flawed(_) => false,
        }
    }

    /// That a rule is broken.
    pub(crate) fn breaks(rule: u8) -> Slot
        requires { rule < 32 }
        ensures { slot_of result ≡ flawed (breaks rule) }
    {
        Slot::Flawed(Flaw::breaks(rule))
    }

    /// A value, where it has a type.
    pub(crate) fn by_value(value: Typed) -> Slot
        ensures { slot_of result ≡ slot_by_value (typed_of value) }
    {
        match value {
            Typed::Known(e) => Slot::Filled(BoundArg::ByValue(e)),
            Typed::Unknown(flaw) => Slot::Flawed(flaw),
        }
    }
}

pub(crate) fn all_filled(slots: &[Slot]) -> bool
    ensures { result ≡ all_filled (map slot_of slots.now) }
{
    for slot in slots {
        if !slot.is_filled() {
            return false;
        }
    }
    true
}

pub(crate) fn flaws_of(slots: &[Slot]) -> Flaw
    ensures { result ≡ slot_flaws_after no_flaw (map slot_of slots.now) }
{
    let mut flaw = Flaw::new();
    for slot in slots {
        flaw = flaw.together(slot.flaw());
    }
    flaw
}

// Puts an argument behind others, if a slot has one.
#[tactic(auto, using(crate::proofs::Pushes::argument_put))]
fn push_filled(slot: Slot, to: &mut Vec<BoundArg>) -> Result<(), Mem>
    ensures { OnOk result ((more : Passed) → passed_before to.new.items more ≡ passed_before to.old.items (with_filled (slot_of slot) more)) }
{
    match slot {
        Slot::Filled(arg) => Ok(to.push(arg)?),
        Slot::Flawed(_) => Ok(()),
    }
}

pub(crate) fn passed_in(alloc: Global, slots: Vec<Slot>) -> Result<Vec<BoundArg>, Mem>
    ensures { IfOk result (λ v. passed_of v.items ≡ passed_in (map slot_of slots.items)) }
{
    let mut args = Vec::new(alloc);
    for slot in slots {
        push_filled(slot, &mut args)?;
    }
    Ok(args)
}
