//! The rules that a project breaks, and where.
ghost use Rattle.std.specs.Prelude.{◌≡◌, ◌==◌, true, List, [], ◌∷◌, ◌++◌, length, OnOk, OnErr, slice_get};
ghost use Rattle.std.specs.Option.{option_copied};
ghost use Rattle.up_base.specs.Issues.{are_ascending, is_last_before};

use crate::{Mem, Place};
use std::alloc::Global;
use std::marker::Model;

/// A broken rule at a place. The rules have the numbers 1 to 26, and 99.
#[derive(Clone, Copy, Debug, PartialEq, Eq, PartialOrd, Ord)]
pub struct Issue {
    pub place: Place,
    pub rule: u8,
}

/// Issues in strict ascending order of file, then line, then rule. Contracts see it as the list of its issues.
#[derive(Drop)]
pub struct Issues {
    items: Vec<Issue>,
}

impl Model for Issues {
    ghost use Rattle.std.specs.Prelude.{◌≡◌, true, List};
    ghost use Rattle.up_base.specs.declared.issue.Issue.{Issue};
    ghost use Rattle.up_base.specs.Issues.{are_ascending};

    ghost Value = { List Issue };

    ghost view = { λ i. i.items.items };

    ghost invariant = { λ i. are_ascending i.items.items ≡ true };
}

impl Issues {
    /// The empty list. It takes no memory.
    pub fn new(alloc: Global) -> Issues
        ensures { result ≡ [] }
    {
        Issues {
            items: Vec::new(alloc),
        }
    }

    /// The list of issues that are known to stand in their order. It takes no memory.
    pub fn from_vec(items: Vec<Issue>) -> Issues
        requires { are_ascending items.items ≡ true }
        ensures { result ≡ items.items }
    {
        Issues { items }
    }

    /// Appends an issue that comes after the last one. Want of memory is its only failure, and then the list stays as
    /// it was.
    #[tactic(auto, using(crate::proofs::Ascending::are_ascending_push))]
    pub fn push(&mut self, item: Issue) -> Result<(), Mem>
        requires { is_last_before self.old item ≡ true }
        ensures ok { OnOk result (self.new ≡ self.old ++ item ∷ []) }
        ensures err { OnErr result (self.new ≡ self.old) }
    {
        self.items.push(item)?;
        Ok(())
    }

    /// Whether an issue comes after the last one, where there is one.
    #[tactic(auto, using(crate::proofs::Ascending::is_last_before_at, crate::proofs::Ascending::partial_lt_issue))]
    pub fn is_last_before(&self, item: Issue) -> bool
        ensures { result ≡ is_last_before self.now item }
    {
        match self.items.last() {
            Some(last) => *last < item,
            None => true,
        }
    }

    /// The issues as a slice.
    pub fn as_slice(&self) -> &[Issue]
        ensures issues { result.now ≡ self.now }
        ensures ascending { are_ascending self.now ≡ true }
    {
        self.items.as_slice()
    }

    /// The number of issues.
    pub fn len(&self) -> usize
        ensures { result ≡ length self.now }
    {
        self.items.len()
    }

    /// Whether there is no issue.
    pub fn is_empty(&self) -> bool
        ensures { result ≡ (length self.now == 0) }
    {
        self.items.is_empty()
    }

    /// The issue at a place in the list, counted from 0, and none where the place isn't below the length.
    pub fn get(&self, at: usize) -> Option<&Issue>
        ensures { option_copied result ≡ slice_get self.now at }
    {
        self.items.get(at)
    }
}
