//! The counts that a kind in memory keeps of its calls.
ghost use Rattle.std.specs.Prelude.{◌≡◌, ◌≤◌, ◌||◌, not, nat_eq};
ghost use Rattle.std.specs.List.{list_any};
ghost use Rattle.up_base.specs.MemoryTwins.{no_calls, is_listed, with_call};

use std::marker::Model;

/// How many calls there were and how many of them failed, with the numbers from 1 of the calls that are to fail.
#[derive(Drop)]
pub(crate) struct CallCounts {
    failing: Vec<u32>,
    made: u64,
    faults: u64,
}

impl Model for CallCounts {
    ghost use Rattle.up_base.specs.MemoryTwins.{Calls};

    ghost Value = { Calls };

    ghost view = { λ c. record { failing = c.failing.items; made = c.made; faults = c.faults } };
}

impl CallCounts {
    /// No call yet.
    pub(crate) fn new(failing: Vec<u32>) -> Self
        ensures { result ≡ no_calls failing.items }
    {
        CallCounts {
            failing,
            made: 0,
            faults: 0,
        }
    }

    /// Counts a call, and says whether it fails: it does where it is to fail, and where there is no room for it.
    pub(crate) fn count(&mut self, has_room: bool) -> bool
        ensures fails { result ≡ (is_listed self.old || not has_room) }
        ensures counted { self.new ≡ with_call self.old result }
        ensures never_falls { self.old.faults ≤ self.new.faults }
    {
        self.made = self.made.saturating_add(1);
        let fails = contains(&self.failing, self.made) || !has_room;
        if fails {
            self.faults = self.faults.saturating_add(1);
        }
        fails
    }
}

// Whether the number is in the list.
fn contains(numbers: &[u32], number: u64) -> bool
    ensures { result ≡ list_any (λ n. nat_eq n number) numbers.now }
{
    numbers.iter().any(|n| u64::from(*n) == number)
}
