//! The standard output.
ghost use Rattle.std.specs.Prelude.{◌≡◌, ◌≤◌, ℕ, None, OnOk, OnErr};
ghost use Rattle.up_base.specs.MemoryTwins.{next};

use crate::{Console, Failed};
use std::io;
use std::io::Write;
use std::marker::Model;

/// The standard output. It tells nothing of what was said. Contracts see it as the count of its failed calls.
#[derive(Drop)]
pub struct OutConsole<R> {
    rt: R,
    faults: u64,
}

impl<R> Model for OutConsole<R> {
    ghost Value = { ℕ };

    ghost view = { λ c. c.faults };
}

impl<R> OutConsole<R> {
    /// The standard output, of which no call has failed yet.
    pub fn new(rt: R) -> OutConsole<R>
        ensures { result ≡ 0 }
    {
        OutConsole { rt, faults: 0 }
    }
}

impl<R: Print> Console for OutConsole<R> {
    ghost said = { λ _. None };

    ghost faults = { λ c. c };

    ghost calls = { λ _. None };

    fn say(&mut self, bytes: &[u8]) -> Result<(), Failed>
        ensures failed { OnErr result (self.new ≡ next self.old) }
        ensures ok { OnOk result (self.new ≡ self.old) }
        ensures faults { self.old ≤ self.new }
    {
        if write_whole(&self.rt, bytes).is_err() {
            self.faults = self.faults.saturating_add(1);
            return Err(Failed);
        }
        Ok(())
    }
}

// Writes the bytes to the standard output.
fn write_whole<R: Print>(rt: &R, bytes: &[u8]) -> io::Result<()> {
    let mut out = io::writer(rt);
    out.write_all(bytes)?;
    out.flush()
}
