//! An outlet in memory.
ghost use Rattle.std.specs.Prelude.{◌≡◌, ◌≤◌, ◌↔◌, true, Some, IfOk, IsErr};
ghost use Rattle.std.specs.Option.{option_copied};
ghost use Rattle.up_base.specs.Outside.{Rose, CountsCall, IsPut};
ghost use Rattle.up_base.specs.MemoryTwins.{no_calls, told, no_files, lookup, put_fails, after_put};

use crate::call_counts::CallCounts;
use crate::file_store::FileStore;
use crate::{Failed, Mem, Name, Outlet};
use std::alloc::Global;
use std::marker::Model;

/// An outlet that keeps its files in memory that it takes when it is made. Its calls fail exactly where their numbers
/// are listed or the file does not fit the room that is left.
#[derive(Drop)]
pub struct MemoryOutlet {
    store: FileStore,
    counts: CallCounts,
}

impl Model for MemoryOutlet {
    ghost use Rattle.up_base.specs.MemoryTwins.{OutletState};

    ghost Value = { OutletState };

    ghost view = { λ o. record { store = o.store; calls = o.counts } };
}

impl MemoryOutlet {
    /// An outlet with no file, and with room for as many files and for as many bytes in their names and contents. A
    /// file that is put takes its room for good. `calls` has the numbers, from 1, of the calls that fail.
    pub fn with_room(
        alloc: Global,
        files: u32,
        bytes: u32,
        calls: Vec<u32>,
    ) -> Result<MemoryOutlet, Mem>
        ensures store { IfOk result (λ o. o.store ≡ no_files files bytes) }
        ensures calls { IfOk result (λ o. o.calls ≡ no_calls calls.items) }
    {
        Ok(MemoryOutlet {
            store: FileStore::with_room(alloc, files, bytes)?,
            counts: CallCounts::new(calls),
        })
    }

    /// What the name holds.
    pub fn held(&self, name: &Name) -> Option<&[u8]>
        ensures { option_copied result ≡ lookup self.now.store.files name.now }
    {
        self.store.held(name)
    }
}

impl Outlet for MemoryOutlet {
    ghost held = { λ o. Some (lookup o.store.files) };

    ghost faults = { λ o. o.calls.faults };

    ghost calls = { λ o. told o.calls.made };

    /// A call that fails leaves the name absent.
    fn put_file(&mut self, name: &Name, bytes: &[u8]) -> Result<(), Failed>
        ensures held { IsPut name.now bytes.now result (lookup self.old.store.files) (lookup self.new.store.files) }
        ensures failed { IsErr result → Rose self.old.calls.faults self.new.calls.faults }
        ensures faults { self.old.calls.faults ≤ self.new.calls.faults }
        ensures calls { CountsCall (told self.old.calls.made) (told self.new.calls.made) }
        ensures fails { IsErr result ↔ (put_fails self.old name.now bytes.now ≡ true) }
        ensures after { self.new ≡ after_put self.old name.now bytes.now }
    {
        let has_room = self.store.has_room(name, bytes);
        self.store.remove(name);
        if self.counts.count(has_room) {
            return Err(Failed);
        }
        self.store.append(name, bytes);
        Ok(())
    }
}
