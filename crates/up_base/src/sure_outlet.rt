//! An outlet in memory that never fails.
ghost use Rattle.std.specs.Prelude.{◌≡◌, IfOk, IsOk};
ghost use Rattle.std.specs.Option.{option_copied};
ghost use Rattle.up_base.specs.Outside.{IfTold, IsPut};
ghost use Rattle.up_base.specs.MemoryTwins.{told, lookup};
ghost use Rattle.up_base.specs.SureTwins.{told_files, new_outlet, after_sure_put};

use crate::file_store::FileStore;
use crate::{Failed, Mem, Name, Outlet};
use std::alloc::Global;
use std::marker::Model;

/// An outlet that keeps its files in memory that it takes when it is made, and never fails. From the first file on that
/// does not fit the room that is left, it keeps nothing more and tells nothing.
#[derive(Drop)]
pub struct SureOutlet {
    store: FileStore,
    is_past: bool,
    made: u64,
}

impl Model for SureOutlet {
    ghost use Rattle.up_base.specs.SureTwins.{SureOutletState};

    ghost Value = { SureOutletState };

    ghost view = { λ o. record { store = o.store; is_past = o.is_past; made = o.made } };
}

impl SureOutlet {
    /// An outlet with no file, and with room for as many files and for as many bytes in their names and contents. A
    /// file that is put takes its room for good.
    pub fn with_room(alloc: Global, files: u32, bytes: u32) -> Result<SureOutlet, Mem>
        ensures { IfOk result (λ o. o ≡ new_outlet files bytes) }
    {
        Ok(SureOutlet {
            store: FileStore::with_room(alloc, files, bytes)?,
            is_past: false,
            made: 0,
        })
    }

    /// What the name holds, of the files that were kept.
    pub fn held(&self, name: &Name) -> Option<&[u8]>
        ensures { option_copied result ≡ lookup self.now.store.files name.now }
    {
        self.store.held(name)
    }
}

impl Outlet for SureOutlet {
    ghost held = { told_files };

    ghost faults = { λ _. 0 };

    ghost calls = { λ o. told o.made };

    fn put_file(&mut self, name: &Name, bytes: &[u8]) -> Result<(), Failed>
        ensures held { IfTold (told_files self.old) (told_files self.new) (IsPut name.now bytes.now result) }
        ensures ok { IsOk result }
        ensures after { self.new ≡ after_sure_put self.old name.now bytes.now }
    {
        self.made = self.made.saturating_add(1);
        self.is_past = self.is_past || !self.store.has_room(name, bytes);
        if !self.is_past {
            self.store.remove(name);
            self.store.append(name, bytes);
        }
        Ok(())
    }
}
