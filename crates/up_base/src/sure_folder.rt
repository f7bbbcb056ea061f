//! A folder in memory that never fails.
ghost use Rattle.std.specs.Prelude.{◌≡◌, true, Some, IfOk, IfErr};
ghost use Rattle.up_base.specs.Outside.{IsFound};
ghost use Rattle.up_base.specs.MemoryTwins.{next, told, are_distinct, lookup};

use crate::memory_folder::read;
use crate::{Bytes, Folder, FolderFail, Found, Name};
use std::alloc::Global;
use std::marker::Model;

/// A folder that holds the files it was made with, and never fails.
#[derive(Drop)]
pub struct SureFolder {
    files: Vec<(Name, Bytes)>,
    made: u64,
}

impl Model for SureFolder {
    ghost use Rattle.up_base.specs.SureTwins.{SureFolderState};

    ghost Value = { SureFolderState };

    ghost view = { λ f. record { files = f.files.items; made = f.made } };
}

impl SureFolder {
    /// The folder of these files, whose names differ character by character. It takes no memory.
    pub fn make(files: Vec<(Name, Bytes)>) -> SureFolder
        requires { are_distinct files.items ≡ true }
        ensures files { result.files ≡ files.items }
        ensures made { result.made ≡ 0 }
    {
        SureFolder { files, made: 0 }
    }
}

impl Folder for SureFolder {
    ghost held = { λ f. Some (lookup f.files) };

    ghost faults = { λ _. 0 };

    ghost calls = { λ f. told f.made };

    /// Want of memory is the only failure.
    fn read_file(&mut self, alloc: Global, name: &Name, limit: u64) -> Result<Found, FolderFail>
        ensures found { IfOk result (IsFound (lookup self.old.files name.now) limit) }
        ensures fails { IfErr result (λ e. e ≡ FolderFail.Mem) }
        ensures after { self.new ≡ record self.old { made = next self.old.made } }
    {
        self.made = self.made.saturating_add(1);
        read(&self.files, alloc, name, limit)
    }
}
