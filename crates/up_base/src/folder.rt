//! The folder that a project is read from.
ghost use Rattle.std.specs.Prelude.{◌≡◌, ◌≤◌, ℕ, Option, IfOk, IfSome, IsErrOf};
ghost use Rattle.up_base.specs.Outside.{Files, Rose, CountsCall, IsFound};

use crate::{Bytes, Name};
use std::alloc::{AllocError, AllocFailed, Global};

/// What the reading of a file finds.
#[derive(Drop)]
pub enum Found {
    /// The file's bytes.
    Whole(Bytes),
    /// No file has the name.
    Absent,
    /// The file has more bytes than the limit.
    TooLong,
}

/// Why a file was not read.
#[derive(Clone, Copy, Debug, PartialEq, Eq)]
pub enum FolderFail {
    /// The call failed.
    Failed,
    /// Want of memory.
    Mem,
}

/// A folder of files, by their names character by character.
pub trait Folder {
    /// What the folder holds, where it tells that.
    ghost held: { Self → Option Files };

    /// How many of its calls have failed.
    ghost faults: { Self → ℕ };

    /// How many calls it has had, where it tells that.
    ghost calls: { Self → Option ℕ };

    /// Reads the file of a name, if it has at most `limit` bytes. Reading changes no file.
    fn read_file(&mut self, alloc: Global, name: &Name, limit: u64) -> Result<Found, FolderFail>
        ensures held { held self.new ≡ held self.old }
        ensures found { IfSome (held self.old) (λ files. IfOk result (IsFound (files name.now) limit)) }
        ensures failed { IsErrOf result FolderFail.Failed → Rose (faults self.old) (faults self.new) }
        ensures faults { faults self.old ≤ faults self.new }
        ensures calls { CountsCall (calls self.old) (calls self.new) };
}
