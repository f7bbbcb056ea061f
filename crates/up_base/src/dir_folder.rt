//! The current folder of the system.
ghost use Rattle.std.specs.Prelude.{◌≡◌, ◌≤◌, ℕ, None, IfOk, OnOk, IsErrOf};
ghost use Rattle.up_base.specs.Limits.{IsWithin};
ghost use Rattle.up_base.specs.MemoryTwins.{next};

use crate::file_path::FilePath;
use crate::{Bytes, Folder, FolderFail, Found, Name};
use std::alloc::Global;
use std::io::{ErrorKind, Read};
use std::marker::Model;
use std::rt::Files;
use std::{fs, io};

/// The files below the current folder, where a `\` in a name parts folders. It tells nothing of what they hold.
/// Contracts see it as the count of its failed calls.
#[derive(Drop)]
pub struct DirFolder<R> {
    rt: R,
    faults: u64,
}

impl<R> Model for DirFolder<R> {
    ghost Value = { ℕ };

    ghost view = { λ f. f.faults };
}

impl<R> DirFolder<R> {
    /// The current folder, of which no call has failed yet.
    pub fn new(rt: R) -> DirFolder<R>
        ensures { result ≡ 0 }
    {
        DirFolder { rt, faults: 0 }
    }
}

impl<R: Files> Folder for DirFolder<R> {
    ghost held = { λ _. None };

    ghost faults = { λ f. f };

    ghost calls = { λ _. None };

    /// `Absent` where no such file is there, and `TooLong` where at least one byte stands past the limit. What is there
    /// and can't be read, as a folder, is a failure.
    fn read_file(&mut self, alloc: Global, name: &Name, limit: u64) -> Result<Found, FolderFail>
        ensures within { IfOk result (IsWithin limit) }
        ensures failed { IsErrOf result FolderFail.Failed → self.new ≡ next self.old }
        ensures mem { IsErrOf result FolderFail.Mem → self.new ≡ self.old }
        ensures ok { OnOk result (self.new ≡ self.old) }
        ensures faults { self.old ≤ self.new }
    {
        match read_whole(&self.rt, alloc, name, limit) {
            Ok(found) => Ok(found),
            Err(e) if e.kind() == ErrorKind::OutOfMemory => Err(FolderFail::Mem),
            Err(_) => {
                self.faults = self.faults.saturating_add(1);
                Err(FolderFail::Failed)
            }
        }
    }
}

// Reads the file of the name, but at most one byte past the limit.
fn read_whole<R: Files>(rt: &R, alloc: Global, name: &Name, limit: u64) -> io::Result<Found>
    ensures { IfOk result (IsWithin limit) }
{
    let path = FilePath::new(name);
    let file = match fs::open(rt, path.as_str()) {
        Ok(file) => file,
        Err(e) if is_absent(&e) => return Ok(Found::Absent),
        Err(e) => return Err(e),
    };
    let mut bytes = Vec::new(alloc);
    file.take(limit.saturating_add(1)).read_to_end(&mut bytes)?;
    if bytes.len() as u64 > limit {
        return Ok(Found::TooLong);
    }
    Ok(Found::Whole(Bytes::from_vec(bytes)))
}

// Whether the error says that no such file is there, or can be.
fn is_absent(e: &io::Error) -> bool {
    matches!(
        e.kind(),
        ErrorKind::NotFound | ErrorKind::NotADirectory | ErrorKind::InvalidFilename
    )
}
