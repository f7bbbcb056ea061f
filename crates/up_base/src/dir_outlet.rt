//! The files that the program writes.
ghost use Rattle.std.specs.Prelude.{◌≡◌, ◌≤◌, ℕ, None, OnOk, OnErr};
ghost use Rattle.up_base.specs.MemoryTwins.{next};

use crate::file_path::FilePath;
use crate::{Failed, Name, Outlet};
use std::marker::Model;
use std::rt::Files;
use std::{fs, io};

/// The files below the current folder, where a `\` in a name parts folders. It makes the folders that a file stands in,
/// takes no memory, and tells nothing of what the files hold. Contracts see it as the count of its failed calls.
#[derive(Drop)]
pub struct DirOutlet<R> {
    rt: R,
    faults: u64,
}

impl<R> Model for DirOutlet<R> {
    ghost Value = { ℕ };

    ghost view = { λ o. o.faults };
}

impl<R> DirOutlet<R> {
    /// An outlet into the current folder, of which no call has failed yet.
    pub fn new(rt: R) -> DirOutlet<R>
        ensures { result ≡ 0 }
    {
        DirOutlet { rt, faults: 0 }
    }
}

impl<R: Files> Outlet for DirOutlet<R> {
    ghost held = { λ _. None };

    ghost faults = { λ o. o };

    ghost calls = { λ _. None };

    fn put_file(&mut self, name: &Name, bytes: &[u8]) -> Result<(), Failed>
        ensures failed { OnErr result (self.new ≡ next self.old) }
        ensures ok { OnOk result (self.new ≡ self.old) }
        ensures faults { self.old ≤ self.new }
    {
        if write_whole(&self.rt, name, bytes).is_err() {
            self.faults = self.faults.saturating_add(1);
            return Err(Failed);
        }
        Ok(())
    }
}

// Writes the file of the name, and makes the folders that it stands in.
fn write_whole<R: Files>(rt: &R, name: &Name, bytes: &[u8]) -> io::Result<()> {
    let path = FilePath::new(name);
    let path = path.as_str();
    if let Some((folder, _)) = path.rsplit_once('/') {
        fs::create_dir_all(rt, folder)?;
    }
    fs::write(rt, path, bytes)
}
