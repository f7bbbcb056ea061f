//! Files in memory that was taken beforehand.
ghost use Rattle.std.specs.Prelude.{◌≡◌, true, IfOk, take, drop};
ghost use Rattle.std.specs.Option.{option_copied};
ghost use Rattle.up_base.specs.MemoryTwins.{no_files, has_room, removed, appended, lookup};

use crate::{Mem, Name};
use std::alloc::Global;
use std::marker::Model;

/// Files, and the room that is left for more. A file's room is gone for good, even when the file is.
#[derive(Drop)]
pub(crate) struct FileStore {
    entries: Vec<Entry>,
    buffer: Vec<u8>,
    files_left: u32,
    bytes_left: u32,
}

// A place in the buffer where a name stands, and its bytes behind it.
#[derive(Clone, Copy)]
struct Entry {
    start: usize,
    name_len: usize,
    len: usize,
}

impl Model for FileStore {
    ghost use Rattle.std.specs.Prelude.{vec_capacity};
    ghost use Rattle.up_base.specs.MemoryTwins.{Store};

    ghost Value = { Store };

    ghost use Rattle.up_base.specs.FileStore.{files_of, IsLaid};

    ghost view = { λ s. record { files = files_of s.buffer.items s.entries.items; files_left = s.files_left; bytes_left = s.bytes_left } };

    ghost invariant = { λ s. IsLaid s.buffer.items s.entries.items s.files_left s.bytes_left (vec_capacity s.entries) (vec_capacity s.buffer) };
}

impl FileStore {
    /// No file, and room for as many files and for as many bytes of names and contents.
    pub(crate) fn with_room(alloc: Global, files: u32, bytes: u32) -> Result<FileStore, Mem>
        ensures { IfOk result (λ s. s ≡ no_files files bytes) }
    {
        Ok(FileStore {
            entries: Vec::with_capacity(alloc, files as usize)?,
            buffer: Vec::with_capacity(alloc, bytes as usize)?,
            files_left: files,
            bytes_left: bytes,
        })
    }

    /// Whether one more file fits.
    pub(crate) fn has_room(&self, name: &Name, bytes: &[u8]) -> bool
        ensures { result ≡ has_room self.now name.now bytes.now }
    {
        let len = name.as_bytes().len().saturating_add(bytes.len());
        self.files_left >= 1 && len <= self.bytes_left as usize
    }

    /// Takes the name out, if it is there.
    pub(crate) fn remove(&mut self, name: &Name)
        ensures { self.new ≡ removed self.old name.now }
    {
        let buffer = self.buffer.as_slice();
        let name = name.as_bytes();
        self.entries
            .retain(|e| name != part(buffer, e.start, e.name_len));
    }

    /// Puts the file behind the others.
    pub(crate) fn append(&mut self, name: &Name, bytes: &[u8])
        requires { has_room self.old name.now bytes.now ≡ true }
        ensures { self.new ≡ appended self.old name.now bytes.now }
    {
        let name = name.as_bytes();
        let entry = Entry {
            start: self.buffer.len(),
            name_len: name.len(),
            len: bytes.len(),
        };
        let Ok(()) = self.entries.push(entry) else {
            unreachable!()
        };
        let Ok(()) = self.buffer.extend_from_slice(name) else {
            unreachable!()
        };
        let Ok(()) = self.buffer.extend_from_slice(bytes) else {
            unreachable!()
        };
        self.files_left -= 1;
        self.bytes_left -= (name.len() + bytes.len()) as u32;
    }

    /// The bytes of the name, if it is there.
    pub(crate) fn held(&self, name: &Name) -> Option<&[u8]>
        ensures { option_copied result ≡ lookup self.now.files name.now }
    {
        let buffer = self.buffer.as_slice();
        let name = name.as_bytes();
        for e in &self.entries {
            if name == part(buffer, e.start, e.name_len) {
                return Some(part(buffer, e.start + e.name_len, e.len));
            }
        }
        None
    }
}

// As many bytes from a place on, as far as there are any.
fn part(buffer: &[u8], start: usize, len: usize) -> &[u8]
    ensures { result.now ≡ take len (drop start buffer.now) }
{
    let rest = &buffer[start.min(buffer.len())..];
    &rest[..len.min(rest.len())]
}
