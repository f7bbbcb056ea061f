//! A folder in memory.
ghost use Rattle.std.specs.Prelude.{◌≡◌, ◌≤◌, ◌↔◌, true, Some, IfOk, IfErr, IsErrOf};
ghost use Rattle.std.specs.Option.{option_copied};
ghost use Rattle.up_base.specs.Outside.{Rose, CountsCall, IsFound};
ghost use Rattle.up_base.specs.MemoryTwins.{no_calls, is_listed, with_call, told, are_distinct, lookup};

use crate::call_counts::CallCounts;
use crate::{Bytes, Folder, FolderFail, Found, Name};
use std::alloc::Global;
use std::marker::Model;

/// A folder that holds the files it was made with. Its calls fail exactly where their numbers are listed.
#[derive(Drop)]
pub struct MemoryFolder {
    files: Vec<(Name, Bytes)>,
    counts: CallCounts,
}

impl Model for MemoryFolder {
    ghost use Rattle.up_base.specs.MemoryTwins.{FolderState};

    ghost Value = { FolderState };

    ghost view = { λ f. record { files = f.files.items; calls = f.counts } };
}

impl MemoryFolder {
    /// The folder of these files, whose names differ character by character. `calls` has the numbers, from 1, of the
    /// calls that fail. It takes no memory.
    pub fn make(files: Vec<(Name, Bytes)>, calls: Vec<u32>) -> MemoryFolder
        requires { are_distinct files.items ≡ true }
        ensures files { result.files ≡ files.items }
        ensures calls { result.calls ≡ no_calls calls.items }
    {
        MemoryFolder {
            files,
            counts: CallCounts::new(calls),
        }
    }

    /// Whether the names of the files differ character by character.
    pub fn names_differ(files: &[(Name, Bytes)]) -> bool
        ensures { result ≡ are_distinct files.now }
    {
        for (i, (name, _)) in files.iter().enumerate() {
            if find(&files[i + 1..], name).is_some() {
                return false;
            }
        }
        true
    }
}

/// What a reading of the file of exactly this name finds. Want of memory is its only failure.
pub(crate) fn read(
    files: &[(Name, Bytes)],
    alloc: Global,
    name: &Name,
    limit: u64,
) -> Result<Found, FolderFail>
    ensures found { IfOk result (IsFound (lookup files.now name.now) limit) }
    ensures fails { IfErr result (λ e. e ≡ FolderFail.Mem) }
{
    let Some(bytes) = find(files, name) else {
        return Ok(Found::Absent);
    };
    if bytes.len() as u64 > limit {
        return Ok(Found::TooLong);
    }
    let Ok(bytes) = Vec::from_slice(alloc, bytes.as_slice()) else {
        return Err(FolderFail::Mem);
    };
    Ok(Found::Whole(Bytes::from_vec(bytes)))
}

// The bytes of the first file of exactly this name.
fn find<'a>(files: &'a [(Name, Bytes)], name: &Name) -> Option<&'a Bytes>
    ensures { option_copied result ≡ lookup files.now name.now }
{
    for (other, bytes) in files {
        if name.as_bytes() == other.as_bytes() {
            return Some(bytes);
        }
    }
    None
}

impl Folder for MemoryFolder {
    ghost held = { λ f. Some (lookup f.files) };

    ghost faults = { λ f. f.calls.faults };

    ghost calls = { λ f. told f.calls.made };

    fn read_file(&mut self, alloc: Global, name: &Name, limit: u64) -> Result<Found, FolderFail>
        ensures held { Some (lookup self.new.files) ≡ Some (lookup self.old.files) }
        ensures found { IfOk result (IsFound (lookup self.old.files name.now) limit) }
        ensures failed { IsErrOf result FolderFail.Failed → Rose self.old.calls.faults self.new.calls.faults }
        ensures faults { self.old.calls.faults ≤ self.new.calls.faults }
        ensures calls { CountsCall (told self.old.calls.made) (told self.new.calls.made) }
        ensures fails { IsErrOf result FolderFail.Failed ↔ (is_listed self.old.calls ≡ true) }
        ensures after { self.new ≡ record self.old { calls = with_call self.old.calls (is_listed self.old.calls) } }
    {
        if self.counts.count(true) {
            return Err(FolderFail::Failed);
        }
        read(&self.files, alloc, name, limit)
    }
}
