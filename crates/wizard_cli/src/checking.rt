//! Whether the written files stand in the folder as an upgrade would write them.
ghost use Rattle.std.specs.Prelude.{◌≡◌, ◌≤◌, ◌<◌, ◌+◌, Some, IfErr, IfSome, OnOk, length};
ghost use Rattle.up_base.specs.Outside.{CountsCall, IfTold, Rose};
ghost use Rattle.wizard_cli.specs.Headline.{HoldFiles};
ghost use Rattle.wizard_cli.specs.Runs.{CheckAnswer, OnFault};
ghost use Rattle.wizard_cli.specs.Steps.{CompareAnswer, ComparesTo, IsUnlikeAt};

use crate::answer::Answer;
use crate::upgrading::{WrittenFiles, files_to_write};
use std::alloc::Global;
use up_base::{Bytes, Folder, FolderFail, Found, Name};

// Why a file isn't known to be the same.
#[derive(Clone, Copy, Debug, PartialEq, Eq)]
enum Unlike {
    // It is absent or another one.
    Differs,
    // The folder failed.
    Failed,
    // Want of memory.
    Mem,
}

// The place of a file in a list, and why it isn't known to be the same.
#[derive(Clone, Copy, Debug, PartialEq, Eq)]
struct UnlikeAt {
    place: usize,
    why: Unlike,
}

/// Compares the files that an upgrade would write with those in the folder, in the order in which they would be put, up to the first
/// that differs.
pub(crate) fn check<F: Folder>(
    alloc: Global,
    file: &Name,
    settings: Option<Name>,
    folder: &mut F,
) -> Answer
    ensures answer { CheckAnswer (F.held folder.old) (F.calls folder.old) (F.calls folder.new) file.now settings result }
    ensures failed { OnFault result (Rose (F.faults folder.old) (F.faults folder.new)) ⊥ }
    ensures held { F.held folder.new ≡ F.held folder.old }
    ensures faults { F.faults folder.old ≤ F.faults folder.new }
{
    match files_to_write(alloc, file, settings, folder) {
        Ok(written) => compare(alloc, folder, written),
        Err(answer) => answer,
    }
}

// Compares all files with those in the folder.
fn compare<F: Folder>(alloc: Global, folder: &mut F, written: WrittenFiles) -> Answer
    ensures answer { CompareAnswer written.files.items written.issues (F.held folder.old) (F.calls folder.old) (F.calls folder.new) result }
    ensures failed { OnFault result (Rose (F.faults folder.old) (F.faults folder.new)) ⊥ }
    ensures held { F.held folder.new ≡ F.held folder.old }
    ensures faults { F.faults folder.old ≤ F.faults folder.new }
{
    let WrittenFiles {
        mut files,
        issues,
        ..
    } = written;
    match compare_all(alloc, folder, files.as_slice()) {
        Ok(()) => Answer::Same(issues),
        Err(UnlikeAt { place, why }) => {
            let name = files.swap_remove(place).0;
            match why {
                Unlike::Differs => Answer::Differs(name),
                Unlike::Failed => Answer::ReadFault(name),
                Unlike::Mem => Answer::OutOfMemory,
            }
        }
    }
}

// Compares files with those in the folder one after the other, up to the first that isn't known to be the same.
fn compare_all<F: Folder>(
    alloc: Global,
    folder: &mut F,
    files: &[(Name, Bytes)],
) -> Result<(), UnlikeAt>
    ensures same { OnOk result (IfSome (F.held folder.old) (HoldFiles files.now)) }
    ensures calls { OnOk result (IfTold (F.calls folder.old) (F.calls folder.new) (λ b a. a ≡ b + length files.now)) }
    ensures comes { IfErr result (λ u. ComparesTo files.now (F.held folder.old) (F.calls folder.old) (F.calls folder.new) u.place) }
    ensures place { IfErr result (λ u. u.place < length files.now) }
    ensures unlike { IfErr result (λ u. u.why ≡ Unlike.Differs → IfSome (F.held folder.old) (IsUnlikeAt files.now u.place)) }
    ensures failed { IfErr result (λ u. u.why ≡ Unlike.Failed → Rose (F.faults folder.old) (F.faults folder.new)) }
    ensures held { F.held folder.new ≡ F.held folder.old }
    ensures faults { F.faults folder.old ≤ F.faults folder.new }
{
    for (place, file) in files.iter().enumerate() {
        match compare_file(alloc, folder, &file.0, file.1.as_slice()) {
            Ok(()) => {}
            Err(why) => return Err(UnlikeAt { place, why }),
        }
    }
    Ok(())
}

// Compares bytes with the file of a name, of which no more is read than it would have.
fn compare_file<F: Folder>(
    alloc: Global,
    folder: &mut F,
    name: &Name,
    bytes: &[u8],
) -> Result<(), Unlike>
    ensures same { IfSome (F.held folder.old) (λ files. OnOk result (files name.now ≡ Some bytes.now)) }
    ensures unlike { IfErr result (λ why. why ≡ Unlike.Differs → IfSome (F.held folder.old) (λ files. ¬ (files name.now ≡ Some bytes.now))) }
    ensures failed { IfErr result (λ why. why ≡ Unlike.Failed → Rose (F.faults folder.old) (F.faults folder.new)) }
    ensures held { F.held folder.new ≡ F.held folder.old }
    ensures faults { F.faults folder.old ≤ F.faults folder.new }
    ensures calls { CountsCall (F.calls folder.old) (F.calls folder.new) }
{
    match folder.read_file(alloc, name, bytes.len() as u64) {
        Ok(Found::Whole(found)) => is_same(found.as_slice(), bytes),
        Ok(Found::Absent) => Err(Unlike::Differs),
        Ok(Found::TooLong) => Err(Unlike::Differs),
        Err(FolderFail::Failed) => Err(Unlike::Failed),
        Err(FolderFail::Mem) => Err(Unlike::Mem),
    }
}

// Whether bytes that were found are the wanted ones.
fn is_same(found: &[u8], wanted: &[u8]) -> Result<(), Unlike>
    ensures same { OnOk result (found.now ≡ wanted.now) }
    ensures unlike { IfErr result (λ why. (why ≡ Unlike.Differs) × ¬ (found.now ≡ wanted.now)) }
{
    if found == wanted {
        Ok(())
    } else {
        Err(Unlike::Differs)
    }
}
