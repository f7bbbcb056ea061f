//! The loading of a project from a folder.
ghost use Rattle.std.specs.Prelude.{◌≡◌, ◌≤◌, ◌<◌, ◌+◌, ◌^◌, ℕ, List, IfOk, IfErr, IfSome, IsErrOf, length};
ghost use Rattle.up_base.specs.Outside.{Rose, CountsCall};
ghost use Rattle.vb_tree.specs.ProjectLines.{entry_limit};
ghost use Rattle.vb_tree.specs.View.{project_of};
ghost use Rattle.project_loader.specs.Texts.{HeldText, file_limit, size_of, decoded};
ghost use Rattle.project_loader.specs.Held.{TextIsFile, HeldFile, HeldProject, IsOfGrammar};
ghost use Rattle.project_loader.specs.Faults.{ProjectFault, file_names};
ghost use Rattle.project_loader.specs.Loading.{ReadsAll, StopsLoading, OnFailed};
ghost use Rattle.project_loader.specs.Steps.{OnStop, OnFault, TextFileFault};
ghost use Rattle.project_loader.specs.declared.loading.LoadFail.TheVariants as load;

use crate::modules::{fail_of, load_modules};
use crate::texts::{Stop, bytes_or_fault, decoded};
use project_file::read_project;
use std::alloc::{AllocError, AllocFailed, Global};
use up_base::{Fault, Folder, Mem, Name, ReadFail};
use vb_tree::{Project6, ProjectFile};

const NO_PROJECT: u8 = 1;

/// Why a project was not loaded.
#[derive(Drop)]
pub enum LoadFail {
    /// The project's first fault, and the name of the file that it is said of.
    Refused(Name, Fault),
    /// The folder failed at the file of this name.
    Failed(Name),
    /// Want of memory.
    Mem,
}

impl From<Mem> for LoadFail {
    ghost from_gives = { λ _ e. e ≡ load.Mem };

    fn from(_: Mem) -> LoadFail {
        LoadFail::Mem
    }
}

impl From<AllocError> for LoadFail {
    ghost from_gives = { λ _ e. e ≡ load.Mem };

    fn from(_: AllocError) -> LoadFail {
        LoadFail::Mem
    }
}

impl<T: Drop> From<AllocFailed<T>> for LoadFail {
    ghost from_gives = { λ _ e. e ≡ load.Mem };

    fn from(_: AllocFailed<T>) -> LoadFail {
        LoadFail::Mem
    }
}

/// The project whose project file has this name, with the modules of its entries. The project file is read first, then the
/// file of each entry in order, each once; nothing is read behind the first fault or failure.
///
/// # Errors
///
/// The first fault, and the name of the file that it is said of. A fault of file 0 is said of the project file, one of
/// file k of the file of the k-th entry.
/// - 1: the project file is absent, and 2: an entry's file is;
/// - 3: a file has more than 1,048,576 bytes, or with those that were read before it more than 16,777,216; both are said
///   at line 0 of the project file or at the entry's line;
/// - those of `read_project`, of `logical_lines` and of `read_module`. A fault of a line before the first lexical fault of
///   its file comes before that one, but for 12, that a block isn't closed.
///
/// Where a call of the folder fails, the name of the file that was asked for. Want of memory is the only other failure.
pub fn load_project<F: Folder>(
    alloc: Global,
    folder: &mut F,
    name: &Name,
) -> Result<Project6, LoadFail>
    ensures grammar { IfOk result (λ p. IsOfGrammar (project_of p)) }
    ensures held_project { IfSome (F.held folder.old) (λ files. IfOk result (λ p. HeldProject files name.now (project_of p))) }
    ensures reads { IfOk result (λ p. ReadsAll (F.calls folder.old) (F.calls folder.new) (file_names name.now p.file.entries)) }
    ensures stops { IfErr result (StopsLoading (F.held folder.old) (F.calls folder.old) (F.calls folder.new) name.now) }
    ensures failed { IfErr result (OnFailed (Rose (F.faults folder.old) (F.faults folder.new))) }
    ensures held { F.held folder.new ≡ F.held folder.old }
    ensures faults { F.faults folder.old ≤ F.faults folder.new }
{
    let SizedFile { file, bytes } = match load_file(alloc, folder, name) {
        Ok(loaded) => loaded,
        Err(stop) => return Err(fail_of(alloc, name, stop)),
    };
    let modules = load_modules(alloc, folder, name, bytes, file.entries.as_slice())?;
    Ok(Project6 { file, modules })
}

// What a project file says, and how many bytes it has.
#[derive(Drop)]
struct SizedFile {
    file: ProjectFile,
    bytes: u64,
}

// The project file under a name.
fn load_file<F: Folder>(alloc: Global, folder: &mut F, name: &Name) -> Result<SizedFile, Stop>
    ensures text { IfOk result (λ s. (bytes : List ℕ) × TextIsFile (decoded bytes) s.file) }
    ensures few { IfOk result (λ s. length s.file.entries ≤ entry_limit) }
    ensures short { IfOk result (λ s. s.bytes ≤ file_limit) }
    ensures held_file { IfSome (F.held folder.old) (λ files. IfOk result (λ s. HeldFile files name.now s.file × (s.bytes ≡ size_of (files name.now)))) }
    ensures fault { IfSome (F.held folder.old) (λ files. OnStop result (ProjectFault files name.now)) }
    ensures failed { IsErrOf result Stop.Failed → Rose (F.faults folder.old) (F.faults folder.new) }
    ensures held { F.held folder.new ≡ F.held folder.old }
    ensures faults { F.faults folder.old ≤ F.faults folder.new }
    ensures calls { CountsCall (F.calls folder.old) (F.calls folder.new) }
{
    let bytes = bytes_or_fault(alloc, folder, name, 0, NO_PROJECT)?;
    let file = text_file(alloc, bytes.as_slice())?;
    Ok(SizedFile {
        file,
        bytes: bytes.len() as u64,
    })
}

// What the bytes of a project file say.
fn text_file(alloc: Global, bytes: &[u8]) -> Result<ProjectFile, ReadFail>
    requires { length bytes.now < 2 ^ 32 }
    ensures is { IfOk result (λ file. TextIsFile (decoded bytes.now) file) }
    ensures few { IfOk result (λ file. length file.entries ≤ entry_limit) }
    ensures fault { OnFault result (TextFileFault (decoded bytes.now)) }
{
    let text = decoded(alloc, bytes)?;
    Ok(read_project(alloc, &text)?)
}
