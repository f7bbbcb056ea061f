//! The files of a project.
ghost use Rattle.std.specs.Prelude.{◌≡◌, ◌+◌, ◌<◌, ◌^◌, ◌==◌, true, codes, length, map, IfOk};
ghost use Rattle.net_tree.specs.Spelling.{is_same_text};
ghost use Rattle.net_tree.specs.Text.{NetText, files_of};
ghost use Rattle.net_tree.specs.Tree.{Project};
ghost use Rattle.net_tree.specs.View.{module_of, project_of};
ghost use Rattle.net_reader.specs.FileLines.{file_lines};
ghost use Rattle.net_reader.specs.FileSteps.{ended_by, file_reading, is_last_support, last_of, last_reading, project_by, read_as};
ghost use Rattle.net_reader.specs.ModuleReader.{module_in};
ghost use Rattle.net_reader.specs.Places.{IsReadable};
ghost use Rattle.net_reader.specs.ProjectReader.{behind_module, faulty, none_before, note_before, project_in};
ghost use Rattle.net_reader.specs.ReadingView.{reading_of};
ghost use Rattle.net_reader.specs.Reads.{FaultIs, Gives, IsBelow, NotRefused, TellsPlace, before_of, have_few_bytes, have_few_lines};
ghost use Rattle.net_reader.specs.StateView.{noted_of};

use crate::fail::NetReadFail;
use crate::file_names::module_name;
use crate::file_reading::FileReading;
use crate::module_file::read_module;
use crate::response_file::read_response;
use crate::states::NotedModule;
use net_tree::{NetFiles, NetModule, NetProject};
use net_writable::is_support;
use std::alloc::Global;
use up_base::{Bytes, Mem, Name, Place, Sequence};

/// What is read of the files before one.
#[derive(Drop)]
pub struct Before {
    /// The comment at the heads of the files, where there is a file.
    pub note: Option<Option<Bytes>>,
    pub modules: Vec<NetModule>,
}

fn none_before(alloc: Global) -> Before
    ensures { before_of result ≡ none_before }
{
    Before {
        note: None,
        modules: Vec::new(alloc),
    }
}

fn behind_module(before: Before, source: NotedModule) -> Result<Before, Mem>
    ensures { IfOk result (λ next. before_of next ≡ behind_module (before_of before) (noted_of source)) }
{
    let Before {
        note: _,
        mut modules,
    } = before;
    let NotedModule { note, tree } = source;
    modules.push(tree)?;
    Ok(Before {
        note: Some(note),
        modules,
    })
}

// Reads the file of a module.
fn read_source(
    alloc: Global,
    before: Before,
    name: Name,
    text: &[u8],
) -> Result<FileReading<Before>, Mem>
    ensures { IfOk result (λ reading. reading_of before_of reading
        ≡ read_as (behind_module (before_of before)) (module_in (before_of before).note name text.now)) }
{
    match read_module(alloc, &before.note, name, text)? {
        FileReading::Complete(source) => Ok(FileReading::Complete(behind_module(before, source)?)),
        FileReading::Stuck(line) => Ok(FileReading::Stuck(line)),
    }
}

// Reads a file that isn't the response file.
fn read_file(
    alloc: Global,
    before: Before,
    name: &Name,
    text: &[u8],
) -> Result<FileReading<Before>, Mem>
    ensures { IfOk result (λ reading. reading_of before_of reading ≡ file_reading (before_of before) name.now text.now) }
{
    match module_name(alloc, name)? {
        Some(name) => read_source(alloc, before, name, text),
        None => Ok(FileReading::Stuck(0)),
    }
}

fn is_last_support(modules: &[NetModule]) -> bool
    ensures { result ≡ is_last_support (last_of (map module_of modules.now)) }
{
    match modules {
        [.., last] => is_support(last),
        [] => false,
    }
}

// The comment at the heads of the files.
fn note_before(note: Option<Option<Bytes>>) -> Option<Bytes>
    ensures { result ≡ note_before note }
{
    match note {
        Some(note) => note,
        None => None,
    }
}

// The project of the modules, of which the last is the one of the support functions.
fn project_by(before: Before, main: Option<Name>) -> FileReading<NetProject>
    ensures { reading_of project_of result ≡ project_by (before_of before) (before_of before).last main }
{
    let Before { note, mut modules } = before;
    match modules.pop() {
        Some(support) => FileReading::Complete(NetProject {
            library: main.is_none(),
            main,
            note: note_before(note),
            modules: Sequence::from_vec(modules),
            support,
        }),
        None => FileReading::Stuck(0),
    }
}

// Reads the response file.
fn read_last(alloc: Global, before: Before, text: &[u8]) -> Result<FileReading<NetProject>, Mem>
    requires { length (file_lines text.now) < 2 ^ 32 }
    ensures { IfOk result (λ reading. reading_of project_of reading ≡ last_reading (before_of before) text.now) }
{
    if !is_last_support(&before.modules) {
        return Ok(FileReading::Stuck(0));
    }
    match read_response(alloc, &before.modules, text)? {
        FileReading::Complete(main) => Ok(project_by(before, main)),
        FileReading::Stuck(line) => Ok(FileReading::Stuck(line)),
    }
}

// The failure at a line of a file.
fn fault_at(file: usize, line: usize) -> NetReadFail
    requires files { file < 2 ^ 32 }
    requires lines { line < 2 ^ 32 }
    ensures { FaultIs (faulty file line) result }
{
    NetReadFail::NotNet(Place {
        file: file as u32,
        line: line as u32,
    })
}

// What is read of all files, where the response file is the last.
fn ended_by(
    file: usize,
    reading: FileReading<NetProject>,
    is_last: bool,
) -> Result<NetProject, NetReadFail>
    requires files { file + 1 < 2 ^ 32 }
    requires lines { IsBelow (2 ^ 32) reading }
    ensures { Gives (ended_by file (reading_of project_of reading) is_last) result }
{
    match reading {
        FileReading::Complete(project) => {
            if is_last {
                Ok(project)
            } else {
                Err(fault_at(file + 1, 0))
            }
        }
        FileReading::Stuck(line) => Err(fault_at(file, line)),
    }
}

fn is_response(name: &Name) -> bool
    ensures { result ≡ is_same_text name.now (codes "upgrade.rsp") }
{
    name.as_bytes() == b"upgrade.rsp".as_slice()
}

// Reads the response file as one of the files.
fn read_ending(
    alloc: Global,
    file: usize,
    before: Before,
    text: &[u8],
    is_last: bool,
) -> Result<NetProject, NetReadFail>
    requires files { file + 1 < 2 ^ 32 }
    requires lines { length (file_lines text.now) < 0xFFFF_FFFF }
    ensures { Gives (ended_by file (last_reading (before_of before) text.now) is_last) result }
{
    let reading = read_last(alloc, before, text)?;
    ended_by(file, reading, is_last)
}

fn have_few_bytes(files: &[(Name, Bytes)]) -> bool
    ensures { result ≡ have_few_bytes files.now }
{
    files.iter().all(|file| file.1.len() < 0xFFFF_FFFF)
}

// Reads files one after the other.
fn read_files(alloc: Global, files: &[(Name, Bytes)]) -> Result<NetProject, NetReadFail>
    requires files { length files.now < 0xFFFF_FFFF }
    requires lines { have_few_lines files.now ≡ true }
    ensures { Gives (project_in files.now) result }
{
    let mut before = none_before(alloc);
    for (file, source) in files.iter().enumerate() {
        let (name, text) = source;
        if is_response(name) {
            return read_ending(
                alloc,
                file,
                before,
                text.as_slice(),
                file + 1 == files.len(),
            );
        }
        match read_file(alloc, before, name, text.as_slice())? {
            FileReading::Complete(next) => before = next,
            FileReading::Stuck(line) => return Err(fault_at(file, line)),
        }
    }
    Err(fault_at(files.len(), 1))
}

/// Whether the files and the lines of each can be counted: fewer than 4294967295 files, of fewer bytes each.
pub fn can_be_counted(files: &NetFiles) -> bool
    ensures files { result ≡ true → length files.now < 0xFFFF_FFFF }
    ensures lines { result ≡ true → have_few_lines files.now ≡ true }
    ensures complete { length files.now < 0xFFFF_FFFF → have_few_bytes files.now ≡ true → result ≡ true }
{
    files.len() < 0xFFFF_FFFF && have_few_bytes(files.as_slice())
}

/// Reads the files of a written project back: those of its modules, and last the compiler's response file. Fails with the
/// first line at which the files begin no written project, or for want of memory. `can_be_counted` tells whether the files
/// are few and short enough.
pub fn read_net(alloc: Global, files: &NetFiles) -> Result<NetProject, NetReadFail>
    requires files { length files.now < 0xFFFF_FFFF }
    requires lines { have_few_lines files.now ≡ true }
    ensures project { IfOk result (λ N. NetText (project_of N) files.now) }
    ensures readable { IfOk result (λ N. IsReadable (project_of N)) }
    ensures place { TellsPlace files.now result }
    ensures complete { (N : Project) → IsReadable N → files_of N ≡ files.now → NotRefused result }
{
    read_files(alloc, files.as_slice())
}
