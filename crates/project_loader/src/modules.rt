//! The modules of a project's entries.
ghost use Rattle.std.specs.Prelude.{◌≡◌, ◌⊎◌, ◌≤◌, ◌<◌, ◌+◌, ◌^◌, ℕ, map, IfOk, OnOk, IfErr, IfSome, IsErrOf, length};
ghost use Rattle.up_base.specs.Outside.{Rose, CountsCall, IfTold};
ghost use Rattle.vb_tree.specs.ProjectLines.{entry_limit};
ghost use Rattle.vb_tree.specs.View.{module_of};
ghost use Rattle.vb_lexer.specs.Answers.{Answers};
ghost use Rattle.project_loader.specs.Texts.{HeldText, decoded, file_limit, total_limit};
ghost use Rattle.project_loader.specs.Modules.{TextIsModule, TextFault};
ghost use Rattle.project_loader.specs.Held.{AreModules, HeldEntries};
ghost use Rattle.project_loader.specs.Faults.{EntryFault};
ghost use Rattle.project_loader.specs.Loading.{OnFailed};
ghost use Rattle.project_loader.specs.Steps.{OnStop, OnFault, first_of, fail_of, said_of, TakesEntry, StopsAtEntry};

use crate::loading::LoadFail;
use crate::texts::{Stop, TOO_LONG, bytes_or_fault, decoded, fault_at};
use std::alloc::Global;
use up_base::{Bytes, Fault, Folder, Mem, Name, ReadFail, Sequence, Wide};
use vb_lexer::{LexFail, logical_lines};
use vb_lines::read_owned_module;
use vb_tree::{Entry, Lines, Module6};

// The most bytes that all files of a project may have together.
const TOTAL_LIMIT: u64 = 16_777_216;

// The numbers of the faults.
const NO_MODULE: u8 = 2;

const NEVER_CLOSED: u8 = 12;

/// The modules of the entries so far, how many these are, and how many bytes were read.
#[derive(Drop)]
pub(crate) struct ModuleList {
    modules: Sequence<Module6>,
    count: u32,
    bytes: u64,
}

impl ModuleList {
    // Reads the file of the next entry.
    fn take<F: Folder>(&mut self, alloc: Global, folder: &mut F, entry: &Entry) -> Result<(), Stop>
        requires within { self.old.bytes ≤ total_limit }
        requires count { self.old.count ≤ entry_limit }
        ensures takes { OnOk result (TakesEntry (F.held folder.old) entry.now self.old self.new) }
        ensures fault { IfSome (F.held folder.old) (λ files. OnStop result (EntryFault files self.old.bytes (self.old.count + 1) entry.now)) }
        ensures failed { IsErrOf result Stop.Failed → Rose (F.faults folder.old) (F.faults folder.new) }
        ensures held { F.held folder.new ≡ F.held folder.old }
        ensures faults { F.faults folder.old ≤ F.faults folder.new }
        ensures calls { CountsCall (F.calls folder.old) (F.calls folder.new) }
    {
        let number = self.count + 1;
        let bytes = entry_bytes(alloc, folder, entry, self.bytes)?;
        let length = bytes.len() as u64;
        let module = entry_module(alloc, entry, number, bytes)?;
        self.modules.push(module)?;
        self.bytes += length;
        self.count = number;
        Ok(())
    }
}

/// The modules of a project's entries in order. So many bytes count before them, and the project file has this name.
pub(crate) fn load_modules<F: Folder>(
    alloc: Global,
    folder: &mut F,
    name: &Name,
    before: u64,
    entries: &[Entry],
) -> Result<Sequence<Module6>, LoadFail>
    requires short { before ≤ file_limit }
    requires few { length entries.now ≤ entry_limit }
    ensures texts { IfOk result (λ modules. AreModules 1 entries.now (map module_of modules)) }
    ensures held_entries { IfSome (F.held folder.old) (λ files. IfOk result (λ modules. HeldEntries files before 1 entries.now (map module_of modules))) }
    ensures reads { IfOk result (λ modules. IfTold (F.calls folder.old) (F.calls folder.new) (λ b a. a ≡ b + length entries.now)) }
    ensures stops { IfErr result (StopsAtEntry (F.held folder.old) (F.calls folder.old) (F.calls folder.new) name.now before entries.now) }
    ensures failed { IfErr result (OnFailed (Rose (F.faults folder.old) (F.faults folder.new))) }
    ensures held { F.held folder.new ≡ F.held folder.old }
    ensures faults { F.faults folder.old ≤ F.faults folder.new }
{
    let mut list = ModuleList {
        modules: Sequence::new(alloc),
        count: 0,
        bytes: before,
    };
    let mut rest = entries;
    while let [entry, after @ ..] = rest {
        if let Err(stop) = list.take(alloc, folder, entry) {
            return Err(fail_of(alloc, said_of(name, &entry.file, stop), stop));
        }
        rest = after;
    }
    let ModuleList { modules, .. } = list;
    Ok(modules)
}

/// What is answered to a stop that is said of the file of this name.
pub(crate) fn fail_of(alloc: Global, said: &Name, stop: Stop) -> LoadFail
    ensures { (result ≡ fail_of said.now stop) ⊎ (result ≡ LoadFail.Mem) }
{
    let Ok(said) = said.copy(alloc) else {
        return LoadFail::Mem;
    };
    match stop {
        Stop::Fault(fault) => LoadFail::Refused(said, fault),
        Stop::Failed => LoadFail::Failed(said),
        Stop::Mem => LoadFail::Mem,
    }
}

// The name of the file that a stop at an entry is said of.
fn said_of<'a>(name: &'a Name, entry_file: &'a Name, stop: Stop) -> &'a Name
    ensures { result.now ≡ said_of name.now entry_file.now stop }
{
    match stop {
        Stop::Fault(fault) => {
            if fault.place.file == 0 {
                name
            } else {
                entry_file
            }
        }
        Stop::Failed => entry_file,
        Stop::Mem => entry_file,
    }
}

// The bytes of an entry's file, where so many count before them.
fn entry_bytes<F: Folder>(
    alloc: Global,
    folder: &mut F,
    entry: &Entry,
    before: u64,
) -> Result<Bytes, Stop>
    requires { before ≤ total_limit }
    ensures short { IfOk result (λ bytes. length bytes ≤ file_limit) }
    ensures within { IfOk result (λ bytes. before + length bytes ≤ total_limit) }
    ensures bytes { IfSome (F.held folder.old) (λ files. IfOk result (HeldText files entry.now.file)) }
    ensures fault { (number : ℕ) → IfSome (F.held folder.old) (λ files. OnStop result (EntryFault files before number entry.now)) }
    ensures failed { IsErrOf result Stop.Failed → Rose (F.faults folder.old) (F.faults folder.new) }
    ensures held { F.held folder.new ≡ F.held folder.old }
    ensures faults { F.faults folder.old ≤ F.faults folder.new }
    ensures calls { CountsCall (F.calls folder.old) (F.calls folder.new) }
{
    let bytes = bytes_or_fault(alloc, folder, &entry.file, entry.line, NO_MODULE)?;
    if bytes.len() as u64 > TOTAL_LIMIT - before {
        return Err(fault_at(entry.line, TOO_LONG));
    }
    Ok(bytes)
}

// The module that the bytes of an entry's file are. The bytes, the text and its lines are each let go of as soon as they
// are read, so that a module takes little memory beside its tree.
fn entry_module(
    alloc: Global,
    entry: &Entry,
    number: u32,
    bytes: Bytes,
) -> Result<Module6, ReadFail>
    requires { length bytes < 2 ^ 32 }
    ensures is { IfOk result (λ m. TextIsModule entry.now number (decoded bytes) (module_of m)) }
    ensures fault { OnFault result (TextFault entry.now number (decoded bytes)) }
{
    let text = text_of(alloc, bytes)?;
    Ok(text_module(alloc, entry, number, text)?)
}

fn text_of(alloc: Global, bytes: Bytes) -> Result<Wide, Mem>
    requires { length bytes < 2 ^ 32 }
    ensures { IfOk result (λ text. text ≡ decoded bytes) }
{
    decoded(alloc, bytes.as_slice())
}

// The module that a text is.
fn text_module(alloc: Global, entry: &Entry, number: u32, text: Wide) -> Result<Module6, ReadFail>
    requires { length text < 2 ^ 32 }
    ensures is { IfOk result (λ m. TextIsModule entry.now number text (module_of m)) }
    ensures fault { OnFault result (TextFault entry.now number text) }
{
    match lines_of(alloc, number, text) {
        Ok(lines) => Ok(read_owned_module(alloc, entry, number, lines)?),
        Err(LexFail::Fault(lexical, before)) => Err(first_of(
            lexical,
            read_owned_module(alloc, entry, number, before),
        )),
        Err(LexFail::Mem) => Err(ReadFail::Mem),
    }
}

fn lines_of(alloc: Global, number: u32, text: Wide) -> Result<Lines, LexFail>
    requires { length text < 2 ^ 32 }
    ensures { Answers number text result }
{
    logical_lines(alloc, number, &text)
}

// What is answered behind a lexical fault, by what the lines before it are read as.
fn first_of<T: Drop>(lexical: Fault, read: Result<T, ReadFail>) -> ReadFail
    ensures { result ≡ first_of lexical read }
{
    match read {
        Ok(_) => ReadFail::Fault(lexical),
        Err(ReadFail::Fault(fault)) => {
            if fault.kind == NEVER_CLOSED {
                ReadFail::Fault(lexical)
            } else {
                ReadFail::Fault(fault)
            }
        }
        Err(ReadFail::Mem) => ReadFail::Mem,
    }
}
