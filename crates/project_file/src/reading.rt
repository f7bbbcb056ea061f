//! The reading of project files, line by line.
ghost use Rattle.std.specs.Prelude.{◌≡◌, ◌<◌, ◌≤◌, ◌^◌, ℕ, true, false, [], length, OnOk, IfOk};
ghost use Rattle.std.specs.List.{list_all, list_any};
ghost use Rattle.up_base.specs.Names.{is_name, is_same_name};
ghost use Rattle.vb_tree.specs.ProjectLines.{is_module_name, is_control, is_reserved, is_taken, entry, type_line, startup_line, not_carried, other, form_fault, entry_limit, are_apart, is_named, IsProjectAnswer, OneProjectAnswer};
ghost use Rattle.project_file.specs.Lines.{line_seen, HasNames};
ghost use Rattle.project_file.specs.Reading.{OnFault, HasRead, IsAtLine, AddsLine, TakesLine, HasNoFormFault, IsFirstKind, ReadsLine, IsFirstOfLine};

use crate::lines::{CARRIAGE_RETURN, LINE_FEED, bytes_of, first_line, is_text, wide};
use crate::project_line::{LineText, line_in};
use std::alloc::Global;
use up_base::{Fault, Mem, Name, Place, ReadFail, Sequence, Wide, faults};
use vb_tree::{Entry, ProjectFile, ProjectKind};

// The most modules and classes of a project.
const ENTRY_LIMIT: usize = 200;

// The last control character of ASCII, which also stands for a byte without a character.
const DELETE: u16 = 0x7f;

// What the lines of a project file have given so far.
#[derive(Drop)]
struct ProjectReading {
    file: ProjectFile,
    has_type: bool,
    has_startup: bool,
    // Whether the head of a section was read.
    has_ended: bool,
}

/// What a project file says, given its text as UTF-16 units. Its lines end in CR LF, LF or CR, and count from 1; from the
/// first section head on they say nothing.
///
/// # Errors
///
/// The first fault by line, of file 0:
/// - 3: the 201st module or class entry;
/// - 4: a line before the first head that is not of its form;
/// - 5: an entry whose name is reserved or that of an earlier entry, without case;
/// - 6: a control unit (below 20 hex other than tab, CR and LF, or 7F hex), after a head too. On one line it comes before
///   the others.
///
/// Want of memory is the only other failure.
pub fn read_project(alloc: Global, text: &Wide) -> Result<ProjectFile, ReadFail>
    requires { length text.now < 2 ^ 32 }
    ensures exact { IsProjectAnswer text.now result }

    // What callers need of each answer Ok; it follows from `exact`.
    ensures few { IfOk result (λ file. length file.entries ≤ entry_limit) }
    ensures apart { IfOk result (λ file. are_apart file.entries ≡ true) }
    ensures named { IfOk result (λ file. list_all is_named file.entries ≡ true) }
{
    let mut reading = ProjectReading::new(alloc);
    let mut number = 0;
    let mut rest = text.as_slice();
    while !rest.is_empty() {
        let (line, after) = first_line(rest);
        number += 1;
        rest = after;
        reading.take_line(alloc, number, line)?;
    }
    Ok(reading.file)
}

/// A law: one text has one answer, apart from want of memory.
pub fn one_project_answer()
    ensures { OneProjectAnswer }
{}

// The fault of a kind at a line of the project file.
fn fault(line: u32, kind: u8) -> ReadFail
    ensures { result ≡ ReadFail.Fault (record { place = record { file = 0; line = line }; kind = kind }) }
{
    ReadFail::Fault(Fault {
        place: Place { file: 0, line },
        kind,
    })
}

impl ProjectReading {
    // Before the first line.
    fn new(alloc: Global) -> ProjectReading
        ensures { HasRead [] result }
    {
        ProjectReading {
            file: ProjectFile {
                kind: ProjectKind::Exe,
                startup: None,
                entries: Sequence::new(alloc),
                dropped: Sequence::new(alloc),
            },
            has_type: false,
            has_startup: false,
            has_ended: false,
        }
    }

    // Reads one more line of the text.
    fn take_line(&mut self, alloc: Global, number: u32, line: &[u16]) -> Result<(), ReadFail>
        ensures ok { OnOk result (ReadsLine number line.now self.old self.new) }
        ensures fault { OnFault result (λ f. IsAtLine number f × IsFirstOfLine line.now f.kind self.old) }
    {
        if has_control(line) {
            return Err(fault(number, faults::NO_CHARACTER));
        }
        if self.has_ended {
            return Ok(());
        }
        self.take_form(alloc, number, line_in(line))?;
        Ok(())
    }

    // Reads a line before the first head.
    fn take_form(&mut self, alloc: Global, number: u32, line: LineText<'_>) -> Result<(), ReadFail>
        requires { HasNames line }
        ensures ok { OnOk result (TakesLine number (line_seen line.entry) self.old self.new) }
        ensures right { OnOk result (HasNoFormFault self.old.file.entries (line_seen line.entry)) }
        ensures fault { OnFault result (λ f. IsAtLine number f × IsFirstKind (form_fault self.old.file.entries (line_seen line.entry)) f.kind) }
    {
        match line {
            LineText::Blank => {}
            LineText::Head => self.has_ended = true,
            LineText::Entry { class, name, file } => {
                self.take_entry(alloc, number, class, name, file)?;
            }
            LineText::Type(value) => self.take_type(number, value)?,
            LineText::Startup(value) => self.take_startup(alloc, number, value)?,
            LineText::NotCarried => self.file.dropped.push(number)?,
            LineText::Other => {}
            LineText::Malformed => return Err(fault(number, faults::MALFORMED_ENTRY)),
        }
        Ok(())
    }

    // Reads the entry of a module or class.
    fn take_entry(
        &mut self,
        alloc: Global,
        number: u32,
        class: bool,
        name: &[u16],
        file: &[u16],
    ) -> Result<(), ReadFail>
        requires module_name { is_module_name name.now ≡ true }
        requires file_name { is_name file.now ≡ true }
        ensures ok { OnOk result (AddsLine number (entry class name.now file.now) self.old self.new) }
        ensures right { OnOk result (HasNoFormFault self.old.file.entries (entry class name.now file.now)) }
        ensures fault { OnFault result (λ f. IsAtLine number f × IsFirstKind (form_fault self.old.file.entries (entry class name.now file.now)) f.kind) }
    {
        if self.file.entries.len() >= ENTRY_LIMIT {
            return Err(fault(number, faults::TOO_LONG));
        }
        let name = name_of(alloc, name)?;
        if is_taken(self.file.entries.as_slice(), &name) {
            return Err(fault(number, faults::NAME_USED));
        }
        let file = name_of(alloc, file)?;
        self.file.entries.push(Entry {
            line: number,
            class,
            name,
            file,
        })?;
        Ok(())
    }

    // Reads a `Type` line. The first one counts.
    fn take_type(&mut self, number: u32, value: &[u16]) -> Result<(), Mem>
        ensures { OnOk result (AddsLine number (type_line value.now) self.old self.new) }
    {
        if self.has_type {
            return Ok(());
        }
        self.has_type = true;
        if is_text(value, b"Exe") {
            self.file.kind = ProjectKind::Exe;
            return Ok(());
        }
        self.file.kind = ProjectKind::OleDll;
        if is_text(value, b"OleDll") {
            return Ok(());
        }
        self.file.dropped.push(number)?;
        Ok(())
    }

    // Reads a `Startup` line. The first one counts.
    fn take_startup(&mut self, alloc: Global, number: u32, value: &[u16]) -> Result<(), Mem>
        ensures { OnOk result (AddsLine number (startup_line value.now) self.old self.new) }
    {
        if self.has_startup {
            return Ok(());
        }
        self.has_startup = true;
        if is_text(value, b"\"Sub Main\"") {
            self.file.startup = Some((number, wide(alloc, b"Sub Main")?));
            return Ok(());
        }
        if is_text(value, b"\"(None)\"") || is_text(value, b"\"!(None)!\"") {
            return Ok(());
        }
        self.file.dropped.push(number)?;
        Ok(())
    }
}

fn has_control(line: &[u16]) -> bool
    ensures { result ≡ list_any is_control line.now }
{
    line.iter().any(|c| is_control(*c))
}

// Whether a unit stands for no character or is a control character other than tab, CR and LF.
fn is_control(unit: u16) -> bool
    ensures { result ≡ is_control unit }
{
    let spaces = unit == u16::from(b'\t') || unit == LINE_FEED || unit == CARRIAGE_RETURN;
    (unit < u16::from(b' ') && !spaces) || unit == DELETE
}

// The name of units that are one.
fn name_of(alloc: Global, units: &[u16]) -> Result<Name, Mem>
    requires { is_name units.now ≡ true }
    ensures { IfOk result (λ name. name ≡ units.now) }
{
    let bytes = bytes_of(alloc, units)?;
    let name = Name::from_valid(alloc, &bytes)?;
    Ok(name)
}

// Whether a name is reserved or one of the entries has it.
fn is_taken(entries: &[Entry], name: &Name) -> bool
    ensures { result ≡ is_taken entries.now name.now }
{
    is_reserved(name) || has_name(entries, name)
}

// Whether the program itself uses a name.
fn is_reserved(name: &Name) -> bool
    ensures { result ≡ is_reserved name.now }
{
    let lower = name.lower_bytes();
    lower == b"upgradesupport".as_slice()
        || lower == b"system".as_slice()
        || lower == b"microsoft".as_slice()
}

fn has_name(entries: &[Entry], name: &Name) -> bool
    ensures { result ≡ list_any (λ e. is_same_name name.now e.name) entries.now }
{
    entries.iter().any(|e| *name == e.name)
}
