//! The response file of the compiler.
ghost use Rattle.std.specs.Prelude.{◌≡◌, ◌+◌, ◌<◌, ◌^◌, ◌++◌, length, map, IfOk, IfSome};
ghost use Rattle.net_tree.specs.Text.{file_name};
ghost use Rattle.net_tree.specs.View.{module_of};
ghost use Rattle.net_reader.specs.FileLines.{file_lines};
ghost use Rattle.net_reader.specs.FileSteps.{IsMainLine, behind_text, lines_of};
ghost use Rattle.net_reader.specs.ModuleReader.{is_line};
ghost use Rattle.net_reader.specs.ProjectReader.{among_texts, at_main, main_in, response_in, response_lines, run_response};
ghost use Rattle.net_reader.specs.ReadingView.{reading_of};

use crate::file_lines::next_line;
use crate::file_reading::FileReading;
use net_tree::NetModule;
use net_writable::is_identifier;
use std::alloc::Global;
use up_base::{Mem, Name, NameFail};

// Whether a line is this text with an ending.
fn is_line(text: &[u8], ending: &[u8], line: &[u8]) -> bool
    ensures { result ≡ is_line 0 (text.now ++ ending.now) line.now }
{
    match line.strip_suffix(b"\r\n") {
        Some(said) => match said.strip_suffix(ending) {
            Some(start) => start == text,
            None => false,
        },
        None => false,
    }
}

// What stands behind a first line that is this text with an ending.
fn behind_text<'a>(text: &[u8], ending: &[u8], rest: &'a [u8]) -> Option<&'a [u8]>
    ensures lines { lines_of result ≡ behind_text (text.now ++ ending.now) (file_lines rest.now) }
    ensures fewer { IfSome result (λ more. length (file_lines more.now) + 1 ≡ length (file_lines rest.now)) }
{
    if rest.is_empty() {
        return None;
    }
    let (line, more) = next_line(rest);
    if is_line(text, ending, line) {
        Some(more)
    } else {
        None
    }
}

// What a line names as the module that the program starts in.
fn main_name(line: &[u8]) -> Option<&[u8]>
    ensures { IsMainLine line.now result }
{
    match line.strip_suffix(b"\r\n") {
        Some(said) => said.strip_prefix(b"/main:"),
        None => None,
    }
}

// The module that a line says the program starts in.
fn main_in(alloc: Global, line: &[u8]) -> Result<Option<Name>, Mem>
    ensures { IfOk result (λ main. main ≡ main_in line.now) }
{
    match main_name(line) {
        Some(name) => {
            if !is_identifier(name) {
                return Ok(None);
            }
            match Name::make(alloc, name) {
                Ok(main) => Ok(Some(main)),
                Err(NameFail::NotName) => Ok(None),
                Err(NameFail::Mem) => Err(Mem),
            }
        }
        None => Ok(None),
    }
}

// Reads the names of the modules' files, from the line of a number on.
fn read_sources(
    modules: &[NetModule],
    main: Option<Name>,
    mut rest: &[u8],
    mut number: usize,
) -> FileReading<Option<Name>>
    requires { number + length (file_lines rest.now) < 2 ^ 64 }
    ensures { let ms = map module_of modules.now in
        reading_of (λ main. main) result
        ≡ run_response ms (among_texts main (map file_name ms)) number (file_lines rest.entry.now) }
{
    for source in modules {
        match behind_text(source.name.as_bytes(), b".vb", rest) {
            Some(more) => rest = more,
            None => return FileReading::Stuck(number),
        }
        number += 1;
    }
    if rest.is_empty() {
        FileReading::Complete(main)
    } else {
        FileReading::Stuck(number)
    }
}

// Reads the lines behind those of the target and of the main module, from the line of a number on.
fn read_options(
    modules: &[NetModule],
    main: Option<Name>,
    rest: &[u8],
    number: usize,
) -> FileReading<Option<Name>>
    requires { number + length (file_lines rest.now) < 2 ^ 64 }
    ensures { let ms = map module_of modules.now in
        reading_of (λ main. main) result
        ≡ run_response ms (among_texts main (response_lines ms)) number (file_lines rest.now) }
{
    match behind_text(b"/optionexplicit+", b"", rest) {
        Some(rest) => match behind_text(b"/optionstrict-", b"", rest) {
            Some(rest) => read_sources(modules, main, rest, number + 2),
            None => FileReading::Stuck(number + 1),
        },
        None => FileReading::Stuck(number),
    }
}

// Reads the lines behind the one that says that the target is a program.
fn read_main(
    alloc: Global,
    modules: &[NetModule],
    rest: &[u8],
) -> Result<FileReading<Option<Name>>, Mem>
    requires { 2 + length (file_lines rest.now) < 2 ^ 64 }
    ensures { let ms = map module_of modules.now in
        IfOk result (λ reading. reading_of (λ main. main) reading ≡ run_response ms at_main 2 (file_lines rest.now)) }
{
    if rest.is_empty() {
        return Ok(FileReading::Stuck(2));
    }
    let (line, more) = next_line(rest);
    match main_in(alloc, line)? {
        Some(main) => Ok(read_options(modules, Some(main), more, 3)),
        None => Ok(FileReading::Stuck(2)),
    }
}

/// The module that the program starts in, by the response file behind the files of these modules.
pub(crate) fn read_response(
    alloc: Global,
    modules: &[NetModule],
    file: &[u8],
) -> Result<FileReading<Option<Name>>, Mem>
    requires { length (file_lines file.now) < 2 ^ 32 }
    ensures { IfOk result (λ reading. reading_of (λ main. main) reading ≡ response_in (map module_of modules.now) file.now) }
{
    match behind_text(b"/target:library", b"", file) {
        Some(rest) => Ok(read_options(modules, None, rest, 2)),
        None => match behind_text(b"/target:exe", b"", file) {
            Some(rest) => read_main(alloc, modules, rest),
            None => Ok(FileReading::Stuck(1)),
        },
    }
}
