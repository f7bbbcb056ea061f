//! Reads the file of a module.
ghost use Rattle.std.specs.Prelude.{◌≡◌, IfOk};
ghost use Rattle.net_exprs.specs.Answers.{now_of};
ghost use Rattle.net_exprs.specs.Readers.{after};
ghost use Rattle.net_tree.specs.Text.{byte_order_mark};
ghost use Rattle.net_reader.specs.FileLines.{file_lines};
ghost use Rattle.net_reader.specs.ModuleReader as model;
ghost use Rattle.net_reader.specs.ReadingView.{reading_of};
ghost use Rattle.net_reader.specs.StateView.{noted_of, state_of};

use crate::file_lines::next_line;
use crate::file_reading::FileReading;
use crate::front::start;
use crate::states::{NotedModule, State};
use crate::step::step;
use net_exprs::PhraseFail;
use std::alloc::Global;
use up_base::{Bytes, Mem, Name};

// What is read of a file that ends here, before a line of a number.
fn end_of(state: State, number: usize) -> FileReading<NotedModule>
    ensures { reading_of noted_of result ≡ model.at_end (state_of state) number }
{
    match state {
        State::AtFront(_) => FileReading::Stuck(number),
        State::InFront(_, _, _) => FileReading::Stuck(number),
        State::AmongMembers(_) => FileReading::Stuck(number),
        State::InStructure(_, _) => FileReading::Stuck(number),
        State::InProperty(_, _) => FileReading::Stuck(number),
        State::InProcedure(_, _) => FileReading::Stuck(number),
        State::InPart(_, _, _) => FileReading::Stuck(number),
        State::Ended(noted) => FileReading::Complete(noted),
    }
}

// Reads lines from a state on.
fn run(alloc: Global, first: State, text: &[u8]) -> Result<FileReading<NotedModule>, Mem>
    ensures { IfOk result (λ reading. reading_of noted_of reading ≡ model.run (state_of first) 1 (file_lines text.now)) }
{
    let mut state = first;
    let mut rest = text;
    let mut number = 1;
    'lines: while !rest.is_empty() {
        let (line, more) = next_line(rest);
        match step(alloc, state, line) {
            Ok(next) => state = next,
            Err(PhraseFail::NotNet) => return Ok(FileReading::Stuck(number)),
            Err(PhraseFail::Mem) => return Err(Mem),
        }
        rest = more;
        number += 1;
    }
    Ok(end_of(state, number))
}

// What stands behind the mark of UTF-8.
fn behind_mark(file: &[u8]) -> Option<&[u8]>
    ensures { now_of result ≡ after byte_order_mark file.now }
{
    file.strip_prefix(b"\xEF\xBB\xBF")
}

/// Reads the file of a module of a name, where the comment at the head is known from another file or any may stand. It answers
/// the module and the comment, or the number of the first line with which no written file goes on.
pub(crate) fn read_module(
    alloc: Global,
    known: &Option<Option<Bytes>>,
    name: Name,
    file: &[u8],
) -> Result<FileReading<NotedModule>, Mem>
    ensures { IfOk result (λ reading. reading_of noted_of reading ≡ model.module_in known.now name file.now) }
{
    match behind_mark(file) {
        Some(text) => {
            let state = start(alloc, known, name)?;
            Ok(run(alloc, state, text)?)
        }
        None => Ok(FileReading::Stuck(1)),
    }
}
