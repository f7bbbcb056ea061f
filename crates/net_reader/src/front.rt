//! Reads what stands before the members of a module.
ghost use Rattle.std.specs.Prelude.{◌≡◌, ◌++◌, ◌∷◌, [], codes, IfOk, OnOk};
ghost use Rattle.net_tree.specs.Spelling.{at_depth, is_same_text};
ghost use Rattle.net_reader.specs.FileLines.{text_of_line};
ghost use Rattle.net_reader.specs.ModuleReader as model;
ghost use Rattle.net_reader.specs.StateView.{state_of};
ghost use Rattle.net_reader.specs.Steps.{Steps};

use crate::characters::{begins_with, behind, is};
use crate::margins::text_of_line;
use crate::pieces::opened;
use crate::states::State;
use crate::taken::is_line;
use net_emitter::write_opening;
use net_exprs::PhraseFail;
use net_writable::is_note;
use std::alloc::Global;
use std::collections::VecDeque;
use up_base::{Bytes, Mem, Name};

// The comment at the head of a file whose first line says this.
fn note_in(alloc: Global, text: &[u8]) -> Result<Option<Bytes>, Mem>
    ensures { IfOk result (λ note. note ≡ model.note_in text.now) }
{
    if !begins_with(b'\'', text) {
        return Ok(None);
    }
    Ok(Some(Bytes::from_slice(alloc, behind(2, text))?))
}

fn push_text(alloc: Global, texts: &mut VecDeque<Bytes>, text: &[u8]) -> Result<(), Mem>
    ensures { OnOk result (texts.new.items ≡ texts.old.items ++ text.now ∷ []) }
{
    texts.push_back(Bytes::from_slice(alloc, text)?)?;
    Ok(())
}

// The lines before the head of a module, without the comment.
fn option_lines(alloc: Global) -> Result<VecDeque<Bytes>, Mem>
    ensures { IfOk result (λ texts. texts.items ≡ model.option_lines) }
{
    let mut texts = VecDeque::new(alloc);
    push_text(alloc, &mut texts, b"Option Explicit On")?;
    push_text(alloc, &mut texts, b"Option Strict Off")?;
    push_text(alloc, &mut texts, b"Option Compare Binary")?;
    Ok(texts)
}

fn note_line(alloc: Global, note: &[u8]) -> Result<Bytes, Mem>
    ensures { IfOk result (λ line. line ≡ codes "' " ++ note.now) }
{
    let mut line = Bytes::from_slice(alloc, b"' ")?;
    line.extend_from_slice(note)?;
    Ok(line)
}

// The lines before the head of a module.
fn front_lines(alloc: Global, note: &Option<Bytes>) -> Result<VecDeque<Bytes>, Mem>
    ensures { IfOk result (λ texts. texts.items ≡ model.front_lines note.now) }
{
    let mut texts = option_lines(alloc)?;
    if let Some(note) = note {
        texts.push_front(note_line(alloc, note.as_slice())?)?;
    }
    Ok(texts)
}

fn copy_of(alloc: Global, note: &Option<Bytes>) -> Result<Option<Bytes>, Mem>
    ensures { IfOk result (λ copy. copy ≡ note.now) }
{
    match note {
        None => Ok(None),
        Some(note) => Ok(Some(Bytes::from_slice(alloc, note.as_slice())?)),
    }
}

/// Where the file of a name begins whose comment at the head is known, or where any may stand.
pub(crate) fn start(alloc: Global, known: &Option<Option<Bytes>>, name: Name) -> Result<State, Mem>
    ensures { IfOk result (λ state. state_of state ≡ model.start known.now name) }
{
    match known {
        None => Ok(State::AtFront(name)),
        Some(note) => {
            let texts = front_lines(alloc, note)?;
            Ok(State::InFront(copy_of(alloc, note)?, name, texts))
        }
    }
}

// Whether a line is the head of a module.
fn is_head(alloc: Global, class: bool, name: &Name, line: &[u8]) -> Result<bool, Mem>
    ensures { IfOk result (λ same. same ≡ model.is_line 0 (model.module_head_text class name.now) line.now) }
{
    let mut written = Bytes::new(alloc);
    write_opening(&mut written, class, name)?;
    Ok(is(written.as_slice(), line))
}

fn head_step(
    alloc: Global,
    note: Option<Bytes>,
    name: Name,
    line: &[u8],
) -> Result<State, PhraseFail>
    ensures { Steps state_of (model.front_step note name [] line.now) result }
{
    if is_head(alloc, false, &name, line)? {
        return Ok(State::AmongMembers(opened(alloc, note, name, false)));
    }
    if is_head(alloc, true, &name, line)? {
        return Ok(State::AmongMembers(opened(alloc, note, name, true)));
    }
    Err(PhraseFail::NotNet)
}

/// Where the line behind one before the head of a module stands, or behind the head.
pub(crate) fn front_step(
    alloc: Global,
    note: Option<Bytes>,
    name: Name,
    texts: VecDeque<Bytes>,
    line: &[u8],
) -> Result<State, PhraseFail>
    ensures { Steps state_of (model.front_step note name texts.items line.now) result }
{
    let mut texts = texts;
    match texts.pop_front() {
        Some(text) => {
            if !is_line(alloc, 0, text.as_slice(), line)? {
                return Err(PhraseFail::NotNet);
            }
            Ok(State::InFront(note, name, texts))
        }
        None => head_step(alloc, note, name, line),
    }
}

/// Where the line behind the first one of a file stands.
pub(crate) fn first_step(alloc: Global, name: Name, line: &[u8]) -> Result<State, PhraseFail>
    ensures { Steps state_of (model.first_step name (model.note_in (text_of_line line.now)) line.now) result }
{
    let note = note_in(alloc, text_of_line(line))?;
    if !is_note(&note) {
        return Err(PhraseFail::NotNet);
    }
    let texts = front_lines(alloc, &note)?;
    front_step(alloc, note, name, texts, line)
}
