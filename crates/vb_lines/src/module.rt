//! The reading of modules.
ghost use Rattle.std.specs.Prelude.{◌≡◌, ◌≤◌, ◌++◌, List, [], length, map, drop, OnOk, IfOk};
ghost use Rattle.vb_lines.specs.Answers.{unclosed_place};
ghost use Rattle.vb_lines.specs.Laws.{OneModuleAnswer};
ghost use Rattle.vb_tree.specs.declared.token.Line.{Line as LogicalLine};
ghost use Rattle.vb_lines.specs.declared.building.ModuleBuild.{ModuleBuild as Build};
ghost use Rattle.vb_lines.specs.Building.{IsBuilt, OnFault, opens_of};
ghost use Rattle.vb_lines.specs.Modules.{IsModuleAnswer, IsModuleFault, IsAnswer, ended, head_of, comments_of, comment_at};
ghost use Rattle.vb_lines.specs.Parts.{all_parts};
ghost use Rattle.vb_lines.specs.Reading.{AddsParts, FaultOfParts};

use crate::building::ModuleBuild;
use crate::class_head::{HeadEnd, head_of};
use crate::nesting::{MALFORMED_HEAD, NEVER_CLOSED};
use crate::reading::{fault, take_line, take_lines};
use std::alloc::Global;
use up_base::{Mem, Place, ReadFail, Sequence, Wide};
use vb_tree::{Entry, Line, Lines, Module6};

/// The module that logical lines are, as the entry says: `file` is the number of its file.
///
/// # Errors
///
/// The first fault by code line, at the first physical line of its logical line, and on one code line by number:
/// - 10: a statement that is of no form that stands there;
/// - 11: a line that closes or parts another block than the innermost one;
/// - 12: behind the last line a block is open; at the line that opened the innermost one, or at line 1 where the head of a
///   class file has no end;
/// - 14: the 65th block that is open in a procedure, or an expression that is too deep;
/// - 15: a line in the head of a class file that is not of its form.
///
/// Want of memory is the only other failure.
pub fn read_module(
    alloc: Global,
    entry: &Entry,
    file: u32,
    lines: &Lines,
) -> Result<Module6, ReadFail>
    ensures { IsModuleAnswer entry.now file lines.now result }
{
    let head = head_length(entry.class, file, lines.as_slice())?;
    Ok(read_body(alloc, entry, file, &lines.as_slice()[head..])?)
}

/// As [`read_module`], of lines each of which is let go of once it is read.
pub fn read_owned_module(
    alloc: Global,
    entry: &Entry,
    file: u32,
    lines: Lines,
) -> Result<Module6, ReadFail>
    ensures { IsModuleAnswer entry.now file lines result }
{
    let head = head_length(entry.class, file, lines.as_slice())?;
    Ok(read_owned_body(alloc, entry, file, head, lines.into_vec())?)
}

/// A law: the lines of a module have one answer, apart from want of memory.
pub fn one_module_answer()
    ensures { OneModuleAnswer }
{}

// How many lines the head of a module has.
fn head_length(class: bool, file: u32, lines: &[Line]) -> Result<usize, ReadFail>
    ensures ended { IfOk result (λ head. head_of class lines.now ≡ ended (drop head lines.now)) }
    ensures within { IfOk result (λ head. head ≤ length lines.now) }
    ensures fault { OnFault result (IsModuleFault file (head_of class lines.now)) }
{
    match head_of(class, lines) {
        HeadEnd::Ended(body) => Ok(lines.len() - body.len()),
        HeadEnd::Malformed(place) => Err(fault(place, MALFORMED_HEAD)),
        HeadEnd::Unended => Err(fault(Place { file, line: 1 }, NEVER_CLOSED)),
    }
}

// The module of the lines behind a head.
fn read_body(alloc: Global, entry: &Entry, file: u32, body: &[Line]) -> Result<Module6, ReadFail>
    ensures { IsAnswer entry.now file (ended body.now) result }
{
    let mut build = ModuleBuild::new(alloc);
    take_lines(&mut build, alloc, body)?;
    let comments = comments_of(alloc, body)?;
    closed_module(alloc, entry, file, build, comments)
}

// The module of the lines behind the first ones, which are those of its head.
fn read_owned_body(
    alloc: Global,
    entry: &Entry,
    file: u32,
    head: usize,
    lines: Vec<Line>,
) -> Result<Module6, ReadFail>
    ensures { IsAnswer entry.now file (ended (drop head lines.items)) result }
{
    let mut build = ModuleBuild::new(alloc);
    let mut comments = Sequence::new(alloc);
    take_owned_lines(&mut build, &mut comments, alloc, head, lines)?;
    closed_module(alloc, entry, file, build, comments)
}

// The module of what was read up to the last line, with its comments.
fn closed_module(
    alloc: Global,
    entry: &Entry,
    file: u32,
    build: ModuleBuild,
    comments: Sequence<(u32, Wide)>,
) -> Result<Module6, ReadFail>
    ensures { (body : List LogicalLine) (before : Build) → IsBuilt [] before → AddsParts (all_parts body) before build → comments ≡ comments_of body
        → IsAnswer entry.now file (ended body) result }
{
    if let Some(place) = unclosed(&build) {
        return Err(fault(place, NEVER_CLOSED));
    }
    let mut members = build.members;
    members.shrink_to_fit();
    let name = entry.name.copy(alloc)?;
    Ok(Module6 {
        file,
        name,
        class: entry.class,
        members,
        comments,
    })
}

// Reads the lines behind the first ones, and puts their comments behind others. Each line is let go of once it is read.
fn take_owned_lines(
    build: &mut ModuleBuild,
    comments: &mut Sequence<(u32, Wide)>,
    alloc: Global,
    head: usize,
    lines: Vec<Line>,
) -> Result<(), ReadFail>
    ensures ok { OnOk result (AddsParts (all_parts (drop head lines.items)) build.old build.new) }
    ensures comments { OnOk result (comments.new ≡ comments.old ++ comments_of (drop head lines.items)) }
    ensures fault { OnFault result (λ f. FaultOfParts (all_parts (drop head lines.items)) build.old f) }
{
    let mut passed = 0;
    for line in lines {
        if passed < head {
            passed += 1;
            continue;
        }
        take_line(build, alloc, &line)?;
        move_comment(comments, line)?;
    }
    Ok(())
}

// Puts the comment of a line behind others, and lets go of the line.
fn move_comment(comments: &mut Sequence<(u32, Wide)>, line: Line) -> Result<(), Mem>
    ensures { OnOk result (comments.new ≡ comments.old ++ comment_at line.place line.comment) }
{
    let Line { place, comment, .. } = line;
    match comment {
        None => Ok(()),
        Some(text) => Ok(comments.push((place.line, text))?),
    }
}

// The line that opened the innermost open block.
fn unclosed(build: &ModuleBuild) -> Option<Place>
    ensures { result ≡ unclosed_place (opens_of build.now) }
{
    if let Some(group) = &build.group {
        return Some(group.head.place);
    }
    match build.frames.last() {
        None => None,
        Some(frame) => Some(frame.head.place),
    }
}

// Puts the comment of a line behind others.
fn push_comment(alloc: Global, comments: &mut Sequence<(u32, Wide)>, line: &Line) -> Result<(), Mem>
    ensures { OnOk result (comments.new ≡ comments.old ++ comment_at line.now.place line.now.comment) }
{
    if let Some(comment) = &line.comment {
        let text = Wide::from_slice(alloc, comment.as_slice())?;
        return Ok(comments.push((line.place.line, text))?);
    }
    Ok(())
}

// The comments of lines in order, each with the first physical line of its logical line.
fn comments_of(alloc: Global, lines: &[Line]) -> Result<Sequence<(u32, Wide)>, Mem>
    ensures { IfOk result (λ comments. comments ≡ comments_of lines.now) }
{
    let mut comments = Sequence::new(alloc);
    let mut rest = lines;
    while let [first, after @ ..] = rest {
        push_comment(alloc, &mut comments, first)?;
        rest = after;
    }
    Ok(comments)
}
