//! Reads the lines of properties between their parts.
ghost use Rattle.std.specs.Prelude.{◌≡◌, ◌&&◌, is_none, drop, option_map, Some};
ghost use Rattle.net_reader.specs.FileLines.{text_of_line, units_in};
ghost use Rattle.net_reader.specs.ModuleReader as model;
ghost use Rattle.net_reader.specs.StateView.{noted_of, promised_of, state_of};
ghost use Rattle.net_reader.specs.Steps.{Steps};
ghost use Rattle.net_reader.specs.WordView.{word_of};
ghost use Rattle.net_reader.specs.Words as w;

use crate::pieces::{headed, with_comment, with_member};
use crate::states::{NotedModule, Promised, State};
use crate::taken::{gets, is_kept, is_line, take_comment, take_set};
use crate::words::Word;
use net_exprs::PhraseFail;
use net_tree::{NetHead, NetMember};
use std::alloc::Global;

// Whether the part of a property that gets may stand there: it is the first.
fn may_get(promised: &Promised) -> bool
    ensures { result ≡ (model.gets (promised_of promised.now).access && is_none (promised_of promised.now).tree.get && is_none (promised_of promised.now).tree.set) }
{
    gets(promised.access) && promised.tree.get.is_none() && promised.tree.set.is_none()
}

fn get_taken(
    alloc: Global,
    noted: NotedModule,
    promised: Promised,
    line: &[u8],
) -> Result<State, PhraseFail>
    ensures { Steps state_of (model.get_taken (noted_of noted) (promised_of promised) line.now) result }
{
    if !may_get(&promised) {
        return Err(PhraseFail::NotNet);
    }
    if !is_line(alloc, 2, b"Get", line)? {
        return Err(PhraseFail::NotNet);
    }
    Ok(State::InPart(noted, promised, headed(alloc, NetHead::Get)))
}

#[tactic(auto, using(crate::proofs::Stopping::map_stops))]
fn set_taken(
    alloc: Global,
    noted: NotedModule,
    promised: Promised,
    line: &[u8],
) -> Result<State, PhraseFail>
    ensures { Steps state_of (model.set_taken (noted_of noted) (promised_of promised) line.now) result }
{
    match take_set(alloc, &promised, line) {
        Ok(head) => Ok(State::InPart(noted, promised, headed(alloc, head))),
        Err(e) => Err(e),
    }
}

#[tactic(auto, using(crate::proofs::Stopping::map_stops))]
fn comment_taken(
    alloc: Global,
    noted: NotedModule,
    promised: Promised,
    line: &[u8],
) -> Result<State, PhraseFail>
    ensures { Steps state_of (model.comment_taken (noted_of noted) (promised_of promised) line.now (units_in (drop 1 (text_of_line line.now)))) result }
{
    match take_comment(alloc, &promised, line) {
        Ok(units) => Ok(State::InProperty(noted, with_comment(promised, units)?)),
        Err(e) => Err(e),
    }
}

// Where the line behind the last one of a property stands.
fn property_end(
    alloc: Global,
    noted: NotedModule,
    promised: Promised,
    line: &[u8],
) -> Result<State, PhraseFail>
    ensures { Steps state_of (model.property_by (noted_of noted) (promised_of promised) (Some w.end_word) line.now) result }
{
    if !is_kept(&promised) {
        return Err(PhraseFail::NotNet);
    }
    if !is_line(alloc, 1, b"End Property", line)? {
        return Err(PhraseFail::NotNet);
    }
    let member = NetMember::Property(Box::new(alloc, promised.tree)?);
    Ok(State::AmongMembers(with_member(noted, member)?))
}

/// Where the line behind one of a property stands, by the word that begins this one.
pub(crate) fn property_by(
    alloc: Global,
    noted: NotedModule,
    promised: Promised,
    word: Option<Word>,
    line: &[u8],
) -> Result<State, PhraseFail>
    ensures { Steps state_of (model.property_by (noted_of noted) (promised_of promised) (option_map word_of word) line.now) result }
{
    match word {
        Some(Word::Get) => get_taken(alloc, noted, promised, line),
        Some(Word::Set) => set_taken(alloc, noted, promised, line),
        Some(Word::End) => property_end(alloc, noted, promised, line),
        _ => comment_taken(alloc, noted, promised, line),
    }
}
