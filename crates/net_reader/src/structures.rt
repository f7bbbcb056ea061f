//! Reads the lines of structures.
ghost use Rattle.std.specs.Prelude.{option_map, Some};
ghost use Rattle.net_tree.specs.View.{structure_of};
ghost use Rattle.net_reader.specs.DeclarationReader.{field_at};
ghost use Rattle.net_reader.specs.FileLines.{text_of_line};
ghost use Rattle.net_reader.specs.ModuleReader as model;
ghost use Rattle.net_reader.specs.StateView.{noted_of, state_of};
ghost use Rattle.net_reader.specs.Steps.{Steps};
ghost use Rattle.net_reader.specs.Takings.{field_within};
ghost use Rattle.net_reader.specs.WordView.{word_of};
ghost use Rattle.net_reader.specs.Words as w;

use crate::pieces::{with_field, with_member};
use crate::states::{NotedModule, State};
use crate::taken::{is_line, take_field};
use crate::words::Word;
use net_exprs::PhraseFail;
use net_tree::{NetMember, NetStructure};
use std::alloc::Global;

// Where the line behind the last one of a structure stands.
fn structure_end(
    alloc: Global,
    noted: NotedModule,
    structure: NetStructure,
    line: &[u8],
) -> Result<State, PhraseFail>
    ensures { Steps state_of (model.structure_by (noted_of noted) (structure_of structure) (Some w.end_word) line.now) result }
{
    if !is_line(alloc, 1, b"End Structure", line)? {
        return Err(PhraseFail::NotNet);
    }
    let member = NetMember::Structure(Box::new(alloc, structure)?);
    Ok(State::AmongMembers(with_member(noted, member)?))
}

#[tactic(auto, using(crate::proofs::Stopping::map_stops))]
fn field_taken(
    alloc: Global,
    noted: NotedModule,
    structure: NetStructure,
    line: &[u8],
) -> Result<State, PhraseFail>
    ensures { Steps state_of (option_map (λ f. model.in_structure (noted_of noted) (model.with_field (structure_of structure) f)) (field_within line.now (field_at (text_of_line line.now)))) result }
{
    match take_field(alloc, line) {
        Ok(field) => Ok(State::InStructure(noted, with_field(structure, field)?)),
        Err(e) => Err(e),
    }
}

/// Where the line behind one of a structure stands, by the word that begins this one.
pub(crate) fn structure_by(
    alloc: Global,
    noted: NotedModule,
    structure: NetStructure,
    word: Option<Word>,
    line: &[u8],
) -> Result<State, PhraseFail>
    ensures { Steps state_of (model.structure_by (noted_of noted) (structure_of structure) (option_map word_of word) line.now) result }
{
    match word {
        Some(Word::End) => structure_end(alloc, noted, structure, line),
        _ => field_taken(alloc, noted, structure, line),
    }
}
