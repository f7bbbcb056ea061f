//! Reads the lines among the members of a module.
ghost use Rattle.std.specs.Prelude.{◌≡◌, true, option_map, option_and_then, IfOk, Some};
ghost use Rattle.net_tree.specs.Tree.{const_member, member_comment, variable};
ghost use Rattle.net_tree.specs.View.{head_of, member_of};
ghost use Rattle.net_exprs.specs.Fitting.{fits_name};
ghost use Rattle.net_exprs.specs.Names.{name_at};
ghost use Rattle.net_reader.specs.Answers.{AnswersWhole};
ghost use Rattle.net_reader.specs.DeclarationReader.{constant_in, function_in, property_in, sub_in, variable_in, visibility_of};
ghost use Rattle.net_reader.specs.FileLines.{text_of_line, units_in};
ghost use Rattle.net_reader.specs.Fits.{fits_head, fits_member, fits_property};
ghost use Rattle.net_reader.specs.ModuleReader as model;
ghost use Rattle.net_reader.specs.Parts.{property_head_of};
ghost use Rattle.net_reader.specs.StateView.{access_of, noted_of, state_of};
ghost use Rattle.net_reader.specs.Steps.{Steps};
ghost use Rattle.net_reader.specs.WordView.{word_of};
ghost use Rattle.net_reader.specs.Words as w;
ghost use Rattle.net_reader.specs.Words.{keyword_at};

use crate::characters::{begins_with, behind, behind_word, is};
use crate::declarations::{read_constant, read_variable};
use crate::heads::{PropertyHead, read_function, read_property, read_sub, visibility_of};
use crate::margins::text_of_line;
use crate::pieces::{headed, property, structure, with_member};
use crate::states::{Access, NotedModule, Promised, State};
use crate::taken::{checked_head, checked_member, checked_property, checked_structure};
use crate::texts::units;
use crate::words::{Word, keyword_at};
use net_emitter::write_ending;
use net_exprs::{PhraseFail, read_name};
use net_tree::{NetHead, NetMember, NetVisibility};
use std::alloc::Global;
use up_base::{Bytes, Mem, Name};

#[tactic(auto, using(crate::proofs::Stopping::map_stops))]
fn member_taken(
    alloc: Global,
    noted: NotedModule,
    line: &[u8],
    member: NetMember,
) -> Result<State, PhraseFail>
    requires { fits_member (member_of member) ≡ true }
    ensures { Steps state_of (model.member_taken (noted_of noted) line.now (Some (member_of member))) result }
{
    match checked_member(alloc, line, member) {
        Ok(member) => Ok(State::AmongMembers(with_member(noted, member)?)),
        Err(e) => Err(e),
    }
}

#[tactic(auto, using(crate::proofs::Stopping::map_stops))]
fn head_taken(
    alloc: Global,
    noted: NotedModule,
    line: &[u8],
    head: NetHead,
) -> Result<State, PhraseFail>
    requires { fits_head (head_of head) ≡ true }
    ensures { Steps state_of (model.head_taken (noted_of noted) line.now (Some (head_of head))) result }
{
    match checked_head(alloc, line, head) {
        Ok(head) => Ok(State::InProcedure(noted, headed(alloc, head))),
        Err(e) => Err(e),
    }
}

#[tactic(auto, using(crate::proofs::Stopping::structure_stops, crate::proofs::Stopping::map_stops))]
fn structure_taken(
    alloc: Global,
    noted: NotedModule,
    line: &[u8],
    text: &[u8],
) -> Result<State, PhraseFail>
    ensures { Steps state_of (model.structure_taken (noted_of noted) line.now (name_at text.now)) result }
{
    match read_name(alloc, text) {
        Ok((name, _)) => Ok(State::InStructure(
            noted,
            structure(alloc, checked_structure(alloc, line, name)?),
        )),
        Err(e) => Err(e),
    }
}

#[tactic(auto, using(crate::proofs::Stopping::map_stops))]
fn property_taken(
    alloc: Global,
    noted: NotedModule,
    access: Access,
    line: &[u8],
    head: PropertyHead,
) -> Result<State, PhraseFail>
    requires { fits_property (property_head_of head) ≡ true }
    ensures { Steps state_of (model.property_taken (noted_of noted) (access_of access) line.now (Some (property_head_of head))) result }
{
    match checked_property(alloc, access, line, head) {
        Ok(head) => Ok(State::InProperty(
            noted,
            Promised {
                access,
                tree: property(alloc, head),
                comments: Vec::new(alloc),
            },
        )),
        Err(e) => Err(e),
    }
}

// A comment of the units of a text.
#[tactic(auto, using(crate::proofs::Stopping::comment_fails))]
fn comment(alloc: Global, text: &[u8]) -> Result<NetMember, PhraseFail>
    ensures answers { AnswersWhole member_of fits_member (option_map member_comment (units_in text.now)) result }
    ensures held { IfOk result (λ member. fits_member (member_of member) ≡ true) }
{
    match units(alloc, text) {
        Ok(units) => Ok(NetMember::Comment(units)),
        Err(e) => Err(e),
    }
}

#[tactic(auto, using(crate::proofs::Stopping::member_stops))]
fn comment_step(
    alloc: Global,
    noted: NotedModule,
    text: &[u8],
    line: &[u8],
) -> Result<State, PhraseFail>
    ensures { Steps state_of (model.member_taken (noted_of noted) line.now (option_map member_comment (units_in text.now))) result }
{
    match comment(alloc, text) {
        Ok(member) => member_taken(alloc, noted, line, member),
        Err(e) => Err(e),
    }
}

// A variable in a box.
#[tactic(auto, using(crate::proofs::Stopping::variable_fails))]
fn variable(alloc: Global, visibility: NetVisibility, text: &[u8]) -> Result<NetMember, PhraseFail>
    ensures answers { AnswersWhole member_of fits_member (option_map (variable visibility) (variable_in text.now)) result }
    ensures held { IfOk result (λ member. fits_member (member_of member) ≡ true) }
{
    match read_variable(alloc, text) {
        Ok(variable) => Ok(NetMember::Variable(visibility, Box::new(alloc, variable)?)),
        Err(e) => Err(e),
    }
}

#[tactic(auto, using(crate::proofs::Stopping::constant_fails))]
fn constant(alloc: Global, visibility: NetVisibility, text: &[u8]) -> Result<NetMember, PhraseFail>
    ensures answers { AnswersWhole member_of fits_member (option_map (const_member visibility) (constant_in text.now)) result }
    ensures held { IfOk result (λ member. fits_member (member_of member) ≡ true) }
{
    match read_constant(alloc, text) {
        Ok(constant) => Ok(NetMember::Const(visibility, Box::new(alloc, constant)?)),
        Err(e) => Err(e),
    }
}

#[tactic(auto, using(crate::proofs::Stopping::member_stops))]
fn variable_step(
    alloc: Global,
    noted: NotedModule,
    visibility: NetVisibility,
    text: &[u8],
    line: &[u8],
) -> Result<State, PhraseFail>
    ensures { Steps state_of (model.member_taken (noted_of noted) line.now (option_map (variable visibility) (variable_in text.now))) result }
{
    match variable(alloc, visibility, text) {
        Ok(member) => member_taken(alloc, noted, line, member),
        Err(e) => Err(e),
    }
}

#[tactic(auto, using(crate::proofs::Stopping::member_stops))]
fn constant_step(
    alloc: Global,
    noted: NotedModule,
    visibility: NetVisibility,
    text: &[u8],
    line: &[u8],
) -> Result<State, PhraseFail>
    ensures { Steps state_of (model.member_taken (noted_of noted) line.now (option_map (const_member visibility) (constant_in text.now))) result }
{
    match constant(alloc, visibility, text) {
        Ok(member) => member_taken(alloc, noted, line, member),
        Err(e) => Err(e),
    }
}

#[tactic(auto, using(crate::proofs::Stopping::sub_stops))]
fn sub_step(
    alloc: Global,
    noted: NotedModule,
    visibility: NetVisibility,
    text: &[u8],
    line: &[u8],
) -> Result<State, PhraseFail>
    ensures { Steps state_of (model.head_taken (noted_of noted) line.now (sub_in visibility text.now)) result }
{
    match read_sub(alloc, visibility, text) {
        Ok(head) => head_taken(alloc, noted, line, head),
        Err(e) => Err(e),
    }
}

#[tactic(auto, using(crate::proofs::Stopping::function_stops))]
fn function_step(
    alloc: Global,
    noted: NotedModule,
    visibility: NetVisibility,
    text: &[u8],
    line: &[u8],
) -> Result<State, PhraseFail>
    ensures { Steps state_of (model.head_taken (noted_of noted) line.now (function_in visibility text.now)) result }
{
    match read_function(alloc, visibility, text) {
        Ok(head) => head_taken(alloc, noted, line, head),
        Err(e) => Err(e),
    }
}

#[tactic(auto, using(crate::proofs::Stopping::property_stops))]
fn property_step(
    alloc: Global,
    noted: NotedModule,
    visibility: NetVisibility,
    access: Access,
    text: &[u8],
    line: &[u8],
) -> Result<State, PhraseFail>
    ensures { Steps state_of (model.property_taken (noted_of noted) (access_of access) line.now (property_in visibility text.now)) result }
{
    match read_property(alloc, visibility, text) {
        Ok(head) => property_taken(alloc, noted, access, line, head),
        Err(e) => Err(e),
    }
}

// A declaration behind its visibility, by the word there and the text from that word on.
fn member_of(
    alloc: Global,
    noted: NotedModule,
    visibility: NetVisibility,
    word: Option<Word>,
    text: &[u8],
    line: &[u8],
) -> Result<State, PhraseFail>
    ensures { Steps state_of (model.member_of (noted_of noted) visibility (option_map word_of word) text.now line.now) result }
{
    match word {
        None => variable_step(alloc, noted, visibility, text, line),
        Some(Word::Const) => constant_step(alloc, noted, visibility, behind(6, text), line),
        Some(Word::Structure) => structure_taken(alloc, noted, line, behind(10, text)),
        Some(Word::Sub) => sub_step(alloc, noted, visibility, behind(4, text), line),
        Some(Word::Function) => function_step(alloc, noted, visibility, behind(9, text), line),
        Some(Word::Property) => {
            property_step(
                alloc,
                noted,
                visibility,
                Access::Both,
                behind(9, text),
                line,
            )
        }
        Some(Word::ReadOnly) => {
            property_step(
                alloc,
                noted,
                visibility,
                Access::ReadOnly,
                behind(18, text),
                line,
            )
        }
        Some(Word::WriteOnly) => {
            property_step(
                alloc,
                noted,
                visibility,
                Access::WriteOnly,
                behind(19, text),
                line,
            )
        }
        Some(_) => Err(PhraseFail::NotNet),
    }
}

// Whether a line is the last one of a module.
fn is_ending(alloc: Global, class: bool, line: &[u8]) -> Result<bool, Mem>
    ensures { IfOk result (λ same. same ≡ model.is_line 0 (model.module_end_text class) line.now) }
{
    let mut written = Bytes::new(alloc);
    write_ending(&mut written, class)?;
    Ok(is(written.as_slice(), line))
}

fn module_end(
    alloc: Global,
    noted: NotedModule,
    text: &[u8],
    line: &[u8],
) -> Result<State, PhraseFail>
    ensures { Steps state_of (model.member_by (noted_of noted) (Some w.end_word) text.now line.now) result }
{
    if !is_ending(alloc, noted.tree.class, line)? {
        return Err(PhraseFail::NotNet);
    }
    Ok(State::Ended(noted))
}

fn declared_step(
    alloc: Global,
    noted: NotedModule,
    word: Option<Word>,
    text: &[u8],
    line: &[u8],
) -> Result<State, PhraseFail>
    ensures { Steps state_of (option_and_then (λ visibility. model.member_of (noted_of noted) visibility (keyword_at text.now) text.now line.now) (visibility_of (option_map word_of word))) result }
{
    match visibility_of(word) {
        Some(visibility) => member_of(alloc, noted, visibility, keyword_at(text), text, line),
        None => Err(PhraseFail::NotNet),
    }
}

fn member_by(
    alloc: Global,
    noted: NotedModule,
    word: Option<Word>,
    text: &[u8],
    line: &[u8],
) -> Result<State, PhraseFail>
    ensures { Steps state_of (model.member_by (noted_of noted) (option_map word_of word) text.now line.now) result }
{
    match word {
        Some(Word::End) => module_end(alloc, noted, text, line),
        _ => declared_step(alloc, noted, word, text, line),
    }
}

/// Where the line behind one among the members of a module stands.
pub(crate) fn member_step(
    alloc: Global,
    noted: NotedModule,
    line: &[u8],
) -> Result<State, PhraseFail>
    ensures { Steps state_of (model.member_step (noted_of noted) (text_of_line line.now) line.now) result }
{
    let text = text_of_line(line);
    if begins_with(b'\'', text) {
        return comment_step(alloc, noted, behind(1, text), line);
    }
    member_by(
        alloc,
        noted,
        keyword_at(text),
        behind(1, behind_word(text)),
        line,
    )
}
