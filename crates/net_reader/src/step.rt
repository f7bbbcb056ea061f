//! Goes from line to line of the file of a module.
ghost use Rattle.std.specs.Prelude.{◌≡◌, option_map, IfOk};
ghost use Rattle.net_reader.specs.FileLines.{text_of_line};
ghost use Rattle.net_reader.specs.ModuleReader as model;
ghost use Rattle.net_reader.specs.StateView.{body_of, grown_of, noted_of, promised_of, state_of};
ghost use Rattle.net_reader.specs.Steps.{Steps};

use crate::front::{first_step, front_step};
use crate::margins::text_of_line;
use crate::members::member_step;
use crate::pieces::{with_member, with_part};
use crate::procedures::grown;
use crate::properties::property_by;
use crate::states::{Body, Grown, NotedModule, Promised, State};
use crate::structures::structure_by;
use crate::words::keyword_at;
use net_exprs::PhraseFail;
use net_tree::NetMember;
use std::alloc::Global;
use up_base::Mem;

fn behind_procedure(alloc: Global, noted: NotedModule, grown: Grown) -> Result<State, Mem>
    ensures { IfOk result (λ state. state_of state ≡ model.behind_procedure (noted_of noted) (grown_of grown)) }
{
    match grown {
        Grown::Going(body) => Ok(State::InProcedure(noted, body)),
        Grown::Closed(procedure) => {
            let member = NetMember::Proc(Box::new(alloc, procedure)?);
            Ok(State::AmongMembers(with_member(noted, member)?))
        }
    }
}

fn behind_part(
    alloc: Global,
    noted: NotedModule,
    promised: Promised,
    grown: Grown,
) -> Result<State, Mem>
    ensures { IfOk result (λ state. state_of state ≡ model.behind_part (noted_of noted) (promised_of promised) (grown_of grown)) }
{
    match grown {
        Grown::Going(body) => Ok(State::InPart(noted, promised, body)),
        Grown::Closed(part) => Ok(State::InProperty(noted, with_part(alloc, promised, part)?)),
    }
}

#[tactic(auto, using(crate::proofs::Stopping::map_stops))]
fn procedure_step(
    alloc: Global,
    noted: NotedModule,
    body: Body,
    line: &[u8],
) -> Result<State, PhraseFail>
    ensures { Steps state_of (option_map (model.behind_procedure (noted_of noted)) (model.grown 1 (body_of body) line.now)) result }
{
    match grown(alloc, 1, body, line) {
        Ok(grown) => Ok(behind_procedure(alloc, noted, grown)?),
        Err(e) => Err(e),
    }
}

#[tactic(auto, using(crate::proofs::Stopping::map_stops))]
fn part_step(
    alloc: Global,
    noted: NotedModule,
    promised: Promised,
    body: Body,
    line: &[u8],
) -> Result<State, PhraseFail>
    ensures { Steps state_of (option_map (model.behind_part (noted_of noted) (promised_of promised)) (model.grown 2 (body_of body) line.now)) result }
{
    match grown(alloc, 2, body, line) {
        Ok(grown) => Ok(behind_part(alloc, noted, promised, grown)?),
        Err(e) => Err(e),
    }
}

/// Where the line behind a line stands, and what is read up to there. It fails with `NotNet` where no written file of a module
/// goes on with the line.
pub(crate) fn step(alloc: Global, state: State, line: &[u8]) -> Result<State, PhraseFail>
    ensures { Steps state_of (model.step (state_of state) line.now) result }
{
    match state {
        State::AtFront(name) => first_step(alloc, name, line),
        State::InFront(note, name, texts) => front_step(alloc, note, name, texts, line),
        State::AmongMembers(noted) => member_step(alloc, noted, line),
        State::InStructure(noted, structure) => structure_by(
            alloc,
            noted,
            structure,
            keyword_at(text_of_line(line)),
            line,
        ),
        State::InProperty(noted, promised) => property_by(
            alloc,
            noted,
            promised,
            keyword_at(text_of_line(line)),
            line,
        ),
        State::InProcedure(noted, body) => procedure_step(alloc, noted, body, line),
        State::InPart(noted, promised, body) => part_step(alloc, noted, promised, body, line),
        State::Ended(_) => Err(PhraseFail::NotNet),
    }
}
