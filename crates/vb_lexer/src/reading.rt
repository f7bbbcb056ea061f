//! A logical line, read.
ghost use Rattle.std.specs.Prelude.{◌≡◌, ◌+◌, ◌<◌, ◌^◌, [], length, IfOk};
ghost use Rattle.vb_tree.specs.LogicalLines.{reading, joints, shown};
ghost use Rattle.vb_lexer.specs.Readings.{reading_of};

use crate::content::{read_content, shown};
use crate::faults::{directive, first_fault};
use std::alloc::Global;
use up_base::{Fault, Mem, Place, Wide};
use vb_tree::{Line, Tokens};

/// A logical line, and its first fault.
#[derive(Drop)]
pub(crate) struct Reading {
    pub(crate) line: Line,
    pub(crate) fault: Option<Fault>,
    /// A list without tokens, with room for those of the next line.
    pub(crate) room: Tokens,
}

/// What a line comes to whose first physical line has this number, and which has so many continuations. Its tokens are first
/// put into the list without tokens.
#[tactic(auto, unfolding(vb_tree::specs::LogicalLines::reading))]
pub(crate) fn read_line(
    alloc: Global,
    file: u32,
    number: u32,
    units: Vec<u16>,
    continuations: usize,
    room: Tokens,
) -> Result<Reading, Mem>
    requires units { length units.items < 2 ^ 32 }
    requires lines { number + joints units.items < 2 ^ 32 }
    requires continuations { continuations ≡ joints units.items }
    requires room { room ≡ [] }
    ensures reading { IfOk result (λ r. reading_of r ≡ reading file number units.items) }
    ensures room { IfOk result (λ r. r.room ≡ []) }
{
    let content = read_content(alloc, number, &units, room)?;
    let place = Place { file, line: number };
    let fault = first_fault(
        directive(content.tokens.as_slice()),
        content.stop,
        place,
        &units,
    );
    let Fitted { tokens, room } = moved(alloc, content.tokens)?;
    let line = Line {
        place,
        text: text_of(alloc, units, continuations)?,
        tokens,
        comment: content.comment,
    };
    Ok(Reading { line, fault, room })
}

// What is shown of a line with so many continuations: where it has none, its very units.
#[tactic(auto, using(crate::proofs::PhysicalLines::shown_unjoined))]
fn text_of(alloc: Global, units: Vec<u16>, continuations: usize) -> Result<Wide, Mem>
    requires { continuations ≡ joints units.items }
    ensures { IfOk result (λ text. text ≡ shown units.items) }
{
    if continuations == 0 {
        let mut text = Wide::from_vec(units);
        text.shrink_to_fit();
        return Ok(text);
    }
    Ok(shown(alloc, &units)?)
}

// Tokens in no more memory than they fill, and the list that they were moved out of.
#[derive(Drop)]
struct Fitted {
    tokens: Tokens,
    room: Tokens,
}

fn moved(alloc: Global, tokens: Tokens) -> Result<Fitted, Mem>
    ensures tokens { IfOk result (λ f. f.tokens ≡ tokens) }
    ensures room { IfOk result (λ f. f.room ≡ []) }
{
    let mut room = tokens.into_vec();
    let mut fitted = Vec::with_capacity(alloc, room.len())?;
    fitted.append(&mut room)?;
    Ok(Fitted {
        tokens: Tokens::from_vec(fitted),
        room: Tokens::from_vec(room),
    })
}
