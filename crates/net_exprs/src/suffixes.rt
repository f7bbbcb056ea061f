//! Suffixes that need no other expression.
ghost use Rattle.std.specs.Prelude.{◌≡◌, ◌<◌, true, length, IfOk};
ghost use Rattle.net_exprs.specs.Answers.{Answers};
ghost use Rattle.net_exprs.specs.Expressions.{array_made};
ghost use Rattle.net_exprs.specs.Stages.{StageLeaves, fits_stage, fits_stage_in, goes_on, member_step, stage_view};

use crate::characters::after;
use crate::fail::PhraseFail;
use crate::names::read_name;
use crate::stages::{Stage, array_stage, is_array, with_member};
use std::alloc::Global;

/// Whether a suffix follows what is read so far.
#[tactic(auto, unfolding(crate::specs::Expressions::suffix_of))]
pub(crate) fn goes_on(stage: &Stage, text: &[u8]) -> bool
    ensures { result ≡ goes_on (stage_view stage.now) text.now }
{
    match text {
        [b'.', ..] => true,
        [b'(', ..] => true,
        _ => after(b" {}", text).is_some() && is_array(stage),
    }
}

/// A member of what is read so far, behind its full stop.
pub(crate) fn member(
    alloc: Global,
    stage: Stage,
    text: &[u8],
    room: u16,
) -> Result<(Stage, &[u8]), PhraseFail>
    ensures answers { StageLeaves room stage → Answers stage_view (fits_stage_in room) (member_step (stage_view stage) text.now) result }
    ensures shorter { IfOk result (λ read. length read.1.now < length text.now) }
    ensures held { fits_stage (stage_view stage) ≡ true → IfOk result (λ read. fits_stage (stage_view read.0) ≡ true) }
    ensures left { StageLeaves room stage → IfOk result (λ read. StageLeaves room read.0) }
{
    let (name, rest) = read_name(alloc, text)?;
    match with_member(alloc, stage, name, room) {
        Ok(longer) => Ok((longer, rest)),
        Err(e) => Err(e),
    }
}
