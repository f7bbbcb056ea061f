//! Reads expressions and arguments.
ghost use Rattle.std.specs.Prelude.{◌≡◌, ◌<◌, ◌≤◌, true, length, IfOk};
ghost use Rattle.net_tree.specs.View.{exp_of, exps_of};
ghost use Rattle.net_exprs.specs.Answers.{Answers};
ghost use Rattle.net_tree.specs.Depth.{are_shallow, is_shallow, most_nested};
ghost use Rattle.net_exprs.specs.Expressions.{arguments_of, arguments_within, exp_nested, exp_within, front_of, group_at, head_at, items_from, nest_behind, operand_behind};
ghost use Rattle.net_exprs.specs.Readers.{behind};
ghost use Rattle.net_exprs.specs.Fitting.{fit_in, fits_exp, fits_exps, fits_in};
ghost use Rattle.net_exprs.specs.Stages.{GroupLeaves, LeaveAll, Leaves, StageLeaves, fits_group, fits_group_in, fits_stage, fits_stage_in, goes_on, group_step, group_view, is_rank, items_view, rank_group, read_view, stage_view, suffix_step};

use crate::characters::after;
use crate::fail::PhraseFail;
use crate::nests::{binary, cast, conversion, paren, type_test, unary};
use crate::openings::{Nest, Opening, read_opening};
use crate::stages::{Group, ReadExpr, ReadItems, Stage, array_stage, value, with_group};
use crate::starts::{Front, front_of, operator_at};
use crate::suffixes::{goes_on, member};
use crate::types::commas;
use net_tree::{MOST_NESTED, NetExpr};
use std::alloc::Global;

#[cycle(read)]
fn expression(alloc: Global, text: &[u8], room: u16) -> Result<(ReadExpr, &[u8]), PhraseFail>
    ensures answers { Answers read_view (fits_in room) (exp_nested room text.now) result }
    ensures shorter { IfOk result (λ read. length read.1.now < length text.now) }
    ensures held { IfOk result (λ read. fits_exp (read_view read.0) ≡ true) }
    ensures left { IfOk result (λ read. Leaves room read.0) }
{
    if room == 0 {
        return Err(PhraseFail::NotNet);
    }
    let (mut stage, mut rest) = head(alloc, text, room - 1)?;
    'suffixes: while goes_on(&stage, rest) {
        let (longer, beyond) = suffix(alloc, stage, rest, room - 1)?;
        stage = longer;
        rest = beyond;
    }
    match value(alloc, stage, room - 1) {
        Ok(read) => Ok((read, rest)),
        Err(e) => Err(e),
    }
}

// What an expression begins with, up to its suffixes.
#[cycle(read)]
fn head(alloc: Global, text: &[u8], room: u16) -> Result<(Stage, &[u8]), PhraseFail>
    ensures answers { Answers stage_view (fits_stage_in room) (head_at (exp_nested room) text.now) result }
    ensures shorter { IfOk result (λ read. length read.1.now < length text.now) }
    ensures held { IfOk result (λ read. fits_stage (stage_view read.0) ≡ true) }
    ensures left { IfOk result (λ read. StageLeaves room read.0) }
{
    let (opening, rest) = read_opening(alloc, text)?;
    match opening {
        Opening::Leaf(expr) => Ok((Stage::Whole(ReadExpr { expr, room }), rest)),
        Opening::Made(ty) => Ok((Stage::Ranked(ty, Vec::new(alloc)), rest)),
        Opening::Nested(nest) => nested(alloc, nest, rest, room),
    }
}

// A nested expression, and what closes what it is nested in.
#[cycle(read)]
fn nested(alloc: Global, nest: Nest, text: &[u8], room: u16) -> Result<(Stage, &[u8]), PhraseFail>
    ensures answers { Answers stage_view (fits_stage_in room) (behind (exp_nested room text.now) (nest_behind (exp_nested room) nest)) result }
    ensures shorter { IfOk result (λ read. length read.1.now < length text.now) }
    ensures held { IfOk result (λ read. fits_stage (stage_view read.0) ≡ true) }
    ensures left { IfOk result (λ read. StageLeaves room read.0) }
{
    let (operand, rest) = expression(alloc, text, room)?;
    match nest {
        Nest::Cast(word) => cast(alloc, word, operand, rest),
        Nest::Convert => conversion(alloc, operand, rest),
        Nest::Unary(op) => unary(alloc, op, operand, rest),
        Nest::TypeTest => type_test(alloc, operand, rest),
        Nest::Parentheses => parenthesized(alloc, operand, rest, room),
    }
}

// A closing parenthesis; or an operator, its right operand and a closing parenthesis.
#[cycle(read)]
fn parenthesized(
    alloc: Global,
    left: ReadExpr,
    text: &[u8],
    room: u16,
) -> Result<(Stage, &[u8]), PhraseFail>
    ensures answers { Answers stage_view (fits_stage_in room) (operand_behind (exp_nested room) (read_view left) text.now) result }
    ensures shorter { IfOk result (λ read. length read.1.now ≤ length text.now) }
    ensures held { fits_exp (read_view left) ≡ true → IfOk result (λ read. fits_stage (stage_view read.0) ≡ true) }
    ensures left { Leaves room left → IfOk result (λ read. StageLeaves room read.0) }
{
    if let Some(rest) = after(b")", text) {
        return Ok((paren(alloc, left)?, rest));
    }
    let Some((op, text)) = operator_at(text) else {
        return Err(PhraseFail::NotNet);
    };
    let (right, rest) = expression(alloc, text, room)?;
    binary(alloc, op, left, right, rest)
}

// What is read so far with the suffix that follows.
#[cycle(read)]
fn suffix(alloc: Global, stage: Stage, text: &[u8], room: u16) -> Result<(Stage, &[u8]), PhraseFail>
    ensures answers { StageLeaves room stage → Answers stage_view (fits_stage_in room) (suffix_step (group_at (exp_nested room)) (stage_view stage) text.now) result }
    ensures shorter { IfOk result (λ read. length read.1.now < length text.now) }
    ensures held { fits_stage (stage_view stage) ≡ true → IfOk result (λ read. fits_stage (stage_view read.0) ≡ true) }
    ensures left { StageLeaves room stage → IfOk result (λ read. StageLeaves room read.0) }
{
    if let Some(rest) = after(b".", text) {
        return member(alloc, stage, rest, room);
    }
    if let Some(rest) = after(b"(", text) {
        return called(alloc, stage, rest, room);
    }
    match after(b" {}", text) {
        Some(rest) => array_stage(alloc, stage, rest, room),
        None => Err(PhraseFail::NotNet),
    }
}

// What is read so far with parentheses, from behind the opening one.
#[cycle(read)]
fn called(alloc: Global, stage: Stage, text: &[u8], room: u16) -> Result<(Stage, &[u8]), PhraseFail>
    ensures answers { StageLeaves room stage → Answers stage_view (fits_stage_in room) (group_step (group_at (exp_nested room)) (stage_view stage) text.now) result }
    ensures shorter { IfOk result (λ read. length read.1.now < length text.now) }
    ensures held { fits_stage (stage_view stage) ≡ true → IfOk result (λ read. fits_stage (stage_view read.0) ≡ true) }
    ensures left { StageLeaves room stage → IfOk result (λ read. StageLeaves room read.0) }
{
    let (group, rest) = group(alloc, text, room)?;
    match with_group(alloc, stage, group, room) {
        Ok(longer) => Ok((longer, rest)),
        Err(e) => Err(e),
    }
}

// Whether commas alone stand up to a closing parenthesis.
fn is_rank(text: &[u8]) -> bool
    ensures { result ≡ is_rank (front_of text.now) }
{
    match front_of(text) {
        Front::Closing => true,
        Front::Comma => true,
        Front::Minus => false,
        Front::Negation => false,
        Front::TypeTest => false,
        Front::Operand => false,
    }
}

fn rank_group(text: &[u8]) -> Result<(Group, &[u8]), PhraseFail>
    ensures answers { Answers group_view fits_group (rank_group text.now) result }
    ensures shorter { IfOk result (λ read. length read.1.now < length text.now) }
    ensures held { IfOk result (λ read. fits_group (group_view read.0) ≡ true) }
{
    match commas(text) {
        Some((rank, rest)) => Ok((Group::Rank(rank), rest)),
        None => Err(PhraseFail::NotNet),
    }
}

// What stands in parentheses, from behind the opening one up to the closing one.
#[cycle(read)]
fn group(alloc: Global, text: &[u8], room: u16) -> Result<(Group, &[u8]), PhraseFail>
    ensures answers { Answers group_view (fits_group_in room) (group_at (exp_nested room) text.now) result }
    ensures shorter { IfOk result (λ read. length read.1.now < length text.now) }
    ensures held { IfOk result (λ read. fits_group (group_view read.0) ≡ true) }
    ensures left { IfOk result (λ read. GroupLeaves room read.0) }
{
    if is_rank(text) {
        return rank_group(text);
    }
    let (items, rest) = items(alloc, text, room)?;
    Ok((Group::Items(items), rest))
}

// Expressions up to the closing parenthesis.
#[cycle(read)]
fn items(alloc: Global, text: &[u8], room: u16) -> Result<(ReadItems, &[u8]), PhraseFail>
    ensures answers { Answers items_view (fit_in room) (items_from (exp_nested room) (length text.now) text.now) result }
    ensures shorter { IfOk result (λ read. length read.1.now < length text.now) }
    ensures held { IfOk result (λ read. fits_exps (items_view read.0) ≡ true) }
    ensures left { IfOk result (λ read. LeaveAll room read.0) }
{
    let mut items = Vec::new(alloc);
    let mut left = room;
    let mut rest = text;
    'items: loop {
        let (item, beyond) = expression(alloc, rest, room)?;
        left = left.min(item.room);
        items.push(item.expr)?;
        if let Some(end) = after(b")", beyond) {
            return Ok((ReadItems { items, room: left }, end));
        }
        let Some(more) = after(b", ", beyond) else {
            return Err(PhraseFail::NotNet);
        };
        rest = more;
    }
}

/// Reads an expression. It fails with `NotNet` where none stands there, or one with a name of more than 512
/// characters, an array of more than 255 dimensions or a number outside of its type, or one that is more than 1000
/// deep: operands, arguments, and what members and arguments stand behind, each in another.
pub fn read_expression(alloc: Global, text: &[u8]) -> Result<(NetExpr, &[u8]), PhraseFail>
    ensures answers { Answers exp_of fits_exp (exp_within most_nested text.now) result }
    ensures shorter { IfOk result (λ read. length read.1.now < length text.now) }
    ensures held { IfOk result (λ read. fits_exp (exp_of read.0) ≡ true) }
    ensures shallow { IfOk result (λ read. is_shallow (exp_of read.0) ≡ true) }
{
    match expression(alloc, text, MOST_NESTED) {
        Ok((read, rest)) => Ok((read.expr, rest)),
        Err(e) => Err(e),
    }
}

fn arguments_of(alloc: Global, group: Group) -> Vec<NetExpr>
    ensures arguments { exps_of result.items ≡ arguments_of (group_view group) }
    ensures held { fits_group (group_view group) ≡ true → fits_exps (exps_of result.items) ≡ true }
{
    match group {
        Group::Rank(_) => Vec::new(alloc),
        Group::Items(read) => read.items,
    }
}

/// Reads arguments, or the bounds of an array, with their parentheses. It fails with `NotNet` where none stand there,
/// or one of them is no expression that `read_expression` reads.
pub fn read_arguments(alloc: Global, text: &[u8]) -> Result<(Vec<NetExpr>, &[u8]), PhraseFail>
    ensures answers { Answers (λ items. exps_of items.items) fits_exps (arguments_within most_nested text.now) result }
    ensures shorter { IfOk result (λ read. length read.1.now < length text.now) }
    ensures held { IfOk result (λ read. fits_exps (exps_of read.0.items) ≡ true) }
    ensures shallow { IfOk result (λ read. are_shallow (exps_of read.0.items) ≡ true) }
{
    let Some(inner) = after(b"(", text) else {
        return Err(PhraseFail::NotNet);
    };
    let (group, rest) = group(alloc, inner, MOST_NESTED)?;
    Ok((arguments_of(alloc, group), rest))
}
