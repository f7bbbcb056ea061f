//! What is read so far of an expression.
ghost use Rattle.std.specs.Prelude.{◌≡◌, ℕ, suc, ◌+◌, ◌-◌, ◌<◌, ◌≤◌, nat_le, true, false, length, reverse, is_some, IfOk, IfSome, IsErrOf, Some, None};
ghost use Rattle.net_tree.specs.Depth.{depth_exp, depth_type, most_nested};
ghost use Rattle.net_tree.specs.Tree.{call_of, dot, new_array, new_object, no_exps};
ghost use Rattle.net_tree.specs.View.{exp_of, exps_of, type_name_of};
ghost use Rattle.net_exprs.specs.Answers.{Answers};
ghost use Rattle.net_exprs.specs.Expressions.{array_made, object_of, object_with, value_of, whole, with_group, with_ranks};
ghost use Rattle.net_exprs.specs.Fitting.{fits_exps, fits_type};
ghost use Rattle.net_exprs.specs.Expressions as model;
ghost use Rattle.net_exprs.specs.Stages.{GroupLeaves, LeaveAll, Leaves, StageLeaves, array_stage, fits_stage, group_view, items_view, object_calls, read_view, stage_depth, stage_view};

use crate::fail::PhraseFail;
use net_tree::{MOST_NESTED, NetExpr, NetType};
use std::alloc::Global;
use up_base::{Mem, Name};

/// An expression that was read, and the room that it leaves: how many more may stand around it.
#[derive(Drop)]
pub struct ReadExpr {
    pub expr: NetExpr,
    pub room: u16,
}

/// Expressions that were read, and the room that the deepest of them leaves.
#[derive(Drop)]
pub struct ReadItems {
    pub items: Vec<NetExpr>,
    pub room: u16,
}

/// What is read so far of an expression: all of it; or `New`, a type and parentheses. While these hold nothing but
/// commas, they may be ranks; behind expressions braces decide whether these are the bounds of an array.
#[derive(Drop)]
pub enum Stage {
    Whole(ReadExpr),
    Ranked(NetType, Vec<usize>),
    Bounded(NetType, Vec<usize>, ReadItems),
}

/// What stands in parentheses: commas alone, as a rank, or expressions.
#[derive(Drop)]
pub enum Group {
    Rank(usize),
    Items(ReadItems),
}

// No expressions leave all the room.
fn none(alloc: Global, room: u16) -> ReadItems
    ensures items { items_view result ≡ no_exps }
    ensures left { LeaveAll room result }
{
    ReadItems {
        items: Vec::new(alloc),
        room,
    }
}

#[tactic(auto, using(net_tree::proofs::Views::exps_hidden))]
fn call(alloc: Global, callee: NetExpr, args: Vec<NetExpr>) -> Result<NetExpr, Mem>
    ensures { IfOk result (λ e. exp_of e ≡ call_of (exp_of callee) (exps_of args.items)) }
{
    Ok(NetExpr::Call(Box::new(alloc, callee)?, args))
}

#[tactic(auto, using(net_tree::proofs::Views::exps_hidden))]
fn object(ty: NetType, args: Vec<NetExpr>) -> NetExpr
    ensures { exp_of result ≡ new_object (type_name_of ty) (exps_of args.items) }
{
    NetExpr::NewObject(ty, args)
}

#[tactic(auto, using(net_tree::proofs::Views::exps_hidden))]
fn array(ty: NetType, bounds: Vec<NetExpr>) -> NetExpr
    ensures { exp_of result ≡ new_array (type_name_of ty) (exps_of bounds.items) }
{
    NetExpr::NewArray(ty, bounds)
}

// A call without arguments.
fn bare_call(alloc: Global, callee: NetExpr) -> Result<NetExpr, Mem>
    ensures { IfOk result (λ e. exp_of e ≡ call_of (exp_of callee) no_exps) }
{
    Ok(call(alloc, callee, Vec::new(alloc))?)
}

// An object without arguments, and so many calls of it.
fn object_calls(alloc: Global, ty: NetType, calls: usize) -> Result<NetExpr, Mem>
    ensures { IfOk result (λ e. exp_of e ≡ object_calls (type_name_of ty) calls) }
{
    let mut expr = object(ty, Vec::new(alloc));
    for _call in 0..calls {
        expr = bare_call(alloc, expr)?;
    }
    Ok(expr)
}

// An object of a type, with a call for each of the parentheses behind the first.
#[tactic(auto, using(crate::proofs::Staging::object_is))]
fn ranked_object(alloc: Global, ty: NetType, ranks: &[usize]) -> Result<NetExpr, Mem>
    ensures { IfOk result (λ e. exp_of e ≡ object_of (type_name_of ty) (reverse ranks.now)) }
{
    Ok(object_calls(alloc, ty, ranks.len().saturating_sub(1))?)
}

fn bounded_object(
    alloc: Global,
    ty: NetType,
    ranks: &[usize],
    args: Vec<NetExpr>,
) -> Result<NetExpr, Mem>
    ensures { IfOk result (λ e. exp_of e ≡ object_with (type_name_of ty) (reverse ranks.now) (exps_of args.items)) }
{
    if ranks.is_empty() {
        return Ok(object(ty, args));
    }
    let callee = ranked_object(alloc, ty, ranks)?;
    Ok(call(alloc, callee, args)?)
}

// The expression that ends here.
fn value_of(alloc: Global, stage: Stage) -> Result<NetExpr, Mem>
    ensures { IfOk result (λ e. exp_of e ≡ value_of (stage_view stage)) }
{
    match stage {
        Stage::Whole(read) => Ok(read.expr),
        Stage::Ranked(ty, ranks) => Ok(ranked_object(alloc, ty, &ranks)?),
        Stage::Bounded(ty, ranks, bounds) => Ok(bounded_object(alloc, ty, &ranks, bounds.items)?),
    }
}

// What is left of the room, if there is enough.
fn left_of(room: u16, taken: usize) -> Option<u16>
    ensures some { IfSome result (λ left. left + taken ≡ room) }
    ensures none { result ≡ None → room < taken }
{
    let Ok(taken) = u16::try_from(taken) else {
        return None;
    };
    room.checked_sub(taken)
}

// The room that the expression that ends here leaves, if there is enough for it: found before it is built.
fn room_behind(stage: &Stage, room: u16) -> Option<u16>
    ensures some { StageLeaves room stage.now → IfSome result (λ left. left + depth_exp (value_of (stage_view stage.now)) ≡ suc room) }
    ensures none { StageLeaves room stage.now → result ≡ None → suc room < depth_exp (value_of (stage_view stage.now)) }
{
    match stage {
        Stage::Whole(read) => Some(read.room),
        Stage::Ranked(_, ranks) => left_of(room, ranks.len().saturating_sub(1)),
        Stage::Bounded(_, ranks, bounds) => match left_of(room, ranks.len()) {
            Some(left) => Some(left.min(bounds.room)),
            None => None,
        },
    }
}

/// The expression that ends here, if it isn't too deep: in it there is so much room for others.
pub(crate) fn value(alloc: Global, stage: Stage, room: u16) -> Result<ReadExpr, PhraseFail>
    ensures value { IfOk result (λ read. read_view read ≡ value_of (stage_view stage)) }
    ensures misfits { StageLeaves room stage → IsErrOf result PhraseFail.NotNet → suc room < depth_exp (value_of (stage_view stage)) }
    ensures left { StageLeaves room stage → IfOk result (λ read. Leaves (suc room) read) }
{
    let Some(left) = room_behind(&stage, room) else {
        return Err(PhraseFail::NotNet);
    };
    Ok(ReadExpr {
        expr: value_of(alloc, stage)?,
        room: left,
    })
}

// The same, if it isn't too deep for a suffix behind it.
fn inner(alloc: Global, stage: Stage, room: u16) -> Result<ReadExpr, PhraseFail>
    ensures value { IfOk result (λ read. read_view read ≡ value_of (stage_view stage)) }
    ensures misfits { StageLeaves room stage → IsErrOf result PhraseFail.NotNet → room < depth_exp (value_of (stage_view stage)) }
    ensures left { StageLeaves room stage → IfOk result (λ read. Leaves room read) }
{
    let ReadExpr { expr, room: left } = value(alloc, stage, room)?;
    match left.checked_sub(1) {
        Some(room) => Ok(ReadExpr { expr, room }),
        None => Err(PhraseFail::NotNet),
    }
}

/// A member of what is read so far.
pub(crate) fn with_member(
    alloc: Global,
    stage: Stage,
    name: Name,
    room: u16,
) -> Result<Stage, PhraseFail>
    ensures stage { IfOk result (λ longer. stage_view longer ≡ whole (dot (value_of (stage_view stage)) name)) }
    ensures misfits { StageLeaves room stage → IsErrOf result PhraseFail.NotNet → room < depth_exp (value_of (stage_view stage)) }
    ensures left { StageLeaves room stage → IfOk result (λ longer. StageLeaves room longer) }
{
    let object = inner(alloc, stage, room)?;
    Ok(Stage::Whole(ReadExpr {
        expr: NetExpr::Dot(Box::new(alloc, object.expr)?, name),
        room: object.room,
    }))
}

// A call of what is read so far.
fn called(alloc: Global, stage: Stage, args: ReadItems, room: u16) -> Result<Stage, PhraseFail>
    ensures stage { IfOk result (λ longer. stage_view longer ≡ whole (call_of (value_of (stage_view stage)) (items_view args))) }
    ensures misfits { StageLeaves room stage → IsErrOf result PhraseFail.NotNet → room < depth_exp (value_of (stage_view stage)) }
    ensures left { StageLeaves room stage → LeaveAll room args → IfOk result (λ longer. StageLeaves room longer) }
{
    let callee = inner(alloc, stage, room)?;
    let left = callee.room.min(args.room);
    Ok(Stage::Whole(ReadExpr {
        expr: call(alloc, callee.expr, args.items)?,
        room: left,
    }))
}

fn with_rank(alloc: Global, stage: Stage, rank: usize, room: u16) -> Result<Stage, PhraseFail>
    ensures stage { IfOk result (λ longer. stage_view longer ≡ with_group (stage_view stage) (model.rank rank)) }
    ensures misfits { StageLeaves room stage → IsErrOf result PhraseFail.NotNet → suc room < stage_depth (with_group (stage_view stage) (model.rank rank)) }
    ensures left { StageLeaves room stage → IfOk result (λ longer. StageLeaves room longer) }
{
    match stage {
        Stage::Ranked(ty, ranks) => {
            let mut ranks = ranks;
            ranks.push(rank)?;
            Ok(Stage::Ranked(ty, ranks))
        }
        Stage::Whole(read) => called(alloc, Stage::Whole(read), none(alloc, room), room),
        Stage::Bounded(ty, ranks, bounds) => called(
            alloc,
            Stage::Bounded(ty, ranks, bounds),
            none(alloc, room),
            room,
        ),
    }
}

fn with_items(alloc: Global, stage: Stage, items: ReadItems, room: u16) -> Result<Stage, PhraseFail>
    ensures stage { IfOk result (λ longer. stage_view longer ≡ with_group (stage_view stage) (model.items (items_view items))) }
    ensures misfits { StageLeaves room stage → IsErrOf result PhraseFail.NotNet → suc room < stage_depth (with_group (stage_view stage) (model.items (items_view items))) }
    ensures left { StageLeaves room stage → LeaveAll room items → IfOk result (λ longer. StageLeaves room longer) }
{
    match stage {
        Stage::Ranked(ty, ranks) => Ok(Stage::Bounded(ty, ranks, items)),
        Stage::Whole(read) => called(alloc, Stage::Whole(read), items, room),
        Stage::Bounded(ty, ranks, bounds) => {
            called(alloc, Stage::Bounded(ty, ranks, bounds), items, room)
        }
    }
}

/// What is read so far with parentheses behind it.
pub(crate) fn with_group(
    alloc: Global,
    stage: Stage,
    group: Group,
    room: u16,
) -> Result<Stage, PhraseFail>
    ensures stage { IfOk result (λ longer. stage_view longer ≡ with_group (stage_view stage) (group_view group)) }
    ensures misfits { StageLeaves room stage → IsErrOf result PhraseFail.NotNet → suc room < stage_depth (with_group (stage_view stage) (group_view group)) }
    ensures left { StageLeaves room stage → GroupLeaves room group → IfOk result (λ longer. StageLeaves room longer) }
{
    match group {
        Group::Rank(rank) => with_rank(alloc, stage, rank, room),
        Group::Items(items) => with_items(alloc, stage, items, room),
    }
}

// Whether so many more arrays of a type are no more than can be in each other.
fn has_room(ty: &NetType, ranks: usize) -> bool
    ensures { result ≡ nat_le (ranks + depth_type (type_name_of ty.now)) most_nested }
{
    match u16::try_from(ranks) {
        Ok(ranks) => ranks <= MOST_NESTED && ty.is_within(MOST_NESTED - ranks),
        Err(_) => false,
    }
}

// The array type with these ranks, of which the first stands first.
fn with_ranks(alloc: Global, ty: NetType, ranks: &[usize]) -> Result<NetType, PhraseFail>
    ensures ranks { IfOk result (λ array. type_name_of array ≡ with_ranks (type_name_of ty) (reverse ranks.now)) }
    ensures misfits { IsErrOf result PhraseFail.NotNet → fits_type (with_ranks (type_name_of ty) (reverse ranks.now)) ≡ false }
    ensures held { fits_type (type_name_of ty) ≡ true → IfOk result (λ array. fits_type (type_name_of array) ≡ true) }
{
    if !has_room(&ty, ranks.len()) {
        return Err(PhraseFail::NotNet);
    }
    nested(alloc, ty, ranks)
}

// The same where there is room for them.
fn nested(alloc: Global, ty: NetType, ranks: &[usize]) -> Result<NetType, PhraseFail>
    requires { length ranks.now + depth_type (type_name_of ty) ≤ most_nested }
    ensures ranks { IfOk result (λ array. type_name_of array ≡ with_ranks (type_name_of ty) (reverse ranks.now)) }
    ensures misfits { IsErrOf result PhraseFail.NotNet → fits_type (with_ranks (type_name_of ty) (reverse ranks.now)) ≡ false }
    ensures held { fits_type (type_name_of ty) ≡ true → IfOk result (λ array. fits_type (type_name_of array) ≡ true) }
{
    let mut array = ty;
    for rank in ranks {
        let Ok(rank) = u8::try_from(*rank) else {
            return Err(PhraseFail::NotNet);
        };
        array = NetType::ArrayOf(Box::new(alloc, array)?, rank);
    }
    Ok(array)
}

/// Whether braces behind what is read so far make an array of it.
pub(crate) fn is_array(stage: &Stage) -> bool
    ensures { result ≡ is_some (array_made (stage_view stage.now)) }
{
    match stage {
        Stage::Whole(_) => false,
        Stage::Ranked(_, ranks) => !ranks.is_empty(),
        Stage::Bounded(_, _, _) => true,
    }
}

// The array that is made of a type, ranks and bounds.
fn made<'a>(
    alloc: Global,
    ty: NetType,
    ranks: &[usize],
    bounds: ReadItems,
    rest: &'a [u8],
) -> Result<(Stage, &'a [u8]), PhraseFail>
    ensures answers { Answers stage_view fits_stage (Some (whole (new_array (with_ranks (type_name_of ty) (reverse ranks.now)) (items_view bounds)), rest.now)) result }
    ensures same { IfOk result (λ read. read.1.now ≡ rest.now) }
    ensures held { fits_type (type_name_of ty) ≡ true → fits_exps (items_view bounds) ≡ true → IfOk result (λ read. fits_stage (stage_view read.0) ≡ true) }
    ensures left { (room : ℕ) → LeaveAll room bounds → IfOk result (λ read. StageLeaves room read.0) }
{
    match with_ranks(alloc, ty, ranks) {
        Ok(ty) => {
            let expr = array(ty, bounds.items);
            let room = bounds.room;
            Ok((Stage::Whole(ReadExpr { expr, room }), rest))
        }
        Err(e) => Err(e),
    }
}

/// The array that braces make of what is read so far.
pub(crate) fn array_stage(
    alloc: Global,
    stage: Stage,
    rest: &[u8],
    room: u16,
) -> Result<(Stage, &[u8]), PhraseFail>
    ensures answers { Answers stage_view fits_stage (array_stage rest.now (array_made (stage_view stage))) result }
    ensures same { IfOk result (λ read. read.1.now ≡ rest.now) }
    ensures held { fits_stage (stage_view stage) ≡ true → IfOk result (λ read. fits_stage (stage_view read.0) ≡ true) }
    ensures left { StageLeaves room stage → IfOk result (λ read. StageLeaves room read.0) }
{
    match stage {
        Stage::Whole(_) => Err(PhraseFail::NotNet),
        Stage::Ranked(ty, ranks) => match ranks.as_slice() {
            [inner @ .., _] => made(alloc, ty, inner, none(alloc, room), rest),
            [] => Err(PhraseFail::NotNet),
        },
        Stage::Bounded(ty, ranks, bounds) => made(alloc, ty, &ranks, bounds, rest),
    }
}
