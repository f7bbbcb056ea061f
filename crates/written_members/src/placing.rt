//! The members of a module with their numbers and their comments.
ghost use Rattle.std.specs.Prelude.{◌≡◌, ◌+◌, length, map, IfOk};
ghost use Rattle.vb_tree.specs.FlatLines.{flat_lines, member_lines};
ghost use Rattle.vb_tree.specs.View.{form_of, member_of, nodes_of};
ghost use Rattle.written_trees.specs.Placing as rows;
ghost use Rattle.written_members.specs.View.{numbers_of, placed_of};

use crate::comments::{Comment, before, from, past, up_to};
use crate::numbers::{index, one_if, sum};
use std::alloc::Global;
use up_base::Mem;
use vb_tree::{Form6, Member6, Node6, flat_lines};

/// Where a member stands: the number of its first statement in its module, and of the next procedure, user type and Enum in the
/// project.
#[derive(Clone, Copy)]
pub struct Numbers {
    pub statement: u32,
    pub procedure: u32,
    pub user_type: u32,
    pub enumeration: u32,
}

/// A member with its comments: those before the line that it begins with, those of that line, and those inside.
#[derive(Clone, Copy)]
pub struct Placed<'a> {
    pub at: Numbers,
    pub earlier: &'a [Comment],
    pub own: &'a [Comment],
    pub inside: &'a [Comment],
    pub member: &'a Member6,
}

/// Whether a line is the head of a Type.
pub(crate) fn is_type_head(form: &Form6) -> bool
    ensures { result ≡ rows.is_type_head (form_of form.now) }
{
    match form {
        Form6::TypeHead(_, _, _) => true,
        _ => false,
    }
}

fn is_enum_head(form: &Form6) -> bool
    ensures { result ≡ rows.is_enum_head (form_of form.now) }
{
    match form {
        Form6::EnumHead(_, _, _) => true,
        _ => false,
    }
}

fn count_procedures(member: &Member6) -> u32
    ensures { result ≡ rows.count_procedures (member_of member.now) }
{
    match member {
        Member6::Proc(_, _, _) => 1,
        _ => 0,
    }
}

fn count_types(member: &Member6) -> u32
    ensures { result ≡ rows.counts_group rows.is_type_head (member_of member.now) }
{
    match member {
        Member6::Group(head, _, _) => one_if(is_type_head(&head.form)),
        _ => 0,
    }
}

fn count_enums(member: &Member6) -> u32
    ensures { result ≡ rows.counts_group rows.is_enum_head (member_of member.now) }
{
    match member {
        Member6::Group(head, _, _) => one_if(is_enum_head(&head.form)),
        _ => 0,
    }
}

// The number of lines with a head and a closing line round them.
fn with_ends(lines: usize) -> Result<u32, Mem>
    ensures { IfOk result (λ n. n ≡ lines + 2) }
{
    let n = index(lines)?;
    Ok(sum(n, 2)?)
}

fn count_body(alloc: Global, body: &[Node6]) -> Result<usize, Mem>
    ensures { IfOk result (λ n. n ≡ length (flat_lines (nodes_of body.now))) }
{
    let lines = flat_lines(alloc, body)?;
    Ok(lines.len())
}

// The number of lines of a member.
fn count_lines(alloc: Global, member: &Member6) -> Result<u32, Mem>
    ensures { IfOk result (λ n. n ≡ length (member_lines (member_of member.now))) }
{
    match member {
        Member6::Line(_) => Ok(1),
        Member6::Group(_, lines, _) => Ok(with_ends(lines.len())?),
        Member6::Proc(_, body, _) => {
            let lines = count_body(alloc, body.as_slice())?;
            Ok(with_ends(lines)?)
        }
    }
}

/// The numbers of what stands behind a member.
pub fn behind_member(alloc: Global, at: Numbers, member: &Member6) -> Result<Numbers, Mem>
    ensures { IfOk result (λ next. numbers_of next ≡ rows.behind_member (numbers_of at) (member_of member.now)) }
{
    let lines = count_lines(alloc, member)?;
    Ok(Numbers {
        statement: sum(at.statement, lines)?,
        procedure: sum(at.procedure, count_procedures(member))?,
        user_type: sum(at.user_type, count_types(member))?,
        enumeration: sum(at.enumeration, count_enums(member))?,
    })
}

fn first_line(member: &Member6) -> u32
    ensures { result ≡ rows.first_line (member_of member.now) }
{
    match member {
        Member6::Line(line) => line.place.line,
        Member6::Group(head, _, _) => head.place.line,
        Member6::Proc(head, _, _) => head.place.line,
    }
}

fn last_line(member: &Member6) -> u32
    ensures { result ≡ rows.last_line (member_of member.now) }
{
    match member {
        Member6::Line(line) => line.place.line,
        Member6::Group(_, _, close) => close.place.line,
        Member6::Proc(_, _, close) => close.place.line,
    }
}

fn place_member<'a>(at: Numbers, comments: &'a [Comment], member: &'a Member6) -> Placed<'a>
    ensures { placed_of result ≡ rows.place_member (numbers_of at) comments.now (member_of member.now) }
{
    let first = first_line(member);
    Placed {
        at,
        earlier: before(comments, first),
        own: up_to(from(comments, first), first),
        inside: up_to(past(comments, first), last_line(member)),
        member,
    }
}

/// The members of a module in order.
pub fn placed_members<'a>(
    alloc: Global,
    at: Numbers,
    comments: &'a [Comment],
    members: &'a [Member6],
) -> Result<Vec<Placed<'a>>, Mem>
    ensures { IfOk result (λ all. map placed_of all.items ≡ rows.placed_members (numbers_of at) comments.now (map member_of members.now)) }
{
    let mut all = Vec::with_capacity(alloc, members.len())?;
    let mut numbers = at;
    let mut rest = comments;
    for member in members {
        all.push(place_member(numbers, rest, member))?;
        numbers = behind_member(alloc, numbers, member)?;
        rest = past(rest, last_line(member));
    }
    Ok(all)
}

/// The comments behind the last member.
pub fn last_comments<'a>(comments: &'a [Comment], members: &[Member6]) -> &'a [Comment]
    ensures { result.now ≡ rows.last_comments comments.now (map member_of members.now) }
{
    let mut rest = comments;
    for member in members {
        rest = past(rest, last_line(member));
    }
    rest
}

/// The numbers of what stands behind members.
pub fn behind_members(alloc: Global, at: Numbers, members: &[Member6]) -> Result<Numbers, Mem>
    ensures { IfOk result (λ next. numbers_of next ≡ rows.behind_members (numbers_of at) (map member_of members.now)) }
{
    let mut numbers = at;
    for member in members {
        numbers = behind_member(alloc, numbers, member)?;
    }
    Ok(numbers)
}
