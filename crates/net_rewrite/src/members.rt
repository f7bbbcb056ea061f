//! The members of a module.
ghost use Rattle.std.specs.Prelude.{◌≡◌, ◌++◌, ◌∷◌, [], Some, map, option_map, slice_get, IfOk, OnOk};
ghost use Rattle.vb_tree.specs.View.{line_of, nodes_of};
ghost use Rattle.vb_tree.specs.View as source;
ghost use Rattle.bound_tree.specs.View as bound;
ghost use Rattle.net_tree.specs.Tree as net;
ghost use Rattle.net_tree.specs.View.{member_of, procedure_of};
ghost use Rattle.std.specs.List.{flat_map};
ghost use Rattle.written_trees.specs.Comments.{texts};
ghost use Rattle.written_trees.specs.DeclaredMembers.{group_members, line_members, member_comments};
ghost use Rattle.written_trees.specs.Members as rows;
ghost use Rattle.written_trees.specs.Names as names;
ghost use Rattle.written_trees.specs.Properties as properties;
ghost use Rattle.written_members.specs.View.{IsSite, numbers_of, placed_of, program_at, scope_at};
ghost use Rattle.net_rewrite.specs.Modules.{placed_written};

use crate::properties::{
    head_comments, is_counted, is_separate, only_part, procedure_at, property_of, separate_name,
};
use bound_tree::{LineRef, ProcDecl};
use net_tree::{NetClose, NetMember, NetProc};
use std::alloc::Global;
use up_base::{Mem, Name};
use vb_tree::{CodeLine, Member6, Node6};
use written_exprs::is_property_kind;
use written_members::{
    Comment, Numbers, Placed, Site, head_of, is_function, last_comments, placed_members,
    procedure_with, push_group_members, push_line_members, push_member_comments, push_member_texts,
};
use written_rows::procedure_name;

// ---- procedures as members

fn boxed(alloc: Global, procedure: NetProc) -> Result<NetMember, Mem>
    ensures { IfOk result (λ m. member_of m ≡ net.proc (procedure_of procedure)) }
{
    Ok(NetMember::Proc(Box::new(alloc, procedure)?))
}

fn plain_procedure(
    alloc: Global,
    site: &Site,
    bodies: &[Vec<LineRef>],
    placed: &Placed,
    body: &[Node6],
    q: &ProcDecl,
    name: Name,
) -> Result<NetProc, Mem>
    requires { IsSite site.now }
    ensures { IfOk result (λ p. net.proc (procedure_of p) ≡ rows.plain_member (program_at site.now bodies.now) (scope_at site.now) (placed_of placed.now) (nodes_of body.now) (bound.procedure_of q.now) name) }
{
    let head = head_of(alloc, &site.scope(), q, name)?;
    if is_function(q.kind) {
        return Ok(procedure_with(
            alloc,
            site,
            bodies,
            placed,
            body,
            head,
            NetClose::EndFunction,
        )?);
    }
    Ok(procedure_with(alloc, site, bodies, placed, body, head, NetClose::EndSub)?)
}

fn plain_member(
    alloc: Global,
    site: &Site,
    bodies: &[Vec<LineRef>],
    placed: &Placed,
    body: &[Node6],
    q: &ProcDecl,
    name: Name,
) -> Result<NetMember, Mem>
    requires { IsSite site.now }
    ensures { IfOk result (λ m. member_of m ≡ rows.plain_member (program_at site.now bodies.now) (scope_at site.now) (placed_of placed.now) (nodes_of body.now) (bound.procedure_of q.now) name) }
{
    let procedure = plain_procedure(alloc, site, bodies, placed, body, q, name)?;
    Ok(boxed(alloc, procedure)?)
}

fn is_later(site: &Site, procedure: u32, q: &ProcDecl) -> bool
    ensures { result ≡ rows.is_later (scope_at site.now) procedure (bound.procedure_of q.now) }
{
    is_counted(site.statements.declared(), procedure, q) && q.first.0 != procedure
}

fn property_member(
    alloc: Global,
    site: &Site,
    bodies: &[Vec<LineRef>],
    all: &[Placed],
    placed: &Placed,
    body: &[Node6],
    q: &ProcDecl,
) -> Result<NetMember, Mem>
    requires { IsSite site.now }
    ensures { IfOk result (λ m. member_of m ≡ rows.property_member (program_at site.now bodies.now) (scope_at site.now) (map placed_of all.now) (placed_of placed.now) (nodes_of body.now) (bound.procedure_of q.now)) }
{
    if is_counted(site.statements.declared(), placed.at.procedure, q) {
        return Ok(property_of(alloc, site, bodies, all, placed.at.procedure, q)?);
    }
    Ok(only_part(alloc, site, bodies, placed, body, q)?)
}

fn name_by_itself(alloc: Global, site: &Site, placed: &Placed, q: &ProcDecl) -> Result<Name, Mem>
    ensures { IfOk result (λ n. n ≡ properties.separate_name q.now.kind (names.procedure_name (scope_at site.now).declarations placed.now.at.procedure)) }
{
    let name = procedure_name(alloc, site.statements.declared(), placed.at.procedure)?;
    Ok(separate_name(alloc, q.kind, name.as_bytes())?)
}

fn separate_member(
    alloc: Global,
    site: &Site,
    bodies: &[Vec<LineRef>],
    placed: &Placed,
    body: &[Node6],
    q: &ProcDecl,
) -> Result<NetMember, Mem>
    requires { IsSite site.now }
    ensures { IfOk result (λ m. member_of m ≡ rows.plain_member (program_at site.now bodies.now) (scope_at site.now) (placed_of placed.now) (nodes_of body.now) (bound.procedure_of q.now) (properties.separate_name q.now.kind (names.procedure_name (scope_at site.now).declarations placed.now.at.procedure))) }
{
    let name = name_by_itself(alloc, site, placed, q)?;
    Ok(plain_member(alloc, site, bodies, placed, body, q, name)?)
}

fn member_by(
    alloc: Global,
    site: &Site,
    bodies: &[Vec<LineRef>],
    all: &[Placed],
    placed: &Placed,
    body: &[Node6],
    q: &ProcDecl,
) -> Result<NetMember, Mem>
    requires { IsSite site.now }
    ensures { IfOk result (λ m. member_of m ≡ rows.member_by (program_at site.now bodies.now) (scope_at site.now) (map placed_of all.now) (placed_of placed.now) (nodes_of body.now) (bound.procedure_of q.now)) }
{
    if !is_property_kind(q.kind) {
        let name = q.name.copy(alloc)?;
        return Ok(plain_member(alloc, site, bodies, placed, body, q, name)?);
    }
    if is_separate(&site.scope(), q) {
        return Ok(separate_member(alloc, site, bodies, placed, body, q)?);
    }
    Ok(property_member(alloc, site, bodies, all, placed, body, q)?)
}

fn stays_inside(site: &Site, procedure: u32, q: &ProcDecl) -> bool
    ensures { result ≡ rows.stays_inside (scope_at site.now) procedure (bound.procedure_of q.now) }
{
    is_property_kind(q.kind) && (!is_separate(&site.scope(), q) && is_later(site, procedure, q))
}

fn push_head_comments(
    alloc: Global,
    site: &Site,
    placed: &Placed,
    head: &CodeLine,
    to: &mut Vec<NetMember>,
) -> Result<(), Mem>
    requires { IsSite site.now }
    ensures { OnOk result (map member_of to.new.items ≡ map member_of to.old.items ++ member_comments (properties.head_comments (scope_at site.now) (placed_of placed.now) (line_of head.now))) }
{
    let units = head_comments(alloc, site, placed, head)?;
    Ok(push_member_comments(units, to)?)
}

fn push_member_by(
    alloc: Global,
    site: &Site,
    bodies: &[Vec<LineRef>],
    all: &[Placed],
    placed: &Placed,
    body: &[Node6],
    q: &ProcDecl,
    to: &mut Vec<NetMember>,
) -> Result<(), Mem>
    requires { IsSite site.now }
    ensures { OnOk result (map member_of to.new.items ≡ map member_of to.old.items ++ rows.member_by (program_at site.now bodies.now) (scope_at site.now) (map placed_of all.now) (placed_of placed.now) (nodes_of body.now) (bound.procedure_of q.now) ∷ []) }
{
    let member = member_by(alloc, site, bodies, all, placed, body, q)?;
    Ok(to.push(member)?)
}

fn push_declared_procedure(
    alloc: Global,
    site: &Site,
    bodies: &[Vec<LineRef>],
    all: &[Placed],
    placed: &Placed,
    head: &CodeLine,
    body: &[Node6],
    q: &ProcDecl,
    to: &mut Vec<NetMember>,
) -> Result<(), Mem>
    requires { IsSite site.now }
    ensures { OnOk result (map member_of to.new.items ≡ map member_of to.old.items ++ rows.procedure_members (program_at site.now bodies.now) (scope_at site.now) (map placed_of all.now) (placed_of placed.now) (line_of head.now) (nodes_of body.now) (Some (bound.procedure_of q.now))) }
{
    if stays_inside(site, placed.at.procedure, q) {
        return Ok(());
    }
    push_head_comments(alloc, site, placed, head, to)?;
    push_member_by(alloc, site, bodies, all, placed, body, q, to)?;
    Ok(())
}

fn push_procedure(
    alloc: Global,
    site: &Site,
    bodies: &[Vec<LineRef>],
    all: &[Placed],
    placed: &Placed,
    head: &CodeLine,
    body: &[Node6],
    to: &mut Vec<NetMember>,
) -> Result<(), Mem>
    requires { IsSite site.now }
    ensures { OnOk result (map member_of to.new.items ≡ map member_of to.old.items ++ rows.procedure_members (program_at site.now bodies.now) (scope_at site.now) (map placed_of all.now) (placed_of placed.now) (line_of head.now) (nodes_of body.now) (slice_get (scope_at site.now).declarations.procs placed.now.at.procedure)) }
{
    match procedure_at(site, placed.at.procedure as usize) {
        None => Ok(()),
        Some(q) => Ok(push_declared_procedure(
            alloc, site, bodies, all, placed, head, body, q, to,
        )?),
    }
}

// ---- members

fn push_alone(
    alloc: Global,
    site: &Site,
    placed: &Placed,
    line: &CodeLine,
    to: &mut Vec<NetMember>,
) -> Result<(), Mem>
    requires { IsSite site.now }
    ensures { OnOk result (map member_of to.new.items ≡ map member_of to.old.items ++ (member_comments (texts placed.now.own.now) ++ line_members (scope_at site.now) placed.now.at.statement (line_of line.now))) }
{
    push_member_texts(alloc, placed.own, to)?;
    push_line_members(alloc, site, placed.at.statement, line, to)?;
    Ok(())
}

fn push_group(
    alloc: Global,
    site: &Site,
    placed: &Placed,
    head: &CodeLine,
    lines: &[CodeLine],
    to: &mut Vec<NetMember>,
) -> Result<(), Mem>
    requires { IsSite site.now }
    ensures { OnOk result (map member_of to.new.items ≡ map member_of to.old.items ++ (member_comments (texts placed.now.own.now) ++ group_members (scope_at site.now) (placed_of placed.now) (line_of head.now) (map line_of lines.now))) }
{
    push_member_texts(alloc, placed.own, to)?;
    push_group_members(alloc, site, placed, head, lines, to)?;
    Ok(())
}

fn push_at(
    alloc: Global,
    site: &Site,
    bodies: &[Vec<LineRef>],
    all: &[Placed],
    placed: &Placed,
    to: &mut Vec<NetMember>,
) -> Result<(), Mem>
    requires { IsSite site.now }
    ensures { OnOk result (map member_of to.new.items ≡ map member_of to.old.items ++ rows.written_at (program_at site.now bodies.now) (scope_at site.now) (map placed_of all.now) (placed_of placed.now) (source.member_of placed.now.member.now)) }
{
    match placed.member {
        Member6::Line(line) => Ok(push_alone(alloc, site, placed, line, to)?),
        Member6::Group(head, lines, _) => {
            Ok(push_group(alloc, site, placed, head, lines.as_slice(), to)?)
        }
        Member6::Proc(head, body, _) => Ok(push_procedure(
            alloc,
            site,
            bodies,
            all,
            placed,
            head,
            body.as_slice(),
            to,
        )?),
    }
}

fn push_member(
    alloc: Global,
    site: &Site,
    bodies: &[Vec<LineRef>],
    all: &[Placed],
    placed: &Placed,
    to: &mut Vec<NetMember>,
) -> Result<(), Mem>
    requires { IsSite site.now }
    ensures { OnOk result (map member_of to.new.items ≡ map member_of to.old.items ++ rows.written_member (program_at site.now bodies.now) (scope_at site.now) (map placed_of all.now) (placed_of placed.now)) }
{
    push_member_texts(alloc, placed.earlier, to)?;
    push_at(alloc, site, bodies, all, placed, to)?;
    Ok(())
}

fn push_placed(
    alloc: Global,
    site: &Site,
    bodies: &[Vec<LineRef>],
    all: &[Placed],
    to: &mut Vec<NetMember>,
) -> Result<(), Mem>
    requires { IsSite site.now }
    ensures { OnOk result (map member_of to.new.items ≡ map member_of to.old.items ++ flat_map (rows.written_member (program_at site.now bodies.now) (scope_at site.now) (map placed_of all.now)) (map placed_of all.now)) }
{
    for placed in all {
        push_member(alloc, site, bodies, all, placed, to)?;
    }
    Ok(())
}

fn push_all(
    alloc: Global,
    site: &Site,
    bodies: &[Vec<LineRef>],
    all: &[Placed],
    last: &[Comment],
    to: &mut Vec<NetMember>,
) -> Result<(), Mem>
    requires { IsSite site.now }
    ensures { OnOk result (map member_of to.new.items ≡ map member_of to.old.items ++ placed_written (program_at site.now bodies.now) (scope_at site.now) (map placed_of all.now) last.now) }
{
    push_placed(alloc, site, bodies, all, to)?;
    push_member_texts(alloc, last, to)?;
    Ok(())
}

/// Puts what is written for the members of a module, and for the comments behind them, behind others. `bodies` has the code
/// lines of each procedure of the project.
pub(crate) fn push_members(
    alloc: Global,
    site: &Site,
    bodies: &[Vec<LineRef>],
    at: Numbers,
    comments: &[Comment],
    members: &[Member6],
    to: &mut Vec<NetMember>,
) -> Result<(), Mem>
    requires { IsSite site.now }
    ensures { OnOk result (map member_of to.new.items ≡ map member_of to.old.items ++ rows.written_members (program_at site.now bodies.now) (scope_at site.now) (numbers_of at) comments.now (map source.member_of members.now)) }
{
    let all = placed_members(alloc, at, comments, members)?;
    Ok(push_all(
        alloc,
        site,
        bodies,
        &all,
        last_comments(comments, members),
        to,
    )?)
}
