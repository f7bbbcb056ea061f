//! The code lines of a project, each with what is bound in it. The binder's lines stand beside the module's tree: here they
//! are joined once, so that no analysis counts lines.
ghost use Rattle.std.specs.Prelude.{◌≡◌, ◌++◌, map, IfOk, OnOk, slice_get};
ghost use Rattle.std.specs.List.{flat_map};
ghost use Rattle.vb_tree.specs.FlatLines.{flat_lines, code_lines};
ghost use Rattle.vb_tree.specs.Tree.{Module};
ghost use Rattle.vb_tree.specs.View.{line_of, nodes_of, member_of, module_of, project_of};
ghost use Rattle.bound_tree.specs.Source.{code_of, procedures_in, procedures_of};
ghost use Rattle.bound_tree.specs.View.{joined, bodies_of, program_of, shown_line, with_bindings, with_body};
ghost use Rattle.bound_tree.specs.Lines.{lines_of, bodies_shown};

use crate::{Bound, BoundBody, BoundLine};
use std::alloc::Global;
use up_base::{Mem, Sequence};
use vb_tree::{CodeLine, Member6, Module6, Node6, Project6, flat_lines};

/// A code line and what is bound in it.
#[derive(Clone, Copy)]
pub struct LineRef<'a> {
    pub source: &'a CodeLine,
    pub bound: &'a BoundLine,
}

/// The code lines of each procedure, in project order.
pub fn bound_lines(alloc: Global, bound: &Bound) -> Result<Vec<Vec<LineRef<'_>>>, Mem>
    ensures { IfOk result (λ lines. map lines_of lines.items ≡ (program_of bound.now).bodies) }
{
    let procedures = procedures(alloc, &bound.declared.project)?;
    Ok(join_bodies(alloc, &procedures, &bound.bodies)?)
}

// The bodies of the procedures of a project, in order.
fn procedures(alloc: Global, project: &Project6) -> Result<Vec<&[Node6]>, Mem>
    ensures { IfOk result (λ v. map bodies_shown v.items ≡ procedures_of (project_of project.now)) }
{
    let mut all = Vec::new(alloc);
    for module in project.modules.as_slice() {
        push_module(module, &mut all)?;
    }
    Ok(all)
}

fn push_module<'a>(module: &'a Module6, all: &mut Vec<&'a [Node6]>) -> Result<(), Mem>
    ensures { OnOk result (map bodies_shown all.new.items ≡ map bodies_shown all.old.items ++ flat_map procedures_in (module_of «module».now).members) }
{
    for member in module.members.as_slice() {
        push_member(member, all)?;
    }
    Ok(())
}

fn push_member<'a>(member: &'a Member6, all: &mut Vec<&'a [Node6]>) -> Result<(), Mem>
    ensures { OnOk result (map bodies_shown all.new.items ≡ map bodies_shown all.old.items ++ procedures_in (member_of member.now)) }
{
    match member {
        Member6::Line(_) => Ok(()),
        Member6::Group(_, _, _) => Ok(()),
        Member6::Proc(_, body, _) => Ok(all.push(body.as_slice())?),
    }
}

// The bodies with what is bound in those of their numbers.
fn join_bodies<'a>(
    alloc: Global,
    procedures: &[&'a [Node6]],
    bodies: &'a Sequence<BoundBody>,
) -> Result<Vec<Vec<LineRef<'a>>>, Mem>
    ensures { IfOk result (λ lines. map lines_of lines.items ≡ bodies_of bodies.now 0 (map bodies_shown procedures.now)) }
{
    let mut all = Vec::new(alloc);
    for (i, body) in procedures.iter().enumerate() {
        push_body(alloc, body, bodies, i, &mut all)?;
    }
    Ok(all)
}

fn push_body<'a>(
    alloc: Global,
    body: &'a [Node6],
    bodies: &'a Sequence<BoundBody>,
    i: usize,
    all: &mut Vec<Vec<LineRef<'a>>>,
) -> Result<(), Mem>
    ensures { OnOk result (map lines_of all.new.items ≡ map lines_of all.old.items ++ with_body (nodes_of body.now) (slice_get bodies.now i)) }
{
    match bodies.get(i) {
        Some(bound) => Ok(all.push(join_body(alloc, body, bound)?)?),
        None => Ok(()),
    }
}

// The code lines of a body with what is bound in them.
fn join_body<'a>(
    alloc: Global,
    body: &'a [Node6],
    bound: &'a BoundBody,
) -> Result<Vec<LineRef<'a>>, Mem>
    ensures { IfOk result (λ lines. map shown_line lines.items ≡ joined bound.now.lines 0 (code_of (nodes_of body.now))) }
{
    let lines = code_lines(alloc, body)?;
    Ok(join_lines(alloc, &lines, &bound.lines)?)
}

// The code lines of a body.
fn code_lines<'a>(alloc: Global, body: &'a [Node6]) -> Result<Vec<&'a CodeLine>, Mem>
    ensures { IfOk result (λ lines. map (λ l. line_of l.now) lines.items ≡ code_of (nodes_of body.now)) }
{
    let all = flat_lines(alloc, body)?;
    Ok(coded(alloc, &all)?)
}

// The code lines among lines.
fn coded<'a>(alloc: Global, lines: &[&'a CodeLine]) -> Result<Vec<&'a CodeLine>, Mem>
    ensures { IfOk result (λ code. map (λ l. line_of l.now) code.items ≡ code_lines (map (λ l. line_of l.now) lines.now)) }
{
    let mut code = Vec::new(alloc);
    for line in lines {
        if line.form.is_code() {
            code.push(*line)?;
        }
    }
    Ok(code)
}

fn join_lines<'a>(
    alloc: Global,
    lines: &[&'a CodeLine],
    bound: &'a Sequence<BoundLine>,
) -> Result<Vec<LineRef<'a>>, Mem>
    ensures { IfOk result (λ v. map shown_line v.items ≡ joined bound.now 0 (map (λ l. line_of l.now) lines.now)) }
{
    let mut all = Vec::new(alloc);
    for (i, line) in lines.iter().enumerate() {
        push_line(line, bound, i, &mut all)?;
    }
    Ok(all)
}

fn push_line<'a>(
    source: &'a CodeLine,
    bound: &'a Sequence<BoundLine>,
    i: usize,
    all: &mut Vec<LineRef<'a>>,
) -> Result<(), Mem>
    ensures { OnOk result (map shown_line all.new.items ≡ map shown_line all.old.items ++ with_bindings (line_of source.now) (slice_get bound.now i)) }
{
    match bound.get(i) {
        Some(bound) => Ok(all.push(LineRef { source, bound })?),
        None => Ok(()),
    }
}
