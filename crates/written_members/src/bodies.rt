//! What is written for the lines of a procedure, each code line and each comment at its place.
ghost use Rattle.std.specs.Prelude.{◌≡◌, ◌++◌, map, option_map, slice_get, zip, IfOk, OnOk};
ghost use Rattle.std.specs.Option.{option_copied};
ghost use Rattle.vb_tree.specs.Blocks.{is_code};
ghost use Rattle.vb_tree.specs.View.{line_of, nodes_of};
ghost use Rattle.bound_tree.specs.Labels.{labels};
ghost use Rattle.bound_tree.specs.Lines.{lines_of};
ghost use Rattle.bound_tree.specs.View.{shown_line};
ghost use Rattle.net_tree.specs.View as net_view;
ghost use Rattle.net_tree.specs.View.{head_of, procedure_of};
ghost use Rattle.written_trees.specs.Bodies as rows;
ghost use Rattle.written_rows.specs.View.{scope_of};
ghost use Rattle.written_lines.specs.View.{shown_labels};
ghost use Rattle.written_members.specs.Walk.{line_at};
ghost use Rattle.written_members.specs.View.{IsSite, code_of, placed_of, program_at, scope_at};

use crate::code_line::Code;
use crate::comment_lines::{push_line_texts, push_line_upgrade};
use crate::comments::{Comment, past, up_to};
use crate::numbers::{next, sum};
use crate::placing::Placed;
use crate::prologues::{code_sets, count_replaced, prologue};
use crate::site::Site;
use bound_tree::{LineRef, RuleSet};
use net_tree::{NetClose, NetHead, NetLine, NetProc};
use std::alloc::Global;
use up_base::Mem;
use vb_tree::{CodeLine, Label6, Node6, flat_lines};
use written_lines::{labels_of, written_line};
use written_rows::Scope;

// Code lines with their rules.
fn joined<'a>(alloc: Global, sets: &[RuleSet], lines: &[LineRef<'a>]) -> Result<Vec<Code<'a>>, Mem>
    ensures { IfOk result (λ code. map code_of code.items ≡ zip sets.now (map shown_line lines.now)) }
{
    let mut code = Vec::with_capacity(alloc, lines.len())?;
    let mut rest = sets;
    for line in lines {
        match rest {
            [] => return Ok(code),
            [rules, others @ ..] => {
                code.push(Code {
                    rules: *rules,
                    line: *line,
                })?;
                rest = others;
            }
        }
    }
    Ok(code)
}

// The code lines of a procedure, where it has a body.
fn lines_in<'a, 'b>(bodies: &'b [Vec<LineRef<'a>>], procedure: u32) -> Option<&'b Vec<LineRef<'a>>>
    ensures { option_map lines_of (option_copied result) ≡ slice_get (map lines_of bodies.now) procedure }
{
    bodies.get(procedure as usize)
}

// Those with their rules.
#[tactic(auto, using(crate::proofs::Pairs::none_joined))]
fn joined_at<'a>(
    alloc: Global,
    sets: &[RuleSet],
    bodies: &[Vec<LineRef<'a>>],
    procedure: u32,
) -> Result<Vec<Code<'a>>, Mem>
    ensures { IfOk result (λ code. map code_of code.items ≡ zip sets.now (rows.lines_in (slice_get (map lines_of bodies.now) procedure))) }
{
    match lines_in(bodies, procedure) {
        None => Ok(Vec::new(alloc)),
        Some(lines) => Ok(joined(alloc, sets, lines)?),
    }
}

// The code lines of a procedure with the rules that they break. Its lines are numbered from `number`.
fn code_at<'a>(
    alloc: Global,
    site: &Site,
    bodies: &[Vec<LineRef<'a>>],
    number: u32,
    procedure: u32,
    lines: &[&CodeLine],
) -> Result<Vec<Code<'a>>, Mem>
    requires { IsSite site.now }
    ensures { IfOk result (λ code. map code_of code.items ≡ rows.code_at (program_at site.now bodies.now) (scope_at site.now) number procedure (map (λ l. line_of l.now) lines.now)) }
{
    let sets = code_sets(alloc, site, procedure, number, lines)?;
    Ok(joined_at(alloc, &sets, bodies, procedure)?)
}

// How many heads of For the code line has that a line is, where it is one, that are replaced.
fn count_at(line: &CodeLine, code: &[Code]) -> u32
    ensures { result ≡ rows.replaced_in (rows.taken (is_code (line_of line.now).form) (map code_of code.now)) }
{
    if !line.form.is_code() {
        return 0;
    }
    match code {
        [] => 0,
        [first, ..] => count_replaced(first),
    }
}

// The code lines behind a line.
fn left<'a, 'b>(line: &CodeLine, code: &'b [Code<'a>]) -> &'b [Code<'a>]
    ensures { map code_of result.now ≡ rows.left (is_code (line_of line.now).form) (map code_of code.now) }
{
    if !line.form.is_code() {
        return code;
    }
    match code {
        [] => code,
        [_, others @ ..] => others,
    }
}

// A code line, of which the k-th replaced head of For would be the next.
fn push_code(
    alloc: Global,
    scope: &Scope,
    labels: &[Option<&Label6>],
    k: u32,
    code: &Code,
    to: &mut Vec<NetLine>,
) -> Result<(), Mem>
    ensures { OnOk result (map net_view.line_of to.new.items ≡ map net_view.line_of to.old.items ++ rows.code_lines_of (scope_of scope.now) (shown_labels labels.now) k (code_of code.now)) }
{
    push_line_upgrade(alloc, code.rules, code.line.source.text.as_slice(), to)?;
    to.push(written_line(alloc, scope, labels, code.rules, k, &code.line)?)?;
    Ok(())
}

// A line of a body: a declaration leaves the comment on it alone.
fn push_line(
    alloc: Global,
    site: &Site,
    labels: &[Option<&Label6>],
    n: u32,
    k: u32,
    line: &CodeLine,
    code: &[Code],
    to: &mut Vec<NetLine>,
) -> Result<(), Mem>
    requires { IsSite site.now }
    ensures { OnOk result (map net_view.line_of to.new.items ≡ map net_view.line_of to.old.items ++ rows.lines_at (scope_at site.now) (shown_labels labels.now) n k (line_of line.now) (is_code (line_of line.now).form) (rows.taken (is_code (line_of line.now).form) (map code_of code.now))) }
{
    if !line.form.is_code() {
        return Ok(push_line_upgrade(alloc, site.rules(n), line.text.as_slice(), to)?);
    }
    match code {
        [] => Ok(()),
        [first, ..] => Ok(push_code(alloc, &site.scope(), labels, k, first, to)?),
    }
}

// A line of a body with the comments up to it; before it k heads of For were replaced.
fn push_at(
    alloc: Global,
    site: &Site,
    labels: &[Option<&Label6>],
    comments: &[Comment],
    n: u32,
    k: u32,
    line: &CodeLine,
    code: &[Code],
    to: &mut Vec<NetLine>,
) -> Result<(), Mem>
    requires { IsSite site.now }
    ensures { OnOk result (map net_view.line_of to.new.items ≡ map net_view.line_of to.old.items ++ line_at (scope_at site.now) (shown_labels labels.now) comments.now n k (line_of line.now) (map code_of code.now)) }
{
    push_line_texts(alloc, up_to(comments, line.place.line), to)?;
    let k = next(k)?;
    push_line(alloc, site, labels, n, k, line, code, to)?;
    Ok(())
}

// The lines of a body, of which the first is the statement `number`.
fn body(
    alloc: Global,
    site: &Site,
    labels: &[Option<&Label6>],
    comments: &[Comment],
    number: u32,
    lines: &[&CodeLine],
    code: &[Code],
) -> Result<Vec<NetLine>, Mem>
    requires { IsSite site.now }
    ensures { IfOk result (λ all. map net_view.line_of all.items ≡ rows.body_from (scope_at site.now) (shown_labels labels.now) comments.now number 0 (map (λ l. line_of l.now) lines.now) (map code_of code.now)) }
{
    let mut all = Vec::new(alloc);
    let mut rest = comments;
    let mut coming = code;
    let mut n = number;
    let mut k = 0;
    for line in lines {
        push_at(alloc, site, labels, rest, n, k, line, coming, &mut all)?;
        k = sum(k, count_at(line, coming))?;
        coming = left(line, coming);
        rest = past(rest, line.place.line);
        n = next(n)?;
    }
    push_line_texts(alloc, rest, &mut all)?;
    Ok(all)
}

// The lines of a body with the labels of its procedure.
fn labelled_body(
    alloc: Global,
    site: &Site,
    comments: &[Comment],
    number: u32,
    lines: &[&CodeLine],
    code: &[Code],
) -> Result<Vec<NetLine>, Mem>
    requires { IsSite site.now }
    ensures { IfOk result (λ all. map net_view.line_of all.items ≡ rows.body_from (scope_at site.now) (labels (map (λ l. line_of l.now) lines.now)) comments.now number 0 (map (λ l. line_of l.now) lines.now) (map code_of code.now)) }
{
    let labels = labels_of(alloc, lines)?;
    Ok(body(alloc, site, &labels, comments, number, lines, code)?)
}

// A procedure with a head and a closing line, whose lines are numbered from `number`.
fn procedure_by(
    alloc: Global,
    site: &Site,
    comments: &[Comment],
    number: u32,
    lines: &[&CodeLine],
    code: &[Code],
    head: NetHead,
    close: NetClose,
) -> Result<NetProc, Mem>
    requires { IsSite site.now }
    ensures { IfOk result (λ p. procedure_of p ≡ rows.procedure_by (scope_at site.now) comments.now number (map (λ l. line_of l.now) lines.now) (map code_of code.now) (head_of head) close) }
{
    let prologue = prologue(alloc, site, number, lines, code)?;
    let lines = labelled_body(alloc, site, comments, number, lines, code)?;
    Ok(NetProc {
        head,
        prologue,
        lines,
        close,
    })
}

/// A procedure that stands in its module as a member, with a head and a closing line. `bodies` has the code lines of each
/// procedure of the project.
pub fn procedure_with(
    alloc: Global,
    site: &Site,
    bodies: &[Vec<LineRef>],
    placed: &Placed,
    body: &[Node6],
    head: NetHead,
    close: NetClose,
) -> Result<NetProc, Mem>
    requires { IsSite site.now }
    ensures { IfOk result (λ p. procedure_of p ≡ rows.procedure_with (program_at site.now bodies.now) (scope_at site.now) (placed_of placed.now) (nodes_of body.now) (head_of head) close) }
{
    let lines = flat_lines(alloc, body)?;
    let number = next(placed.at.statement)?;
    let code = code_at(alloc, site, bodies, number, placed.at.procedure, &lines)?;
    let inside = site.inside(placed.at.procedure);
    Ok(procedure_by(
        alloc,
        &inside,
        placed.inside,
        number,
        &lines,
        &code,
        head,
        close,
    )?)
}
