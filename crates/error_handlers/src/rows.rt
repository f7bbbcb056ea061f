//! The rules that the lines of procedures break.
ghost use Rattle.std.specs.Prelude.{◌≡◌, [], IfOk, map, reverse, slice_get};
ghost use Rattle.bound_tree.specs.Lines.{lines_of};
ghost use Rattle.bound_tree.specs.View.{declarations_of, procedure_of, shown_line};
ghost use Rattle.error_handlers.specs.Marks.{mark_of};
ghost use Rattle.error_handlers.specs.Rows.{bodies_rules, body_rules, kind_of};
ghost use Rattle.error_handlers.specs.Walks.{marks_along, rules_along, rules_by};

use crate::blocks::{Head, pass};
use crate::heads::breaks_head;
use crate::jumps::breaks_jumps;
use crate::labels::{LabelMark, label_marks};
use crate::resuming::is_resumable;
use bound_tree::{Declared, LineRef, ProcDecl, RuleSet};
use std::alloc::Global;
use up_base::{Mem, Sequence};
use vb_tree::ProcKind;

/// What is asked of the procedure that a line stands in.
#[derive(Clone, Copy)]
struct Home<'a> {
    declared: &'a Declared,
    kind: Option<ProcKind>,
    resumable: bool,
    marks: &'a [LabelMark<'a>],
}

fn kind_at(procs: &Sequence<ProcDecl>, i: usize) -> Option<ProcKind>
    ensures { result ≡ kind_of (slice_get (map procedure_of procs.now) i) }
{
    match procs.get(i) {
        Some(p) => Some(p.kind),
        None => None,
    }
}

fn line_rules(alloc: Global, home: &Home, heads: &[Head], line: &LineRef) -> Result<RuleSet, Mem>
    ensures { IfOk result (λ set. set ≡ rules_by (declarations_of home.now.declared.now) home.now.kind home.now.resumable (map mark_of home.now.marks.now) (reverse heads.now) (shown_line line.now)) }
{
    let head = breaks_head(alloc, home.declared, home.resumable, line)?;
    let jump = breaks_jumps(home.kind, home.marks, heads, &line.source.form);
    Ok(RuleSet::new().with_if(14, head).with_if(15, jump))
}

fn rules_along(alloc: Global, home: &Home, lines: &[LineRef]) -> Result<Vec<RuleSet>, Mem>
    ensures { IfOk result (λ v. v.items ≡ rules_along (declarations_of home.now.declared.now) home.now.kind home.now.resumable (map mark_of home.now.marks.now) 0 [] (map shown_line lines.now)) }
{
    let mut heads = Vec::new(alloc);
    let mut sets = Vec::new(alloc);
    for (i, line) in lines.iter().enumerate() {
        sets.push(line_rules(alloc, home, &heads, line)?)?;
        pass(&mut heads, &line.source.form, i + 1)?;
    }
    Ok(sets)
}

// The sets of the lines of a procedure.
#[tactic(auto, using(crate::proofs::Walking::along_is))]
fn body_rules(
    alloc: Global,
    declared: &Declared,
    i: usize,
    lines: &[LineRef],
) -> Result<Vec<RuleSet>, Mem>
    ensures { IfOk result (λ v. v.items ≡ body_rules (declarations_of declared.now) (slice_get (map procedure_of declared.now.procs) i) (map shown_line lines.now)) }
{
    let marks = label_marks(alloc, lines)?;
    let home = Home {
        declared,
        kind: kind_at(&declared.procs, i),
        resumable: is_resumable(lines),
        marks: &marks,
    };
    Ok(rules_along(alloc, &home, lines)?)
}

/// For each procedure the sets of its code lines.
pub(crate) fn bodies_rules(
    alloc: Global,
    declared: &Declared,
    lines: &[Vec<LineRef>],
) -> Result<Vec<Sequence<RuleSet>>, Mem>
    ensures { IfOk result (λ v. v.items ≡ bodies_rules (declarations_of declared.now) 0 (map lines_of lines.now)) }
{
    let mut all = Vec::new(alloc);
    for (i, body) in lines.iter().enumerate() {
        all.push(Sequence::from_vec(body_rules(alloc, declared, i, body)?))?;
    }
    Ok(all)
}
