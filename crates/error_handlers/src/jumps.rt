//! Jumps that aren't allowed.
ghost use Rattle.std.specs.Prelude.{◌≡◌, Option, map, option_map, reverse};
ghost use Rattle.vb_tree.specs.View.{form_of};
ghost use Rattle.bound_tree.specs.Labels.{label_of};
ghost use Rattle.error_handlers.specs.Jumps.{aim, leaves, leaves_nothing, leaves_procedure};
ghost use Rattle.error_handlers.specs.Marks.{mark_of, seen_heads, seen_label};
ghost use Rattle.error_handlers.specs.Walks.{breaks_by, enters_heads, enters_mark};

use crate::blocks::{Head, enters, is_in_kind};
use crate::labels::{LabelMark, first_mark};
use vb_tree::{BlockKind, ExitKind, Form6, Label6, ProcKind};

// The label that a line goes to, or that an error or a Resume goes to by it.
fn aim(form: &Form6) -> Option<&Label6>
    ensures { option_map seen_label result ≡ aim (form_of form.now) }
{
    match form {
        Form6::GoTo(label) => Some(label),
        Form6::OnErrorGoTo(label) => Some(label),
        Form6::ResumeAt(label) => Some(label),
        _ => None,
    }
}

fn enters_heads(from: &[Head], to: Option<&[Head]>) -> bool
    ensures { result ≡ enters_heads (reverse from.now) (option_map seen_heads to.entry) }
{
    match to {
        Some(heads) => enters(from, heads),
        None => false,
    }
}

fn enters_mark(marks: &[LabelMark], from: &[Head], label: Option<&Label6>) -> bool
    ensures { result ≡ enters_mark (map mark_of marks.now) (reverse from.now) (option_map seen_label label.entry) }
{
    match label {
        Some(label) => enters_heads(from, first_mark(marks, label)),
        None => false,
    }
}

fn leaves_procedure(kind: Option<ProcKind>, exit: ExitKind) -> bool
    ensures { result ≡ leaves_procedure kind exit }
{
    match (kind, exit) {
        (Some(ProcKind::Sub), ExitKind::Sub) => true,
        (Some(ProcKind::Function), ExitKind::Function) => true,
        (Some(ProcKind::Get), ExitKind::Property) => true,
        (Some(ProcKind::Let), ExitKind::Property) => true,
        (Some(ProcKind::Set), ExitKind::Property) => true,
        _ => false,
    }
}

fn leaves(kind: Option<ProcKind>, heads: &[Head], exit: ExitKind) -> bool
    ensures { result ≡ leaves kind (reverse heads.now) exit }
{
    match exit {
        ExitKind::For => is_in_kind(BlockKind::For, heads),
        ExitKind::Do => is_in_kind(BlockKind::Do, heads),
        _ => leaves_procedure(kind, exit),
    }
}

fn leaves_nothing(kind: Option<ProcKind>, heads: &[Head], form: &Form6) -> bool
    ensures { result ≡ leaves_nothing kind (reverse heads.now) (form_of form.now) }
{
    match form {
        Form6::Exit(exit) => !leaves(kind, heads, *exit),
        _ => false,
    }
}

/// Whether a line is a jump that isn't allowed, in a procedure of this kind with these labels, inside of these heads.
pub(crate) fn breaks_jumps(
    kind: Option<ProcKind>,
    marks: &[LabelMark],
    heads: &[Head],
    form: &Form6,
) -> bool
    ensures { result ≡ breaks_by kind (map mark_of marks.now) (reverse heads.now) (form_of form.now) }
{
    enters_mark(marks, heads, aim(form)) || leaves_nothing(kind, heads, form)
}
