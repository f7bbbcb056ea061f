//! The labels of a procedure, each with the heads of the blocks round it.
ghost use Rattle.std.specs.Prelude.{◌≡◌, ◌++◌, ◌+◌, ◌<◌, List, [], ◌∷◌, Option, IfOk, OnOk, map, option_map, reverse};
ghost use Rattle.vb_tree.specs.View.{form_of};
ghost use Rattle.bound_tree.specs.Labels.{is_same_label, label_of, label_in};
ghost use Rattle.bound_tree.specs.Tree.{Line};
ghost use Rattle.bound_tree.specs.View.{shown_line};
ghost use Rattle.error_handlers.specs.Marks.{mark_of, seen_heads};
ghost use Rattle.error_handlers.specs.Walks.{first_mark, marked, marks_along};

use crate::blocks::{Head, pass};
use bound_tree::LineRef;
use std::alloc::Global;
use up_base::Mem;
use vb_tree::{Form6, Label6};

/// A label and the heads round it.
#[derive(Drop)]
pub(crate) struct LabelMark<'a> {
    pub label: &'a Label6,
    pub heads: Vec<Head>,
}

/// The labels of a procedure, in order.
pub(crate) fn label_marks<'a>(
    alloc: Global,
    lines: &[LineRef<'a>],
) -> Result<Vec<LabelMark<'a>>, Mem>
    ensures { IfOk result (λ v. map mark_of v.items ≡ marks_along 0 [] (map shown_line lines.now)) }
{
    let mut heads = Vec::new(alloc);
    let mut marks = Vec::new(alloc);
    for (i, line) in lines.iter().enumerate() {
        pass_label(alloc, i, line, &mut heads, &mut marks)?;
    }
    Ok(marks)
}

// Goes past the line behind i others.
fn pass_label<'a>(
    alloc: Global,
    i: usize,
    line: &LineRef<'a>,
    heads: &mut Vec<Head>,
    marks: &mut Vec<LabelMark<'a>>,
) -> Result<(), Mem>
    requires { i < 18446744073709551615 }
    ensures { OnOk result ((rest : List Line) → map mark_of marks.new.items ++ marks_along (i + 1) (reverse heads.new.items) rest ≡ map mark_of marks.old.items ++ marks_along i (reverse heads.old.items) (shown_line line.now ∷ rest)) }
{
    push_mark(alloc, line, heads, marks)?;
    pass(heads, &line.source.form, i + 1)?;
    Ok(())
}

fn push_mark<'a>(
    alloc: Global,
    line: &LineRef<'a>,
    heads: &[Head],
    marks: &mut Vec<LabelMark<'a>>,
) -> Result<(), Mem>
    ensures { OnOk result (map mark_of marks.new.items ≡ map mark_of marks.old.items ++ marked (label_in (shown_line line.now).source.form) (reverse heads.now)) }
{
    Ok(push_label(alloc, &line.source.form, heads, marks)?)
}

fn push_label<'a>(
    alloc: Global,
    form: &'a Form6,
    heads: &[Head],
    marks: &mut Vec<LabelMark<'a>>,
) -> Result<(), Mem>
    ensures { OnOk result (map mark_of marks.new.items ≡ map mark_of marks.old.items ++ marked (label_in (form_of form.now)) (reverse heads.now)) }
{
    match form {
        Form6::Label(label) => {
            let heads = Vec::from_slice(alloc, heads)?;
            marks.push(LabelMark { label, heads })?;
            Ok(())
        }
        _ => Ok(()),
    }
}

fn is_same_label(a: &Label6, b: &Label6) -> bool
    ensures { result ≡ is_same_label (label_of a.now) (label_of b.now) }
{
    match (a, b) {
        (Label6::Word(x), Label6::Word(y)) => x == y,
        (Label6::Number(x), Label6::Number(y)) => x == y,
        _ => false,
    }
}

/// The heads round the first label that is the same.
pub(crate) fn first_mark<'a>(marks: &'a [LabelMark], label: &Label6) -> Option<&'a [Head]>
    ensures { option_map seen_heads result ≡ first_mark (label_of label.now) (map mark_of marks.now) }
{
    for mark in marks {
        if is_same_label(label, mark.label) {
            return Some(mark.heads.as_slice());
        }
    }
    None
}
