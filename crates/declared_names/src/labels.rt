//! Labels that stand twice in a procedure. Each look-up is a scan of the procedure's code lines.
ghost use Rattle.std.specs.Prelude.{◌≡◌, ◌+◌, map, option_map, IfOk};
ghost use Rattle.vb_tree.specs.FlatLines.{code_lines};
ghost use Rattle.vb_tree.specs.View.{form_of, line_of, nodes_of};
ghost use Rattle.bound_tree.specs.Labels.{is_label, is_same_label, label_at, label_in, label_of, labels};
ghost use Rattle.bound_tree.specs.Source.{code_of};
ghost use Rattle.declared_names.specs.Rules.{is_at, is_second_label, label_sets, line_sets};
ghost use Rattle.declared_names.specs.View.{label_shown};

use bound_tree::RuleSet;
use std::alloc::Global;
use up_base::{Mem, Sequence};
use vb_tree::{CodeLine, Form6, Label6, Node6, flat_lines};

/// A set for each code line of a procedure: a label breaks a rule where it stands at an earlier line already.
pub(crate) fn line_sets(alloc: Global, body: &[Node6]) -> Result<Sequence<RuleSet>, Mem>
    ensures { IfOk result (λ s. s ≡ line_sets (nodes_of body.now)) }
{
    let lines = flat_lines(alloc, body)?;
    let labels = labels_of(alloc, &lines)?;
    Ok(label_sets(alloc, &labels)?)
}

// The labels of the code lines among lines.
fn labels_of<'a>(alloc: Global, lines: &[&'a CodeLine]) -> Result<Vec<Option<&'a Label6>>, Mem>
    ensures { IfOk result (λ v. map label_shown v.items ≡ labels (code_lines (map (λ l. line_of l.now) lines.now))) }
{
    let mut all = Vec::new(alloc);
    for line in lines {
        let line = *line;
        if line.form.is_code() {
            all.push(label_in(&line.form))?;
        }
    }
    Ok(all)
}

fn label_in(form: &Form6) -> Option<&Label6>
    ensures { label_shown result ≡ label_in (form_of form.now) }
{
    match form {
        Form6::Label(label) => Some(label),
        _ => None,
    }
}

fn label_sets(alloc: Global, labels: &[Option<&Label6>]) -> Result<Sequence<RuleSet>, Mem>
    ensures { IfOk result (λ s. s ≡ label_sets (map label_shown labels.now) 1 (map label_shown labels.now)) }
{
    let mut all = Sequence::new(alloc);
    for (i, label) in labels.iter().enumerate() {
        all.push(RuleSet::new().with_if(20, is_second_label(labels, i, *label)))?;
    }
    Ok(all)
}

// Whether the label of a line, if it has one, stands at an earlier line already.
fn is_second_label(labels: &[Option<&Label6>], own: usize, label: Option<&Label6>) -> bool
    ensures { result ≡ is_second_label (map label_shown labels.now) (own + 1) (label_shown label.entry) }
{
    match label {
        Some(label) => !is_first(labels, own, label),
        None => false,
    }
}

// Whether a line is the first with a label.
fn is_first(labels: &[Option<&Label6>], own: usize, label: &Label6) -> bool
    ensures { result ≡ is_at (own + 1) (label_at (map label_shown labels.now) (label_of label.now)) }
{
    for (i, other) in labels.iter().enumerate() {
        if is_label(label, *other) {
            return i == own;
        }
    }
    false
}

fn is_label(label: &Label6, other: Option<&Label6>) -> bool
    ensures { result ≡ is_label (label_of label.now) (label_shown other.entry) }
{
    match other {
        Some(other) => is_same_label(label, other),
        None => false,
    }
}

fn is_same_label(a: &Label6, b: &Label6) -> bool
    ensures { result ≡ is_same_label (label_of a.now) (label_of b.now) }
{
    match (a, b) {
        (Label6::Word(a), Label6::Word(b)) => *a == *b,
        (Label6::Number(a), Label6::Number(b)) => *a == *b,
        _ => false,
    }
}
