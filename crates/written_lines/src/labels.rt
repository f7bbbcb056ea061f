//! The labels of a procedure, and the label that a jump means, which has the spelling of its own line.
ghost use Rattle.std.specs.Prelude.{◌≡◌, IfOk, map};
ghost use Rattle.vb_tree.specs.View.{form_of};
ghost use Rattle.vb_tree.specs.View as source;
ghost use Rattle.bound_tree.specs.Labels.{is_same_label, label_in, label_of, labels};
ghost use Rattle.written_trees.specs.Lines as rows;
ghost use Rattle.written_lines.specs.View.{shown_label, shown_labels};

use net_tree::NetLabel;
use std::alloc::Global;
use up_base::Mem;
use vb_tree::{CodeLine, Form6, Label6};

fn label_in(form: &Form6) -> Option<&Label6>
    ensures { shown_label result ≡ label_in (form_of form.now) }
{
    match form {
        Form6::Label(label) => Some(label),
        _ => None,
    }
}

/// For each line of a procedure the label that it sets, where it sets one.
pub fn labels_of<'a>(alloc: Global, lines: &[&'a CodeLine]) -> Result<Vec<Option<&'a Label6>>, Mem>
    ensures { IfOk result (λ ls. shown_labels ls.items ≡ labels (map (λ l. source.line_of l.now) lines.now)) }
{
    let mut all = Vec::new(alloc);
    for line in lines {
        let line = *line;
        all.push(label_in(&line.form))?;
    }
    Ok(all)
}

fn is_same_label(a: &Label6, b: &Label6) -> bool
    ensures { result ≡ is_same_label (label_of a.now) (label_of b.now) }
{
    match (a, b) {
        (Label6::Word(a), Label6::Word(b)) => *a == *b,
        (Label6::Number(a), Label6::Number(b)) => *a == *b,
        _ => false,
    }
}

// The label of a procedure that is meant, which has its own spelling.
fn meant<'a>(labels: &[Option<&'a Label6>], label: &'a Label6) -> &'a Label6
    ensures { label_of result.now ≡ rows.meant (shown_labels labels.now) (label_of label.now) }
{
    for other in labels {
        if let Some(other) = *other {
            if is_same_label(label, other) {
                return other;
            }
        }
    }
    label
}

/// A label as it is written.
pub(crate) fn net_label(alloc: Global, label: &Label6) -> Result<NetLabel, Mem>
    ensures { IfOk result (λ l. l ≡ rows.net_label (label_of label.now)) }
{
    match label {
        Label6::Word(name) => Ok(NetLabel::Word(name.copy(alloc)?)),
        Label6::Number(n) => Ok(NetLabel::Number(n.unsigned_abs())),
    }
}

/// The label to which a jump goes, as it is written.
pub(crate) fn jump(
    alloc: Global,
    labels: &[Option<&Label6>],
    label: &Label6,
) -> Result<NetLabel, Mem>
    ensures { IfOk result (λ l. l ≡ rows.jump (shown_labels labels.now) label.now) }
{
    Ok(net_label(alloc, meant(labels, label))?)
}
