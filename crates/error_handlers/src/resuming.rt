//! Procedures that go on after an error.
ghost use Rattle.std.specs.Prelude.{◌≡◌, IfOk, map};
ghost use Rattle.vb_tree.specs.View.{form_of};
ghost use Rattle.bound_tree.specs.Lines.{lines_of};
ghost use Rattle.bound_tree.specs.View.{shown_line};
ghost use Rattle.bound_facts.specs.Facts.{goes_on, is_resumable};

use bound_tree::LineRef;
use std::alloc::Global;
use up_base::Mem;
use vb_tree::Form6;

fn goes_on(form: &Form6) -> bool
    ensures { result ≡ goes_on (form_of form.now) }
{
    match form {
        Form6::OnErrorResumeNext => true,
        Form6::Resume => true,
        Form6::ResumeNext => true,
        _ => false,
    }
}

/// Whether a procedure goes on at or behind the line of an error.
pub(crate) fn is_resumable(lines: &[LineRef]) -> bool
    ensures { result ≡ is_resumable (map shown_line lines.now) }
{
    for line in lines {
        if goes_on(&line.source.form) {
            return true;
        }
    }
    false
}

/// The same for each procedure.
pub(crate) fn resumables(alloc: Global, lines: &[Vec<LineRef>]) -> Result<Vec<bool>, Mem>
    ensures { IfOk result (λ v. v.items ≡ map is_resumable (map lines_of lines.now)) }
{
    let mut all = Vec::new(alloc);
    for body in lines {
        all.push(is_resumable(body))?;
    }
    Ok(all)
}
