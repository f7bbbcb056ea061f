//! Heads of blocks that may raise where the procedure goes on after an error.
ghost use Rattle.std.specs.Prelude.{◌≡◌, IfOk, map};
ghost use Rattle.std.specs.List.{list_any};
ghost use Rattle.vb_tree.specs.View.{form_of};
ghost use Rattle.bound_tree.specs.View.{declarations_of, expr_of, shown_line};
ghost use Rattle.bound_facts.specs.CanRaise.{head_can_raise};
ghost use Rattle.error_handlers.specs.Heads.{breaks_head, is_head};

use bound_facts::head_can_raise;
use bound_tree::{BoundExpr, Declared, LineRef};
use std::alloc::Global;
use up_base::Mem;
use vb_tree::Form6;

fn is_head(form: &Form6) -> bool
    ensures { result ≡ is_head (form_of form.now) }
{
    match form {
        Form6::If(_) => true,
        Form6::ElseIf(_) => true,
        Form6::LineIf(_) => true,
        Form6::Select(_) => true,
        Form6::Case(_) => true,
        Form6::For(_) => true,
        Form6::DoWhile(_) => true,
        Form6::DoUntil(_) => true,
        Form6::LoopWhile(_) => true,
        Form6::LoopUntil(_) => true,
        Form6::While(_) => true,
        Form6::With(_) => true,
        _ => false,
    }
}

fn some_can_raise(alloc: Global, declared: &Declared, exprs: &[BoundExpr]) -> Result<bool, Mem>
    ensures { IfOk result (λ b. b ≡ list_any (head_can_raise (declarations_of declared.now)) (map expr_of exprs.now)) }
{
    for e in exprs {
        let raises = head_can_raise(alloc, declared, e)?;
        if raises {
            return Ok(true);
        }
    }
    Ok(false)
}

/// Whether a line of a procedure is the head of a block, the procedure goes on after an error, and an expression of the line can raise.
pub(crate) fn breaks_head(
    alloc: Global,
    declared: &Declared,
    resumable: bool,
    line: &LineRef,
) -> Result<bool, Mem>
    ensures { IfOk result (λ b. b ≡ breaks_head (declarations_of declared.now) resumable (shown_line line.now)) }
{
    if !resumable || !is_head(&line.source.form) {
        return Ok(false);
    }
    Ok(some_can_raise(alloc, declared, line.bound.exprs.as_slice())?)
}
