//! Reads expressions and labels that end a line.
ghost use Rattle.std.specs.Prelude.{◌≡◌, ◌<◌, true, length, IfOk};
ghost use Rattle.net_tree.specs.View.{exp_of};
ghost use Rattle.net_exprs.specs.Answers.{Answers};
ghost use Rattle.net_exprs.specs.Fitting.{fits_exp, fits_label};
ghost use Rattle.net_reader.specs.Answers.{AnswersWhole};
ghost use Rattle.net_reader.specs.LineReader.{exp_at, exp_in, label_in};

use net_exprs::{PhraseFail, read_expression, read_label};
use net_tree::{NetExpr, NetLabel};
use std::alloc::Global;

/// Reads an expression, and what follows it.
pub(crate) fn expression(alloc: Global, text: &[u8]) -> Result<(NetExpr, &[u8]), PhraseFail>
    ensures answers { Answers exp_of fits_exp (exp_at text.now) result }
    ensures shorter { IfOk result (λ read. length read.1.now < length text.now) }
    ensures held { IfOk result (λ read. fits_exp (exp_of read.0) ≡ true) }
{
    read_expression(alloc, text)
}

/// The expression that a text begins with, in a box.
pub(crate) fn boxed(alloc: Global, text: &[u8]) -> Result<Box<NetExpr>, PhraseFail>
    ensures answers { AnswersWhole (λ e. exp_of e.value) fits_exp (exp_in text.now) result }
    ensures held { IfOk result (λ e. fits_exp (exp_of e.value) ≡ true) }
{
    let (e, _) = expression(alloc, text)?;
    Ok(Box::new(alloc, e)?)
}

/// The expression that a text begins with.
pub(crate) fn expression_in(alloc: Global, text: &[u8]) -> Result<NetExpr, PhraseFail>
    ensures answers { AnswersWhole exp_of fits_exp (exp_in text.now) result }
    ensures held { IfOk result (λ e. fits_exp (exp_of e) ≡ true) }
{
    match expression(alloc, text) {
        Ok((e, _)) => Ok(e),
        Err(e) => Err(e),
    }
}

/// The label that a text begins with.
pub(crate) fn label_in(alloc: Global, text: &[u8]) -> Result<NetLabel, PhraseFail>
    ensures answers { AnswersWhole (λ label. label) fits_label (label_in text.now) result }
    ensures held { IfOk result (λ label. fits_label label ≡ true) }
{
    match read_label(alloc, text) {
        Ok((label, _)) => Ok(label),
        Err(e) => Err(e),
    }
}
