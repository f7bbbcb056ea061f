//! Reads the arrays that a ReDim makes.
ghost use Rattle.std.specs.Prelude.{◌≡◌, ◌<◌, true, length, option_map, IfOk};
ghost use Rattle.net_tree.specs.View.{exp_of, line_of, redim_item_of};
ghost use Rattle.net_exprs.specs.Answers.{Answers};
ghost use Rattle.net_reader.specs.Answers.{AnswersWhole};
ghost use Rattle.net_exprs.specs.Fitting.{fits_exp};
ghost use Rattle.net_reader.specs.Fits.{fits_line, fits_redim};
ghost use Rattle.net_reader.specs.LineReader as model;
ghost use Rattle.net_reader.specs.WordView.{word_of};

use crate::characters::behind;
use crate::expressions::expression;
use crate::items::{Item, items};
use crate::words::Word;
use net_exprs::PhraseFail;
use net_tree::{NetExpr, NetLine, NetReDim};
use std::alloc::Global;
use up_base::Sequence;

// An array with its bounds, which was read as a call.
#[tactic(auto, using(net_tree::proofs::Views::exps_hidden))]
fn array(e: NetExpr, text: &[u8]) -> Result<(NetReDim, &[u8]), PhraseFail>
    requires { fits_exp (exp_of e) ≡ true }
    ensures answers { Answers redim_item_of fits_redim (model.redim_item_of (exp_of e) text.now) result }
    ensures same { IfOk result (λ read. read.1.now ≡ text.now) }
    ensures held { IfOk result (λ read. fits_redim (redim_item_of read.0) ≡ true) }
{
    match e {
        NetExpr::Call(array, bounds) => Ok((
            NetReDim {
                array: Box::into_inner(array),
                bounds,
            },
            text,
        )),
        _ => Err(PhraseFail::NotNet),
    }
}

fn redim_item(alloc: Global, text: &[u8]) -> Result<(NetReDim, &[u8]), PhraseFail>
    ensures answers { Answers redim_item_of fits_redim (model.redim_item_at text.now) result }
    ensures shorter { IfOk result (λ read. length read.1.now < length text.now) }
    ensures held { IfOk result (λ read. fits_redim (redim_item_of read.0) ≡ true) }
{
    let (e, rest) = expression(alloc, text)?;
    array(e, rest)
}

impl Item for NetReDim {
    ghost use Rattle.net_tree.specs.Tree.{ReDimItem};
    ghost use Rattle.net_tree.specs.View.{redim_item_of};
    ghost use Rattle.net_reader.specs.Fits.{fits_redim};
    ghost use Rattle.net_reader.specs.LineReader.{redim_item_at};

    ghost Plain = { ReDimItem };

    ghost view = { redim_item_of };

    ghost fits = { fits_redim };

    ghost item_at = { redim_item_at };

    fn read(alloc: Global, text: &[u8]) -> Result<(NetReDim, &[u8]), PhraseFail> {
        redim_item(alloc, text)
    }
}

fn redim(alloc: Global, preserve: bool, text: &[u8]) -> Result<NetLine, PhraseFail>
    ensures answers { AnswersWhole line_of fits_line (model.redim_in preserve text.now) result }
    ensures held { IfOk result (λ line. fits_line (line_of line) ≡ true) }
{
    match items(alloc, text) {
        Ok((items, _)) => Ok(NetLine::ReDim(preserve, Sequence::from_vec(items))),
        Err(e) => Err(e),
    }
}

/// Reads a ReDim, by the word behind it and the text there.
pub(crate) fn redim_by(
    alloc: Global,
    word: Option<Word>,
    text: &[u8],
) -> Result<NetLine, PhraseFail>
    ensures answers { AnswersWhole line_of fits_line (model.redim_by (option_map word_of word) text.now) result }
    ensures held { IfOk result (λ line. fits_line (line_of line) ≡ true) }
{
    match word {
        None => redim(alloc, false, text),
        Some(Word::Preserve) => redim(alloc, true, behind(9, text)),
        Some(_) => Err(PhraseFail::NotNet),
    }
}
