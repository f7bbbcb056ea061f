//! Reads parameters, and names with them. A reader fails with `NotNet` where no such part stands there, or one that is
//! too large.
ghost use Rattle.std.specs.Prelude.{◌≡◌, ◌<◌, true, suc, length, map, option_map, IfOk};
ghost use Rattle.std.specs.List.{list_all};
ghost use Rattle.net_tree.specs.View as view;
ghost use Rattle.net_exprs.specs.Answers.{Answers};
ghost use Rattle.net_reader.specs.DeclarationReader as model;
ghost use Rattle.net_reader.specs.Fits.{fits_param};
ghost use Rattle.net_reader.specs.Items.{items_at};
ghost use Rattle.net_reader.specs.Parts.{fits_params, fits_signature, params_of, signature_of};
ghost use Rattle.net_reader.specs.WordView.{word_of};

use crate::characters::{begins_with, behind};
use crate::declarations::read_declared;
use crate::items::{Item, items};
use crate::words::{Word, keyword_at};
use net_exprs::{PhraseFail, read_name};
use net_tree::{NetParam, NetPassing};
use std::alloc::Global;
use up_base::Name;

/// A name with parameters.
#[derive(Drop)]
pub(crate) struct Signature {
    pub(crate) name: Name,
    pub(crate) params: Vec<NetParam>,
}

// A parameter that takes its argument so, from behind the word that says it.
#[tactic(auto, using(crate::proofs::Parameters::param_fails))]
fn param_of(
    alloc: Global,
    passing: NetPassing,
    text: &[u8],
) -> Result<(NetParam, &[u8]), PhraseFail>
    ensures answers { Answers view.param_of fits_param (model.param_of passing text.now) result }
    ensures shorter { IfOk result (λ read. length read.1.now < length text.now) }
    ensures held { IfOk result (λ read. fits_param (view.param_of read.0) ≡ true) }
{
    match read_declared(alloc, text) {
        Ok((declared, rest)) => Ok((
            NetParam {
                passing,
                name: declared.name,
                ty: declared.ty,
            },
            rest,
        )),
        Err(e) => Err(e),
    }
}

fn param_by(alloc: Global, word: Option<Word>, text: &[u8]) -> Result<(NetParam, &[u8]), PhraseFail>
    ensures answers { Answers view.param_of fits_param (model.param_by (option_map word_of word) text.now) result }
    ensures shorter { IfOk result (λ read. length read.1.now < length text.now) }
    ensures held { IfOk result (λ read. fits_param (view.param_of read.0) ≡ true) }
{
    match word {
        Some(Word::ByVal) => param_of(alloc, NetPassing::Value, text),
        Some(Word::ByRef) => param_of(alloc, NetPassing::Reference, text),
        _ => Err(PhraseFail::NotNet),
    }
}

// A parameter, with the word that says how it takes its argument.
fn read_param(alloc: Global, text: &[u8]) -> Result<(NetParam, &[u8]), PhraseFail>
    ensures answers { Answers view.param_of fits_param (model.param_at text.now) result }
    ensures shorter { IfOk result (λ read. length read.1.now < length text.now) }
    ensures held { IfOk result (λ read. fits_param (view.param_of read.0) ≡ true) }
{
    param_by(alloc, keyword_at(text), behind(6, text))
}

impl Item for NetParam {
    ghost use Rattle.net_tree.specs.Tree.{Param};
    ghost use Rattle.net_tree.specs.View as view;
    ghost use Rattle.net_reader.specs.DeclarationReader.{param_at};
    ghost use Rattle.net_reader.specs.Fits.{fits_param};

    ghost Plain = { Param };

    ghost view = { view.param_of };

    ghost fits = { fits_param };

    ghost item_at = { param_at };

    fn read(alloc: Global, text: &[u8]) -> Result<(NetParam, &[u8]), PhraseFail> {
        read_param(alloc, text)
    }
}

// Parameters with a comma between them, of which there is one at least.
fn some_params(alloc: Global, text: &[u8]) -> Result<(Vec<NetParam>, &[u8]), PhraseFail>
    ensures answers { Answers (λ ps. params_of ps.items) fits_params (items_at model.param_at (suc (length text.now)) text.now) result }
    ensures held { IfOk result (λ read. fits_params (params_of read.0.items) ≡ true) }
{
    items(alloc, text)
}

// Parameters between parentheses.
#[tactic(auto, using(crate::proofs::Parameters::no_params, crate::proofs::Parameters::params_read, crate::proofs::Parameters::params_fail))]
fn read_params(alloc: Global, text: &[u8]) -> Result<(Vec<NetParam>, &[u8]), PhraseFail>
    ensures answers { Answers (λ ps. params_of ps.items) fits_params (model.params_at text.now) result }
    ensures held { IfOk result (λ read. fits_params (params_of read.0.items) ≡ true) }
{
    let inner = behind(1, text);
    if begins_with(b')', inner) {
        return Ok((Vec::new(alloc), behind(2, text)));
    }
    match some_params(alloc, inner) {
        Ok((params, rest)) => Ok((params, behind(1, rest))),
        Err(e) => Err(e),
    }
}

/// Reads a name with parameters.
#[tactic(auto, using(crate::proofs::Parameters::signature_reads, crate::proofs::Parameters::signature_fails_at_name))]
pub(crate) fn read_signature(alloc: Global, text: &[u8]) -> Result<(Signature, &[u8]), PhraseFail>
    ensures answers { Answers signature_of fits_signature (model.signature_at text.now) result }
    ensures held { IfOk result (λ read. fits_signature (signature_of read.0) ≡ true) }
{
    match read_name(alloc, text) {
        Ok((name, rest)) => match read_params(alloc, rest) {
            Ok((params, rest)) => Ok((Signature { name, params }, rest)),
            Err(e) => Err(e),
        },
        Err(e) => Err(e),
    }
}
