//! Reads the heads of procedures and properties, and closing lines. A reader fails with `NotNet` where no such part stands
//! there, or one that is too large.
ghost use Rattle.std.specs.Prelude.{◌≡◌, true, None, option_map, IfOk};
ghost use Rattle.net_tree.specs.View.{head_of};
ghost use Rattle.net_reader.specs.Answers.{AnswersWhole};
ghost use Rattle.net_reader.specs.DeclarationReader as model;
ghost use Rattle.net_reader.specs.Fits.{fits_head, fits_property};
ghost use Rattle.net_reader.specs.Parts.{property_head_of};
ghost use Rattle.net_reader.specs.WordView.{word_of};

use crate::characters::{behind, behind_word};
use crate::declarations::read_declared;
use crate::signatures::read_signature;
use crate::words::{Word, keyword_at, name_word_at};
use net_exprs::{PhraseFail, read_type};
use net_tree::{NetClose, NetHead, NetParam, NetType, NetVisibility};
use std::alloc::Global;
use up_base::Name;

/// A property without its parts.
#[derive(Drop)]
pub(crate) struct PropertyHead {
    pub(crate) visibility: NetVisibility,
    pub(crate) name: Name,
    pub(crate) params: Vec<NetParam>,
    pub(crate) ty: NetType,
}

/// Who sees what a word begins.
pub(crate) fn visibility_of(word: Option<Word>) -> Option<NetVisibility>
    ensures { result ≡ model.visibility_of (option_map word_of word) }
{
    match word {
        Some(Word::Public) => Some(NetVisibility::Public),
        Some(Word::Private) => Some(NetVisibility::Private),
        Some(Word::Friend) => Some(NetVisibility::Friend),
        _ => None,
    }
}

#[tactic(auto, using(crate::proofs::Heading::sub_fails))]
fn named_sub(alloc: Global, visibility: NetVisibility, text: &[u8]) -> Result<NetHead, PhraseFail>
    ensures answers { AnswersWhole head_of fits_head (model.sub_by visibility None text.now) result }
    ensures held { IfOk result (λ head. fits_head (head_of head) ≡ true) }
{
    match read_signature(alloc, text) {
        Ok((signature, _)) => Ok(NetHead::Sub(visibility, signature.name, signature.params)),
        Err(e) => Err(e),
    }
}

/// Reads what stands behind a Sub: a name with parameters, or New.
pub(crate) fn read_sub(
    alloc: Global,
    visibility: NetVisibility,
    text: &[u8],
) -> Result<NetHead, PhraseFail>
    ensures answers { AnswersWhole head_of fits_head (model.sub_in visibility text.now) result }
    ensures held { IfOk result (λ head. fits_head (head_of head) ≡ true) }
{
    match name_word_at(text) {
        Some(_) => Ok(NetHead::New),
        None => named_sub(alloc, visibility, text),
    }
}

/// Reads what stands behind a Function.
#[tactic(auto, using(crate::proofs::Heading::function_reads, crate::proofs::Heading::function_fails_at_signature, crate::proofs::Heading::function_fails_at_type))]
pub(crate) fn read_function(
    alloc: Global,
    visibility: NetVisibility,
    text: &[u8],
) -> Result<NetHead, PhraseFail>
    ensures answers { AnswersWhole head_of fits_head (model.function_in visibility text.now) result }
    ensures held { IfOk result (λ head. fits_head (head_of head) ≡ true) }
{
    match read_signature(alloc, text) {
        Ok((signature, rest)) => match read_type(alloc, behind(4, rest)) {
            Ok((ty, _)) => Ok(NetHead::Function(visibility, signature.name, signature.params, ty)),
            Err(e) => Err(e),
        },
        Err(e) => Err(e),
    }
}

/// Reads what stands behind a Set: the value that it is given.
#[tactic(auto, using(crate::proofs::Heading::set_fails))]
pub(crate) fn read_set(alloc: Global, text: &[u8]) -> Result<NetHead, PhraseFail>
    ensures answers { AnswersWhole head_of fits_head (model.set_in text.now) result }
    ensures held { IfOk result (λ head. fits_head (head_of head) ≡ true) }
{
    match read_declared(alloc, behind(7, text)) {
        Ok((declared, _)) => Ok(NetHead::Set(declared.name, declared.ty)),
        Err(e) => Err(e),
    }
}

/// Reads what stands behind a Property.
#[tactic(auto, using(crate::proofs::Heading::property_reads, crate::proofs::Heading::property_fails_at_signature, crate::proofs::Heading::property_fails_at_type))]
pub(crate) fn read_property(
    alloc: Global,
    visibility: NetVisibility,
    text: &[u8],
) -> Result<PropertyHead, PhraseFail>
    ensures answers { AnswersWhole property_head_of fits_property (model.property_in visibility text.now) result }
    ensures held { IfOk result (λ p. fits_property (property_head_of p) ≡ true) }
{
    match read_signature(alloc, text) {
        Ok((signature, rest)) => match read_type(alloc, behind(4, rest)) {
            Ok((ty, _)) => Ok(PropertyHead {
                visibility,
                name: signature.name,
                params: signature.params,
                ty,
            }),
            Err(e) => Err(e),
        },
        Err(e) => Err(e),
    }
}

fn close_of(word: Option<Word>) -> Option<NetClose>
    ensures { result ≡ model.close_of (option_map word_of word) }
{
    match word {
        Some(Word::Sub) => Some(NetClose::EndSub),
        Some(Word::Function) => Some(NetClose::EndFunction),
        Some(Word::Get) => Some(NetClose::EndGet),
        Some(Word::Set) => Some(NetClose::EndSet),
        _ => None,
    }
}

fn close_by(word: Option<Word>, text: &[u8]) -> Option<NetClose>
    ensures { result ≡ model.close_by (option_map word_of word) text.now }
{
    match word {
        Some(Word::End) => close_of(keyword_at(text)),
        _ => None,
    }
}

/// The closing line that a text is.
pub(crate) fn close_at(text: &[u8]) -> Option<NetClose>
    ensures { result ≡ model.close_at text.now }
{
    close_by(keyword_at(text), behind(1, behind_word(text)))
}
