//! The heads of procedures.
ghost use Rattle.std.specs.Prelude.{◌≡◌, map, option_map, IfOk};
ghost use Rattle.vb_tree.specs.View.{param_of, signature_of, result_of};
ghost use Rattle.form_parts.specs.Answer.{Answers};
ghost use Rattle.form_parts.specs.Items.{deepest};
ghost use Rattle.form_parts.specs.Cuts.{parted};
ghost use Rattle.declaration_forms.specs.Now.{tokens_now, outlined_now};
ghost use Rattle.declaration_forms.specs.Outlines.{outline_of};
ghost use Rattle.declaration_forms.specs.Variables.{Outlines};
ghost use Rattle.declaration_forms.specs.Wholes.{IsOptional, AreItems, optional_depth};
ghost use Rattle.declaration_forms.specs.Heads.{passing, past_passing, words_of, past_words, is_empty_pair, ParamOf, IsParam, param_depth, AreParams, SignatureOf, signature_depth, is_star, begins_fixed, before_opening, before_pair, result_cut, IsResultWith, IsResult, result_depth};

use crate::events::{begins_with, past_first, past_word};
use crate::lists::{Item, list};
use crate::outlines::{Outlined, before_closing, is_opening, outline_of};
use crate::wholes::{optional_expression, optional_type};
use form_parts::{Part, PartFail, Separator, both, is_key, parted};
use std::alloc::Global;
use up_base::{Mem, Sequence};
use vb_tree::{
    Param6, Passing, Result6, Sign, Signature6, Token, TokenKind, TypeName6, Visibility,
};

fn passing(tokens: &[Token]) -> Passing
    ensures { result ≡ passing tokens.now }
{
    if begins_with(tokens, b"byval") {
        return Passing::Value;
    }
    if begins_with(tokens, b"byref") {
        return Passing::Reference;
    }
    Passing::Unsaid
}

fn past_passing(tokens: &[Token]) -> &[Token]
    ensures { result.now ≡ past_passing tokens.now }
{
    if begins_with(tokens, b"byval") {
        return past_first(tokens);
    }
    past_word(tokens, b"byref")
}

/// The words before the name of a parameter.
#[derive(Clone, Copy)]
pub struct Words {
    pub optional: bool,
    pub passing: Passing,
    pub param_array: bool,
}

fn words_of(tokens: &[Token]) -> Words
    ensures { result ≡ words_of tokens.now }
{
    let behind = past_word(tokens, b"optional");
    Words {
        optional: begins_with(tokens, b"optional"),
        passing: passing(behind),
        param_array: begins_with(past_passing(behind), b"paramarray"),
    }
}

fn past_words(tokens: &[Token]) -> &[Token]
    ensures { result.now ≡ past_words tokens.now }
{
    past_word(past_passing(past_word(tokens, b"optional")), b"paramarray")
}

// Whether nothing but an empty pair of parentheses stands behind the name.
fn is_empty_pair(inside: Option<&[Token]>) -> bool
    ensures { result ≡ is_empty_pair (tokens_now inside.entry) }
{
    match inside {
        None => true,
        Some([]) => true,
        Some(_) => false,
    }
}

// The parameter of an outline, with the words before it and the tokens of its value.
fn param_in(
    alloc: Global,
    words: Words,
    outline: Outlined,
    value: Option<&[Token]>,
) -> Result<Param6, PartFail>
    ensures { Answers param_of (ParamOf words (tokens_now value.entry) (outlined_now outline.entry)) param_depth result }
{
    if !is_empty_pair(outline.inside) {
        return Err(PartFail::NotFound);
    }
    let name = outline.name.copy(alloc)?;
    let ty = optional_type(alloc, outline.ty);
    match both(ty, optional_expression(alloc, value)) {
        Ok((ty, preset)) => Ok(Param6 {
            optional: words.optional,
            passing: words.passing,
            param_array: words.param_array,
            name,
            suffix: outline.suffix,
            array: outline.inside.is_some(),
            ty,
            preset,
        }),
        Err(e) => Err(e),
    }
}

fn param_of(alloc: Global, front: &[Token], value: Option<&[Token]>) -> Result<Param6, PartFail>
    ensures { Answers param_of (Outlines (ParamOf (words_of front.now) (tokens_now value.entry)) (outline_of (past_words front.now))) param_depth result }
{
    match outline_of(past_words(front)) {
        None => Err(PartFail::NotFound),
        Some(outline) => param_in(alloc, words_of(front), outline, value),
    }
}

impl Item for Param6 {
    type Part = Param6;

    ghost use Rattle.vb_tree.specs.Tree.{Param};
    ghost use Rattle.vb_tree.specs.View.{param_of};
    ghost use Rattle.declaration_forms.specs.Heads.{IsParam, param_depth};

    ghost Plain = { Param };

    ghost view = { param_of };

    ghost Is = { IsParam };

    ghost depth = { param_depth };

    fn read(alloc: Global, tokens: &[Token]) -> Result<Param6, PartFail> {
        match parted(Separator::Equal, tokens) {
            None => param_of(alloc, tokens, None),
            Some((front, value)) => param_of(alloc, front, Some(value)),
        }
    }
}

fn params_in(alloc: Global, inside: &[Token]) -> Result<Sequence<Param6>, PartFail>
    ensures { Answers (map param_of) (AreItems IsParam inside.now) (deepest param_depth) result }
{
    match inside {
        [] => Ok(Sequence::new(alloc)),
        _ => list::<Param6>(alloc, inside),
    }
}

// The parameters between parentheses, or none.
fn params(alloc: Global, inside: Option<&[Token]>) -> Result<Sequence<Param6>, PartFail>
    ensures { Answers (map param_of) (AreParams (tokens_now inside.entry)) (deepest param_depth) result }
{
    match inside {
        None => Ok(Sequence::new(alloc)),
        Some(tokens) => params_in(alloc, tokens),
    }
}

/// What the outline of a head says beside the kind of the procedure and its result.
pub fn signature(
    alloc: Global,
    seen: Option<Visibility>,
    outline: Outlined,
) -> Result<Signature6, PartFail>
    ensures { Answers signature_of (SignatureOf seen (outlined_now outline.entry)) signature_depth result }
{
    let name = outline.name.copy(alloc)?;
    match params(alloc, outline.inside) {
        Ok(params) => Ok(Signature6 {
            visibility: seen,
            name,
            suffix: outline.suffix,
            params,
        }),
        Err(e) => Err(e),
    }
}

fn is_star(token: &Token) -> bool
    ensures { result ≡ is_star token.now.kind }
{
    match &token.kind {
        TokenKind::Sign(Sign::Star) => true,
        _ => false,
    }
}

// Whether the tokens begin as `String *`.
fn begins_fixed(tokens: &[Token]) -> bool
    ensures { result ≡ begins_fixed tokens.now }
{
    match tokens {
        [word, star, ..] => is_key(word, b"string") && is_star(star),
        _ => false,
    }
}

fn before_opening(tokens: &[Token]) -> Option<&[Token]>
    ensures { tokens_now result ≡ before_opening tokens.now }
{
    let (last, before) = tokens.split_last()?;
    if is_opening(last) {
        return Some(before);
    }
    None
}

// What stands before `()` at the end.
fn before_pair(tokens: &[Token]) -> Option<&[Token]>
    ensures { tokens_now result ≡ before_pair tokens.now }
{
    let before = before_closing(tokens)?;
    before_opening(before)
}

fn result_cut(tokens: &[Token]) -> Option<&[Token]>
    ensures { tokens_now result ≡ result_cut (begins_fixed tokens.now) tokens.now }
{
    if begins_fixed(tokens) {
        return None;
    }
    before_pair(tokens)
}

fn result_with(alloc: Global, tokens: &[Token], array: bool) -> Result<Result6, PartFail>
    ensures { Answers result_of (IsResultWith tokens.now array) result_depth result }
{
    match TypeName6::read(alloc, tokens) {
        Ok(ty) => Ok(Result6 { ty, array }),
        Err(e) => Err(e),
    }
}

fn result_type(alloc: Global, tokens: &[Token]) -> Result<Result6, PartFail>
    ensures { Answers result_of (IsResult tokens.now) result_depth result }
{
    match result_cut(tokens) {
        None => result_with(alloc, tokens, false),
        Some(front) => result_with(alloc, front, true),
    }
}

fn boxed(alloc: Global, ty: Result6) -> Result<Box<Result6>, Mem>
    ensures { IfOk result (λ b. b.value ≡ ty) }
{
    Ok(Box::new(alloc, ty)?)
}

/// The type of a result that is there exactly where its tokens are.
pub fn optional_result(
    alloc: Global,
    tokens: Option<&[Token]>,
) -> Result<Option<Box<Result6>>, PartFail>
    ensures { Answers (option_map (λ r. result_of r.value)) (IsOptional IsResult (tokens_now tokens.entry)) (optional_depth result_depth) result }
{
    let Some(tokens) = tokens else {
        return Ok(None);
    };
    match result_type(alloc, tokens) {
        Ok(ty) => Ok(Some(boxed(alloc, ty)?)),
        Err(e) => Err(e),
    }
}
