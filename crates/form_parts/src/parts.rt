//! Names, labels, types and bounds.
ghost use Rattle.std.specs.Prelude.{◌≡◌, List, IfOk, MatchOption, Some};
ghost use Rattle.vb_tree.specs.declared.token.Token.{Token};
ghost use Rattle.form_parts.specs.Answer.{Answers};
ghost use Rattle.form_parts.specs.Parts.{name_of_token, name_label, name_alone, with_library, behind_dot, is_dot, word_of, named_type, IsStringHead, kind_label, IsTypeName, type_depth, IsBounds, bounds_depth};
ghost use Rattle.form_parts.specs.Now.{name_now, now_of};

use crate::answer::{Part, PartFail, both};
use crate::expressions::{before_word, expression};
use crate::words::is_key;
use std::alloc::Global;
use up_base::{Mem, Name, NameFail};
use vb_exprs::{Class, class_at};
use vb_tree::{Bounds6, Label6, Literal6, Sign, Suffix, Token, TokenKind, TypeName6};

/// The name that a token is, with its suffix.
pub fn name_of(token: &Token) -> Option<(&Name, Suffix)>
    ensures { name_now result ≡ name_of_token token.now }
{
    let Class::Naming = class_at(token) else {
        return None;
    };
    match &token.kind {
        TokenKind::Word(name, suffix) => Some((name, *suffix)),
        TokenKind::Bracketed(name, suffix) => Some((name, *suffix)),
        _ => None,
    }
}

// The label that a name is.
fn name_label(alloc: Global, token: &Token) -> Result<Option<Label6>, Mem>
    ensures { IfOk result (λ found. found ≡ name_label (name_of_token token.now)) }
{
    match name_of(token) {
        Some((name, Suffix::Absent)) => Ok(Some(Label6::Word(name.copy(alloc)?))),
        _ => Ok(None),
    }
}

/// The label that a token is: a name without a suffix, or a whole decimal number.
pub fn label(alloc: Global, token: &Token) -> Result<Option<Label6>, Mem>
    ensures { IfOk result (λ found. found ≡ kind_label token.now.kind) }
{
    match &token.kind {
        TokenKind::Word(_, _) => name_label(alloc, token),
        TokenKind::Bracketed(_, _) => name_label(alloc, token),
        TokenKind::Lit(Literal6::Int(value, false)) => Ok(Some(Label6::Number(i32::from(*value)))),
        TokenKind::Lit(Literal6::Long(value, false)) => Ok(Some(Label6::Number(*value))),
        _ => Ok(None),
    }
}

// A name behind its library and a full stop, unless that is too long for a name.
fn with_library(alloc: Global, library: &Name, part: &Name) -> Result<Option<Name>, Mem>
    ensures { IfOk result (λ found. found ≡ with_library (Some library.now) (Some part.now)) }
{
    let mut bytes = Vec::from_slice(alloc, library.as_bytes())?;
    bytes.push(b'.')?;
    bytes.extend_from_slice(part.as_bytes())?;
    match Name::make(alloc, &bytes) {
        Ok(name) => Ok(Some(name)),
        Err(NameFail::NotName) => Ok(None),
        Err(NameFail::Mem) => Err(Mem),
    }
}

// The name that stands behind a full stop.
fn behind_dot<'a>(dot: &Token, part: &'a Token) -> Option<&'a Name>
    ensures { now_of result ≡ behind_dot (is_dot dot.now.kind) (word_of part.now.kind) }
{
    let TokenKind::Sign(Sign::Dot) = &dot.kind else {
        return None;
    };
    match &part.kind {
        TokenKind::Word(name, _) => Some(name),
        TokenKind::Bracketed(name, _) => Some(name),
        _ => None,
    }
}

fn library_type(
    alloc: Global,
    first: &Token,
    dot: &Token,
    part: &Token,
) -> Result<Option<Name>, Mem>
    ensures { IfOk result (λ found. found ≡ with_library (name_alone (name_of_token first.now)) (behind_dot (is_dot dot.now.kind) (word_of part.now.kind))) }
{
    let Some((library, _)) = name_of(first) else {
        return Ok(None);
    };
    let Some(part) = behind_dot(dot, part) else {
        return Ok(None);
    };
    with_library(alloc, library, part)
}

fn simple_type(alloc: Global, token: &Token) -> Result<Option<Name>, Mem>
    ensures { IfOk result (λ found. found ≡ name_alone (name_of_token token.now)) }
{
    match name_of(token) {
        Some((name, _)) => Ok(Some(name.copy(alloc)?)),
        None => Ok(None),
    }
}

// The type that the tokens are, as one name.
fn named_type(alloc: Global, tokens: &[Token]) -> Result<Option<Name>, Mem>
    ensures { IfOk result (λ found. found ≡ named_type tokens.now) }
{
    match tokens {
        [token] => simple_type(alloc, token),
        [first, dot, part] => library_type(alloc, first, dot, part),
        _ => Ok(None),
    }
}

// What stands behind `String *`.
fn behind_string(tokens: &[Token]) -> Option<&[Token]>
    ensures { MatchOption result ((rest : List Token) → IsStringHead tokens.now rest → ⊥)
        (λ rest. IsStringHead tokens.now rest.now) }
{
    let [word, star, rest @ ..] = tokens else {
        return None;
    };
    if !is_key(word, b"string") {
        return None;
    }
    let TokenKind::Sign(Sign::Star) = &star.kind else {
        return None;
    };
    Some(rest)
}

impl Part for TypeName6 {
    ghost use Rattle.vb_tree.specs.Tree.{TypeName};
    ghost use Rattle.vb_tree.specs.View.{type_name_of};
    ghost use Rattle.form_parts.specs.Parts.{IsTypeName, type_depth};

    ghost Plain = { TypeName };

    ghost view = { type_name_of };

    ghost Is = { IsTypeName };

    ghost depth = { type_depth };

    fn read(alloc: Global, tokens: &[Token]) -> Result<TypeName6, PartFail> {
        match behind_string(tokens) {
            Some(rest) => {
                let units = expression(alloc, rest)?;
                Ok(TypeName6::FixedString(Box::new(alloc, units)?))
            }
            None => match named_type(alloc, tokens)? {
                Some(name) => Ok(TypeName6::Named(name)),
                None => Err(PartFail::NotFound),
            },
        }
    }
}

impl Part for Bounds6 {
    ghost use Rattle.vb_tree.specs.Tree.{Bounds};
    ghost use Rattle.vb_tree.specs.View.{bounds_of};
    ghost use Rattle.form_parts.specs.Parts.{IsBounds, bounds_depth};

    ghost Plain = { Bounds };

    ghost view = { bounds_of };

    ghost Is = { IsBounds };

    ghost depth = { bounds_depth };

    fn read(alloc: Global, tokens: &[Token]) -> Result<Bounds6, PartFail> {
        match before_word(alloc, tokens, b"to")? {
            Some((before, after)) => {
                let (lower, upper) = both(expression(alloc, before), expression(alloc, after))?;
                let lower = Some(lower);
                Ok(Bounds6 { lower, upper })
            }
            None => {
                let upper = expression(alloc, tokens)?;
                Ok(Bounds6 { lower: None, upper })
            }
        }
    }
}
