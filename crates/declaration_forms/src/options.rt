//! The lines of options, and those that give first letters a type.
ghost use Rattle.std.specs.Prelude.{◌≡◌, option_map, IfSome};
ghost use Rattle.vb_tree.specs.View.{form_of};
ghost use Rattle.vb_tree.specs.Tree.{def_type};
ghost use Rattle.form_parts.specs.Answer.{Answers};
ghost use Rattle.declaration_forms.specs.DeclarationForms.{form_depth, DefLine};
ghost use Rattle.declaration_forms.specs.Options.{whole_number, lower_bound, base_line, compare_line, private_module_line, option_of_two, option_line, letter_in, letter_of, is_minus, range_to, letter_range};

use crate::lists::{Item, list};
use form_parts::{PartFail, is_key};
use std::alloc::Global;
use vb_tree::{Compare, DefWord, Form6, LetterRange, Literal6, Sign, Suffix, Token, TokenKind};

// The value of a whole number.
fn whole_number(kind: &TokenKind) -> Option<i32>
    ensures { result ≡ whole_number kind.now }
{
    match kind {
        TokenKind::Lit(Literal6::Int(value, false)) => Some(i32::from(*value)),
        TokenKind::Lit(Literal6::Long(value, false)) => Some(*value),
        _ => None,
    }
}

fn base_line(token: &Token) -> Option<Form6>
    ensures is { option_map form_of result ≡ base_line token.now }
    ensures shallow { IfSome result (λ f. form_depth (form_of f) ≡ 0) }
{
    let value = whole_number(&token.kind)?;
    if value == 0 {
        return Some(Form6::OptionBase(0));
    }
    if value == 1 {
        return Some(Form6::OptionBase(1));
    }
    None
}

fn compare_line(token: &Token) -> Option<Form6>
    ensures is { option_map form_of result ≡ compare_line token.now }
    ensures shallow { IfSome result (λ f. form_depth (form_of f) ≡ 0) }
{
    if is_key(token, b"binary") {
        return Some(Form6::OptionCompare(Compare::Binary));
    }
    if is_key(token, b"text") {
        return Some(Form6::OptionCompare(Compare::Text));
    }
    None
}

fn private_module_line(token: &Token) -> Option<Form6>
    ensures is { option_map form_of result ≡ private_module_line token.now }
    ensures shallow { IfSome result (λ f. form_depth (form_of f) ≡ 0) }
{
    if is_key(token, b"module") {
        return Some(Form6::OptionPrivateModule);
    }
    None
}

/// The line of the word Option and what stands behind it.
pub fn option_line(rest: &[Token]) -> Option<Form6>
    ensures is { option_map form_of result ≡ option_line rest.now }
    ensures shallow { IfSome result (λ f. form_depth (form_of f) ≡ 0) }
{
    match rest {
        [word] => {
            if is_key(word, b"explicit") {
                return Some(Form6::OptionExplicit);
            }
            None
        }
        [word, last] => option_of_two(word, last),
        _ => None,
    }
}

fn option_of_two(word: &Token, last: &Token) -> Option<Form6>
    ensures is { option_map form_of result ≡ option_of_two word.now last.now }
    ensures shallow { IfSome result (λ f. form_depth (form_of f) ≡ 0) }
{
    if is_key(word, b"base") {
        return base_line(last);
    }
    if is_key(word, b"compare") {
        return compare_line(last);
    }
    if is_key(word, b"private") {
        return private_module_line(last);
    }
    None
}

fn letter_in(word: &[u8]) -> Option<u8>
    ensures { result ≡ letter_in word.now }
{
    match word {
        [letter] => {
            if letter.is_ascii_alphabetic() {
                return Some(*letter);
            }
            None
        }
        _ => None,
    }
}

fn letter_of(kind: &TokenKind) -> Option<u8>
    ensures { result ≡ letter_of kind.now }
{
    match kind {
        TokenKind::Word(name, Suffix::Absent) => letter_in(name.as_bytes()),
        _ => None,
    }
}

fn is_minus(kind: &TokenKind) -> bool
    ensures { result ≡ is_minus kind.now }
{
    match kind {
        TokenKind::Sign(Sign::Minus) => true,
        _ => false,
    }
}

fn range_to(from: Option<u8>, to: Option<u8>) -> Option<LetterRange>
    ensures { result ≡ range_to from to }
{
    Some(LetterRange {
        from: from?,
        to: to?,
    })
}

// A letter, or two with a minus sign between them.
fn letter_range(piece: &[Token]) -> Option<LetterRange>
    ensures { result ≡ letter_range piece.now }
{
    match piece {
        [letter] => range_to(letter_of(&letter.kind), letter_of(&letter.kind)),
        [from, minus, to] => {
            if is_minus(&minus.kind) {
                return range_to(letter_of(&from.kind), letter_of(&to.kind));
            }
            None
        }
        _ => None,
    }
}

impl Item for LetterRange {
    type Part = LetterRange;

    ghost use Rattle.vb_tree.specs.declared.form_parts.LetterRange.{LetterRange};
    ghost use Rattle.declaration_forms.specs.DeclarationForms.{IsRange, flat};

    ghost Plain = { LetterRange };

    ghost view = { λ r. r };

    ghost Is = { IsRange };

    ghost depth = { flat };

    fn read(_alloc: Global, tokens: &[Token]) -> Result<LetterRange, PartFail> {
        match letter_range(tokens) {
            None => Err(PartFail::NotFound),
            Some(range) => Ok(range),
        }
    }
}

/// The line of a word as DefInt and what stands behind it.
pub fn def_line(alloc: Global, word: DefWord, rest: &[Token]) -> Result<Form6, PartFail>
    ensures { Answers form_of (DefLine rest.now (def_type word)) form_depth result }
{
    match list::<LetterRange>(alloc, rest) {
        Ok(ranges) => Ok(Form6::DefType(word, ranges)),
        Err(e) => Err(e),
    }
}
