//! The head of a class file.
ghost use Rattle.std.specs.Prelude.{◌≡◌};
ghost use Rattle.vb_lines.specs.Modules.{is_equal, is_any_word, begins_version, is_one_word, is_setting, is_no_token, settings, begin_line, class_head, head_of};
ghost use Rattle.vb_lines.specs.Answers.{head_end};

use crate::words::is_word;
use up_base::Place;
use vb_tree::{Line, Sign, Token, TokenKind};

/// What stands behind the head of a class file.
pub(crate) enum HeadEnd<'a> {
    /// The lines of the module.
    Ended(&'a [Line]),
    /// The head has a line there that is not of its form.
    Malformed(Place),
    /// The head has no end.
    Unended,
}

fn is_equal(kind: &TokenKind) -> bool
    ensures { result ≡ is_equal kind.now }
{
    match kind {
        TokenKind::Sign(Sign::Equal) => true,
        _ => false,
    }
}

fn is_any_word(kind: &TokenKind) -> bool
    ensures { result ≡ is_any_word kind.now }
{
    match kind {
        TokenKind::Word(_, _) => true,
        TokenKind::Bracketed(_, _) => true,
        _ => false,
    }
}

fn begins_version(tokens: &[Token]) -> bool
    ensures { result ≡ begins_version tokens.now }
{
    match tokens {
        [first, ..] => is_word(&first.kind, b"version"),
        [] => false,
    }
}

// Whether the only token is this word, given in small letters.
fn is_one_word(word: &[u8], tokens: &[Token]) -> bool
    ensures { result ≡ is_one_word word.now tokens.now }
{
    match tokens {
        [only] => is_word(&only.kind, word),
        _ => false,
    }
}

// Whether a line begins with a word and an equals sign.
fn is_setting(tokens: &[Token]) -> bool
    ensures { result ≡ is_setting tokens.now }
{
    match tokens {
        [first, second, ..] => is_any_word(&first.kind) && is_equal(&second.kind),
        _ => false,
    }
}

fn is_no_token(tokens: &[Token]) -> bool
    ensures { result ≡ is_no_token tokens.now }
{
    match tokens {
        [] => true,
        [_, ..] => false,
    }
}

// What stands behind BEGIN.
fn settings(lines: &[Line]) -> HeadEnd<'_>
    ensures { head_end result ≡ settings lines.now }
{
    let mut rest = lines;
    while let [first, after @ ..] = rest {
        let tokens = first.tokens.as_slice();
        if is_one_word(b"end", tokens) {
            return HeadEnd::Ended(after);
        }
        if !(is_no_token(tokens) || is_setting(tokens)) {
            return HeadEnd::Malformed(first.place);
        }
        rest = after;
    }
    HeadEnd::Unended
}

// What stands behind VERSION.
fn begin_line(lines: &[Line]) -> HeadEnd<'_>
    ensures { head_end result ≡ begin_line lines.now }
{
    let mut rest = lines;
    while let [first, after @ ..] = rest {
        let tokens = first.tokens.as_slice();
        if is_one_word(b"begin", tokens) {
            return settings(after);
        }
        if !is_no_token(tokens) {
            return HeadEnd::Malformed(first.place);
        }
        rest = after;
    }
    HeadEnd::Unended
}

fn class_head(lines: &[Line]) -> HeadEnd<'_>
    ensures { head_end result ≡ class_head lines.now }
{
    let mut rest = lines;
    while let [first, after @ ..] = rest {
        let tokens = first.tokens.as_slice();
        if begins_version(tokens) {
            return begin_line(after);
        }
        if !is_no_token(tokens) {
            return HeadEnd::Malformed(first.place);
        }
        rest = after;
    }
    HeadEnd::Unended
}

/// The lines of a module behind the head, which class files alone have.
pub(crate) fn head_of(class: bool, lines: &[Line]) -> HeadEnd<'_>
    ensures { head_end result ≡ head_of class lines.now }
{
    if class {
        class_head(lines)
    } else {
        HeadEnd::Ended(lines)
    }
}
