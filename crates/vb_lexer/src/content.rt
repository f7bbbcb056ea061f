//! What a logical line holds: its tokens and its comment.
ghost use Rattle.std.specs.Prelude.{◌≡◌, ◌+◌, ◌-◌, ◌<◌, ◌≤◌, ◌^◌, [], ◌∷◌, List, true, length, drop, map, IfOk, Option, ◌||◌};
ghost use Rattle.vb_tree.specs.declared.token.TokenKind.{TokenKind};
ghost use Rattle.vb_tree.specs.Tokens.{is_blank, is_line_end, begins, run};
ghost use Rattle.vb_tree.specs.LogicalLines.{is_word, is_colon, is_access, is_line_number, is_rem, part_at, content_from, joint, joints, shown, shown_unit};
ghost use Rattle.vb_lexer.specs.Contents.{IsBefore, part_of, IsPartWithin, content_of};

use crate::lexeme::token_at;
use crate::units::{is_blank, is_line_end};
use crate::words::begins_with;
use std::alloc::Global;
use up_base::{Mem, Wide};
use vb_tree::{Literal6, Sign, Suffix, Token, TokenKind, Tokens};

// Whether a token is a word, given in small letters.
fn is_word(kind: &TokenKind, word: &[u8]) -> bool
    ensures { result ≡ is_word word.now kind.now }
{
    match kind {
        TokenKind::Word(name, Suffix::Absent) => name.lower_bytes() == word,
        _ => false,
    }
}

fn is_colon(kind: &TokenKind) -> bool
    ensures { result ≡ is_colon kind.now }
{
    match kind {
        TokenKind::Sign(Sign::Colon) => true,
        _ => false,
    }
}

fn is_access(kind: &TokenKind) -> bool
    ensures { result ≡ is_access kind.now }
{
    match kind {
        TokenKind::Sign(Sign::Dot) => true,
        TokenKind::Sign(Sign::Bang) => true,
        _ => false,
    }
}

fn is_line_number(kind: &TokenKind) -> bool
    ensures { result ≡ is_line_number kind.now }
{
    match kind {
        TokenKind::Lit(Literal6::Int(_, radix)) => !*radix,
        TokenKind::Lit(Literal6::Long(_, radix)) => !*radix,
        _ => false,
    }
}

/// What the tokens before a place in a line say.
#[derive(Clone, Copy)]
struct Before {
    /// Whether a statement begins at the place.
    statement: bool,
    /// Whether an If began a statement.
    has_if: bool,
    /// Whether the last token is a full stop or an exclamation mark.
    access: bool,
    /// Whether there is no token.
    none: bool,
}

// At the start of a line.
fn at_start() -> Before
    ensures { IsBefore result [] }
{
    Before {
        statement: true,
        has_if: false,
        access: false,
        none: true,
    }
}

// Behind one token more.
fn behind(before: Before, kind: &TokenKind) -> Before
    ensures { (tokens : List TokenKind) → IsBefore before tokens → IsBefore result (kind.now ∷ tokens) }
{
    let then_or_else = is_word(kind, b"then") || is_word(kind, b"else");
    let branch = then_or_else && !before.access && before.has_if;
    Before {
        statement: is_colon(kind) || (is_line_number(kind) && before.none) || branch,
        has_if: (is_word(kind, b"if") && before.statement) || before.has_if,
        access: is_access(kind),
        none: false,
    }
}

/// What stands at the front of the rest of a line.
#[derive(Drop)]
enum Part {
    /// One unit that separates tokens.
    Gap,
    /// A comment, with the number of units of its mark.
    Note(usize),
    /// A token with its number of units.
    Lexeme(TokenKind, usize),
    /// No token begins here.
    Stuck,
}

fn begins_with_gap(units: &[u16]) -> bool
    ensures { result ≡ (begins is_blank units.now || begins is_line_end units.now) }
{
    match units {
        [c, ..] => is_blank(*c) || is_line_end(*c),
        [] => false,
    }
}

// What stands at the front, and whether a statement begins there is given.
#[tactic(auto, unfolding(vb_tree::specs::LogicalLines::part_at))]
fn part_at(alloc: Global, statement: bool, units: &[u16]) -> Result<Part, Mem>
    ensures part { IfOk result (λ part. part_of part ≡ part_at statement units.now) }
    ensures within { IfOk result (λ part. IsPartWithin (length units.now) part) }
{
    if begins_with_gap(units) {
        return Ok(Part::Gap);
    }
    if begins_with(units, 39) {
        return Ok(Part::Note(1));
    }
    match token_at(alloc, units)? {
        None => Ok(Part::Stuck),
        Some((kind, n)) => {
            if statement && is_word(&kind, b"rem") {
                return Ok(Part::Note(n));
            }
            Ok(Part::Lexeme(kind, n))
        }
    }
}

fn shown_unit(c: u16) -> u16
    ensures { result ≡ shown_unit c }
{
    if is_line_end(c) { 32 } else { c }
}

/// Units as they are shown, where a continuation is one blank.
pub(crate) fn shown(alloc: Global, units: &[u16]) -> Result<Wide, Mem>
    ensures { IfOk result (λ text. text ≡ shown units.now) }
{
    let shown = units.iter().map(|c| shown_unit(*c)).collect(alloc)?;
    Ok(Wide::from_vec(shown))
}

/// 1 where a unit is a continuation.
pub(crate) fn joint(c: u16) -> u32
    ensures { result ≡ joint c }
{
    if is_line_end(c) { 1 } else { 0 }
}

// How many blanks stand at the front.
fn blanks(units: &[u16]) -> usize
    ensures count { result ≡ run is_blank units.now }
    ensures within { result ≤ length units.now }
{
    for (at, c) in units.iter().enumerate() {
        if !is_blank(*c) {
            return at;
        }
    }
    units.len()
}

// How many blanks stand at a place.
fn blanks_from(units: &[u16], at: usize) -> usize
    requires { at ≤ length units.now }
    ensures count { result ≡ run is_blank (drop at units.now) }
    ensures within { at + result ≤ length units.now }
{
    blanks(&units[at..])
}

// What stands at a place.
fn part_from(alloc: Global, statement: bool, units: &[u16], at: usize) -> Result<Part, Mem>
    requires { at ≤ length units.now }
    ensures part { IfOk result (λ part. part_of part ≡ part_at statement (drop at units.now)) }
    ensures within { IfOk result (λ part. IsPartWithin (length units.now - at) part) }
{
    Ok(part_at(alloc, statement, &units[at..])?)
}

// What is shown from a place on.
fn shown_from(alloc: Global, units: &[u16], at: usize) -> Result<Wide, Mem>
    requires { at ≤ length units.now }
    ensures { IfOk result (λ text. text ≡ shown (drop at units.now)) }
{
    Ok(shown(alloc, &units[at..])?)
}

/// What a line holds.
#[derive(Drop)]
pub(crate) struct Content {
    pub(crate) tokens: Tokens,
    /// What stands behind the mark of a comment.
    pub(crate) comment: Option<Wide>,
    /// The place at which no token begins.
    pub(crate) stop: Option<usize>,
}

/// What a line holds whose first physical line has this number. The list without tokens is the one that they are put into.
pub(crate) fn read_content(
    alloc: Global,
    number: u32,
    units: &[u16],
    room: Tokens,
) -> Result<Content, Mem>
    requires units { length units.now < 2 ^ 32 }
    requires lines { number + joints units.now < 2 ^ 32 }
    requires room { room ≡ [] }
    ensures { IfOk result (λ content. content_of content ≡ content_from [] number 0 0 units.now) }
{
    let mut tokens = room;
    let mut before = at_start();
    let mut line = number;
    let mut at = 0;
    'parts: while at < units.len() {
        let blanks = blanks_from(units, at);
        if blanks > 0 {
            at += blanks;
            continue;
        }
        match part_from(alloc, before.statement, units, at)? {
            Part::Gap => {
                line += joint(units[at]);
                at += 1;
            }
            Part::Note(n) => {
                let comment = Some(shown_from(alloc, units, at + n)?);
                return Ok(Content {
                    tokens,
                    comment,
                    stop: None,
                });
            }
            Part::Stuck => {
                return Ok(Content {
                    tokens,
                    comment: None,
                    stop: Some(at),
                });
            }
            Part::Lexeme(kind, n) => {
                before = behind(before, &kind);
                tokens.push(Token {
                    kind,
                    line,
                    from: at as u32,
                    to: (at + n) as u32,
                })?;
                at += n;
            }
        }
    }
    Ok(Content {
        tokens,
        comment: None,
        stop: None,
    })
}
