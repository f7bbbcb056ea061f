//! The first fault of a logical line.
ghost use Rattle.std.specs.Prelude.{◌≡◌, ◌+◌, ◌<◌, ◌^◌, ◌&&◌, length, Option};
ghost use Rattle.std.specs.List.{list_all};
ghost use Rattle.vb_lexer.specs.Clean.{is_plain, is_clean};
ghost use Rattle.vb_tree.specs.LogicalLines.{is_control, is_hash, is_any_word, directive, is_place, fault_at, first_fault_from, joint, joints};

use crate::content::joint;
use crate::units::is_line_end;
use up_base::{Fault, Place, faults};
use vb_tree::{Sign, Token, TokenKind};

// Whether a unit is a control unit other than a tab.
fn is_control(c: u16) -> bool
    ensures { result ≡ is_control c }
{
    (c < 32 && c != 9 && !is_line_end(c)) || c == 127
}

fn is_hash(kind: &TokenKind) -> bool
    ensures { result ≡ is_hash kind.now }
{
    match kind {
        TokenKind::Sign(Sign::Hash) => true,
        _ => false,
    }
}

fn is_any_word(kind: &TokenKind) -> bool
    ensures { result ≡ is_any_word kind.now }
{
    match kind {
        TokenKind::Word(_, _) => true,
        TokenKind::Bracketed(_, _) => true,
        _ => false,
    }
}

/// The place of a `#` that is the first token, where a word is the second.
pub(crate) fn directive(tokens: &[Token]) -> Option<usize>
    ensures { result ≡ directive tokens.now }
{
    match tokens {
        [first, second, ..] => {
            if is_hash(&first.kind) && is_any_word(&second.kind) {
                return Some(first.from as usize);
            }
            None
        }
        [_] => None,
        [] => None,
    }
}

fn is_place(place: Option<usize>, at: usize) -> bool
    ensures { result ≡ is_place place at }
{
    match place {
        Some(place) => place == at,
        None => false,
    }
}

// What is wrong with a unit at a place, behind so many continuations.
#[tactic(auto, unfolding(vb_tree::specs::LogicalLines::fault_at))]
fn fault_at(
    directive: Option<usize>,
    stop: Option<usize>,
    joints: u32,
    at: usize,
    c: u16,
) -> Option<u8>
    ensures { result ≡ fault_at directive stop joints at c }
{
    if is_control(c) {
        return Some(faults::NO_CHARACTER);
    }
    if c == 13 || (c == 10 && joints == 24) {
        return Some(faults::MISPLACED_CONTINUATION);
    }
    if is_place(directive, at) {
        return Some(faults::DIRECTIVE);
    }
    if is_place(stop, at) {
        return Some(if c == 34 {
            faults::OPEN_LITERAL
        } else {
            faults::NO_TOKEN
        });
    }
    None
}

// Whether a unit is neither a control unit nor a line end.
fn is_plain(c: u16) -> bool
    ensures { result ≡ is_plain c }
{
    (32 <= c && c != 127) || c == 9
}

fn are_plain(units: &[u16]) -> bool
    ensures { result ≡ list_all is_plain units.now }
{
    units.iter().all(|c| is_plain(*c))
}

// Whether a line has no directive, a token at each place that needs one, and plain units alone: most lines.
fn is_clean(directive: Option<usize>, stop: Option<usize>, units: &[u16]) -> bool
    ensures { result ≡ is_clean directive stop units.now }
{
    match directive {
        Some(_) => false,
        None => match stop {
            Some(_) => false,
            None => are_plain(units),
        },
    }
}

/// The first fault of a line whose first physical line has this place: the units that are faulty by themselves, the place of
/// a directive and the place where no token begins.
pub(crate) fn first_fault(
    directive: Option<usize>,
    stop: Option<usize>,
    place: Place,
    units: &[u16],
) -> Option<Fault>
    requires { place.line + joints units.now < 2 ^ 32 }
    ensures { result ≡ first_fault_from directive stop place.file place.line 0 0 units.now }
{
    if is_clean(directive, stop, units) {
        return None;
    }
    let mut joints: u32 = 0;
    for (at, c) in units.iter().enumerate() {
        if let Some(kind) = fault_at(directive, stop, joints, at, *c) {
            return Some(Fault {
                place: Place {
                    file: place.file,
                    line: place.line + joints,
                },
                kind,
            });
        }
        joints += joint(*c);
    }
    None
}
