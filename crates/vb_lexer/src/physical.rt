//! Physical lines, and the logical line that begins a text.
ghost use Rattle.std.specs.Prelude.{◌≡◌, ◌+◌, ◌-◌, ◌<◌, ◌≤◌, true, false, not, List, [], ◌∷◌, ◌++◌, length, get_or, take, drop, IfOk, IfSome, option_map};
ghost use Rattle.std.specs.List.{list_all};
ghost use Rattle.vb_tree.specs.Tokens.{is_blank, is_line_end, run};
ghost use Rattle.vb_tree.specs.LogicalLines.{physical_lines, is_continuation, continued, joined, joints, joint};
ghost use Rattle.vb_lexer.specs.Physical.{line_end_units, in_line};

use crate::units::{is_blank, is_line_end};
use std::alloc::Global;
use up_base::Mem;

// How many units stand before the first line end.
fn line_units(text: &[u16]) -> usize
    ensures count { result ≡ run in_line text.now }
    ensures within { result ≤ length text.now }
{
    for (at, c) in text.iter().enumerate() {
        if is_line_end(*c) {
            return at;
        }
    }
    text.len()
}

// How many units the line end at the front takes.
fn line_end_units(text: &[u16]) -> usize
    ensures count { result ≡ line_end_units text.now }
    ensures within { result ≤ length text.now }
{
    match text {
        [c, d, ..] => { if *c == 13 && *d == 10 { 2 } else { 1 } }
        [_] => 1,
        [] => 0,
    }
}

// How many units the line end at a place takes.
fn line_end_units_at(text: &[u16], at: usize) -> usize
    requires { at ≤ length text.now }
    ensures count { result ≡ line_end_units (drop at text.now) }
    ensures within { at + result ≤ length text.now }
{
    line_end_units(&text[at..])
}

// The physical line that begins a text, without its end, and its number of units with its end.
fn first_line(text: &[u16]) -> (&[u16], usize)
    requires { 0 < length text.now }
    ensures first { physical_lines text.now ≡ result.0.now ∷ physical_lines (drop result.1 text.now) }
    ensures ordered { length result.0.now ≤ result.1 }
    ensures within { result.1 ≤ length text.now }
    ensures some { 0 < result.1 }
    ensures unjoined { joints result.0.now ≡ 0 }
{
    let units = line_units(text);
    let end = line_end_units_at(text, units);
    (&text[..units], units + end)
}

// The physical line that begins at a place, without its end, and its number of units with its end.
fn line_at(text: &[u16], at: usize) -> (&[u16], usize)
    requires { at < length text.now }
    ensures first { physical_lines (drop at text.now) ≡ result.0.now ∷ physical_lines (drop (at + result.1) text.now) }
    ensures ordered { length result.0.now ≤ result.1 }
    ensures within { at + result.1 ≤ length text.now }
    ensures some { 0 < result.1 }
    ensures unjoined { joints result.0.now ≡ 0 }
{
    first_line(&text[at..])
}

fn are_blank(units: &[u16]) -> bool
    ensures { result ≡ list_all is_blank units.now }
{
    units.iter().all(|c| is_blank(*c))
}

fn is_continuation(units: &[u16]) -> bool
    ensures continuation { result ≡ is_continuation units.now }
    ensures within { result ≡ true → 2 ≤ length units.now }
{
    match units {
        [b, u, blanks @ ..] => is_blank(*b) && *u == 95 && are_blank(blanks),
        [_] => false,
        [] => false,
    }
}

fn is_continuation_at(line: &[u16], at: usize) -> bool
    requires { at ≤ length line.now }
    ensures continuation { result ≡ is_continuation (drop at line.now) }
    ensures within { result ≡ true → at + 2 ≤ length line.now }
{
    is_continuation(&line[at..])
}

// How many units stand before the blanks that end a line.
fn solid_units(line: &[u16]) -> usize
    ensures within { result ≤ length line.now }
    ensures blank { list_all is_blank (drop result line.now) ≡ true }
    ensures solid { 0 < result → is_blank (get_or line.now (result - 1) 0) ≡ false }
{
    let mut n = line.len();
    'blanks: while n > 0 {
        if !is_blank(line[n - 1]) {
            return n;
        }
        n -= 1;
    }
    n
}

// How many units stand before the continuation that ends a line. No place but the last two units before the blanks at the end
// can hold it.
fn continuation(line: &[u16]) -> Option<usize>
    ensures continued { continued line.now ≡ option_map (λ k. take k line.now) result }
    ensures within { IfSome result (λ k. k + 2 ≤ length line.now) }
{
    let n = solid_units(line);
    if n < 2 {
        return None;
    }
    if !is_continuation_at(line, n - 2) {
        return None;
    }
    Some(n - 2)
}

/// The logical line that begins a text.
#[derive(Drop)]
pub(crate) struct LogicalLine {
    /// Its units, where each continuation is a line feed, or a carriage return where no line follows it.
    pub(crate) units: Vec<u16>,
    /// How many continuations it has.
    pub(crate) continuations: usize,
    /// How many units of the text it takes.
    pub(crate) taken: usize,
}

/// The logical line that begins a text.
pub(crate) fn logical_line(alloc: Global, text: &[u16]) -> Result<LogicalLine, Mem>
    requires { 0 < length text.now }
    ensures first { IfOk result (λ line. joined (physical_lines text.now) ≡ line.units.items ∷ joined (physical_lines (drop line.taken text.now))) }
    ensures within { IfOk result (λ line. line.taken ≤ length text.now) }
    ensures units { IfOk result (λ line. length line.units.items ≤ line.taken) }
    ensures joints { IfOk result (λ line. joints line.units.items + 1 ≤ line.taken) }
    ensures continuations { IfOk result (λ line. line.continuations ≡ joints line.units.items) }
{
    let mut units = Vec::new(alloc);
    let mut continuations = 0;
    let mut taken = 0;
    'lines: loop {
        let (line, whole) = line_at(text, taken);
        taken += whole;
        match continuation(line) {
            None => {
                units.extend_from_slice(line)?;
                return Ok(LogicalLine {
                    units,
                    continuations,
                    taken,
                });
            }
            Some(front) => {
                units.extend_from_slice(&line[..front])?;
                continuations += 1;
                if taken == text.len() {
                    units.push(13)?;
                    return Ok(LogicalLine {
                        units,
                        continuations,
                        taken,
                    });
                }
                units.push(10)?;
            }
        }
    }
}
