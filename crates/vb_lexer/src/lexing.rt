//! From a text to its logical lines.
ghost use Rattle.std.specs.Prelude.{◌≡◌, ◌+◌, ◌<◌, ◌≤◌, ◌^◌, ◌∷◌, drop, length, IfOk};
ghost use Rattle.vb_tree.specs.LogicalLines.{physical_lines, joined, joints};
ghost use Rattle.vb_lexer.specs.Answers.{Answers};

use crate::lex_fail::LexFail;
use crate::physical::{LogicalLine, logical_line};
use crate::reading::read_line;
use std::alloc::Global;
use up_base::{Mem, Wide};
use vb_tree::{Lines, Tokens};

/// The logical lines of a text with their tokens and comments, the lines of the file with this number. Physical lines end in
/// CR LF, LF or CR, and are joined where a blank or tab, an underscore and blanks end a line.
///
/// A text with a lexical fault has none: the first fault is answered, with the logical lines before the one that holds it. It
/// is a control unit (F06), the 25th continuation of a line or one on the last physical line (F07), a text that isn't closed
/// (F08), a unit that begins no token, a number that can't be held or a name of more than 255 characters (F09), or a directive
/// (F13); its place is the physical line of its character.
pub fn logical_lines(alloc: Global, file: u32, text: &Wide) -> Result<Lines, LexFail>
    requires { length text.now < 2 ^ 32 }
    ensures { Answers file text.now result }
{
    lines_of(alloc, file, text.as_slice())
}

#[tactic(auto, unfolding(vb_tree::specs::LogicalLines::readings))]
fn lines_of(alloc: Global, file: u32, text: &[u16]) -> Result<Lines, LexFail>
    requires { length text.now < 2 ^ 32 }
    ensures { Answers file text.now result }
{
    let mut lines = Lines::new(alloc);
    let mut room = Tokens::new(alloc);
    let mut before: u32 = 0;
    let mut at = 0;
    'lines: while at < text.len() {
        let LogicalLine {
            units,
            continuations,
            taken,
        } = line_at(alloc, text, at)?;
        let reading = read_line(alloc, file, before + 1, units, continuations, room)?;
        if let Some(fault) = reading.fault {
            return Err(LexFail::Fault(fault, lines));
        }
        lines.push(reading.line)?;
        room = reading.room;
        before += continuations as u32 + 1;
        at += taken;
    }
    Ok(lines)
}

// The logical line that begins at a place.
fn line_at(alloc: Global, text: &[u16], at: usize) -> Result<LogicalLine, Mem>
    requires { at < length text.now }
    ensures first { IfOk result (λ line. joined (physical_lines (drop at text.now)) ≡ line.units.items ∷ joined (physical_lines (drop (at + line.taken) text.now))) }
    ensures within { IfOk result (λ line. at + line.taken ≤ length text.now) }
    ensures units { IfOk result (λ line. length line.units.items ≤ line.taken) }
    ensures joints { IfOk result (λ line. joints line.units.items + 1 ≤ line.taken) }
    ensures continuations { IfOk result (λ line. line.continuations ≡ joints line.units.items) }
{
    Ok(logical_line(alloc, &text[at..])?)
}
