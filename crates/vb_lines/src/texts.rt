//! The texts of code lines.
ghost use Rattle.std.specs.Prelude.{◌≡◌, ◌-◌, take, drop, IfOk};
ghost use Rattle.vb_lines.specs.Parts.{last_end, text_of, piece_text};

use std::alloc::Global;
use up_base::{Mem, Wide};
use vb_tree::Token;

// At most so many units or tokens from the front.
fn front<T>(items: &[T], count: usize) -> &[T]
    ensures { result.now ≡ take count items.now }
{
    &items[..count.min(items.len())]
}

// What stands behind so many units or tokens.
fn behind<T>(items: &[T], count: usize) -> &[T]
    ensures { result.now ≡ drop count items.now }
{
    &items[count.min(items.len())..]
}

/// The part of a text from one place up to another.
fn part(text: &[u16], from: u32, to: u32) -> &[u16]
    ensures { result.now ≡ take (to - from) (drop from text.now) }
{
    front(
        behind(text, from as usize),
        to.saturating_sub(from) as usize,
    )
}

// Where the last token ends, behind one that ends there.
fn last_end(end: u32, tokens: &[Token]) -> u32
    ensures { result ≡ last_end end tokens.now }
{
    let mut end = end;
    let mut rest = tokens;
    while let [first, after @ ..] = rest {
        end = first.to;
        rest = after;
    }
    end
}

/// The text of tokens: from the first unit of the first to the last unit of the last.
pub(crate) fn text_of<'a>(text: &'a [u16], tokens: &[Token]) -> &'a [u16]
    ensures { result.now ≡ text_of text.now tokens.now }
{
    match tokens {
        [first, rest @ ..] => part(text, first.from, last_end(first.to, rest)),
        [] => &[],
    }
}

/// The text of a code line of a statement: its own tokens, behind the first word where they begin later.
pub(crate) fn piece_text(
    alloc: Global,
    text: &[u16],
    tokens: &[Token],
    start: usize,
    end: usize,
) -> Result<Wide, Mem>
    ensures { IfOk result (λ own. own ≡ piece_text text.now tokens.now start end) }
{
    if start == 0 {
        return Ok(Wide::from_slice(alloc, text_of(text, front(tokens, end)))?);
    }
    let mut own = Wide::from_slice(alloc, text_of(text, front(tokens, 1)))?;
    own.push(u16::from(b' '))?;
    let item = front(behind(tokens, start), end.saturating_sub(start));
    own.extend_from_slice(text_of(text, item))?;
    Ok(own)
}
