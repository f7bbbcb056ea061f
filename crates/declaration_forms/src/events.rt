//! Declarations with WithEvents, and words that are passed over.
ghost use Rattle.std.specs.Prelude.{◌≡◌, codes};
ghost use Rattle.form_parts.specs.Cuts.{pieces};
ghost use Rattle.declaration_forms.specs.Starts.{has_events};
ghost use Rattle.declaration_forms.specs.Words.{begins_with, past_first, past_word};

use form_parts::{Separator, is_key, parted};
use vb_tree::Token;

/// Whether the tokens begin with the word, given in small letters.
pub fn begins_with(tokens: &[Token], word: &[u8]) -> bool
    ensures { result ≡ begins_with word.now tokens.now }
{
    match tokens {
        [] => false,
        [first, ..] => is_key(first, word),
    }
}

/// The tokens behind the first one.
pub fn past_first(tokens: &[Token]) -> &[Token]
    ensures { result.now ≡ past_first tokens.now }
{
    match tokens {
        [] => tokens,
        [_, rest @ ..] => rest,
    }
}

/// The tokens without the word, given in small letters, where they begin with it.
pub fn past_word<'a>(tokens: &'a [Token], word: &[u8]) -> &'a [Token]
    ensures { result.now ≡ past_word word.now tokens.now }
{
    match tokens {
        [first, rest @ ..] if is_key(first, word) => rest,
        _ => tokens,
    }
}

/// Whether a declaration of the list begins with WithEvents.
pub fn has_events(list: &[Token]) -> bool
    ensures { result ≡ has_events (pieces Separator.Comma list.now) }
{
    let mut rest = list;
    while let Some((piece, after)) = parted(Separator::Comma, rest) {
        if begins_with(piece, b"withevents") {
            return true;
        }
        rest = after;
    }
    begins_with(rest, b"withevents")
}
