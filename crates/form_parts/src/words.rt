//! Words of forms.
ghost use Rattle.std.specs.Prelude.{◌≡◌};
ghost use Rattle.form_parts.specs.Words.{is_key};

use vb_tree::{Suffix, Token, TokenKind};

/// Whether a token is a keyword, given in small letters: a word without brackets and without suffix, in any case.
pub fn is_key(token: &Token, word: &[u8]) -> bool
    ensures { result ≡ is_key word.now token.now }
{
    match &token.kind {
        TokenKind::Word(name, Suffix::Absent) => name.lower_bytes() == word,
        _ => false,
    }
}
