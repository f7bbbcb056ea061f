//! Command words as texts.
ghost use Rattle.std.specs.Prelude.{◌≡◌, true, false, IfOk, IsErrOf};
ghost use Rattle.std.specs.List.{list_all};
ghost use Rattle.up_base.specs.Names.{is_printable};
ghost use Rattle.command_words.specs.Commands.{seen, are_printable};

use crate::asked::WordsFail;
use std::alloc::Global;
use up_base::{Bytes, Sequence};

/// The words as texts. A word of another character than the printable ones of ASCII has no part in any form.
pub(crate) fn texts_of<'a>(
    alloc: Global,
    words: &'a [Bytes],
) -> Result<Sequence<&'a str>, WordsFail>
    ensures texts { IfOk result (λ texts. seen texts ≡ words.now) }
    ensures printable { IfOk result (λ _. are_printable words.now ≡ true) }
    ensures no_form { IsErrOf result WordsFail.NoForm → are_printable words.now ≡ false }
{
    let mut texts = Sequence::with_capacity(alloc, words.len())?;
    for word in words {
        texts.push(text_of(word.as_slice())?)?;
    }
    Ok(texts)
}

// A word as a text.
fn text_of(word: &[u8]) -> Result<&str, WordsFail>
    ensures text { IfOk result (λ text. text.now ≡ word.now) }
    ensures printable { IfOk result (λ _. list_all is_printable word.now ≡ true) }
    ensures no_form { IsErrOf result WordsFail.NoForm → list_all is_printable word.now ≡ false }
{
    if !is_printable(word) {
        return Err(WordsFail::NoForm);
    }
    match str::from_utf8(word) {
        Ok(text) => Ok(text),
        Err(_) => Err(WordsFail::NoForm),
    }
}

// Whether each byte is an ASCII character from 20 to 7E hex.
fn is_printable(word: &[u8]) -> bool
    ensures { result ≡ list_all is_printable word.now }
{
    word.iter().all(|c| 32 <= *c && *c <= 126)
}
