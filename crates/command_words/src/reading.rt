//! What command words ask for.
ghost use Rattle.std.specs.Prelude.{◌≡◌, true, length, IfOk, IsErrOf};
ghost use Rattle.command_words.specs.Asks.{Asks};
ghost use Rattle.command_words.specs.Commands.{seen, are_printable};

use crate::asked::{Asked, Words, WordsFail};
use crate::behind::{Request, count_named, files_named};
use crate::forms::{Form, form_of};
use crate::texts::texts_of;
use std::alloc::Global;

/// What the command words ask for: `upgrade FILE` or `check FILE`, each with `--settings NAME` before or behind the file or
/// without it, `make N` or `rules`.
///
/// # Errors
///
/// `NoForm` where the words are of none of these forms, or `Mem`.
pub fn read_words(alloc: Global, words: &Words) -> Result<Asked, WordsFail>
    ensures asks { IfOk result (Asks words.now) }
    ensures no_form { IsErrOf result WordsFail.NoForm → (asked : Asked) → ¬ (Asks words.now asked) }
{
    let texts = texts_of(alloc, words.as_slice())?;
    Ok(asked_by(alloc, texts.as_slice())?)
}

// What printable words ask for.
fn asked_by(alloc: Global, texts: &[&str]) -> Result<Asked, WordsFail>
    ensures asks { are_printable (seen texts.now) ≡ true → IfOk result (Asks (seen texts.now)) }
    ensures no_form { IsErrOf result WordsFail.NoForm → (asked : Asked) → ¬ (Asks (seen texts.now) asked) }
{
    match form_of(texts)? {
        Form::Upgrade => {
            let Request { file, settings } = files_named(alloc, texts)?;
            Ok(Asked::Upgrade { file, settings })
        }
        Form::Check => {
            let Request { file, settings } = files_named(alloc, texts)?;
            Ok(Asked::Check { file, settings })
        }
        Form::Make => Ok(Asked::Make(count_named(alloc, texts)?)),
        Form::Rules => Ok(rules(texts)?),
    }
}

// Behind `rules` no word stands.
fn rules(texts: &[&str]) -> Result<Asked, WordsFail>
    ensures alone { IfOk result (λ asked. (asked ≡ Asked.Rules) × (length texts.now ≡ 1)) }
    ensures no_form { IsErrOf result WordsFail.NoForm → ¬ (length texts.now ≡ 1) }
{
    if texts.len() != 1 {
        return Err(WordsFail::NoForm);
    }
    Ok(Asked::Rules)
}
