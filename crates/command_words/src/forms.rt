//! The command word.
ghost use Rattle.std.specs.Prelude.{◌≡◌, ◌∷◌, List, IfOk, IsErrOf};
ghost use Rattle.command_words.specs.Asks.{Word};
ghost use Rattle.command_words.specs.Commands.{seen, word_of};

use crate::asked::WordsFail;

/// The form that the command word tells.
#[derive(Clone, Copy, Debug, PartialEq, Eq)]
pub(crate) enum Form {
    Upgrade,
    Check,
    Make,
    Rules,
}

/// The form of the words.
pub(crate) fn form_of(texts: &[&str]) -> Result<Form, WordsFail>
    ensures form { IfOk result (λ form. (rest : List Word) × (seen texts.now ≡ word_of form ∷ rest)) }
    ensures no_form { IsErrOf result WordsFail.NoForm → (form : Form) → (rest : List Word) → ¬ (seen texts.now ≡ word_of form ∷ rest) }
{
    match texts {
        [word, ..] => Ok(form_named(word)?),
        [] => Err(WordsFail::NoForm),
    }
}

// The form of a command word, which is spelt exactly.
fn form_named(word: &str) -> Result<Form, WordsFail>
    ensures form { IfOk result (λ form. word.now ≡ word_of form) }
    ensures no_form { IsErrOf result WordsFail.NoForm → (form : Form) → ¬ (word.now ≡ word_of form) }
{
    match word {
        "upgrade" => Ok(Form::Upgrade),
        "check" => Ok(Form::Check),
        "make" => Ok(Form::Make),
        "rules" => Ok(Form::Rules),
        _ => Err(WordsFail::NoForm),
    }
}
