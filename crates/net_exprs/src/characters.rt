//! Characters, words and texts at the front.
ghost use Rattle.std.specs.Prelude.{◌≡◌, ◌≤◌, ◌+◌, length, IfSome};
ghost use Rattle.net_tree.specs.Spelling.{is_same_text, is_word_part};
ghost use Rattle.net_exprs.specs.Names.{begins_digit, is_digit};
ghost use Rattle.net_exprs.specs.Readers.{after, word_at};
ghost use Rattle.net_exprs.specs.Answers.{now_of};

/// Whether a character is a decimal digit.
pub(crate) fn is_digit(c: u8) -> bool
    ensures { result ≡ is_digit c }
{
    b'0' <= c && c <= b'9'
}

/// Whether a text begins with a decimal digit.
pub(crate) fn begins_digit(text: &[u8]) -> bool
    ensures { result ≡ begins_digit text.now }
{
    match text {
        [c, ..] => is_digit(*c),
        [] => false,
    }
}

/// Whether a character is a letter, a digit or an underscore.
pub(crate) fn is_word_part(c: u8) -> bool
    ensures { result ≡ is_word_part c }
{
    (b'A' <= c && c <= b'Z') || (b'a' <= c && c <= b'z') || is_digit(c) || c == b'_'
}

/// Whether a word is this one.
pub(crate) fn is(word: &[u8], text: &[u8]) -> bool
    ensures { result ≡ is_same_text word.now text.now }
{
    word == text
}

// How many letters, digits and underscores stand at the front.
fn word_length(text: &[u8]) -> usize
    ensures count { result ≡ length (word_at text.now).0 }
    ensures within { result ≤ length text.now }
{
    for (at, c) in text.iter().enumerate() {
        if !is_word_part(*c) {
            return at;
        }
    }
    text.len()
}

/// The letters, digits and underscores at the front, and what follows them.
#[tactic(auto, using(crate::proofs::Fronts::word_taken, crate::proofs::Fronts::word_dropped))]
pub(crate) fn word_at(text: &[u8]) -> (&[u8], &[u8])
    ensures word { result.0.now ≡ (word_at text.now).0 }
    ensures rest { result.1.now ≡ (word_at text.now).1 }
    ensures lengths { length result.0.now + length result.1.now ≡ length text.now }
{
    text.split_at(word_length(text))
}

/// What stands behind a text at the front.
pub(crate) fn after<'a>(front: &[u8], text: &'a [u8]) -> Option<&'a [u8]>
    ensures rest { now_of result ≡ after front.now text.now }
    ensures shorter { IfSome result (λ rest. length rest.now + length front.now ≡ length text.now) }
{
    text.strip_prefix(front)
}
