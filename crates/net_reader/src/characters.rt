//! Characters and words at the front of a text.
ghost use Rattle.std.specs.Prelude.{◌≡◌, ◌≤◌, ◌&&◌, nat_le, length, drop};
ghost use Rattle.net_tree.specs.Spelling.{is_same_text, is_word_part};
ghost use Rattle.net_exprs.specs.Ends.{begins_with};
ghost use Rattle.net_reader.specs.LineReader.{before_blank};
ghost use Rattle.net_reader.specs.Words.{behind_word, ends_with, first_word, word_front};

fn is_digit(c: u8) -> bool
    ensures { result ≡ (nat_le 48 c && nat_le c 57) }
{
    b'0' <= c && c <= b'9'
}

fn is_word_part(c: u8) -> bool
    ensures { result ≡ is_word_part c }
{
    (b'A' <= c && c <= b'Z') || (b'a' <= c && c <= b'z') || is_digit(c) || c == b'_'
}

/// Whether a word is this one.
pub(crate) fn is(word: &[u8], text: &[u8]) -> bool
    ensures { result ≡ is_same_text word.now text.now }
{
    word == text
}

/// Whether a text begins with a character.
pub(crate) fn begins_with(c: u8, text: &[u8]) -> bool
    ensures { result ≡ begins_with c text.now }
{
    match text {
        [first, ..] => *first == c,
        [] => false,
    }
}

/// Whether a text ends with a character.
#[tactic(auto, using(crate::proofs::WordFronts::last_is))]
pub(crate) fn ends_with(c: u8, text: &[u8]) -> bool
    ensures { result ≡ ends_with c text.now }
{
    match text {
        [.., last] => *last == c,
        [] => false,
    }
}

/// What stands behind so many characters, and nothing where there are no more.
pub(crate) fn behind(count: usize, text: &[u8]) -> &[u8]
    ensures { result.now ≡ drop count text.now }
{
    match text.get(count..) {
        Some(rest) => rest,
        None => &[],
    }
}

// How many letters, digits and underscores stand at the front.
fn word_length(text: &[u8]) -> usize
    ensures count { result ≡ length (word_front text.now) }
    ensures within { result ≤ length text.now }
{
    for (at, c) in text.iter().enumerate() {
        if !is_word_part(*c) {
            return at;
        }
    }
    text.len()
}

#[tactic(auto, using(crate::proofs::WordFronts::front_taken))]
fn word_front(text: &[u8]) -> &[u8]
    ensures { result.now ≡ word_front text.now }
{
    text.split_at(word_length(text)).0
}

/// The letters, digits and underscores at the front, and nothing where a digit comes first.
pub(crate) fn first_word(text: &[u8]) -> &[u8]
    ensures { result.now ≡ first_word text.now }
{
    match text {
        [c, ..] => { if is_digit(*c) { &[] } else { word_front(text) } }
        [] => &[],
    }
}

/// What stands behind the first word.
pub(crate) fn behind_word(text: &[u8]) -> &[u8]
    ensures { result.now ≡ behind_word text.now }
{
    behind(first_word(text).len(), text)
}

// How many characters stand before the first blank.
fn blank_distance(text: &[u8]) -> usize
    ensures count { result ≡ length (before_blank text.now) }
    ensures within { result ≤ length text.now }
{
    for (at, c) in text.iter().enumerate() {
        if *c == b' ' {
            return at;
        }
    }
    text.len()
}

/// What stands before the first blank.
#[tactic(auto, using(crate::proofs::WordFronts::blank_taken))]
pub(crate) fn before_blank(text: &[u8]) -> &[u8]
    ensures { result.now ≡ before_blank text.now }
{
    text.split_at(blank_distance(text)).0
}
