//! The words that written lines are told apart by.
ghost use Rattle.std.specs.Prelude.{◌≡◌, option_map};
ghost use Rattle.net_reader.specs.WordView.{block_words, jump_words, loop_words, procedure_words, type_words, word_of};
ghost use Rattle.net_reader.specs.Words.{keyword_at, line_words, name_word_at};
ghost use Rattle.net_exprs.specs.Readers.{look_up};

use crate::characters::{first_word, is};

/// A word that begins or parts lines.
#[derive(Clone, Copy)]
pub enum Word {
    If,
    ElseIf,
    Else,
    End,
    Select,
    Case,
    Is,
    For,
    Next,
    Do,
    Loop,
    While,
    Until,
    With,
    GoTo,
    On,
    Resume,
    Exit,
    ReDim,
    Preserve,
    Dim,
    Static,
    Const,
    Public,
    Private,
    Friend,
    Sub,
    Function,
    New,
    Get,
    Set,
    Structure,
    Property,
    ReadOnly,
    WriteOnly,
    Class,
    Module,
    Option,
    ByVal,
    ByRef,
}

#[tactic(auto, unfolding(crate::specs::WordView::block_words))]
fn block_word(word: &[u8]) -> Option<Word>
    ensures { option_map word_of result ≡ look_up word.now block_words }
{
    if is(word, b"If") {
        Some(Word::If)
    } else if is(word, b"ElseIf") {
        Some(Word::ElseIf)
    } else if is(word, b"Else") {
        Some(Word::Else)
    } else if is(word, b"End") {
        Some(Word::End)
    } else if is(word, b"Select") {
        Some(Word::Select)
    } else if is(word, b"Case") {
        Some(Word::Case)
    } else if is(word, b"Is") {
        Some(Word::Is)
    } else {
        None
    }
}

#[tactic(auto, unfolding(crate::specs::WordView::loop_words))]
fn loop_word(word: &[u8]) -> Option<Word>
    ensures { option_map word_of result ≡ look_up word.now loop_words }
{
    if is(word, b"For") {
        Some(Word::For)
    } else if is(word, b"Next") {
        Some(Word::Next)
    } else if is(word, b"Do") {
        Some(Word::Do)
    } else if is(word, b"Loop") {
        Some(Word::Loop)
    } else if is(word, b"While") {
        Some(Word::While)
    } else if is(word, b"Until") {
        Some(Word::Until)
    } else if is(word, b"With") {
        Some(Word::With)
    } else {
        None
    }
}

#[tactic(auto, unfolding(crate::specs::WordView::jump_words))]
fn jump_word(word: &[u8]) -> Option<Word>
    ensures { option_map word_of result ≡ look_up word.now jump_words }
{
    if is(word, b"GoTo") {
        Some(Word::GoTo)
    } else if is(word, b"On") {
        Some(Word::On)
    } else if is(word, b"Resume") {
        Some(Word::Resume)
    } else if is(word, b"Exit") {
        Some(Word::Exit)
    } else if is(word, b"ReDim") {
        Some(Word::ReDim)
    } else if is(word, b"Preserve") {
        Some(Word::Preserve)
    } else {
        None
    }
}

#[tactic(auto, unfolding(crate::specs::WordView::procedure_words))]
fn procedure_word(word: &[u8]) -> Option<Word>
    ensures { option_map word_of result ≡ look_up word.now procedure_words }
{
    if is(word, b"Dim") {
        Some(Word::Dim)
    } else if is(word, b"Static") {
        Some(Word::Static)
    } else if is(word, b"Const") {
        Some(Word::Const)
    } else if is(word, b"Public") {
        Some(Word::Public)
    } else if is(word, b"Private") {
        Some(Word::Private)
    } else if is(word, b"Friend") {
        Some(Word::Friend)
    } else if is(word, b"Sub") {
        Some(Word::Sub)
    } else if is(word, b"Function") {
        Some(Word::Function)
    } else if is(word, b"Get") {
        Some(Word::Get)
    } else if is(word, b"Set") {
        Some(Word::Set)
    } else {
        None
    }
}

#[tactic(auto, unfolding(crate::specs::WordView::type_words))]
fn type_word(word: &[u8]) -> Option<Word>
    ensures { option_map word_of result ≡ look_up word.now type_words }
{
    if is(word, b"Structure") {
        Some(Word::Structure)
    } else if is(word, b"Property") {
        Some(Word::Property)
    } else if is(word, b"ReadOnly") {
        Some(Word::ReadOnly)
    } else if is(word, b"WriteOnly") {
        Some(Word::WriteOnly)
    } else if is(word, b"Class") {
        Some(Word::Class)
    } else if is(word, b"Module") {
        Some(Word::Module)
    } else if is(word, b"Option") {
        Some(Word::Option)
    } else if is(word, b"ByVal") {
        Some(Word::ByVal)
    } else if is(word, b"ByRef") {
        Some(Word::ByRef)
    } else {
        None
    }
}

// The word of lines that a word is.
#[tactic(auto, using(crate::proofs::WordGroups::in_groups))]
fn line_word(word: &[u8]) -> Option<Word>
    ensures { option_map word_of result ≡ look_up word.now line_words }
{
    if let Some(word) = block_word(word) {
        Some(word)
    } else if let Some(word) = loop_word(word) {
        Some(word)
    } else if let Some(word) = jump_word(word) {
        Some(word)
    } else if let Some(word) = procedure_word(word) {
        Some(word)
    } else {
        type_word(word)
    }
}

/// The word of lines that a text begins with.
pub(crate) fn keyword_at(text: &[u8]) -> Option<Word>
    ensures { option_map word_of result ≡ keyword_at text.now }
{
    line_word(first_word(text))
}

/// The word in place of a procedure's name that a text begins with.
#[tactic(auto, unfolding(crate::specs::Words::name_words))]
pub(crate) fn name_word_at(text: &[u8]) -> Option<Word>
    ensures { option_map word_of result ≡ name_word_at text.now }
{
    if is(first_word(text), b"New") {
        Some(Word::New)
    } else {
        None
    }
}
