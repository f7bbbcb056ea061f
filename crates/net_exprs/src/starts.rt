//! What an expression begins with: characters, words and signs.
ghost use Rattle.std.specs.Prelude.{◌≡◌, ◌+◌, ◌≤◌, ◌<◌, length, IfSome};
ghost use Rattle.net_tree.specs.Expressions.{operator_text};
ghost use Rattle.net_exprs.specs.Answers.{with_now};
ghost use Rattle.net_exprs.specs.Expressions.{cast_words, front_of, keyword_of, operator_at, operator_from, operators, start_of, word_front};
ghost use Rattle.net_exprs.specs.Readers.{look_up};

use crate::characters::{after, is, is_digit, is_word_part, word_at};
use net_tree::{CastWord, NetBin};

/// What the first character of an expression tells.
#[derive(Clone, Copy)]
pub enum Start {
    Literal,
    Word,
    Bracket,
    Point,
    Opening,
    Minus,
    /// No expression begins with it.
    Other,
}

/// What stands behind an opening parenthesis.
#[derive(Clone, Copy)]
pub enum Front {
    Closing,
    Comma,
    Minus,
    /// `Not`
    Negation,
    /// `TypeOf`
    TypeTest,
    Operand,
}

/// A word of the language that an expression begins with.
#[derive(Clone, Copy)]
pub enum Keyword {
    Nothing,
    Me,
    True,
    False,
    Cast(CastWord),
    CType,
    New,
}

/// What the first character of an expression tells.
#[tactic(auto, unfolding(crate::specs::Expressions::start_of))]
pub(crate) fn start_of(c: u8) -> Start
    ensures { result ≡ start_of c }
{
    if is_digit(c) {
        Start::Literal
    } else if is_word_part(c) {
        Start::Word
    } else if c == b'"' || c == b'&' {
        Start::Literal
    } else if c == b'[' {
        Start::Bracket
    } else if c == b'.' {
        Start::Point
    } else if c == b'(' {
        Start::Opening
    } else if c == b'-' {
        Start::Minus
    } else {
        Start::Other
    }
}

#[tactic(auto, unfolding(crate::specs::Expressions::word_front))]
fn word_front(word: &[u8]) -> Front
    ensures { result ≡ word_front word.now }
{
    if is(word, b"Not") {
        Front::Negation
    } else if is(word, b"TypeOf") {
        Front::TypeTest
    } else {
        Front::Operand
    }
}

/// What stands behind an opening parenthesis.
#[tactic(auto, unfolding(crate::specs::Expressions::front_of))]
pub(crate) fn front_of(text: &[u8]) -> Front
    ensures { result ≡ front_of text.now }
{
    let [c, ..] = text else {
        return Front::Operand;
    };
    if *c == b')' {
        Front::Closing
    } else if *c == b',' {
        Front::Comma
    } else if *c == b'-' {
        Front::Minus
    } else {
        word_front(word_at(text).0)
    }
}

// The word of a conversion.
fn cast_word(word: &[u8]) -> Option<CastWord>
    ensures { result ≡ look_up word.now cast_words }
{
    if is(word, b"CBool") {
        Some(CastWord::CBool)
    } else if is(word, b"CByte") {
        Some(CastWord::CByte)
    } else if is(word, b"CShort") {
        Some(CastWord::CShort)
    } else if is(word, b"CInt") {
        Some(CastWord::CInt)
    } else if is(word, b"CLng") {
        Some(CastWord::CLng)
    } else if is(word, b"CDec") {
        Some(CastWord::CDec)
    } else if is(word, b"CStr") {
        Some(CastWord::CStr)
    } else if is(word, b"CObj") {
        Some(CastWord::CObj)
    } else {
        None
    }
}

/// The word of the language that a word is.
#[tactic(auto, unfolding(crate::specs::Expressions::keyword_of))]
pub(crate) fn keyword_of(word: &[u8]) -> Option<Keyword>
    ensures { result ≡ keyword_of word.now }
{
    if is(word, b"Nothing") {
        Some(Keyword::Nothing)
    } else if is(word, b"Me") {
        Some(Keyword::Me)
    } else if is(word, b"True") {
        Some(Keyword::True)
    } else if is(word, b"False") {
        Some(Keyword::False)
    } else if let Some(word) = cast_word(word) {
        Some(Keyword::Cast(word))
    } else if is(word, b"CType") {
        Some(Keyword::CType)
    } else if is(word, b"New") {
        Some(Keyword::New)
    } else {
        None
    }
}

// An operator with the blanks around it.
fn operator_text(op: NetBin) -> &'static [u8]
    ensures { result.now ≡ operator_text op }
{
    match op {
        NetBin::Add => b" + ",
        NetBin::Sub => b" - ",
        NetBin::Mul => b" * ",
        NetBin::IntDiv => b" \\ ",
        NetBin::Mod => b" Mod ",
        NetBin::Concat => b" & ",
        NetBin::Equal => b" = ",
        NetBin::NotEqual => b" <> ",
        NetBin::Less => b" < ",
        NetBin::Greater => b" > ",
        NetBin::LessEqual => b" <= ",
        NetBin::GreaterEqual => b" >= ",
        NetBin::And => b" And ",
        NetBin::Or => b" Or ",
        NetBin::Xor => b" Xor ",
        NetBin::Is => b" Is ",
    }
}

const OPERATORS: [NetBin; 16] = [
    NetBin::Add,
    NetBin::Sub,
    NetBin::Mul,
    NetBin::IntDiv,
    NetBin::Mod,
    NetBin::Concat,
    NetBin::Equal,
    NetBin::NotEqual,
    NetBin::Less,
    NetBin::Greater,
    NetBin::LessEqual,
    NetBin::GreaterEqual,
    NetBin::And,
    NetBin::Or,
    NetBin::Xor,
    NetBin::Is,
];

fn operators() -> &'static [NetBin]
    ensures { result.now ≡ operators }
{
    &OPERATORS
}

// The first of these operators that stands at the front, and what follows it.
fn operator_from<'a>(operators: &[NetBin], text: &'a [u8]) -> Option<(NetBin, &'a [u8])>
    ensures operator { with_now result ≡ operator_from operators.now text.now }
    ensures shorter { IfSome result (λ read. length read.1.now < length text.now) }
{
    for op in operators {
        if let Some(rest) = after(operator_text(*op), text) {
            return Some((*op, rest));
        }
    }
    None
}

/// The operator at the front, with the blanks around it, and what follows it.
#[tactic(auto, unfolding(crate::specs::Expressions::operator_at))]
pub(crate) fn operator_at(text: &[u8]) -> Option<(NetBin, &[u8])>
    ensures operator { with_now result ≡ operator_at text.now }
    ensures shorter { IfSome result (λ read. length read.1.now < length text.now) }
{
    operator_from(operators(), text)
}
