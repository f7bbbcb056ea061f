//! The words that a line may begin with.
ghost use Rattle.std.specs.Prelude.{◌≡◌, option_map, map, find, nat_eq};
ghost use Rattle.std.specs.Cmp.Lexicographic.{pointwise};
ghost use Rattle.declaration_forms.specs.Words.{lead_of, lead_in, leads};

use vb_tree::{DefWord, Suffix, Token, TokenKind, Visibility};

/// A word that a declaration line may begin with, some of them behind a word of visibility.
#[derive(Clone, Copy)]
pub enum Lead {
    Attribute,
    Option,
    /// `DefInt` and its like.
    Def(DefWord),
    Dim,
    Static,
    /// `Public`, `Private`, `Friend` or `Global`
    Seen(Visibility),
    Const,
    Type,
    Enum,
    End,
    Sub,
    Function,
    Property,
    Declare,
    Event,
    Implements,
}

const LEADS: [(&[u8], Lead); 29] = [
    (b"attribute", Lead::Attribute),
    (b"option", Lead::Option),
    (b"defbool", Lead::Def(DefWord::Boolean)),
    (b"defbyte", Lead::Def(DefWord::Byte)),
    (b"defint", Lead::Def(DefWord::Integer)),
    (b"deflng", Lead::Def(DefWord::Long)),
    (b"defcur", Lead::Def(DefWord::Currency)),
    (b"defstr", Lead::Def(DefWord::Str)),
    (b"defobj", Lead::Def(DefWord::Object)),
    (b"defvar", Lead::Def(DefWord::Variant)),
    (b"defsng", Lead::Def(DefWord::Single)),
    (b"defdbl", Lead::Def(DefWord::Double)),
    (b"defdate", Lead::Def(DefWord::Date)),
    (b"dim", Lead::Dim),
    (b"static", Lead::Static),
    (b"public", Lead::Seen(Visibility::Public)),
    (b"private", Lead::Seen(Visibility::Private)),
    (b"friend", Lead::Seen(Visibility::Friend)),
    (b"global", Lead::Seen(Visibility::Global)),
    (b"const", Lead::Const),
    (b"type", Lead::Type),
    (b"enum", Lead::Enum),
    (b"end", Lead::End),
    (b"sub", Lead::Sub),
    (b"function", Lead::Function),
    (b"property", Lead::Property),
    (b"declare", Lead::Declare),
    (b"event", Lead::Event),
    (b"implements", Lead::Implements),
];

// The words in small letters, each with what it is.
fn table() -> &'static [(&'static [u8], Lead)]
    ensures { map (λ r. (r.0.now, r.1)) result.now ≡ leads }
{
    &LEADS
}

// What the first row of a word says.
fn row_of(rows: &[(&[u8], Lead)], word: &[u8]) -> Option<Lead>
    ensures { result ≡ option_map (λ r. r.1) (find (λ r. pointwise nat_eq word.now r.0.now) rows.now) }
{
    rows.iter().find(|row| word == row.0).map(|row| row.1)
}

// What a word in small letters is to a line that begins with it.
fn lead_in(word: &[u8]) -> Option<Lead>
    ensures { result ≡ lead_in word.now }
{
    row_of(table(), word)
}

/// What a token is to a line that begins with it.
pub fn lead_at(token: &Token) -> Option<Lead>
    ensures { result ≡ lead_of token.now }
{
    match &token.kind {
        TokenKind::Word(name, Suffix::Absent) => lead_in(name.lower_bytes()),
        _ => None,
    }
}
