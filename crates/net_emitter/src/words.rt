//! The words that are written in brackets where they are names.
ghost use Rattle.std.specs.Prelude.{◌≡◌, map, filter, nat_eq};
ghost use Rattle.std.specs.List.{list_any};
ghost use Rattle.std.specs.Cmp.Lexicographic.{pointwise};
ghost use Rattle.net_tree.specs.Spelling.{bracketed_words, is_bracketed};
ghost use Rattle.net_emitter.specs.Words.{words_by_letter};

use up_base::Name;

const A: [&[u8]; 9] = [
    b"addhandler",
    b"addressof",
    b"alias",
    b"and",
    b"andalso",
    b"ansi",
    b"as",
    b"assembly",
    b"auto",
];

const B: [&[u8]; 4] = [b"boolean", b"byref", b"byte", b"byval"];

const C: [&[u8]; 20] = [
    b"call",
    b"case",
    b"catch",
    b"cbool",
    b"cbyte",
    b"cchar",
    b"cdate",
    b"cdbl",
    b"cdec",
    b"char",
    b"cint",
    b"class",
    b"clng",
    b"cobj",
    b"const",
    b"cshort",
    b"csng",
    b"cstr",
    b"ctype",
    b"currency",
];

const D: [&[u8]; 9] = [
    b"date",
    b"decimal",
    b"declare",
    b"default",
    b"delegate",
    b"dim",
    b"directcast",
    b"do",
    b"double",
];

const E: [&[u8]; 12] = [
    b"each", b"else", b"elseif", b"empty", b"end", b"endif", b"enum", b"eqv", b"erase", b"error",
    b"event", b"exit",
];

const F: [&[u8]; 5] = [b"false", b"finally", b"for", b"friend", b"function"];

const G: [&[u8]; 5] = [b"get", b"gettype", b"global", b"gosub", b"goto"];

const H: [&[u8]; 1] = [b"handles"];

const I: [&[u8]; 9] = [
    b"if",
    b"imp",
    b"implements",
    b"imports",
    b"in",
    b"inherits",
    b"integer",
    b"interface",
    b"is",
];

const L: [&[u8]; 6] = [b"let", b"lib", b"like", b"long", b"loop", b"lset"];

const M: [&[u8]; 7] = [
    b"me",
    b"mod",
    b"module",
    b"mustinherit",
    b"mustoverride",
    b"mybase",
    b"myclass",
];

const N: [&[u8]; 8] = [
    b"namespace",
    b"new",
    b"next",
    b"not",
    b"nothing",
    b"notinheritable",
    b"notoverridable",
    b"null",
];

const O: [&[u8]; 9] = [
    b"object",
    b"on",
    b"option",
    b"optional",
    b"or",
    b"orelse",
    b"overloads",
    b"overridable",
    b"overrides",
];

const P: [&[u8]; 6] = [
    b"paramarray",
    b"preserve",
    b"private",
    b"property",
    b"protected",
    b"public",
];

const R: [&[u8]; 8] = [
    b"raiseevent",
    b"readonly",
    b"redim",
    b"rem",
    b"removehandler",
    b"resume",
    b"return",
    b"rset",
];

const S: [&[u8]; 13] = [
    b"select",
    b"set",
    b"shadows",
    b"shared",
    b"short",
    b"single",
    b"static",
    b"step",
    b"stop",
    b"string",
    b"structure",
    b"sub",
    b"synclock",
];

const T: [&[u8]; 7] = [
    b"then", b"throw", b"to", b"true", b"try", b"type", b"typeof",
];

const U: [&[u8]; 2] = [b"unicode", b"until"];

const V: [&[u8]; 1] = [b"variant"];

const W: [&[u8]; 6] = [
    b"wend",
    b"when",
    b"while",
    b"with",
    b"withevents",
    b"writeonly",
];

const X: [&[u8]; 1] = [b"xor"];

const BY_LETTER: [&[&[u8]]; 26] = [
    &A,
    &B,
    &C,
    &D,
    &E,
    &F,
    &G,
    &H,
    &I,
    &[],
    &[],
    &L,
    &M,
    &N,
    &O,
    &P,
    &[],
    &R,
    &S,
    &T,
    &U,
    &V,
    &W,
    &X,
    &[],
    &[],
];

// The words in small letters, by their first letter.
fn words_by_letter() -> &'static [&'static [&'static [u8]]]
    ensures { map (λ ws. map (λ w. w.now) ws.now) result.now ≡ words_by_letter }
{
    &BY_LETTER
}

// Whether a word is one of these.
fn is_among(word: &[u8], words: &[&[u8]]) -> bool
    ensures { result ≡ list_any (λ w. pointwise nat_eq word.now w.now) words.now }
{
    words.iter().any(|w| word == *w)
}

/// Whether a name is a word that is written in brackets, letters compared without case.
pub fn is_bracketed(name: &Name) -> bool
    ensures { result ≡ is_bracketed name.now }
{
    let word = name.lower_bytes();
    let Some(first) = word.first() else {
        return false;
    };
    if !first.is_ascii_lowercase() {
        return false;
    }
    is_among(word, words_by_letter()[usize::from(*first - b'a')])
}
