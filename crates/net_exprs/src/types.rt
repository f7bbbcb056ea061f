//! Reads ranks and types.
ghost use Rattle.std.specs.Prelude.{◌≡◌, ℕ, ◌<◌, true, codes, [], ◌∷◌, length, option_map, IfOk, IfSome};
ghost use Rattle.net_tree.specs.Depth.{depth_type};
ghost use Rattle.net_tree.specs.Spelling.{is_same_path};
ghost use Rattle.net_tree.specs.View.{type_name_of};
ghost use Rattle.net_exprs.specs.Answers.{Answers, with_now};
ghost use Rattle.net_exprs.specs.Fitting.{fits_path, fits_rank, fits_type};
ghost use Rattle.net_exprs.specs.Types.{base_at, basic_type_of, commas_from, path_type, rank_at, type_at};

use crate::characters::{is, word_at};
use crate::fail::PhraseFail;
use crate::names::read_path;
use net_tree::{MOST_NESTED, NetType, Path};
use std::alloc::Global;

/// The rank that commas up to the closing parenthesis stand for, and what follows it.
pub(crate) fn commas(text: &[u8]) -> Option<(usize, &[u8])>
    ensures rank { with_now result ≡ commas_from 1 text.now }
    ensures shorter { IfSome result (λ read. length read.1.now < length text.now) }
{
    let mut rank = 1;
    let mut rest = text;
    'commas: loop {
        match rest {
            [b',', more @ ..] => {
                rank += 1;
                rest = more;
            }
            [b')', more @ ..] => return Some((rank, more)),
            _ => return None,
        }
    }
}

// The rank of the parentheses of an array, and what follows them.
fn rank_at(text: &[u8]) -> Option<(usize, &[u8])>
    ensures rank { with_now result ≡ rank_at text.now }
    ensures shorter { IfSome result (λ read. length read.1.now < length text.now) }
{
    match text {
        [b'(', inner @ ..] => commas(inner),
        _ => None,
    }
}

/// Reads the parentheses of an array as its number of dimensions. It fails with `NotNet` where none stand there, or
/// those of more than 255 dimensions.
pub fn read_rank(text: &[u8]) -> Result<(u8, &[u8]), PhraseFail>
    ensures answers { Answers (λ rank. rank) fits_rank (rank_at text.now) result }
    ensures shorter { IfOk result (λ read. length read.1.now < length text.now) }
    ensures held { IfOk result (λ read. fits_rank read.0 ≡ true) }
{
    let Some((rank, rest)) = rank_at(text) else {
        return Err(PhraseFail::NotNet);
    };
    match u8::try_from(rank) {
        Ok(rank) => Ok((rank, rest)),
        Err(_) => Err(PhraseFail::NotNet),
    }
}

// The type that a word of the language is.
#[tactic(auto, unfolding(crate::specs::Types::basic_type_of))]
fn basic_type(word: &[u8]) -> Option<NetType>
    ensures type_of_word { option_map type_name_of result ≡ basic_type_of word.now }
    ensures held { IfSome result (λ ty. fits_type (type_name_of ty) ≡ true) }
    ensures plain { IfSome result (λ ty. depth_type (type_name_of ty) ≡ 0) }
{
    if is(word, b"Boolean") {
        Some(NetType::Boolean)
    } else if is(word, b"Byte") {
        Some(NetType::Byte)
    } else if is(word, b"Short") {
        Some(NetType::Short)
    } else if is(word, b"Integer") {
        Some(NetType::Integer)
    } else if is(word, b"Long") {
        Some(NetType::Long)
    } else if is(word, b"Decimal") {
        Some(NetType::Decimal)
    } else if is(word, b"String") {
        Some(NetType::Str)
    } else if is(word, b"Object") {
        Some(NetType::Object)
    } else {
        None
    }
}

fn is_system_array(path: &Path) -> bool
    ensures { result ≡ is_same_path path.now (codes "System" ∷ codes "Array" ∷ []) }
{
    match path.as_slice() {
        [library, name] => is(library.as_bytes(), b"System") && is(name.as_bytes(), b"Array"),
        _ => false,
    }
}

// The type that a path names.
fn path_type(path: Path) -> NetType
    ensures type_of_path { type_name_of result ≡ path_type path }
    ensures held { fits_path path ≡ true → fits_type (type_name_of result) ≡ true }
    ensures plain { depth_type (type_name_of result) ≡ 0 }
{
    if is_system_array(&path) {
        NetType::SystemArray
    } else {
        NetType::Named(path)
    }
}

/// Reads a type that is no array.
pub(crate) fn read_base(alloc: Global, text: &[u8]) -> Result<(NetType, &[u8]), PhraseFail>
    ensures answers { Answers type_name_of fits_type (base_at text.now) result }
    ensures shorter { IfOk result (λ read. length read.1.now < length text.now) }
    ensures held { IfOk result (λ read. fits_type (type_name_of read.0) ≡ true) }
    ensures plain { IfOk result (λ read. depth_type (type_name_of read.0) ≡ 0) }
{
    let (word, rest) = word_at(text);
    if let Some(ty) = basic_type(word) {
        return Ok((ty, rest));
    }
    match read_path(alloc, text) {
        Ok((path, rest)) => Ok((path_type(path), rest)),
        Err(e) => Err(e),
    }
}

/// Reads a type with the ranks of the arrays that it is. It fails with `NotNet` where none stands there, or one with a
/// name of more than 512 characters, more than 255 dimensions or more than 1000 arrays in each other.
pub fn read_type(alloc: Global, text: &[u8]) -> Result<(NetType, &[u8]), PhraseFail>
    ensures answers { Answers type_name_of fits_type (type_at text.now) result }
    ensures shorter { IfOk result (λ read. length read.1.now < length text.now) }
    ensures held { IfOk result (λ read. fits_type (type_name_of read.0) ≡ true) }
{
    let (mut ty, mut rest) = read_base(alloc, text)?;
    let mut arrays = 0;
    'ranks: while let Some((rank, beyond)) = rank_at(rest) {
        let Ok(rank) = u8::try_from(rank) else {
            return Err(PhraseFail::NotNet);
        };
        if arrays == MOST_NESTED {
            return Err(PhraseFail::NotNet);
        }
        ty = NetType::ArrayOf(Box::new(alloc, ty)?, rank);
        arrays += 1;
        rest = beyond;
    }
    Ok((ty, rest))
}
