//! Code lines of a statement.
ghost use Rattle.std.specs.Prelude.{◌≡◌, ◌<◌, ◌^◌, true, length, IfOk};
ghost use Rattle.statement_forms.specs.Answer.{Reads, form_seen, list_now};
ghost use Rattle.statement_forms.specs.Fronts.{behind_key};
ghost use Rattle.statement_forms.specs.Pieces.{named_item, ItemMeans, list_behind, list_of, list_slots, PieceAnswers, AnswersSlots, AnswersStatement};

use crate::fronts::behind_key;
use crate::meanings::statement;
use form_parts::{PartFail, Separator, callee, name_of, parted};
use std::alloc::Global;
use thiserror::Error;
use up_base::{Mem, Sequence};
use vb_tree::{Form6, Token};

/// A code line of a statement, and the tokens that its own text covers: those from `from` on and before `to`.
#[derive(Drop)]
pub struct Piece {
    pub form: Form6,
    pub from: usize,
    pub to: usize,
}

/// Why a statement has no code lines. The number is that of the code line, from 0.
#[derive(Debug, Drop, Error)]
pub enum FormFail {
    #[error("no form fits")]
    NoForm(usize),
    #[error("an expression is more than 64 deep, or a Debug.Print has more than 64 items")]
    TooDeep(usize),
    #[error("out of memory")]
    Mem,
}

impl From<Mem> for FormFail {
    ghost use Rattle.statement_forms.specs.declared.pieces.FormFail.TheVariants as fail;

    ghost from_gives = { λ _ e. e ≡ fail.Mem };

    fn from(_: Mem) -> FormFail {
        FormFail::Mem
    }
}

// The name of a Next that has several.
fn named_item(alloc: Global, tokens: &[Token]) -> Result<Option<Form6>, Mem>
    ensures { IfOk result (λ found. form_seen found ≡ named_item tokens.now) }
{
    let [token] = tokens else {
        return Ok(None);
    };
    match name_of(token) {
        Some((name, suffix)) => Ok(Some(Form6::Next(Some((name.copy(alloc)?, suffix))))),
        None => Ok(None),
    }
}

fn erased_item(alloc: Global, tokens: &[Token]) -> Result<Form6, PartFail>
    ensures { Reads (ItemMeans true tokens.now) result }
{
    match callee(alloc, tokens) {
        Ok(array) => Ok(Form6::Erase(array)),
        Err(e) => Err(e),
    }
}

// An item behind Erase, or behind Next.
fn item(alloc: Global, erases: bool, tokens: &[Token]) -> Result<Form6, PartFail>
    ensures { Reads (ItemMeans erases tokens.now) result }
{
    if erases {
        erased_item(alloc, tokens)
    } else {
        match named_item(alloc, tokens)? {
            Some(form) => Ok(form),
            None => Err(PartFail::NotFound),
        }
    }
}

// What stands behind a word, where a comma stands in it outside of parentheses.
fn list_behind<'a>(tokens: &'a [Token], erases: bool, word: &[u8]) -> Option<(bool, &'a [Token])>
    ensures { list_now result ≡ list_behind erases (behind_key word.now tokens.now) }
{
    let Some(rest) = behind_key(tokens, word) else {
        return None;
    };
    match parted(Separator::Comma, rest) {
        Some(_) => Some((erases, rest)),
        None => None,
    }
}

// The items of a Next or an Erase that has several, and whether it is an Erase.
fn list_of(tokens: &[Token]) -> Option<(bool, &[Token])>
    ensures { list_now result ≡ list_of tokens.now }
{
    match list_behind(tokens, false, b"next") {
        Some(list) => Some(list),
        None => list_behind(tokens, true, b"erase"),
    }
}

// The code line that an item is.
fn read_piece(
    alloc: Global,
    erases: bool,
    tokens: &[Token],
    from: usize,
    to: usize,
    number: usize,
) -> Result<Piece, FormFail>
    ensures { PieceAnswers (ItemMeans erases) (tokens.now, (from, to)) number result }
{
    match item(alloc, erases, tokens) {
        Ok(form) => Ok(Piece { form, from, to }),
        Err(PartFail::NotFound) => Err(FormFail::NoForm(number)),
        Err(PartFail::TooDeep) => Err(FormFail::TooDeep(number)),
        Err(PartFail::Mem) => Err(FormFail::Mem),
    }
}

// The code lines of the items.
fn item_pieces(alloc: Global, erases: bool, tokens: &[Token]) -> Result<Sequence<Piece>, FormFail>
    requires { length tokens.now < 2 ^ 63 }
    ensures { AnswersSlots (ItemMeans erases) (list_slots tokens.now) result }
{
    let mut pieces = Sequence::new(alloc);
    let mut rest = tokens;
    let mut from = 0;
    let mut start = 1;
    while let Some((part, after)) = parted(Separator::Comma, rest) {
        let to = start + part.len();
        match read_piece(alloc, erases, part, from, to, pieces.len()) {
            Ok(piece) => pieces.push(piece)?,
            Err(e) => return Err(e),
        }
        start = to + 1;
        from = start;
        rest = after;
    }
    match read_piece(alloc, erases, rest, from, start + rest.len(), pieces.len()) {
        Ok(piece) => pieces.push(piece)?,
        Err(e) => return Err(e),
    }
    Ok(pieces)
}

/// The code lines of one statement of a procedure that is no label, no declaration and no If with its statements on one
/// line: one, but one for each item of a Next or an Erase with commas.
///
/// # Errors
///
/// The first code line that no form fits, or whose form has an expression that is more than 64 deep or more than 64 items
/// of a Debug.Print. A code line that no form fits is never too deep. Want of memory is the only other failure.
pub fn read_statement(alloc: Global, tokens: &[Token]) -> Result<Sequence<Piece>, FormFail>
    ensures { AnswersStatement tokens.now result }
{
    if let Some((erases, items)) = list_of(tokens) {
        return item_pieces(alloc, erases, items);
    }
    let mut pieces = Sequence::new(alloc);
    match statement(alloc, tokens) {
        Ok(form) => {
            pieces.push(Piece {
                form,
                from: 0,
                to: tokens.len(),
            })?;
            Ok(pieces)
        }
        Err(PartFail::NotFound) => Err(FormFail::NoForm(0)),
        Err(PartFail::TooDeep) => Err(FormFail::TooDeep(0)),
        Err(PartFail::Mem) => Err(FormFail::Mem),
    }
}
