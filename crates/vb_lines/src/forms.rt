//! What one statement is, by its tokens and by where it stands.
ghost use Rattle.std.specs.Prelude.{◌≡◌, ◌∷◌, [], IfOk, map, codes};
ghost use Rattle.vb_tree.specs.Tree.{line_if};
ghost use Rattle.vb_tree.specs.View.{exp_of, form_of};
ghost use Rattle.declaration_forms.specs.declared.starts.Spot.TheVariants as there;
ghost use Rattle.statement_forms.specs.Answer.{tail_now};
ghost use Rattle.statement_forms.specs.Fronts.{behind_key, before_then};
ghost use Rattle.vb_lines.specs.Boxing.{Passes, PassesAll, enclosed};
ghost use Rattle.vb_lines.specs.Forms.{Declares, States, piece_of, ReadAs, IsFormAnswer, IsHeadAnswer};

use declaration_forms::{Spot, begins_declaration, read_declaration};
use form_parts::{PartFail, expression, is_key};
use statement_forms::{FormFail as StatementFail, Piece as StatementPiece, read_statement};
use std::alloc::{AllocError, AllocFailed, Global};
use up_base::{Mem, Sequence};
use vb_tree::{Expr6, Form6, Token};

/// A code line of a statement, and the tokens that its text covers. One that doesn't start at token 0 is written behind the
/// statement's first word.
#[derive(Drop)]
pub(crate) struct Piece {
    pub(crate) form: Box<Form6>,
    pub(crate) start: usize,
    pub(crate) end: usize,
}

/// Why a statement gives no code lines.
#[derive(Debug, Drop)]
pub(crate) enum FormFail {
    /// It is of no form that stands there.
    NoForm,
    /// It is of a form, but for an expression that is more than 64 deep.
    TooDeep,
    /// Want of memory.
    Mem,
}

impl From<Mem> for FormFail {
    ghost use Rattle.vb_lines.specs.declared.forms.FormFail.TheVariants as fail;

    ghost from_gives = { λ _ e. e ≡ fail.Mem };

    fn from(_: Mem) -> FormFail {
        FormFail::Mem
    }
}

impl From<AllocError> for FormFail {
    ghost use Rattle.vb_lines.specs.declared.forms.FormFail.TheVariants as fail;

    ghost from_gives = { λ _ e. e ≡ fail.Mem };

    fn from(_: AllocError) -> FormFail {
        FormFail::Mem
    }
}

impl<T: Drop> From<AllocFailed<T>> for FormFail {
    ghost use Rattle.vb_lines.specs.declared.forms.FormFail.TheVariants as fail;

    ghost from_gives = { λ _ e. e ≡ fail.Mem };

    fn from(_: AllocFailed<T>) -> FormFail {
        FormFail::Mem
    }
}

/// A code line that goes behind a Box. A form has many variants, so the loop over code lines and the match on what was read
/// are generic.
trait Boxing: Drop {
    ghost use Rattle.vb_lines.specs.Forms.{PlainPiece};

    ghost plain: { Self → PlainPiece };

    /// The same code line with its form behind a Box.
    fn boxed(self, alloc: Global) -> Result<Piece, Mem>
        ensures { IfOk result (λ piece. piece_of piece ≡ plain self) };
}

impl Boxing for StatementPiece {
    ghost use Rattle.vb_lines.specs.Boxing.{plain_piece};

    ghost plain = { plain_piece };

    fn boxed(self, alloc: Global) -> Result<Piece, Mem> {
        let StatementPiece { form, from, to } = self;
        Ok(Piece {
            form: Box::new(alloc, form)?,
            start: from,
            end: to,
        })
    }
}

fn boxed_all<T: Boxing>(alloc: Global, items: Sequence<T>) -> Result<Sequence<Piece>, Mem>
    ensures { IfOk result (λ pieces. map piece_of pieces ≡ map T.plain items) }
{
    let mut pieces = Sequence::new(alloc);
    for item in items.into_vec() {
        pieces.push(item.boxed(alloc)?)?;
    }
    Ok(pieces)
}

fn boxed_pieces<T: Boxing>(
    alloc: Global,
    read: Result<Sequence<T>, StatementFail>,
) -> Result<Sequence<Piece>, FormFail>
    ensures { PassesAll T.plain read result }
{
    match read {
        Ok(items) => Ok(boxed_all(alloc, items)?),
        Err(StatementFail::NoForm(_)) => Err(FormFail::NoForm),
        Err(StatementFail::TooDeep(_)) => Err(FormFail::TooDeep),
        Err(StatementFail::Mem) => Err(FormFail::Mem),
    }
}

fn boxed<T: Drop>(alloc: Global, read: Result<T, PartFail>) -> Result<Box<T>, FormFail>
    ensures { Passes (λ a b. b.value ≡ a) read result }
{
    match read {
        Ok(part) => Ok(Box::new(alloc, part)?),
        Err(PartFail::NotFound) => Err(FormFail::NoForm),
        Err(PartFail::TooDeep) => Err(FormFail::TooDeep),
        Err(PartFail::Mem) => Err(FormFail::Mem),
    }
}

// The only code line of a statement.
fn one_piece(alloc: Global, form: Box<Form6>, end: usize) -> Result<Sequence<Piece>, Mem>
    ensures { IfOk result (λ pieces. map piece_of pieces ≡ record { form = form_of form.value; start = 0; end = end } ∷ []) }
{
    let mut pieces = Sequence::new(alloc);
    pieces.push(Piece {
        form,
        start: 0,
        end,
    })?;
    Ok(pieces)
}

// A declaration line.
fn declared(alloc: Global, tokens: &[Token], spot: Spot) -> Result<Sequence<Piece>, FormFail>
    ensures { ReadAs (Declares spot tokens.now) result }
{
    match boxed(alloc, read_declaration(alloc, tokens, spot)) {
        Ok(form) => Ok(one_piece(alloc, form, tokens.len())?),
        Err(e) => Err(e),
    }
}

// A statement of a procedure that doesn't begin as a declaration.
fn stated(alloc: Global, tokens: &[Token]) -> Result<Sequence<Piece>, FormFail>
    ensures { ReadAs (States tokens.now) result }
{
    boxed_pieces(alloc, read_statement(alloc, tokens))
}

// A line of a procedure.
fn local(alloc: Global, tokens: &[Token]) -> Result<Sequence<Piece>, FormFail>
    ensures { IsFormAnswer there.Procedure tokens.now result }
{
    if begins_declaration(tokens) {
        return declared(alloc, tokens, Spot::Procedure);
    }
    stated(alloc, tokens)
}

/// What a statement of these tokens is where it stands.
pub(crate) fn read_line_form(
    alloc: Global,
    tokens: &[Token],
    spot: Spot,
) -> Result<Sequence<Piece>, FormFail>
    ensures { IsFormAnswer spot tokens.now result }
{
    match spot {
        Spot::Module => declared(alloc, tokens, Spot::Module),
        Spot::Procedure => local(alloc, tokens),
        Spot::TypeGroup => declared(alloc, tokens, Spot::TypeGroup),
        Spot::EnumGroup => declared(alloc, tokens, Spot::EnumGroup),
    }
}

fn behind_if(tokens: &[Token]) -> Option<&[Token]>
    ensures { tail_now result ≡ behind_key (codes "if") tokens.now }
{
    let [first, rest @ ..] = tokens else {
        return None;
    };
    if !is_key(first, b"if") {
        return None;
    }
    Some(rest)
}

fn before_then(tokens: &[Token]) -> Option<&[Token]>
    ensures { tail_now result ≡ before_then tokens.now }
{
    let (last, front) = tokens.split_last()?;
    if !is_key(last, b"then") {
        return None;
    }
    Some(front)
}

// The tokens between If and Then.
fn enclosed(tokens: &[Token]) -> Option<&[Token]>
    ensures { tail_now result ≡ enclosed tokens.now }
{
    let rest = behind_if(tokens)?;
    before_then(rest)
}

fn line_if(alloc: Global, read: Result<Expr6, PartFail>) -> Result<Box<Form6>, FormFail>
    ensures { Passes (λ e form. form_of form.value ≡ line_if (exp_of e)) read result }
{
    match read {
        Ok(condition) => Ok(Box::new(alloc, Form6::LineIf(condition))?),
        Err(PartFail::NotFound) => Err(FormFail::NoForm),
        Err(PartFail::TooDeep) => Err(FormFail::TooDeep),
        Err(PartFail::Mem) => Err(FormFail::Mem),
    }
}

fn head(alloc: Global, tokens: &[Token]) -> Result<Box<Form6>, FormFail>
    ensures { IsHeadAnswer there.Procedure tokens.now result }
{
    match enclosed(tokens) {
        Some(inner) => line_if(alloc, expression(alloc, inner)),
        None => Err(FormFail::NoForm),
    }
}

/// What the head of an If on one line is, given its tokens `If e Then`.
pub(crate) fn read_head(alloc: Global, tokens: &[Token], spot: Spot) -> Result<Box<Form6>, FormFail>
    ensures { IsHeadAnswer spot tokens.now result }
{
    match spot {
        Spot::Module => Err(FormFail::NoForm),
        Spot::Procedure => head(alloc, tokens),
        Spot::TypeGroup => Err(FormFail::NoForm),
        Spot::EnumGroup => Err(FormFail::NoForm),
    }
}
