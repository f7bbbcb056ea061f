//! The reading of the parts of logical lines into a module.
ghost use Rattle.std.specs.Prelude.{◌≡◌, ◌∷◌, [], map, codes, OnOk, IfOk};
ghost use Rattle.vb_tree.specs.LogicalLines.{is_word};
ghost use Rattle.vb_tree.specs.Tree.{goto, label, else_line, end_if};
ghost use Rattle.vb_tree.specs.View.{line_of, form_of};
ghost use Rattle.vb_lines.specs.Building.{OnFault, opens_of};
ghost use Rattle.vb_lines.specs.Cuts.{cut_of, cuts_of};
ghost use Rattle.vb_lines.specs.Forms.{piece_of};
ghost use Rattle.vb_lines.specs.Modules.{spot_of, spot_in};
ghost use Rattle.vb_lines.specs.Parts.{role_by_word, first_role, role_at, label_of, HeadGives, LabelGives, piece_line, text_of, token_line, StatementGives, CutGives, first_of, all_parts, parts_at, parts_of};
ghost use Rattle.vb_lines.specs.Nesting.{fault_of};
ghost use Rattle.vb_lines.specs.Reading.{AddsLines, FaultOfLines, AddsGiven, FaultOfGiven, AddsParts, FaultOfParts};

use crate::building::ModuleBuild;
use crate::cuts::{Cut, line_cuts};
use crate::forms::{FormFail, Piece, read_head, read_line_form};
use crate::nesting::{NO_FORM, TOO_DEEP};
use crate::texts::{piece_text, text_of};
use crate::words::is_word;
use declaration_forms::Spot;
use std::alloc::Global;
use std::slice;
use up_base::{Fault, Mem, Place, ReadFail, Sequence, Wide};
use vb_tree::{BlockKind, CodeLine, Form6, Label6, Line, Literal6, Role, Token, TokenKind};

// The text of the end of an If on one line, `End If`.
const END_IF: [u16; 6] = [0x45, 0x6e, 0x64, 0x20, 0x49, 0x66];

/// A fault of a kind at a place.
pub(crate) fn fault(place: Place, kind: u8) -> ReadFail
    ensures { result ≡ ReadFail.Fault (record { place = place; kind = kind }) }
{
    ReadFail::Fault(Fault { place, kind })
}

// Where a line stands in this block.
fn spot_in(kind: BlockKind) -> Spot
    ensures { result ≡ spot_in kind }
{
    match kind {
        BlockKind::Type => Spot::TypeGroup,
        BlockKind::Enum => Spot::EnumGroup,
        _ => Spot::Procedure,
    }
}

// Where the next line stands.
fn spot(build: &ModuleBuild) -> Spot
    ensures { result ≡ spot_of (opens_of build.now) }
{
    match build.innermost() {
        None => Spot::Module,
        Some(kind) => spot_in(kind),
    }
}

// The role of a statement with an expression, by its first word, where it parts or closes a block.
fn role_by_word(kind: &TokenKind) -> Role
    ensures { result ≡ role_by_word kind.now }
{
    if is_word(kind, b"elseif") {
        return Role::Parts(BlockKind::If);
    }
    if is_word(kind, b"case") {
        return Role::Parts(BlockKind::Select);
    }
    if is_word(kind, b"loop") {
        return Role::Closes(BlockKind::Do);
    }
    Role::Plain
}

fn first_role(tokens: &[Token]) -> Role
    ensures { result ≡ first_role tokens.now }
{
    match tokens {
        [first, ..] => role_by_word(&first.kind),
        [] => Role::Plain,
    }
}

// What a statement that is too deep is to the blocks round it.
fn role_at(spot: Spot, tokens: &[Token]) -> Role
    ensures { result ≡ role_at spot tokens.now }
{
    match spot {
        Spot::Procedure => first_role(tokens),
        Spot::Module => Role::Plain,
        Spot::TypeGroup => Role::Plain,
        Spot::EnumGroup => Role::Plain,
    }
}

// The fault of a line of this role with an expression that is too deep.
fn deep_fault(build: &ModuleBuild, role: Role) -> u8
    ensures { first_of (fault_of (opens_of build.now) role) (Some 14) ≡ Some result }
{
    match build.fault(role) {
        None => TOO_DEEP,
        Some(kind) => kind,
    }
}

// The label that a token is.
fn label_of(alloc: Global, kind: &TokenKind) -> Result<Label6, Mem>
    ensures { IfOk result (λ label. label ≡ label_of kind.now) }
{
    match kind {
        TokenKind::Word(name, _) => Ok(Label6::Word(name.copy(alloc)?)),
        TokenKind::Bracketed(name, _) => Ok(Label6::Word(name.copy(alloc)?)),
        TokenKind::Lit(Literal6::Int(number, _)) => Ok(Label6::Number(i32::from(*number))),
        TokenKind::Lit(Literal6::Long(number, _)) => Ok(Label6::Number(*number)),
        _ => Ok(Label6::Number(0)),
    }
}

// Adds a code line.
fn add_line(
    build: &mut ModuleBuild,
    alloc: Global,
    place: Place,
    text: Wide,
    form: Box<Form6>,
) -> Result<(), ReadFail>
    ensures ok { OnOk result (AddsLines (record { place = place; text = text; form = form_of form.value } ∷ []) build.old build.new) }
    ensures fault { OnFault result (λ f. FaultOfLines (record { place = place; text = text; form = form_of form.value } ∷ []) place build.old f) }
{
    Ok(build.take(alloc, CodeLine { place, text, form })?)
}

// Adds a code line of a statement.
fn add_piece(
    build: &mut ModuleBuild,
    alloc: Global,
    place: Place,
    text: &[u16],
    tokens: &[Token],
    piece: Piece,
) -> Result<(), ReadFail>
    ensures ok { OnOk result (AddsLines (piece_line place text.now tokens.now (piece_of piece) ∷ []) build.old build.new) }
    ensures fault { OnFault result (λ f. FaultOfLines (piece_line place text.now tokens.now (piece_of piece) ∷ []) place build.old f) }
{
    let Piece { form, start, end } = piece;
    let own = piece_text(alloc, text, tokens, start, end)?;
    Ok(add_line(build, alloc, place, own, form)?)
}

// Adds the code lines of a statement.
fn add_pieces(
    build: &mut ModuleBuild,
    alloc: Global,
    place: Place,
    text: &[u16],
    tokens: &[Token],
    pieces: Sequence<Piece>,
) -> Result<(), ReadFail>
    ensures ok { OnOk result (AddsLines (map (piece_line place text.now tokens.now) (map piece_of pieces)) build.old build.new) }
    ensures fault { OnFault result (λ f. FaultOfLines (map (piece_line place text.now tokens.now) (map piece_of pieces)) place build.old f) }
{
    for piece in pieces.into_vec() {
        add_piece(build, alloc, place, text, tokens, piece)?;
    }
    Ok(())
}

// Reads a statement.
fn take_statement(
    build: &mut ModuleBuild,
    alloc: Global,
    place: Place,
    text: &[u16],
    tokens: &[Token],
) -> Result<(), ReadFail>
    ensures ok { OnOk result (AddsGiven (λ spot o. StatementGives spot place text.now tokens.now o) build.old build.new) }
    ensures fault { OnFault result (λ f. FaultOfGiven (λ spot o. StatementGives spot place text.now tokens.now o) place build.old f) }
{
    let spot = spot(build);
    match read_line_form(alloc, tokens, spot) {
        Ok(pieces) => add_pieces(build, alloc, place, text, tokens, pieces)?,
        Err(FormFail::NoForm) => return Err(fault(place, NO_FORM)),
        Err(FormFail::TooDeep) => {
            return Err(fault(place, deep_fault(build, role_at(spot, tokens))));
        }
        Err(FormFail::Mem) => return Err(ReadFail::Mem),
    }
    Ok(())
}

// Adds a code line of one token.
fn take_token(
    build: &mut ModuleBuild,
    alloc: Global,
    place: Place,
    text: &[u16],
    token: &Token,
    form: Box<Form6>,
) -> Result<(), ReadFail>
    ensures ok { OnOk result (AddsLines (record { place = place; text = text_of text.now (token.now ∷ []); form = form_of form.value } ∷ []) build.old build.new) }
    ensures fault { OnFault result (λ f. FaultOfLines (record { place = place; text = text_of text.now (token.now ∷ []); form = form_of form.value } ∷ []) place build.old f) }
{
    let own = Wide::from_slice(alloc, text_of(text, slice::from_ref(token)))?;
    Ok(add_line(build, alloc, place, own, form)?)
}

// Reads a label, or what would be one in a procedure.
fn take_label(
    build: &mut ModuleBuild,
    alloc: Global,
    place: Place,
    text: &[u16],
    token: &Token,
) -> Result<(), ReadFail>
    ensures ok { OnOk result (AddsGiven (λ spot o. LabelGives spot place text.now token.now o) build.old build.new) }
    ensures fault { OnFault result (λ f. FaultOfGiven (λ spot o. LabelGives spot place text.now token.now o) place build.old f) }
{
    if spot(build) == Spot::Procedure {
        let label = Box::new(alloc, Form6::Label(label_of(alloc, &token.kind)?))?;
        return Ok(take_token(build, alloc, place, text, token, label)?);
    }
    Ok(take_statement(build, alloc, place, text, slice::from_ref(token))?)
}

// Reads a whole number in place of statements.
fn take_jump(
    build: &mut ModuleBuild,
    alloc: Global,
    place: Place,
    text: &[u16],
    token: &Token,
) -> Result<(), ReadFail>
    ensures ok { OnOk result (AddsGiven (λ spot o. o ≡ token_line place text.now token.now (goto (label_of token.now.kind))) build.old build.new) }
    ensures fault { OnFault result (λ f. FaultOfGiven (λ spot o. o ≡ token_line place text.now token.now (goto (label_of token.now.kind))) place build.old f) }
{
    let form = Box::new(alloc, Form6::GoTo(label_of(alloc, &token.kind)?))?;
    Ok(take_token(build, alloc, place, text, token, form)?)
}

// Reads the Else of an If on one line.
fn take_else(
    build: &mut ModuleBuild,
    alloc: Global,
    place: Place,
    text: &[u16],
    token: &Token,
) -> Result<(), ReadFail>
    ensures ok { OnOk result (AddsGiven (λ spot o. o ≡ token_line place text.now token.now else_line) build.old build.new) }
    ensures fault { OnFault result (λ f. FaultOfGiven (λ spot o. o ≡ token_line place text.now token.now else_line) place build.old f) }
{
    let form = Box::new(alloc, Form6::Else)?;
    Ok(take_token(build, alloc, place, text, token, form)?)
}

// Reads the head of an If on one line.
fn take_head(
    build: &mut ModuleBuild,
    alloc: Global,
    place: Place,
    text: &[u16],
    tokens: &[Token],
) -> Result<(), ReadFail>
    ensures ok { OnOk result (AddsGiven (λ spot o. HeadGives spot place text.now tokens.now o) build.old build.new) }
    ensures fault { OnFault result (λ f. FaultOfGiven (λ spot o. HeadGives spot place text.now tokens.now o) place build.old f) }
{
    match read_head(alloc, tokens, spot(build)) {
        Ok(form) => {
            let own = Wide::from_slice(alloc, text_of(text, tokens))?;
            Ok(add_line(build, alloc, place, own, form)?)
        }
        Err(FormFail::NoForm) => Err(fault(place, NO_FORM)),
        Err(FormFail::TooDeep) => Err(fault(place, deep_fault(build, Role::Plain))),
        Err(FormFail::Mem) => Err(ReadFail::Mem),
    }
}

// Reads the end of an If on one line.
fn take_end(build: &mut ModuleBuild, alloc: Global, place: Place) -> Result<(), ReadFail>
    ensures ok { OnOk result (AddsLines (record { place = place; text = codes "End If"; form = end_if } ∷ []) build.old build.new) }
    ensures fault { OnFault result (λ f. FaultOfLines (record { place = place; text = codes "End If"; form = end_if } ∷ []) place build.old f) }
{
    let own = Wide::from_slice(alloc, &END_IF)?;
    let form = Box::new(alloc, Form6::EndIf)?;
    Ok(add_line(build, alloc, place, own, form)?)
}

// Reads a part of a logical line.
fn take_cut(
    build: &mut ModuleBuild,
    alloc: Global,
    place: Place,
    text: &[u16],
    cut: Cut<'_>,
) -> Result<(), ReadFail>
    ensures ok { OnOk result (AddsParts (record { place = place; text = text.now; cut = cut_of cut.entry } ∷ []) build.old build.new) }
    ensures fault { OnFault result (λ f. FaultOfParts (record { place = place; text = text.now; cut = cut_of cut.entry } ∷ []) build.old f) }
{
    match cut {
        Cut::Label(token) => Ok(take_label(build, alloc, place, text, token)?),
        Cut::Statement(tokens) => Ok(take_statement(build, alloc, place, text, tokens)?),
        Cut::Head(tokens) => Ok(take_head(build, alloc, place, text, tokens)?),
        Cut::Jump(token) => Ok(take_jump(build, alloc, place, text, token)?),
        Cut::Else(token) => Ok(take_else(build, alloc, place, text, token)?),
        Cut::Stray(_) => Err(fault(place, NO_FORM)),
        Cut::End => Ok(take_end(build, alloc, place)?),
    }
}

// Reads the parts of a logical line.
fn take_cuts(
    build: &mut ModuleBuild,
    alloc: Global,
    place: Place,
    text: &[u16],
    cuts: &[Cut<'_>],
) -> Result<(), ReadFail>
    ensures ok { OnOk result (AddsParts (parts_at place text.now (cuts_of cuts.now)) build.old build.new) }
    ensures fault { OnFault result (λ f. FaultOfParts (parts_at place text.now (cuts_of cuts.now)) build.old f) }
{
    let mut rest = cuts;
    while let [first, after @ ..] = rest {
        take_cut(build, alloc, place, text, *first)?;
        rest = after;
    }
    Ok(())
}

/// Reads a logical line.
pub(crate) fn take_line(build: &mut ModuleBuild, alloc: Global, line: &Line) -> Result<(), ReadFail>
    ensures ok { OnOk result (AddsParts (parts_of line.now) build.old build.new) }
    ensures fault { OnFault result (λ f. FaultOfParts (parts_of line.now) build.old f) }
{
    let cuts = line_cuts(alloc, line.tokens.as_slice())?;
    Ok(take_cuts(build, alloc, line.place, line.text.as_slice(), &cuts)?)
}

/// Reads logical lines.
pub(crate) fn take_lines(
    build: &mut ModuleBuild,
    alloc: Global,
    lines: &[Line],
) -> Result<(), ReadFail>
    ensures ok { OnOk result (AddsParts (all_parts lines.now) build.old build.new) }
    ensures fault { OnFault result (λ f. FaultOfParts (all_parts lines.now) build.old f) }
{
    let mut rest = lines;
    while let [first, after @ ..] = rest {
        take_line(build, alloc, first)?;
        rest = after;
    }
    Ok(())
}
