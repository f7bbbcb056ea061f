//! Declaration lines.
ghost use Rattle.std.specs.Prelude.{◌≡◌, List, option_map, IfOk};
ghost use Rattle.vb_tree.specs.declared.token.Token.{Token};
ghost use Rattle.declaration_forms.specs.declared.starts.Spot.{Spot};
ghost use Rattle.vb_tree.specs.Tree.{Form, variables, constants, type_head, enum_head, static_head, event_variables, opaque};
ghost use Rattle.vb_tree.specs.View.{form_of, signature_of, result_of};
ghost use Rattle.form_parts.specs.Answer.{Answers};
ghost use Rattle.declaration_forms.specs.DeclarationForms.{IsDeclaration, form_depth, Fits, VariablesLine, IsEventDeclarator, ConstantsLine, NameLine, HeadOf, HeadLine, may_result, head_form, pair_depth, end_form};
ghost use Rattle.declaration_forms.specs.Now.{tokens_now, outlined_now};
ghost use Rattle.declaration_forms.specs.Heading.{head_plain};
ghost use Rattle.declaration_forms.specs.Options.{option_line};
ghost use Rattle.declaration_forms.specs.Outlines.{Outline, outline_of};
ghost use Rattle.declaration_forms.specs.Variables.{IsDeclarator, Outlines};

use crate::events::past_word;
use crate::heads::{optional_result, signature};
use crate::lists::{Item, list};
use crate::options::{def_line, option_line};
use crate::outlines::{Outlined, outline_of};
use crate::starts::{Spot, Start, start_of};
use crate::variables::{field, member};
use form_parts::{PartFail, both, copied};
use std::alloc::Global;
use up_base::Mem;
use vb_tree::{
    BlockKind, Constant6, Declarator6, Form6, ProcKind, Result6, Signature6, Token, VarWord,
    Visibility,
};

// A line that is kept as its tokens.
fn opaque(alloc: Global, line: &[Token]) -> Result<Form6, Mem>
    ensures { IfOk result (λ f. form_of f ≡ opaque line.now) }
{
    Ok(Form6::Opaque(copied(alloc, line)?))
}

fn variables_line(alloc: Global, word: VarWord, rest: &[Token]) -> Result<Form6, PartFail>
    ensures { Answers form_of (VariablesLine IsDeclarator rest.now (variables word)) form_depth result }
{
    match list::<Declarator6>(alloc, rest) {
        Ok(declarators) => Ok(Form6::Variables(word, declarators)),
        Err(e) => Err(e),
    }
}

/// Reads a variable, with or without WithEvents before it.
pub struct EventDeclarator;

impl Item for EventDeclarator {
    type Part = Declarator6;

    ghost use Rattle.vb_tree.specs.Tree.{Declarator};
    ghost use Rattle.vb_tree.specs.View.{declarator_of};
    ghost use Rattle.declaration_forms.specs.DeclarationForms.{IsEventDeclarator};
    ghost use Rattle.declaration_forms.specs.Variables.{declarator_depth};

    ghost Plain = { Declarator };

    ghost view = { declarator_of };

    ghost Is = { IsEventDeclarator };

    ghost depth = { declarator_depth };

    fn read(alloc: Global, tokens: &[Token]) -> Result<Declarator6, PartFail> {
        Declarator6::read(alloc, past_word(tokens, b"withevents"))
    }
}

fn events_line(alloc: Global, word: VarWord, rest: &[Token]) -> Result<Form6, PartFail>
    ensures { Answers form_of (VariablesLine IsEventDeclarator rest.now (event_variables word)) form_depth result }
{
    match list::<EventDeclarator>(alloc, rest) {
        Ok(declarators) => Ok(Form6::EventVariables(word, declarators)),
        Err(e) => Err(e),
    }
}

fn constants_line(
    alloc: Global,
    seen: Option<Visibility>,
    rest: &[Token],
) -> Result<Form6, PartFail>
    ensures { Answers form_of (ConstantsLine seen rest.now) form_depth result }
{
    match list::<Constant6>(alloc, rest) {
        Ok(items) => Ok(Form6::Constants(seen, items)),
        Err(e) => Err(e),
    }
}

fn type_in(alloc: Global, seen: Option<Visibility>, outline: Outlined) -> Result<Form6, PartFail>
    ensures { Answers form_of (NameLine (λ (o : Outline). type_head seen o.name o.suffix) (outlined_now outline.entry)) form_depth result }
{
    let None = outline.inside else {
        return Err(PartFail::NotFound);
    };
    let None = outline.ty else {
        return Err(PartFail::NotFound);
    };
    let name = outline.name.copy(alloc)?;
    Ok(Form6::TypeHead(seen, name, outline.suffix))
}

fn type_line(alloc: Global, seen: Option<Visibility>, rest: &[Token]) -> Result<Form6, PartFail>
    ensures { Answers form_of (Outlines (NameLine (λ (o : Outline). type_head seen o.name o.suffix)) (outline_of rest.now)) form_depth result }
{
    match outline_of(rest) {
        None => Err(PartFail::NotFound),
        Some(outline) => type_in(alloc, seen, outline),
    }
}

fn enum_in(alloc: Global, seen: Option<Visibility>, outline: Outlined) -> Result<Form6, PartFail>
    ensures { Answers form_of (NameLine (λ (o : Outline). enum_head seen o.name o.suffix) (outlined_now outline.entry)) form_depth result }
{
    let None = outline.inside else {
        return Err(PartFail::NotFound);
    };
    let None = outline.ty else {
        return Err(PartFail::NotFound);
    };
    let name = outline.name.copy(alloc)?;
    Ok(Form6::EnumHead(seen, name, outline.suffix))
}

fn enum_line(alloc: Global, seen: Option<Visibility>, rest: &[Token]) -> Result<Form6, PartFail>
    ensures { Answers form_of (Outlines (NameLine (λ (o : Outline). enum_head seen o.name o.suffix)) (outline_of rest.now)) form_depth result }
{
    match outline_of(rest) {
        None => Err(PartFail::NotFound),
        Some(outline) => enum_in(alloc, seen, outline),
    }
}

// Only a Function and a Property Get have a result.
fn may_result(kind: ProcKind, ty: Option<&[Token]>) -> bool
    ensures { result ≡ may_result kind (tokens_now ty.entry) }
{
    match kind {
        ProcKind::Sub => ty.is_none(),
        ProcKind::Function => true,
        ProcKind::Get => true,
        ProcKind::Let => ty.is_none(),
        ProcKind::Set => ty.is_none(),
    }
}

/// What a head says beside the kind of the procedure.
#[derive(Drop)]
pub struct Head {
    pub signature: Signature6,
    pub ty: Option<Box<Result6>>,
}

// The head of an outline.
fn head_in(
    alloc: Global,
    kind: ProcKind,
    seen: Option<Visibility>,
    outline: Outlined,
) -> Result<Head, PartFail>
    ensures { Answers head_plain (HeadOf kind seen (outlined_now outline.entry)) pair_depth result }
{
    if !may_result(kind, outline.ty) {
        return Err(PartFail::NotFound);
    }
    let signature = signature(alloc, seen, outline);
    match both(signature, optional_result(alloc, outline.ty)) {
        Ok((signature, ty)) => Ok(Head { signature, ty }),
        Err(e) => Err(e),
    }
}

fn head_form(kind: ProcKind, signature: Signature6, ty: Option<Box<Result6>>) -> Form6
    ensures { form_of result ≡ head_form kind (signature_of signature) (option_map (λ r. result_of r.value) ty) }
{
    match kind {
        ProcKind::Sub => Form6::SubHead(signature),
        ProcKind::Function => Form6::FunctionHead(signature, ty),
        ProcKind::Get => Form6::GetHead(signature, ty),
        ProcKind::Let => Form6::LetHead(signature),
        ProcKind::Set => Form6::SetHead(signature),
    }
}

fn outlined_head(
    alloc: Global,
    kind: ProcKind,
    seen: Option<Visibility>,
    outline: Outlined,
) -> Result<Form6, PartFail>
    ensures { Answers form_of (HeadLine kind seen (head_form kind) (outlined_now outline.entry)) form_depth result }
{
    match head_in(alloc, kind, seen, outline) {
        Ok(Head { signature, ty }) => Ok(head_form(kind, signature, ty)),
        Err(e) => Err(e),
    }
}

fn head_line(
    alloc: Global,
    kind: ProcKind,
    seen: Option<Visibility>,
    rest: &[Token],
) -> Result<Form6, PartFail>
    ensures { Answers form_of (Outlines (HeadLine kind seen (head_form kind)) (outline_of rest.now)) form_depth result }
{
    match outline_of(rest) {
        None => Err(PartFail::NotFound),
        Some(outline) => outlined_head(alloc, kind, seen, outline),
    }
}

fn outlined_static(
    alloc: Global,
    kind: ProcKind,
    seen: Option<Visibility>,
    outline: Outlined,
) -> Result<Form6, PartFail>
    ensures { Answers form_of (HeadLine kind seen (static_head kind) (outlined_now outline.entry)) form_depth result }
{
    match head_in(alloc, kind, seen, outline) {
        Ok(Head { signature, ty }) => Ok(Form6::StaticHead(kind, signature, ty)),
        Err(e) => Err(e),
    }
}

fn static_line(
    alloc: Global,
    kind: ProcKind,
    seen: Option<Visibility>,
    rest: &[Token],
) -> Result<Form6, PartFail>
    ensures { Answers form_of (Outlines (HeadLine kind seen (static_head kind)) (outline_of rest.now)) form_depth result }
{
    match outline_of(rest) {
        None => Err(PartFail::NotFound),
        Some(outline) => outlined_static(alloc, kind, seen, outline),
    }
}

fn end_form(kind: BlockKind) -> Result<Form6, PartFail>
    ensures { Answers form_of (λ f. end_form kind ≡ Some f) form_depth result }
{
    match kind {
        BlockKind::Sub => Ok(Form6::EndSub),
        BlockKind::Function => Ok(Form6::EndFunction),
        BlockKind::Property => Ok(Form6::EndProperty),
        BlockKind::Type => Ok(Form6::EndType),
        BlockKind::Enum => Ok(Form6::EndEnum),
        _ => Err(PartFail::NotFound),
    }
}

fn options(rest: &[Token]) -> Result<Form6, PartFail>
    ensures { Answers form_of (λ f. option_line rest.now ≡ Some f) form_depth result }
{
    match option_line(rest) {
        None => Err(PartFail::NotFound),
        Some(form) => Ok(form),
    }
}

// The form of a line that begins so, if it has one.
fn started(alloc: Global, start: Start, line: &[Token], rest: &[Token]) -> Result<Form6, PartFail>
    ensures { Answers form_of (Fits start line.now rest.now) form_depth result }
{
    match start {
        Start::Attribute => Ok(Form6::Attribute(copied(alloc, rest)?)),
        Start::Option => options(rest),
        Start::Def(word) => def_line(alloc, word, rest),
        Start::Variables(word) => variables_line(alloc, word, rest),
        Start::Events(word) => events_line(alloc, word, rest),
        Start::Constants(seen) => constants_line(alloc, seen, rest),
        Start::Type(seen) => type_line(alloc, seen, rest),
        Start::Enum(seen) => enum_line(alloc, seen, rest),
        Start::Head(kind, seen) => head_line(alloc, kind, seen, rest),
        Start::StaticHead(kind, seen) => static_line(alloc, kind, seen, rest),
        Start::End(kind) => end_form(kind),
        Start::Opaque => Ok(opaque(alloc, line)?),
        Start::Field => field(alloc, rest),
        Start::Member => member(alloc, rest),
    }
}

/// The form of a declaration line, told from its tokens and from where it stands. `NotFound` says that no form fits
/// there, `TooDeep` that one does with an expression that is more than 64 deep. A line that is kept as its tokens is
/// never too deep.
pub fn read_declaration(alloc: Global, tokens: &[Token], spot: Spot) -> Result<Form6, PartFail>
    ensures { Answers form_of (IsDeclaration spot tokens.now) form_depth result }
{
    match start_of(spot, tokens) {
        None => Err(PartFail::NotFound),
        Some((start, rest)) => started(alloc, start, tokens, rest),
    }
}

/// A law: a line has at most one form where it stands.
#[tactic(auto, using(crate::proofs::OneLine::one_form))]
pub fn one_declaration()
    ensures { (spot : Spot) (line : List Token) (a b : Form) → IsDeclaration spot line a → IsDeclaration spot line b → a ≡ b }
{}
