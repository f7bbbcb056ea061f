//! Declarations of variables, constants, fields of a Type and members of an Enum.
ghost use Rattle.std.specs.Prelude.{◌≡◌, option_map, IfOk};
ghost use Rattle.vb_tree.specs.View.{declarator_of, constant_of, form_of};
ghost use Rattle.form_parts.specs.Answer.{Answers};
ghost use Rattle.declaration_forms.specs.DeclarationForms.{form_depth};
ghost use Rattle.declaration_forms.specs.Now.{tokens_now, outlined_now};
ghost use Rattle.declaration_forms.specs.Outlines.{outline_of, field_outline};
ghost use Rattle.declaration_forms.specs.Variables.{is_new, type_in, DeclaratorOf, declarator_depth, ConstantOf, constant_depth, FieldOf, IsField, MemberOf, IsMember, Outlines};

use crate::events::{begins_with, past_word};
use crate::lists::Item;
use crate::outlines::{Outlined, field_outline, outline_of};
use crate::wholes::{optional_dimensions, optional_expression, optional_type};
use form_parts::{Part, PartFail, Separator, both, expression, parted};
use std::alloc::Global;
use up_base::Mem;
use vb_tree::{Constant6, Declarator6, Expr6, Field6, Form6, Token, TypeName6};

// Whether New stands behind As.
fn is_new(ty: Option<&[Token]>) -> bool
    ensures { result ≡ is_new (tokens_now ty.entry) }
{
    match ty {
        None => false,
        Some(tokens) => begins_with(tokens, b"new"),
    }
}

// What stands behind As, without New.
fn type_in(ty: Option<&[Token]>) -> Option<&[Token]>
    ensures { tokens_now result ≡ type_in (tokens_now ty.entry) }
{
    match ty {
        None => None,
        Some(tokens) => Some(past_word(tokens, b"new")),
    }
}

// The variable of an outline.
fn declarator(alloc: Global, outline: Outlined) -> Result<Declarator6, PartFail>
    ensures { Answers declarator_of (DeclaratorOf (outlined_now outline.entry)) declarator_depth result }
{
    let name = outline.name.copy(alloc)?;
    let bounds = optional_dimensions(alloc, outline.inside);
    let ty = optional_type(alloc, type_in(outline.ty));
    match both(bounds, ty) {
        Ok((bounds, ty)) => Ok(Declarator6 {
            name,
            suffix: outline.suffix,
            bounds,
            auto: is_new(outline.ty),
            ty,
        }),
        Err(e) => Err(e),
    }
}

impl Item for Declarator6 {
    type Part = Declarator6;

    ghost use Rattle.vb_tree.specs.Tree.{Declarator};
    ghost use Rattle.vb_tree.specs.View.{declarator_of};
    ghost use Rattle.declaration_forms.specs.Variables.{IsDeclarator, declarator_depth};

    ghost Plain = { Declarator };

    ghost view = { declarator_of };

    ghost Is = { IsDeclarator };

    ghost depth = { declarator_depth };

    fn read(alloc: Global, tokens: &[Token]) -> Result<Declarator6, PartFail> {
        match outline_of(tokens) {
            None => Err(PartFail::NotFound),
            Some(outline) => declarator(alloc, outline),
        }
    }
}

// The constant of an outline, with the tokens of its value.
fn constant(alloc: Global, outline: Outlined, value: &[Token]) -> Result<Constant6, PartFail>
    ensures { Answers constant_of (ConstantOf value.now (outlined_now outline.entry)) constant_depth result }
{
    let None = outline.inside else {
        return Err(PartFail::NotFound);
    };
    let name = outline.name.copy(alloc)?;
    let ty = optional_type(alloc, outline.ty);
    match both(ty, expression(alloc, value)) {
        Ok((ty, value)) => Ok(Constant6 {
            name,
            suffix: outline.suffix,
            ty,
            value,
        }),
        Err(e) => Err(e),
    }
}

fn equal_to(alloc: Global, front: &[Token], value: &[Token]) -> Result<Constant6, PartFail>
    ensures { Answers constant_of (Outlines (ConstantOf value.now) (outline_of front.now)) constant_depth result }
{
    match outline_of(front) {
        None => Err(PartFail::NotFound),
        Some(outline) => constant(alloc, outline, value),
    }
}

impl Item for Constant6 {
    type Part = Constant6;

    ghost use Rattle.vb_tree.specs.Tree.{Constant};
    ghost use Rattle.vb_tree.specs.View.{constant_of};
    ghost use Rattle.declaration_forms.specs.Variables.{IsConstant, constant_depth};

    ghost Plain = { Constant };

    ghost view = { constant_of };

    ghost Is = { IsConstant };

    ghost depth = { constant_depth };

    fn read(alloc: Global, tokens: &[Token]) -> Result<Constant6, PartFail> {
        match parted(Separator::Equal, tokens) {
            None => Err(PartFail::NotFound),
            Some((front, value)) => equal_to(alloc, front, value),
        }
    }
}

// The field of an outline.
fn field_in(alloc: Global, outline: Outlined) -> Result<Form6, PartFail>
    ensures { Answers form_of (FieldOf (outlined_now outline.entry)) form_depth result }
{
    let Some(ty) = outline.ty else {
        return Err(PartFail::NotFound);
    };
    let name = outline.name.copy(alloc)?;
    let bounds = optional_dimensions(alloc, outline.inside);
    match both(bounds, TypeName6::read(alloc, ty)) {
        Ok((bounds, ty)) => {
            let field = Field6 {
                name,
                suffix: outline.suffix,
                bounds,
                ty,
            };
            Ok(Form6::Field(Box::new(alloc, field)?))
        }
        Err(e) => Err(e),
    }
}

/// A field of a Type.
pub fn field(alloc: Global, line: &[Token]) -> Result<Form6, PartFail>
    ensures { Answers form_of (IsField line.now) form_depth result }
{
    match field_outline(line) {
        None => Err(PartFail::NotFound),
        Some(outline) => field_in(alloc, outline),
    }
}

fn boxed(alloc: Global, value: Option<Expr6>) -> Result<Option<Box<Expr6>>, Mem>
    ensures { IfOk result (λ b. option_map (λ e. e.value) b ≡ value) }
{
    match value {
        None => Ok(None),
        Some(value) => Ok(Some(Box::new(alloc, value)?)),
    }
}

// The member of an outline, with the tokens of its value.
fn member_in(alloc: Global, outline: Outlined, value: Option<&[Token]>) -> Result<Form6, PartFail>
    ensures { Answers form_of (MemberOf (tokens_now value.entry) (outlined_now outline.entry)) form_depth result }
{
    let None = outline.inside else {
        return Err(PartFail::NotFound);
    };
    let None = outline.ty else {
        return Err(PartFail::NotFound);
    };
    match optional_expression(alloc, value) {
        Ok(value) => {
            let name = outline.name.copy(alloc)?;
            let value = boxed(alloc, value)?;
            Ok(Form6::EnumMember(name, outline.suffix, value))
        }
        Err(e) => Err(e),
    }
}

fn member_of(alloc: Global, front: &[Token], value: Option<&[Token]>) -> Result<Form6, PartFail>
    ensures { Answers form_of (Outlines (MemberOf (tokens_now value.entry)) (outline_of front.now)) form_depth result }
{
    match outline_of(front) {
        None => Err(PartFail::NotFound),
        Some(outline) => member_in(alloc, outline, value),
    }
}

/// A member of an Enum.
pub fn member(alloc: Global, line: &[Token]) -> Result<Form6, PartFail>
    ensures { Answers form_of (IsMember line.now) form_depth result }
{
    match parted(Separator::Equal, line) {
        None => member_of(alloc, line, None),
        Some((front, value)) => member_of(alloc, front, Some(value)),
    }
}
