//! Parts that may be missing.
ghost use Rattle.std.specs.Prelude.{◌≡◌, map, option_map};
ghost use Rattle.vb_tree.specs.View.{exp_of, type_name_of, bounds_of};
ghost use Rattle.vb_tree.specs.Expressions.{IsExpression, depth_of};
ghost use Rattle.form_parts.specs.Answer.{Answers};
ghost use Rattle.form_parts.specs.Items.{deepest};
ghost use Rattle.form_parts.specs.Parts.{IsTypeName, type_depth, IsBounds, bounds_depth};
ghost use Rattle.declaration_forms.specs.Now.{tokens_now};
ghost use Rattle.declaration_forms.specs.Wholes.{IsOptional, AreItems, optional_depth};

use form_parts::{Part, PartFail, Separator, expression, items};
use std::alloc::Global;
use up_base::Sequence;
use vb_tree::{Bounds6, Expr6, Token, TypeName6};

/// A type that is there exactly where its tokens are.
pub fn optional_type(alloc: Global, tokens: Option<&[Token]>) -> Result<Option<TypeName6>, PartFail>
    ensures { Answers (option_map type_name_of) (IsOptional IsTypeName (tokens_now tokens.entry)) (optional_depth type_depth) result }
{
    let Some(tokens) = tokens else {
        return Ok(None);
    };
    match TypeName6::read(alloc, tokens) {
        Ok(ty) => Ok(Some(ty)),
        Err(e) => Err(e),
    }
}

/// An expression that is there exactly where its tokens are.
pub fn optional_expression(
    alloc: Global,
    tokens: Option<&[Token]>,
) -> Result<Option<Expr6>, PartFail>
    ensures { Answers (option_map exp_of) (IsOptional IsExpression (tokens_now tokens.entry)) (optional_depth depth_of) result }
{
    let Some(tokens) = tokens else {
        return Ok(None);
    };
    match expression(alloc, tokens) {
        Ok(expr) => Ok(Some(expr)),
        Err(e) => Err(e),
    }
}

// The bounds of an array, or none for a dynamic one.
fn dimensions(alloc: Global, tokens: &[Token]) -> Result<Sequence<Bounds6>, PartFail>
    ensures { Answers (map bounds_of) (AreItems IsBounds tokens.now) (deepest bounds_depth) result }
{
    match tokens {
        [] => Ok(Sequence::new(alloc)),
        _ => items(alloc, Separator::Comma, tokens),
    }
}

/// The bounds of an array that is one exactly where their tokens are.
pub fn optional_dimensions(
    alloc: Global,
    tokens: Option<&[Token]>,
) -> Result<Option<Sequence<Bounds6>>, PartFail>
    ensures { Answers (option_map (map bounds_of)) (IsOptional (AreItems IsBounds) (tokens_now tokens.entry)) (optional_depth (deepest bounds_depth)) result }
{
    let Some(tokens) = tokens else {
        return Ok(None);
    };
    match dimensions(alloc, tokens) {
        Ok(bounds) => Ok(Some(bounds)),
        Err(e) => Err(e),
    }
}
