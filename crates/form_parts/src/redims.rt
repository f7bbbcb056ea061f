//! Arrays of a ReDim: `l(b) [As t]`.
ghost use Rattle.std.specs.Prelude.{◌≡◌, List, MatchOption, option_map};
ghost use Rattle.vb_tree.specs.declared.token.Token.{Token};
ghost use Rattle.vb_tree.specs.View.{type_name_of};
ghost use Rattle.form_parts.specs.Answer.{Answers};
ghost use Rattle.form_parts.specs.Redims.{IsParted, IsOptionalType, optional_type_depth};

use crate::answer::{Part, PartFail, both};
use crate::chains::callee_length;
use crate::cuts::{Separator, parted};
use crate::expressions::callee;
use crate::lists::items;
use crate::words::is_key;
use std::alloc::Global;
use up_base::Sequence;
use vb_tree::{Bounds6, ReDimItem6, Sign, Token, TokenKind, TypeName6};

// The tokens of an array, those of its bounds, and what stands behind them.
fn array_parts(tokens: &[Token]) -> Option<(&[Token], &[Token], &[Token])>
    ensures { MatchOption result
        ((array bounds after : List Token) → IsParted tokens.now array bounds after → ⊥)
        (λ f. IsParted tokens.now f.0.now f.1.now f.2.now) }
{
    let (array, rest) = tokens.split_at(callee_length(tokens));
    let [paren, inside @ ..] = rest else {
        return None;
    };
    let TokenKind::Sign(Sign::OpenParen) = &paren.kind else {
        return None;
    };
    let (bounds, after) = parted(Separator::Closing, inside)?;
    Some((array, bounds, after))
}

// The type behind As, if any token stands there.
fn optional_type(alloc: Global, tokens: &[Token]) -> Result<Option<TypeName6>, PartFail>
    ensures { Answers (option_map type_name_of) (IsOptionalType tokens.now) optional_type_depth result }
{
    let [first, rest @ ..] = tokens else {
        return Ok(None);
    };
    if !is_key(first, b"as") {
        return Err(PartFail::NotFound);
    }
    match TypeName6::read(alloc, rest) {
        Ok(ty) => Ok(Some(ty)),
        Err(e) => Err(e),
    }
}

impl Part for ReDimItem6 {
    ghost use Rattle.vb_tree.specs.Tree.{ReDimItem};
    ghost use Rattle.vb_tree.specs.View.{redim_item_of};
    ghost use Rattle.form_parts.specs.Redims.{IsReDimItem, redim_depth};

    ghost Plain = { ReDimItem };

    ghost view = { redim_item_of };

    ghost Is = { IsReDimItem };

    ghost depth = { redim_depth };

    fn read(alloc: Global, tokens: &[Token]) -> Result<ReDimItem6, PartFail> {
        let Some((array, bounds, after)) = array_parts(tokens) else {
            return Err(PartFail::NotFound);
        };
        let bounds: Result<Sequence<Bounds6>, PartFail> = items(alloc, Separator::Comma, bounds);
        match both(
            both(callee(alloc, array), bounds),
            optional_type(alloc, after),
        ) {
            Ok(parts) => Ok(ReDimItem6 {
                array: parts.0.0,
                bounds: parts.0.1,
                ty: parts.1,
            }),
            Err(e) => Err(e),
        }
    }
}
