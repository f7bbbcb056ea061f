//! The parts of forms.
ghost use Rattle.std.specs.Prelude.{◌≡◌, map, true, false};
ghost use Rattle.vb_tree.specs.View.{exp_of, case_item_of, redim_item_of};
ghost use Rattle.vb_tree.specs.Expressions.{IsExpression, depth_of};
ghost use Rattle.form_parts.specs.Answer.{Answers};
ghost use Rattle.form_parts.specs.Items.{deepest};
ghost use Rattle.form_parts.specs.Arguments.{argument_of, argument_depth};
ghost use Rattle.form_parts.specs.Cases.{case_depth};
ghost use Rattle.form_parts.specs.Redims.{redim_depth};
ghost use Rattle.statement_forms.specs.LineForms.{IsHeaded, IsHeadedTwice, IsEnclosed, AreSides, pair_depth, IsSetting, IsCalling, IsErasing, AreCases, AreArrays, IsLimit, limit_depth, IsRange, range_depth, IsCounting, counting_depth, IsForEach, AreArguments, IsReplacement, IsInvocation, invocation_depth};
ghost use Rattle.statement_forms.specs.Answer.{pair_of, arrays_of, limit_of, range_of, counting_of, each_of, invocation_of};

use crate::fronts::{
    Ending, before_last, begins_with, behind_key, each_parts, mid_list, past_word,
};
use form_parts::{
    PartFail, Separator, before_word, both, callee, callee_length, expression, items, parted,
    target,
};
use std::alloc::Global;
use up_base::{Name, Sequence};
use vb_tree::{Arg6, CaseItem6, Expr6, ReDimItem6, Suffix, Token};

/// A keyword, given in small letters, and an expression.
#[tactic(auto, using(crate::proofs::Making::behind_answers, crate::proofs::Making::behind_none))]
pub fn headed(alloc: Global, tokens: &[Token], word: &[u8]) -> Result<Expr6, PartFail>
    ensures { Answers exp_of (IsHeaded word.now tokens.now) depth_of result }
{
    let Some(rest) = behind_key(tokens, word) else {
        return Err(PartFail::NotFound);
    };
    expression(alloc, rest)
}

/// Two keywords, given in small letters, and an expression.
pub fn headed_twice(
    alloc: Global,
    tokens: &[Token],
    first: &[u8],
    second: &[u8],
) -> Result<Expr6, PartFail>
    ensures { Answers exp_of (IsHeadedTwice first.now second.now tokens.now) depth_of result }
{
    let Some(rest) = behind_key(tokens, first) else {
        return Err(PartFail::NotFound);
    };
    headed(alloc, rest, second)
}

/// A keyword, an expression and the word Then.
pub fn enclosed(alloc: Global, tokens: &[Token], word: &[u8]) -> Result<Expr6, PartFail>
    ensures { Answers exp_of (IsEnclosed word.now tokens.now) depth_of result }
{
    let Some(rest) = behind_key(tokens, word) else {
        return Err(PartFail::NotFound);
    };
    let Some(inner) = before_last(rest, Ending::Then) else {
        return Err(PartFail::NotFound);
    };
    expression(alloc, inner)
}

/// A target and an expression with the first `=` outside of parentheses between them.
pub fn sides(alloc: Global, tokens: &[Token]) -> Result<(Expr6, Expr6), PartFail>
    ensures { Answers pair_of (AreSides tokens.now) pair_depth result }
{
    let Some((left, right)) = parted(Separator::Equal, tokens) else {
        return Err(PartFail::NotFound);
    };
    both(target(alloc, left), expression(alloc, right))
}

/// The same behind Set.
pub fn setting(alloc: Global, tokens: &[Token]) -> Result<(Expr6, Expr6), PartFail>
    ensures { Answers pair_of (IsSetting tokens.now) pair_depth result }
{
    let Some(rest) = behind_key(tokens, b"set") else {
        return Err(PartFail::NotFound);
    };
    sides(alloc, rest)
}

/// A target behind Call.
pub fn calling(alloc: Global, tokens: &[Token]) -> Result<Expr6, PartFail>
    ensures { Answers exp_of (IsCalling tokens.now) depth_of result }
{
    let Some(rest) = behind_key(tokens, b"call") else {
        return Err(PartFail::NotFound);
    };
    target(alloc, rest)
}

/// An array behind Erase.
pub fn erasing(alloc: Global, tokens: &[Token]) -> Result<Expr6, PartFail>
    ensures { Answers exp_of (IsErasing tokens.now) depth_of result }
{
    let Some(rest) = behind_key(tokens, b"erase") else {
        return Err(PartFail::NotFound);
    };
    callee(alloc, rest)
}

/// The items of a Case.
pub fn cases(alloc: Global, tokens: &[Token]) -> Result<Sequence<CaseItem6>, PartFail>
    ensures { Answers (map case_item_of) (AreCases tokens.now) (deepest case_depth) result }
{
    let Some(rest) = behind_key(tokens, b"case") else {
        return Err(PartFail::NotFound);
    };
    items(alloc, Separator::Comma, rest)
}

/// Whether Preserve is written, and the arrays of a ReDim.
pub fn arrays(alloc: Global, tokens: &[Token]) -> Result<(bool, Sequence<ReDimItem6>), PartFail>
    ensures { Answers arrays_of (AreArrays tokens.now) (λ x. deepest redim_depth x.1) result }
{
    let Some(rest) = behind_key(tokens, b"redim") else {
        return Err(PartFail::NotFound);
    };
    let preserve = begins_with(rest, b"preserve");
    match items(alloc, Separator::Comma, past_word(rest, b"preserve")) {
        Ok(arrays) => Ok((preserve, arrays)),
        Err(e) => Err(e),
    }
}

// The limit of a For, and its step.
fn limit(alloc: Global, tokens: &[Token]) -> Result<(Expr6, Option<Expr6>), PartFail>
    ensures { Answers limit_of (IsLimit tokens.now) limit_depth result }
{
    match before_word(alloc, tokens, b"step")? {
        Some((before, after)) => {
            match both(expression(alloc, before), expression(alloc, after)) {
                Ok(parts) => Ok((parts.0, Some(parts.1))),
                Err(e) => Err(e),
            }
        }
        None => match expression(alloc, tokens) {
            Ok(limit) => Ok((limit, None)),
            Err(e) => Err(e),
        },
    }
}

// A start, To and a limit.
fn range(alloc: Global, tokens: &[Token]) -> Result<(Expr6, (Expr6, Option<Expr6>)), PartFail>
    ensures { Answers range_of (IsRange tokens.now) range_depth result }
{
    match before_word(alloc, tokens, b"to")? {
        Some((before, after)) => both(expression(alloc, before), limit(alloc, after)),
        None => Err(PartFail::NotFound),
    }
}

/// A counter and its range.
pub fn counting(
    alloc: Global,
    tokens: &[Token],
) -> Result<(Expr6, (Expr6, (Expr6, Option<Expr6>))), PartFail>
    ensures { Answers counting_of (IsCounting tokens.now) counting_depth result }
{
    let Some(rest) = behind_key(tokens, b"for") else {
        return Err(PartFail::NotFound);
    };
    let Some((left, right)) = parted(Separator::Equal, rest) else {
        return Err(PartFail::NotFound);
    };
    both(target(alloc, left), range(alloc, right))
}

/// The name of a For Each and what it goes over.
pub fn for_each(alloc: Global, tokens: &[Token]) -> Result<((Name, Suffix), Expr6), PartFail>
    ensures { Answers each_of (IsForEach tokens.now) (λ x. depth_of x.1) result }
{
    let Some((name, suffix, rest)) = each_parts(tokens) else {
        return Err(PartFail::NotFound);
    };
    let name = name.copy(alloc)?;
    match expression(alloc, rest) {
        Ok(items) => Ok(((name, suffix), items)),
        Err(e) => Err(e),
    }
}

/// Arguments without parentheses.
pub fn arguments(alloc: Global, tokens: &[Token]) -> Result<Sequence<Arg6>, PartFail>
    ensures { Answers (map argument_of) (AreArguments tokens.now) (deepest argument_depth) result }
{
    if tokens.is_empty() {
        return Ok(Sequence::new(alloc));
    }
    items(alloc, Separator::Comma, tokens)
}

/// The arguments of Mid before `=`.
pub fn replacement(alloc: Global, tokens: &[Token]) -> Result<Sequence<Arg6>, PartFail>
    ensures { Answers (map argument_of) (IsReplacement tokens.now) (deepest argument_depth) result }
{
    let Some((left, _)) = parted(Separator::Equal, tokens) else {
        return Err(PartFail::NotFound);
    };
    let Some(inside) = mid_list(left) else {
        return Err(PartFail::NotFound);
    };
    arguments(alloc, inside)
}

/// A callee and arguments.
pub fn invocation(alloc: Global, tokens: &[Token]) -> Result<(Expr6, Sequence<Arg6>), PartFail>
    ensures { Answers invocation_of (IsInvocation tokens.now) invocation_depth result }
{
    let (name, rest) = tokens.split_at(callee_length(tokens));
    both(callee(alloc, name), arguments(alloc, rest))
}
