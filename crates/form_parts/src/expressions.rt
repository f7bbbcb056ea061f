//! Expressions that take up all tokens, or all up to a word.
ghost use Rattle.std.specs.Prelude.{◌≡◌, ◌∷◌, List, ℕ, IfOk, MatchOption};
ghost use Rattle.vb_tree.specs.declared.token.Token.{Token};
ghost use Rattle.vb_tree.specs.Tree.{Exp};
ghost use Rattle.vb_tree.specs.View.{exp_of};
ghost use Rattle.vb_tree.specs.Expressions.{IsExpression, depth_of};
ghost use Rattle.form_parts.specs.Answer.{Answers};
ghost use Rattle.form_parts.specs.Chains.{IsTarget, IsCallee};
ghost use Rattle.form_parts.specs.Parts.{IsJoined, IsJoint};

use crate::answer::{Part, PartFail};
use crate::chains::{is_callee, is_target};
use crate::words::is_key;
use std::alloc::Global;
use up_base::Mem;
use vb_exprs::{ExprFail, front_expression, front_length};
use vb_tree::{Expr6, Token};

/// The expression that all of the tokens are.
pub fn expression(alloc: Global, tokens: &[Token]) -> Result<Expr6, PartFail>
    ensures { Answers exp_of (IsExpression tokens.now) depth_of result }
{
    let Some(len) = front_length(alloc, tokens)? else {
        return Err(PartFail::NotFound);
    };
    if len != tokens.len() {
        return Err(PartFail::NotFound);
    }
    match front_expression(alloc, tokens) {
        Ok((expression, _)) => Ok(expression),
        Err(ExprFail::NotExpr) => Err(PartFail::NotFound),
        Err(ExprFail::TooDeep) => Err(PartFail::TooDeep),
        Err(ExprFail::Mem) => Err(PartFail::Mem),
    }
}

impl Part for Expr6 {
    ghost use Rattle.vb_tree.specs.Tree.{Exp};
    ghost use Rattle.vb_tree.specs.View.{exp_of};
    ghost use Rattle.vb_tree.specs.Expressions.{IsExpression, depth_of};

    ghost Plain = { Exp };

    ghost view = { exp_of };

    ghost Is = { IsExpression };

    ghost depth = { depth_of };

    fn read(alloc: Global, tokens: &[Token]) -> Result<Expr6, PartFail> {
        expression(alloc, tokens)
    }
}

/// What stands before and behind the word, given in small letters, that an expression at the front ends at.
pub fn before_word<'a>(
    alloc: Global,
    tokens: &'a [Token],
    word: &[u8],
) -> Result<Option<(&'a [Token], &'a [Token])>, Mem>
    requires { IsJoint word.now }
    ensures { IfOk result (λ found. MatchOption found
        ((before after : List Token) → IsJoined word.now tokens.now before after → ⊥)
        (λ f. IsJoined word.now tokens.now f.0.now f.1.now)) }
{
    let Some(len) = front_length(alloc, tokens)? else {
        return Ok(None);
    };
    let (before, rest) = tokens.split_at(len);
    let [joint, after @ ..] = rest else {
        return Ok(None);
    };
    if !is_key(joint, word) {
        return Ok(None);
    }
    Ok(Some((before, after)))
}

/// The target that all of the tokens are: a word, Me, `.n` or `!n`, and then members and argument lists.
#[tactic(auto, using(crate::proofs::Targets::target_answers))]
pub fn target(alloc: Global, tokens: &[Token]) -> Result<Expr6, PartFail>
    ensures { Answers exp_of (IsTarget tokens.now) depth_of result }
{
    if !is_target(tokens) {
        return Err(PartFail::NotFound);
    }
    expression(alloc, tokens)
}

/// The target without an argument list at its end that all of the tokens are.
#[tactic(auto, using(crate::proofs::Targets::callee_answers))]
pub fn callee(alloc: Global, tokens: &[Token]) -> Result<Expr6, PartFail>
    ensures { Answers exp_of (IsCallee tokens.now) depth_of result }
{
    if !is_callee(tokens) {
        return Err(PartFail::NotFound);
    }
    expression(alloc, tokens)
}
