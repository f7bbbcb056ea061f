//! The longest expression from a place.
ghost use Rattle.std.specs.Prelude.{◌≡◌, ◌≤◌, ◌∷◌, ◌++◌, List, length, IfOk};
ghost use Rattle.vb_tree.specs.declared.token.Token.{Token};
ghost use Rattle.vb_tree.specs.Tree.{Exp};
ghost use Rattle.vb_tree.specs.Expressions.{IsExpression, BeginsLongest, IsStop, symbol_of};
ghost use Rattle.vb_exprs.specs.Answer.{Answers, AnswersFront, IsFrontLength};

use crate::fail::ExprFail;
use crate::reader::read;
use crate::scan::longest_end;
use std::alloc::Global;
use up_base::Mem;
use vb_tree::{Expr6, Token, Tokens};

/// An expression, and the place behind its last token.
#[derive(Drop)]
pub struct ExprRead {
    pub expr: Expr6,
    pub next: usize,
}

/// Reads the longest expression that begins at a place, counted from 0.
pub fn read_expr(alloc: Global, tokens: &Tokens, from: usize) -> Result<ExprRead, ExprFail>
    requires { from ≤ length tokens.now }
    ensures { Answers tokens.now from result }
{
    let (expr, len) = front_expression(alloc, &tokens.as_slice()[from..])?;
    Ok(ExprRead {
        expr,
        next: from + len,
    })
}

/// The number of tokens of the longest expression that the tokens begin with, however deep it is.
#[tactic(auto, using(crate::proofs::Fronts::front_length))]
pub fn front_length(alloc: Global, tokens: &[Token]) -> Result<Option<usize>, Mem>
    ensures { IfOk result (λ found. IsFrontLength tokens.now found) }
{
    Ok(longest_end(alloc, tokens)?)
}

/// The longest expression that the tokens begin with, and the number of its tokens.
pub fn front_expression(alloc: Global, tokens: &[Token]) -> Result<(Expr6, usize), ExprFail>
    ensures { AnswersFront tokens.now result }
{
    let Some(len) = longest_end(alloc, tokens)? else {
        return Err(ExprFail::NotExpr);
    };
    let (part, _) = read(alloc, &tokens[..len], 15, 64)?;
    Ok((part.expr, len))
}

/// A law: a list of tokens is at most one expression.
pub fn one_expression()
    ensures { (tokens : List Token) (a b : Exp) → IsExpression tokens a → IsExpression tokens b → a ≡ b }
{}

/// A law: an expression before a token that no expression goes on with is the longest that begins there.
pub fn longest_before_stop()
    ensures { (tokens : List Token) (t : Exp) (token : Token) (rest : List Token) → IsExpression tokens t
        → IsStop (symbol_of token.kind) → BeginsLongest (tokens ++ token ∷ rest) t (length tokens) }
{}
