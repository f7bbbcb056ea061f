//! Items of a Case: `e`, `e To e`, or `Is` with a comparison and `e`.
ghost use Rattle.std.specs.Prelude.{◌≡◌, true, false};
ghost use Rattle.vb_tree.specs.View.{case_item_of};
ghost use Rattle.form_parts.specs.Answer.{Answers};
ghost use Rattle.form_parts.specs.Cases.{comparison, begins_is, IsCaseItem, case_depth};

use crate::answer::{Part, PartFail, both};
use crate::expressions::{before_word, expression};
use crate::words::is_key;
use std::alloc::Global;
use vb_tree::{BinOp, CaseItem6, Sign, Token, TokenKind};

// The comparison that a token is.
fn comparison(token: &Token) -> Option<BinOp>
    ensures { result ≡ comparison token.now.kind }
{
    let TokenKind::Sign(sign) = &token.kind else {
        return None;
    };
    match sign {
        Sign::Equal => Some(BinOp::Equal),
        Sign::NotEqual => Some(BinOp::NotEqual),
        Sign::Less => Some(BinOp::Less),
        Sign::Greater => Some(BinOp::Greater),
        Sign::LessEqual => Some(BinOp::LessEqual),
        Sign::GreaterEqual => Some(BinOp::GreaterEqual),
        _ => None,
    }
}

fn begins_is(tokens: &[Token]) -> bool
    ensures { result ≡ begins_is tokens.now }
{
    match tokens {
        [first, ..] => is_key(first, b"is"),
        [] => false,
    }
}

// `Is` with a comparison and an expression.
fn test(alloc: Global, tokens: &[Token]) -> Result<CaseItem6, PartFail>
    requires { begins_is tokens.now ≡ true }
    ensures { Answers case_item_of (IsCaseItem tokens.now) case_depth result }
{
    let [_, sign, rest @ ..] = tokens else {
        return Err(PartFail::NotFound);
    };
    let Some(op) = comparison(sign) else {
        return Err(PartFail::NotFound);
    };
    match expression(alloc, rest) {
        Ok(value) => Ok(CaseItem6::Is(op, value)),
        Err(e) => Err(e),
    }
}

// `e To e`, or `e` alone.
fn value(alloc: Global, tokens: &[Token]) -> Result<CaseItem6, PartFail>
    requires { begins_is tokens.now ≡ false }
    ensures { Answers case_item_of (IsCaseItem tokens.now) case_depth result }
{
    match before_word(alloc, tokens, b"to")? {
        Some((before, after)) => {
            match both(expression(alloc, before), expression(alloc, after)) {
                Ok((lower, upper)) => Ok(CaseItem6::Range(lower, upper)),
                Err(e) => Err(e),
            }
        }
        None => match expression(alloc, tokens) {
            Ok(value) => Ok(CaseItem6::Value(value)),
            Err(e) => Err(e),
        },
    }
}

impl Part for CaseItem6 {
    ghost use Rattle.vb_tree.specs.Tree.{CaseItem};
    ghost use Rattle.vb_tree.specs.View.{case_item_of};
    ghost use Rattle.form_parts.specs.Cases.{IsCaseItem, case_depth};

    ghost Plain = { CaseItem };

    ghost view = { case_item_of };

    ghost Is = { IsCaseItem };

    ghost depth = { case_depth };

    fn read(alloc: Global, tokens: &[Token]) -> Result<CaseItem6, PartFail> {
        if begins_is(tokens) {
            test(alloc, tokens)
        } else {
            value(alloc, tokens)
        }
    }
}
