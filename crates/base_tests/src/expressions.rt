//! Expressions of a million tokens: they take time by their number, and no room on the stack.
use std::test::Fail;
use vb_exprs::{ExprFail, read_expr};
use vb_tree::{Literal6, Sign, Token, TokenKind, Tokens};

fn sign_token(sign: Sign) -> Token {
    Token {
        kind: TokenKind::Sign(sign),
        line: 1,
        from: 0,
        to: 0,
    }
}

fn literal_token() -> Token {
    Token {
        kind: TokenKind::Lit(Literal6::Floating),
        line: 1,
        from: 0,
        to: 0,
    }
}

fn push_signs(tokens: &mut Tokens, sign: Sign, count: usize) -> Result<(), Fail> {
    for _ in 0..count {
        tokens.push(sign_token(sign))?;
    }
    Ok(())
}

#[test]
fn withstands_a_million_parentheses(rt: HostRuntime) -> Result<(), Fail> {
    let alloc = rt.alloc();
    let mut tokens = Tokens::new(alloc);
    push_signs(&mut tokens, Sign::OpenParen, 1000000)?;
    assert!(rt; matches!(read_expr(alloc, &tokens, 0), Err(ExprFail::NotExpr)));
    tokens.push(literal_token())?;
    push_signs(&mut tokens, Sign::CloseParen, 1000000)?;
    assert!(rt; matches!(read_expr(alloc, &tokens, 0), Err(ExprFail::TooDeep)));
    Ok(())
}

#[test]
fn withstands_a_million_signs(rt: HostRuntime) -> Result<(), Fail> {
    let alloc = rt.alloc();
    let mut tokens = Tokens::new(alloc);
    push_signs(&mut tokens, Sign::Minus, 1000000)?;
    assert!(rt; matches!(read_expr(alloc, &tokens, 0), Err(ExprFail::NotExpr)));
    tokens.push(literal_token())?;
    assert!(rt; matches!(read_expr(alloc, &tokens, 0), Err(ExprFail::TooDeep)));
    Ok(())
}

#[test]
fn withstands_a_million_operators(rt: HostRuntime) -> Result<(), Fail> {
    let alloc = rt.alloc();
    let mut tokens = Tokens::new(alloc);
    for _ in 0..1000000 {
        tokens.push(literal_token())?;
        tokens.push(sign_token(Sign::Plus))?;
    }
    assert!(rt; matches!(read_expr(alloc, &tokens, 0), Err(ExprFail::TooDeep)));
    // A call whose list is never closed is no part of an expression.
    let mut tokens = Tokens::new(alloc);
    for _ in 0..300000 {
        tokens.push(literal_token())?;
        tokens.push(sign_token(Sign::OpenParen))?;
    }
    assert!(rt; matches!(read_expr(alloc, &tokens, 0), Ok(read) if read.next == 1));
    Ok(())
}
