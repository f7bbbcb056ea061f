//! Tokens once more.
ghost use Rattle.std.specs.Prelude.{◌≡◌, IfOk};

use std::alloc::Global;
use up_base::{Mem, Sequence, Wide};
use vb_tree::{Literal6, Token, TokenKind, Tokens};

fn copied_text(alloc: Global, text: &Wide) -> Result<Wide, Mem>
    ensures { IfOk result (λ copy. copy ≡ text.now) }
{
    Wide::from_slice(alloc, text.as_slice())
}

fn copied_literal(alloc: Global, literal: &Literal6) -> Result<Literal6, Mem>
    ensures { IfOk result (λ copy. copy ≡ literal.now) }
{
    Ok(match literal {
        Literal6::Int(value, spelt) => Literal6::Int(*value, *spelt),
        Literal6::Long(value, spelt) => Literal6::Long(*value, *spelt),
        Literal6::Cur(value) => Literal6::Cur(*value),
        Literal6::Plain(value) => Literal6::Plain(*value),
        Literal6::Floating => Literal6::Floating,
        Literal6::Date => Literal6::Date,
        Literal6::Str(text) => Literal6::Str(copied_text(alloc, text)?),
    })
}

fn copied_kind(alloc: Global, kind: &TokenKind) -> Result<TokenKind, Mem>
    ensures { IfOk result (λ copy. copy ≡ kind.now) }
{
    Ok(match kind {
        TokenKind::Word(name, suffix) => TokenKind::Word(name.copy(alloc)?, *suffix),
        TokenKind::Bracketed(name, suffix) => TokenKind::Bracketed(name.copy(alloc)?, *suffix),
        TokenKind::Lit(literal) => TokenKind::Lit(copied_literal(alloc, literal)?),
        TokenKind::Sign(sign) => TokenKind::Sign(*sign),
    })
}

fn copied_token(alloc: Global, token: &Token) -> Result<Token, Mem>
    ensures { IfOk result (λ copy. copy ≡ token.now) }
{
    Ok(Token {
        kind: copied_kind(alloc, &token.kind)?,
        line: token.line,
        from: token.from,
        to: token.to,
    })
}

/// The same tokens once more.
pub fn copied(alloc: Global, tokens: &[Token]) -> Result<Tokens, Mem>
    ensures { IfOk result (λ copies. copies ≡ tokens.now) }
{
    let mut copies = Sequence::new(alloc);
    for token in tokens {
        copies.push(copied_token(alloc, token)?)?;
    }
    Ok(copies)
}
