//! Arguments: `[n :=] [ByVal or #] e`, or nothing where one is left out.
ghost use Rattle.std.specs.Prelude.{◌≡◌, IfOk};
ghost use Rattle.form_parts.specs.Arguments.{is_mark, argument_name, past_name, begins_marked, past_mark};
ghost use Rattle.form_parts.specs.Now.{now_of};

use crate::answer::{Part, PartFail};
use crate::expressions::expression;
use crate::parts::name_of;
use crate::words::is_key;
use std::alloc::Global;
use up_base::{Mem, Name};
use vb_tree::{Arg6, Sign, Token, TokenKind};

// Whether a token is ByVal or `#`.
fn is_mark(token: &Token) -> bool
    ensures { result ≡ is_mark token.now.kind }
{
    is_key(token, b"byval") || matches!(&token.kind, TokenKind::Sign(Sign::Hash))
}

// The name before `:=`.
fn argument_name(tokens: &[Token]) -> Option<&Name>
    ensures { now_of result ≡ argument_name tokens.now }
{
    let [first, second, ..] = tokens else {
        return None;
    };
    let TokenKind::Sign(Sign::ColonEqual) = &second.kind else {
        return None;
    };
    match name_of(first) {
        Some((name, _)) => Some(name),
        None => None,
    }
}

fn past_name(tokens: &[Token]) -> &[Token]
    ensures { result.now ≡ past_name tokens.now }
{
    match argument_name(tokens) {
        Some(_) => match tokens {
            [_, _, rest @ ..] => rest,
            _ => &tokens[..0],
        },
        None => tokens,
    }
}

fn begins_marked(tokens: &[Token]) -> bool
    ensures { result ≡ begins_marked tokens.now }
{
    match tokens {
        [first, ..] => is_mark(first),
        [] => false,
    }
}

fn past_mark(tokens: &[Token]) -> &[Token]
    ensures { result.now ≡ past_mark tokens.now }
{
    match tokens {
        [first, rest @ ..] => { if is_mark(first) { rest } else { tokens } }
        [] => tokens,
    }
}

fn copy_name(alloc: Global, name: Option<&Name>) -> Result<Option<Name>, Mem>
    ensures { IfOk result (λ copy. copy ≡ now_of name.entry) }
{
    match name {
        Some(name) => Ok(Some(name.copy(alloc)?)),
        None => Ok(None),
    }
}

impl Part for Arg6 {
    ghost use Rattle.form_parts.specs.Arguments.{Argument, argument_of, IsArgument, argument_depth};

    ghost Plain = { Argument };

    ghost view = { argument_of };

    ghost Is = { IsArgument };

    ghost depth = { argument_depth };

    fn read(alloc: Global, tokens: &[Token]) -> Result<Arg6, PartFail> {
        if tokens.is_empty() {
            return Ok(Arg6 {
                name: None,
                marked: false,
                value: None,
            });
        }
        let name = copy_name(alloc, argument_name(tokens))?;
        let valued = past_name(tokens);
        let marked = begins_marked(valued);
        match expression(alloc, past_mark(valued)) {
            Ok(value) => Ok(Arg6 {
                name,
                marked,
                value: Some(value),
            }),
            Err(e) => Err(e),
        }
    }
}
