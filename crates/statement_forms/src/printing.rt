//! Lines that begin with Debug.Print, and jumps to one of several labels.
ghost use Rattle.std.specs.Prelude.{◌≡◌, List, map, false, IfOk, MatchOption, ◌⊎◌, codes};
ghost use Rattle.vb_tree.specs.declared.token.Token.{Token};
ghost use Rattle.vb_tree.specs.View.{exp_of};
ghost use Rattle.vb_tree.specs.Expressions.{depth_of};
ghost use Rattle.form_parts.specs.Answer.{Answers};
ghost use Rattle.form_parts.specs.Items.{deepest};
ghost use Rattle.form_parts.specs.Parts.{IsJoined};
ghost use Rattle.statement_forms.specs.LineForms.{AreItems, IsPrinted, IsPrinting, printing_depth, IsJumpFront, IsComputed, AreFew, NoJump, IsJumpAt};
ghost use Rattle.statement_forms.specs.Fronts.{before_semicolon, has_column};
ghost use Rattle.statement_forms.specs.Answer.{printed_of, tail_now};

use crate::fronts::{Ending, before_last, behind_debug, behind_key};
use crate::kept::has_column;
use form_parts::{PartFail, Separator, before_word, expression, items};
use std::alloc::Global;
use up_base::{Mem, Sequence};
use vb_tree::{Expr6, Token};

// The most items of a Debug.Print.
const ITEM_LIMIT: usize = 64;

// Expressions with semicolons between them, or none.
fn print_items(alloc: Global, tokens: &[Token]) -> Result<Sequence<Expr6>, PartFail>
    ensures { Answers (map exp_of) (AreItems tokens.now) (deepest depth_of) result }
{
    if tokens.is_empty() {
        return Ok(Sequence::new(alloc));
    }
    items(alloc, Separator::Semicolon, tokens)
}

// The same, if they are not too many.
fn few_items(
    alloc: Global,
    tokens: &[Token],
    ended: bool,
) -> Result<(Sequence<Expr6>, bool), PartFail>
    ensures { Answers printed_of (AreFew tokens.now ended) printing_depth result }
{
    match print_items(alloc, tokens) {
        Ok(items) => {
            if items.len() > ITEM_LIMIT {
                Err(PartFail::TooDeep)
            } else {
                Ok((items, ended))
            }
        }
        Err(e) => Err(e),
    }
}

fn printed(alloc: Global, tokens: &[Token]) -> Result<(Sequence<Expr6>, bool), PartFail>
    ensures { Answers printed_of (IsPrinted (before_semicolon tokens.now) tokens.now) printing_depth result }
{
    match before_last(tokens, Ending::Semicolon) {
        Some(front) => few_items(alloc, front, true),
        None => few_items(alloc, tokens, false),
    }
}

/// The items of a Debug.Print, and whether a semicolon ends them.
pub fn printing(alloc: Global, tokens: &[Token]) -> Result<(Sequence<Expr6>, bool), PartFail>
    ensures { Answers printed_of (IsPrinting tokens.now) printing_depth result }
{
    let Some(rest) = behind_debug(tokens, b"print") else {
        return Err(PartFail::NotFound);
    };
    if has_column(rest) {
        return Err(PartFail::NotFound);
    }
    printed(alloc, rest)
}

// What stands before GoTo or GoSub, where that is an expression.
fn jump_front(alloc: Global, tokens: &[Token]) -> Result<Option<&[Token]>, Mem>
    ensures { IfOk result (λ found. MatchOption found
        (NoJump tokens.now)
        (λ before. IsJumpAt tokens.now before.now)) }
{
    let jump = before_word(alloc, tokens, b"goto")?;
    let call = before_word(alloc, tokens, b"gosub")?;
    match jump {
        Some((before, _)) => Ok(Some(before)),
        None => match call {
            Some((before, _)) => Ok(Some(before)),
            None => Ok(None),
        },
    }
}

fn jumped(alloc: Global, tokens: &[Token]) -> Result<Expr6, PartFail>
    ensures { Answers exp_of (IsJumpFront tokens.now) depth_of result }
{
    match jump_front(alloc, tokens)? {
        Some(before) => expression(alloc, before),
        None => Err(PartFail::NotFound),
    }
}

/// On and an expression before GoTo or GoSub.
pub fn computed(alloc: Global, tokens: &[Token]) -> Result<Expr6, PartFail>
    ensures { Answers exp_of (IsComputed tokens.now) depth_of result }
{
    let Some(rest) = behind_key(tokens, b"on") else {
        return Err(PartFail::NotFound);
    };
    jumped(alloc, rest)
}
