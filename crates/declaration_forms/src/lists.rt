//! Lists of the parts that are read here.
ghost use Rattle.std.specs.Prelude.{◌≡◌, ℕ, List, map};
ghost use Rattle.vb_tree.specs.declared.token.Token.{Token};
ghost use Rattle.form_parts.specs.Answer.{Answers};
ghost use Rattle.form_parts.specs.Cuts.{pieces, Each};
ghost use Rattle.form_parts.specs.Items.{deepest, one_more, IsOrMem};

use form_parts::{PartFail, Separator, both, fitted, parted};
use std::alloc::Global;
use up_base::Sequence;
use vb_tree::Token;

/// How a part of a list is read from its tokens.
pub trait Item {
    /// What is read.
    type Part: Drop;

    ghost Plain: { Type 0 };

    ghost view: { Self.Part → Plain };

    ghost Is: { List Token → Plain → Type 0 };

    ghost depth: { Plain → ℕ };

    /// Reads the part that all of the tokens are.
    fn read(alloc: Global, tokens: &[Token]) -> Result<Self::Part, PartFail>
        ensures { Answers view (Is tokens.now) depth result };
}

// The items and one more.
fn one_more<T: Drop>(
    so_far: Result<Sequence<T>, PartFail>,
    item: Result<T, PartFail>,
) -> Result<Sequence<T>, PartFail>
    ensures { IsOrMem (one_more so_far item) result }
{
    match both(so_far, item) {
        Ok((mut items, item)) => match items.push(item) {
            Ok(()) => Ok(items),
            Err(_) => Err(PartFail::Mem),
        },
        Err(e) => Err(e),
    }
}

/// The parts that stand between commas outside of parentheses; all of the tokens are one part where there is none.
pub fn list<T: Item>(alloc: Global, tokens: &[Token]) -> Result<Sequence<T::Part>, PartFail>
    ensures { Answers (map T.view) (Each T.Is (pieces Separator.Comma tokens.now)) (deepest T.depth) result }
{
    let mut so_far = Ok(Sequence::with_capacity(alloc, 1)?);
    let mut rest = tokens;
    while let Some((piece, after)) = parted(Separator::Comma, rest) {
        so_far = one_more(so_far, T::read(alloc, piece));
        rest = after;
    }
    fitted(one_more(so_far, T::read(alloc, rest)))
}
