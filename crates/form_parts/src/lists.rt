//! Lists of parts with separators between them.
ghost use Rattle.std.specs.Prelude.{◌≡◌, map};
ghost use Rattle.form_parts.specs.Answer.{Answers, worse};
ghost use Rattle.form_parts.specs.Cuts.{pieces, Each};
ghost use Rattle.form_parts.specs.Items.{deepest, one_more, IsOrMem};

use crate::answer::{Part, PartFail};
use crate::cuts::{Separator, parted};
use std::alloc::Global;
use up_base::Sequence;
use vb_tree::Token;

// Of two failures the one that goes before the other.
fn worse(first: PartFail, second: PartFail) -> PartFail
    ensures { result ≡ worse first second }
{
    match first {
        PartFail::NotFound => match second {
            PartFail::Mem => PartFail::Mem,
            PartFail::NotFound => PartFail::NotFound,
            PartFail::TooDeep => PartFail::NotFound,
        },
        PartFail::TooDeep => second,
        PartFail::Mem => PartFail::Mem,
    }
}

// The items and one more.
fn one_more<T: Drop>(
    so_far: Result<Sequence<T>, PartFail>,
    item: Result<T, PartFail>,
) -> Result<Sequence<T>, PartFail>
    ensures { IsOrMem (one_more so_far item) result }
{
    match so_far {
        Ok(mut items) => match item {
            Ok(item) => match items.push(item) {
                Ok(()) => Ok(items),
                Err(_) => Err(PartFail::Mem),
            },
            Err(e) => Err(e),
        },
        Err(e) => match item {
            Ok(_) => Err(e),
            Err(f) => Err(worse(e, f)),
        },
    }
}

/// The parts that stand between the separators outside of parentheses; all of the tokens are one part where there is none.
pub fn items<T: Part>(
    alloc: Global,
    separator: Separator,
    tokens: &[Token],
) -> Result<Sequence<T>, PartFail>
    ensures { Answers (map T.view) (Each T.Is (pieces separator tokens.now)) (deepest T.depth) result }
{
    let mut so_far = Ok(Sequence::with_capacity(alloc, 1)?);
    let mut rest = tokens;
    while let Some((piece, after)) = parted(separator, rest) {
        so_far = one_more(so_far, T::read(alloc, piece));
        rest = after;
    }
    fitted(one_more(so_far, T::read(alloc, rest)))
}

/// The same answer, with its list in no more memory than it fills.
pub fn fitted<T: Drop>(read: Result<Sequence<T>, PartFail>) -> Result<Sequence<T>, PartFail>
    ensures { result ≡ read }
{
    match read {
        Ok(mut items) => {
            items.shrink_to_fit();
            Ok(items)
        }
        Err(fail) => Err(fail),
    }
}
