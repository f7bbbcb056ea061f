//! Reads lists of items with a comma and a blank between them.
ghost use Rattle.std.specs.Prelude.{◌≡◌, ℕ, ◌<◌, true, suc, Bool, List, Option, length, map, IfOk};
ghost use Rattle.std.specs.List.{list_all};
ghost use Rattle.net_exprs.specs.Answers.{Answers};
ghost use Rattle.net_reader.specs.Items.{items_at};

use crate::characters::{begins_with, behind};
use net_exprs::PhraseFail;
use std::alloc::Global;

/// A part that may stand in a list.
pub trait Item: Drop {
    ghost Plain: { Type 0 };

    ghost view: { Self → Plain };

    ghost fits: { Plain → Bool };

    ghost item_at: { List ℕ → Option (Plain × List ℕ) };

    /// Reads one, and what follows it.
    fn read(alloc: Global, text: &[u8]) -> Result<(Self, &[u8]), PhraseFail>
        ensures answers { Answers view fits (item_at text.now) result }
        ensures shorter { IfOk result (λ read. length read.1.now < length text.now) }
        ensures held { IfOk result (λ read. fits (view read.0) ≡ true) };
}

/// Reads items up to the first that no comma follows, and what follows it.
pub(crate) fn items<T: Item>(alloc: Global, text: &[u8]) -> Result<(Vec<T>, &[u8]), PhraseFail>
    ensures answers { Answers (λ items. map T.view items.items) (list_all T.fits) (items_at T.item_at (suc (length text.now)) text.now) result }
    ensures held { IfOk result (λ read. list_all T.fits (map T.view read.0.items) ≡ true) }
{
    let mut items = Vec::new(alloc);
    let mut rest = text;
    'items: loop {
        let (item, beyond) = T::read(alloc, rest)?;
        items.push(item)?;
        if !begins_with(b',', beyond) {
            return Ok((items, beyond));
        }
        rest = behind(2, beyond);
    }
}
