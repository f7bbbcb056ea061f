//! Why a text has no list of logical lines.
ghost use Rattle.std.specs.Prelude.{◌≡◌};
ghost use Rattle.vb_lexer.specs.declared.lex_fail.LexFail.TheVariants.{Mem};

use std::alloc::{AllocError, AllocFailed};
use up_base::{Fault, Mem};
use vb_tree::Lines;

/// Why a text has no list of logical lines.
#[derive(Drop)]
pub enum LexFail {
    /// The text's first lexical fault, and the logical lines before the one that holds it.
    Fault(Fault, Lines),
    /// Want of memory.
    Mem,
}

impl From<Mem> for LexFail {
    ghost from_gives = { λ _ e. e ≡ Mem };

    fn from(_: Mem) -> LexFail {
        LexFail::Mem
    }
}

impl From<AllocError> for LexFail {
    ghost from_gives = { λ _ e. e ≡ Mem };

    fn from(_: AllocError) -> LexFail {
        LexFail::Mem
    }
}

impl<T: Drop> From<AllocFailed<T>> for LexFail {
    ghost from_gives = { λ _ e. e ≡ Mem };

    fn from(_: AllocFailed<T>) -> LexFail {
        LexFail::Mem
    }
}
