//! What a reader of a part answers.
ghost use Rattle.std.specs.Prelude.{◌≡◌, ℕ, List};
ghost use Rattle.vb_tree.specs.declared.token.Token.{Token};
ghost use Rattle.form_parts.specs.Answer.{Answers, both_of};

use std::alloc::{AllocError, AllocFailed, Global};
use thiserror::Error;
use up_base::Mem;
use vb_tree::Token;

/// Why a part was not read.
#[derive(Debug, Drop, Error)]
pub enum PartFail {
    #[error("the tokens are no such part")]
    NotFound,
    #[error("the part is more than 64 deep")]
    TooDeep,
    #[error("out of memory")]
    Mem,
}

impl From<Mem> for PartFail {
    ghost use Rattle.form_parts.specs.declared.answer.PartFail.TheVariants as fail;

    ghost from_gives = { λ _ e. e ≡ fail.Mem };

    fn from(_: Mem) -> PartFail {
        PartFail::Mem
    }
}

impl From<AllocError> for PartFail {
    ghost use Rattle.form_parts.specs.declared.answer.PartFail.TheVariants as fail;

    ghost from_gives = { λ _ e. e ≡ fail.Mem };

    fn from(_: AllocError) -> PartFail {
        PartFail::Mem
    }
}

impl<T: Drop> From<AllocFailed<T>> for PartFail {
    ghost use Rattle.form_parts.specs.declared.answer.PartFail.TheVariants as fail;

    ghost from_gives = { λ _ e. e ≡ fail.Mem };

    fn from(_: AllocFailed<T>) -> PartFail {
        PartFail::Mem
    }
}

/// A part that a whole slice of tokens can be.
pub trait Part: Drop {
    ghost Plain: { Type 0 };

    ghost view: { Self → Plain };

    ghost Is: { List Token → Plain → Type 0 };

    ghost depth: { Plain → ℕ };

    /// Reads the part that all of the tokens are.
    fn read(alloc: Global, tokens: &[Token]) -> Result<Self, PartFail>
        ensures { Answers view (Is tokens.now) depth result };
}

/// Both answers, or the worse of the failures: want of memory, then no such part, then one that is too deep.
pub fn both<A: Drop, B: Drop>(
    first: Result<A, PartFail>,
    second: Result<B, PartFail>,
) -> Result<(A, B), PartFail>
    ensures { result ≡ both_of first second }
{
    match first {
        Ok(a) => match second {
            Ok(b) => Ok((a, b)),
            Err(e) => Err(e),
        },
        Err(PartFail::NotFound) => match second {
            Err(PartFail::Mem) => Err(PartFail::Mem),
            Err(PartFail::NotFound) => Err(PartFail::NotFound),
            Err(PartFail::TooDeep) => Err(PartFail::NotFound),
            Ok(_) => Err(PartFail::NotFound),
        },
        Err(PartFail::TooDeep) => match second {
            Err(e) => Err(e),
            Ok(_) => Err(PartFail::TooDeep),
        },
        Err(PartFail::Mem) => Err(PartFail::Mem),
    }
}
