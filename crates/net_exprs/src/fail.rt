//! Why no part was read.
ghost use Rattle.std.specs.Prelude.{◌≡◌};

use std::alloc::{AllocError, AllocFailed};
use thiserror::Error;
use up_base::Mem;

/// Why no part was read.
#[derive(Debug, Drop, Error)]
pub enum PhraseFail {
    #[error("no such part begins there, or one that is too large")]
    NotNet,
    #[error("out of memory")]
    Mem,
}

impl From<Mem> for PhraseFail {
    ghost use Rattle.net_exprs.specs.declared.fail.PhraseFail.TheVariants as fail;

    ghost from_gives = { λ _ e. e ≡ fail.Mem };

    fn from(_: Mem) -> PhraseFail {
        PhraseFail::Mem
    }
}

impl From<AllocError> for PhraseFail {
    ghost use Rattle.net_exprs.specs.declared.fail.PhraseFail.TheVariants as fail;

    ghost from_gives = { λ _ e. e ≡ fail.Mem };

    fn from(_: AllocError) -> PhraseFail {
        PhraseFail::Mem
    }
}

impl<T: Drop> From<AllocFailed<T>> for PhraseFail {
    ghost use Rattle.net_exprs.specs.declared.fail.PhraseFail.TheVariants as fail;

    ghost from_gives = { λ _ e. e ≡ fail.Mem };

    fn from(_: AllocFailed<T>) -> PhraseFail {
        PhraseFail::Mem
    }
}
