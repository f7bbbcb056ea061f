//! Why no expression was read.
ghost use Rattle.std.specs.Prelude.{◌≡◌};

use std::alloc::{AllocError, AllocFailed};
use thiserror::Error;
use up_base::Mem;

/// Why no expression was read.
#[derive(Debug, Drop, Error)]
pub enum ExprFail {
    #[error("no expression begins there")]
    NotExpr,
    #[error("the expression is more than 64 deep")]
    TooDeep,
    #[error("out of memory")]
    Mem,
}

impl From<Mem> for ExprFail {
    ghost use Rattle.vb_exprs.specs.declared.fail.ExprFail.TheVariants as fail;

    ghost from_gives = { λ _ e. e ≡ fail.Mem };

    fn from(_: Mem) -> ExprFail {
        ExprFail::Mem
    }
}

impl From<AllocError> for ExprFail {
    ghost use Rattle.vb_exprs.specs.declared.fail.ExprFail.TheVariants as fail;

    ghost from_gives = { λ _ e. e ≡ fail.Mem };

    fn from(_: AllocError) -> ExprFail {
        ExprFail::Mem
    }
}

impl<T: Drop> From<AllocFailed<T>> for ExprFail {
    ghost use Rattle.vb_exprs.specs.declared.fail.ExprFail.TheVariants as fail;

    ghost from_gives = { λ _ e. e ≡ fail.Mem };

    fn from(_: AllocFailed<T>) -> ExprFail {
        ExprFail::Mem
    }
}
