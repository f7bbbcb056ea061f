//! Why a conversion or an operator gives no value.
ghost use Rattle.std.specs.Prelude.{◌≡◌};

use std::alloc::AllocError;
use up_base::Mem;

/// Why a conversion or an operator gives no value.
#[derive(Clone, Copy, Debug, PartialEq, Eq)]
pub enum Op6Fail {
    /// It raises this error number: 6 is overflow, 11 division by zero.
    Raise(u32),
    /// The meaning doesn't cover it.
    Outside,
    /// Out of memory.
    Mem,
}

impl From<Mem> for Op6Fail {
    ghost use Rattle.vb6_meaning.specs.declared.fail.Op6Fail.TheVariants as fail;

    ghost from_gives = { λ _ e. e ≡ fail.Mem };

    fn from(_: Mem) -> Op6Fail {
        Op6Fail::Mem
    }
}

impl From<AllocError> for Op6Fail {
    ghost use Rattle.vb6_meaning.specs.declared.fail.Op6Fail.TheVariants as fail;

    ghost from_gives = { λ _ e. e ≡ fail.Mem };

    fn from(_: AllocError) -> Op6Fail {
        Op6Fail::Mem
    }
}
