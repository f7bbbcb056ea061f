//! Why an operation gives no value.

ghost use Rattle.std.specs.Prelude.{◌≡◌};
ghost use Rattle.net_meaning.specs.declared.fail.OpNFail.TheVariants as fail;

use up_base::Mem;

/// Why an operation gives no value.
#[derive(Clone, Copy, Debug, PartialEq, Eq)]
pub enum OpNFail {
    /// It raises this number: 6 is an overflow, 11 a zero divisor.
    Raise(u32),
    /// The operation has no row for these operands.
    Outside,
    /// Want of memory.
    Mem,
}

impl From<Mem> for OpNFail {
    ghost from_gives = { λ _ e. e ≡ fail.Mem };

    fn from(_: Mem) -> OpNFail {
        OpNFail::Mem
    }
}
