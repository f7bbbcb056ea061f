//! Where a line stands, and what is wrong there.
ghost use Rattle.std.specs.Prelude.{◌≡◌};
ghost use Rattle.up_base.specs.declared.place.ReadFail.TheVariants.{Mem};

use crate::Mem;
use std::alloc::{AllocError, AllocFailed};

/// A physical line of a file. File 0 is the project file, file k the k-th entry; lines count from 1, and line 0 is the
/// file as a whole.
#[derive(Clone, Copy, Debug, PartialEq, Eq, PartialOrd, Ord)]
pub struct Place {
    pub file: u32,
    pub line: u32,
}

/// A fault for which a project is refused, by its number.
#[derive(Clone, Copy, Debug, PartialEq, Eq)]
pub struct Fault {
    pub place: Place,
    pub kind: u8,
}

/// Why a file was not read.
#[derive(Clone, Copy, Debug, PartialEq, Eq)]
pub enum ReadFail {
    /// The file's first fault.
    Fault(Fault),
    /// Want of memory.
    Mem,
}

impl From<Mem> for ReadFail {
    ghost from_gives = { λ _ e. e ≡ Mem };

    fn from(_: Mem) -> ReadFail {
        ReadFail::Mem
    }
}

impl From<AllocError> for ReadFail {
    ghost from_gives = { λ _ e. e ≡ Mem };

    fn from(_: AllocError) -> ReadFail {
        ReadFail::Mem
    }
}

impl<T: Drop> From<AllocFailed<T>> for ReadFail {
    ghost from_gives = { λ _ e. e ≡ Mem };

    fn from(_: AllocFailed<T>) -> ReadFail {
        ReadFail::Mem
    }
}
