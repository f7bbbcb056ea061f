//! Why files were not read.

use std::alloc::{AllocError, AllocFailed};
use thiserror::Error;
use up_base::{Mem, Place};

/// Why no project was read.
#[derive(Debug, Drop, Error)]
pub enum NetReadFail {
    /// The first line at which the files begin no written project. Files count from 0 and lines from 1. Line 0 is the
    /// name of the file; where a file ends too early it is the line behind its last, and a missing file counts as an
    /// empty one.
    #[error("not as a project is written: file {}, line {}", .0.file, .0.line)]
    NotNet(Place),
    #[error("out of memory")]
    Mem,
}

impl From<Mem> for NetReadFail {
    ghost use Rattle.std.specs.Prelude.{◌≡◌};
    ghost use Rattle.net_reader.specs.declared.fail.NetReadFail.TheVariants as fail;

    ghost from_gives = { λ _ e. e ≡ fail.Mem };

    fn from(_: Mem) -> NetReadFail {
        NetReadFail::Mem
    }
}

impl From<AllocError> for NetReadFail {
    ghost use Rattle.std.specs.Prelude.{◌≡◌};
    ghost use Rattle.net_reader.specs.declared.fail.NetReadFail.TheVariants as fail;

    ghost from_gives = { λ _ e. e ≡ fail.Mem };

    fn from(_: AllocError) -> NetReadFail {
        NetReadFail::Mem
    }
}

impl<T: Drop> From<AllocFailed<T>> for NetReadFail {
    ghost use Rattle.std.specs.Prelude.{◌≡◌};
    ghost use Rattle.net_reader.specs.declared.fail.NetReadFail.TheVariants as fail;

    ghost from_gives = { λ _ e. e ≡ fail.Mem };

    fn from(_: AllocFailed<T>) -> NetReadFail {
        NetReadFail::Mem
    }
}
