//! That what is written corresponds.
ghost use Rattle.run_matches.specs.Upgrades.{Upgrade};
ghost use Rattle.run_statements.specs.Written.{IsWritten, ProceduresAreWritten};
ghost use Rattle.correspondence.specs.Corresponds.{FilesCorrespond};

/// A law: what is written for a program has its modules in order, and in them its procedures, their declarations, their lines and the
/// comments, each where it stood.
pub fn files_correspond()
    ensures { (U : Upgrade) → IsWritten U → ProceduresAreWritten U → FilesCorrespond U }
{}
