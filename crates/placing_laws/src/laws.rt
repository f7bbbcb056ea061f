//! Which written procedure and which written line stands for one of the source.
ghost use Rattle.run_matches.specs.Upgrades.{Upgrade};
ghost use Rattle.run_statements.specs.Written.{IsWritten, ProceduresAreWritten};
ghost use Rattle.run_statements.specs.Kept.{LabelsAreFound, LinesAreWritten, NoFurtherLines};

use target_laws::{same_aims, same_labels, same_tests};

/// A law: each Sub or Function, and each part of a property that is written as one, has a number among the written procedures, and what is
/// written for it stands there, in the module that its own is written as.
pub fn procedures_are_written()
    ensures { (U : Upgrade) → IsWritten U → ProceduresAreWritten U }
{}

/// A law: each line of it has the line of its number there, from which control goes where it goes from the line, if nothing replaces it
/// and the blocks of the procedure are kept.
pub fn lines_are_written()
    ensures { (U : Upgrade) → IsWritten U → LinesAreWritten U }
{
    same_aims();
    same_tests();
}

/// A law: and there are no others.
pub fn no_further_lines()
    ensures { (U : Upgrade) → IsWritten U → NoFurtherLines U }
{}

/// A law: jumps of a procedure find their labels at the same lines, if no line of it is replaced.
pub fn labels_are_found()
    ensures { (U : Upgrade) → IsWritten U → LabelsAreFound U }
{
    same_labels();
}
