//! The functions as trees.
ghost use Rattle.std.specs.Prelude.{◌≡◌, IfOk};
ghost use Rattle.net_tree.specs.View.{procedure_of};
ghost use Rattle.support_text.specs.Rows.{row_place, row_procedure};

use crate::SupportRow;
use crate::fixed::fixed_function;
use net_tree::NetProc;
use std::alloc::Global;
use up_base::Mem;

// The place of a function among those that are the same for all projects.
fn place(row: SupportRow) -> usize
    ensures { result ≡ row_place row }
{
    match row {
        SupportRow::PrintLine => 0,
        SupportRow::PrintPart => 1,
        SupportRow::CurText => 4,
        SupportRow::PrintNum => 5,
        SupportRow::Cur => 7,
        SupportRow::Raise => 15,
    }
}

/// The function as it is written.
pub(crate) fn procedure(alloc: Global, row: SupportRow) -> Result<NetProc, Mem>
    ensures { IfOk result (λ p. procedure_of p ≡ row_procedure row) }
{
    Ok(fixed_function(alloc, place(row))?)
}
