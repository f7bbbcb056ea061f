//! The modules that files are named for.
ghost use Rattle.std.specs.Prelude.{◌≡◌, true, IfOk};
ghost use Rattle.up_base.specs.Names.{is_name};
ghost use Rattle.net_exprs.specs.Answers.{now_of};
ghost use Rattle.net_reader.specs.ProjectReader.{base_name, module_name};

use net_writable::is_identifier;
use std::alloc::Global;
use up_base::{Mem, Name};

// What stands before `.vb`.
fn base_name(file: &[u8]) -> Option<&[u8]>
    ensures { now_of result ≡ base_name file.now }
{
    file.strip_suffix(b".vb")
}

/// The module that a file is named for, and none where no module has such a name.
pub(crate) fn module_name(alloc: Global, file: &Name) -> Result<Option<Name>, Mem>
    ensures { IfOk result (λ name. name ≡ module_name file.now) }
{
    let Some(name) = base_name(file.as_bytes()) else {
        return Ok(None);
    };
    if !is_identifier(name) {
        return Ok(None);
    }
    Ok(Some(Name::from_valid(alloc, name)?))
}
