//! The writing of the files.
ghost use Rattle.std.specs.Prelude.{◌≡◌, ◌+◌, ◌<◌, ◌≤◌, true, map, length, OnOk, IfOk, IfErr};
ghost use Rattle.std.specs.List.{list_all};
ghost use Rattle.up_base.specs.Names.{is_name};
ghost use Rattle.up_base.specs.Outside.{IfTold, Rose};
ghost use Rattle.wizard_cli.specs.Headline.{in_folder, moved, PutAll, PutUpTo};

use std::alloc::Global;
use up_base::{Bytes, Failed, Mem, Name, Outlet};

/// Puts files one after the other, up to the first that fails, whose place in the list is the error. It takes no memory.
pub(crate) fn put_all<O: Outlet>(outlet: &mut O, files: &[(Name, Bytes)]) -> Result<(), usize>
    ensures all { OnOk result (IfTold (O.held outlet.old) (O.held outlet.new) (PutAll files.now)) }
    ensures stopped { IfErr result (λ k. IfTold (O.held outlet.old) (O.held outlet.new) (PutUpTo files.now k)) }
    ensures place { IfErr result (λ k. k < length files.now) }
    ensures calls { IfErr result (λ k. IfTold (O.calls outlet.old) (O.calls outlet.new) (λ b a. a ≡ b + (k + 1))) }
    ensures failed { IfErr result (λ k. Rose (O.faults outlet.old) (O.faults outlet.new)) }
    ensures faults { O.faults outlet.old ≤ O.faults outlet.new }
{
    for (k, file) in files.iter().enumerate() {
        match outlet.put_file(&file.0, file.1.as_slice()) {
            Ok(()) => {}
            Err(Failed) => return Err(k),
        }
    }
    Ok(())
}

/// Moves files into the folder of written files, by their names.
pub(crate) fn move_into_folder(alloc: Global, files: &mut Vec<(Name, Bytes)>) -> Result<(), Mem>
    requires { list_all (λ f. is_name (in_folder f.0)) files.old.items ≡ true }
    ensures { OnOk result (files.new.items ≡ map moved files.old.items) }
{
    for file in files.iter_mut() {
        file.0 = folder_name(alloc, &file.0)?;
    }
    Ok(())
}

/// The name of a file in the folder of written files.
pub(crate) fn folder_name(alloc: Global, name: &Name) -> Result<Name, Mem>
    requires { is_name (in_folder name.now) ≡ true }
    ensures { IfOk result (λ n. n ≡ in_folder name.now) }
{
    let mut bytes = Bytes::from_slice(alloc, b"upgraded/")?;
    bytes.extend_from_slice(name.as_bytes())?;
    Name::from_valid(alloc, bytes.as_slice())
}
