//! The project file, and how it names the modules.
ghost use Rattle.std.specs.Prelude.{◌≡◌, [], ◌∷◌, ◌++◌, map, IfOk, OnOk};
ghost use Rattle.generated_project.specs.Generated.{entry_line, file_name, module_name, module_numbers, project_lines, text_of};

use crate::lines::{end_line, write_line, write_lines};
use std::alloc::Global;
use up_base::{Bytes, Mem, Name, write_decimal};

fn write_module_name(out: &mut Bytes, number: u32) -> Result<(), Mem>
    ensures { OnOk result (out.new ≡ out.old ++ module_name number) }
{
    out.extend_from_slice(b"Gen")?;
    write_decimal(out, u128::from(number))
}

fn write_file_name(out: &mut Bytes, number: u32) -> Result<(), Mem>
    ensures { OnOk result (out.new ≡ out.old ++ file_name number) }
{
    write_module_name(out, number)?;
    out.extend_from_slice(b".bas")
}

/// The name of a module's file.
#[tactic(auto, using(crate::proofs::FileNames::is_name_of_file))]
pub(crate) fn file_name(alloc: Global, number: u32) -> Result<Name, Mem>
    ensures { IfOk result (λ name. name ≡ file_name number) }
{
    let mut bytes = Bytes::new(alloc);
    write_file_name(&mut bytes, number)?;
    Name::from_valid(alloc, bytes.as_slice())
}

// Writes the line that names a module and its file.
fn write_entry(out: &mut Bytes, number: u32) -> Result<(), Mem>
    ensures { OnOk result (out.new ≡ out.old ++ text_of (map entry_line (number ∷ []))) }
{
    out.extend_from_slice(b"Module=")?;
    write_module_name(out, number)?;
    out.extend_from_slice(b"; ")?;
    write_file_name(out, number)?;
    end_line(out)
}

#[tactic(auto, using(crate::proofs::Pieces::more_entries))]
fn write_entries(out: &mut Bytes, modules: u32) -> Result<(), Mem>
    ensures { OnOk result (out.new ≡ out.old ++ text_of (map entry_line (module_numbers modules))) }
{
    for k in 0..modules {
        write_entry(out, k + 1)?;
    }
    Ok(())
}

/// The text of the project file.
#[tactic(auto, using(crate::proofs::Pieces::more_lines))]
pub(crate) fn project_text(alloc: Global, modules: u32) -> Result<Bytes, Mem>
    ensures { IfOk result (λ text. text ≡ text_of (project_lines modules)) }
{
    let mut out = Bytes::new(alloc);
    write_line(&mut out, b"Type=Exe")?;
    write_entries(&mut out, modules)?;
    write_lines(&mut out, &[b"Startup=\"Sub Main\"", b"Name=\"Gen\""])?;
    Ok(out)
}
