//! The text of a module.
ghost use Rattle.std.specs.Prelude.{◌≡◌, [], ◌∷◌, ◌++◌, IfOk, OnOk};
ghost use Rattle.generated_project.specs.Generated.{declaration_lines, halving_lines, main_lines, module_lines, product_line, text_of, work_lines};

use crate::lines::{end_line, write_line, write_lines};
use std::alloc::Global;
use up_base::{Bytes, Mem, write_decimal};

fn write_declarations(out: &mut Bytes) -> Result<(), Mem>
    ensures { OnOk result (out.new ≡ out.old ++ text_of declaration_lines) }
{
    write_lines(out, &[b"Option Explicit", b"Public total As Long"])
}

// Writes the line that fills an item of the array.
fn write_product(out: &mut Bytes, number: u32) -> Result<(), Mem>
    ensures { OnOk result (out.new ≡ out.old ++ text_of (product_line number ∷ [])) }
{
    out.extend_from_slice(b"a(i) = i * ")?;
    write_decimal(out, u128::from(number % 7))?;
    end_line(out)
}

// Writes the line that only each third module has.
fn write_halving(out: &mut Bytes, number: u32) -> Result<(), Mem>
    ensures { OnOk result (out.new ≡ out.old ++ text_of (halving_lines number)) }
{
    if number % 3 == 0 {
        write_line(out, b"total = total / 2")
    } else {
        Ok(())
    }
}

fn write_work(out: &mut Bytes, number: u32) -> Result<(), Mem>
    ensures { OnOk result (out.new ≡ out.old ++ text_of (work_lines number)) }
{
    write_lines(
        out,
        &[
            b"Public Sub Work(ByVal n As Long)",
            b"Dim a(1 To 10) As Integer",
            b"Dim i As Integer",
            b"For i = 1 To 10",
        ],
    )?;
    write_product(out, number)?;
    write_lines(
        out,
        &[b"total = total + a(i) * n", b"Next i", b"Debug.Print total"],
    )?;
    write_halving(out, number)?;
    write_line(out, b"End Sub")
}

// Writes the procedure Main, which only the first module has.
fn write_main(out: &mut Bytes, number: u32) -> Result<(), Mem>
    ensures { OnOk result (out.new ≡ out.old ++ text_of (main_lines number)) }
{
    if number == 1 {
        write_lines(out, &[b"Public Sub Main()", b"Work 3", b"End Sub"])
    } else {
        Ok(())
    }
}

/// The text of the module of this number.
pub(crate) fn module_text(alloc: Global, number: u32) -> Result<Bytes, Mem>
    ensures { IfOk result (λ text. text ≡ text_of (module_lines number)) }
{
    let mut out = Bytes::new(alloc);
    write_declarations(&mut out)?;
    write_work(&mut out, number)?;
    write_main(&mut out, number)?;
    Ok(out)
}
