//! Lines of a file.
ghost use Rattle.std.specs.Prelude.{◌≡◌, ◌++◌, map, OnOk};
ghost use Rattle.up_base.specs.LineEnd.{line_end};
ghost use Rattle.generated_project.specs.Generated.{text_of};

use up_base::{Bytes, Mem};

/// Ends a line.
pub(crate) fn end_line(out: &mut Bytes) -> Result<(), Mem>
    ensures { OnOk result (out.new ≡ out.old ++ line_end) }
{
    out.extend_from_slice(b"\r\n")
}

/// Writes a line and its end.
pub(crate) fn write_line(out: &mut Bytes, line: &[u8]) -> Result<(), Mem>
    ensures { OnOk result (out.new ≡ out.old ++ (line.now ++ line_end)) }
{
    out.extend_from_slice(line)?;
    end_line(out)
}

/// Writes lines, each with its end.
pub(crate) fn write_lines(out: &mut Bytes, lines: &[&[u8]]) -> Result<(), Mem>
    ensures { OnOk result (out.new ≡ out.old ++ text_of (map (λ l. l.now) lines.now)) }
{
    for line in lines {
        write_line(out, line)?;
    }
    Ok(())
}
