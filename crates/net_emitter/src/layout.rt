//! What the lines of each written file share: their indentation, their ends and what stands between items.
ghost use Rattle.std.specs.Prelude.{◌≡◌, ◌*◌, ◌++◌, ◌==◌, [], if◌then◌else◌, replicate, OnOk};
ghost use Rattle.up_base.specs.LineEnd.{line_end};
ghost use Rattle.net_tree.specs.Spelling.{at_depth};

use up_base::{Bytes, Mem};

/// Begins a line at a nesting depth.
pub fn begin_line(out: &mut Bytes, depth: usize) -> Result<(), Mem>
    ensures { OnOk result (out.new ≡ out.old ++ replicate (4 * depth) 32) }
{
    for _level in 0..depth {
        out.extend_from_slice(b"    ")?;
    }
    Ok(())
}

/// Ends a line.
pub fn end_line(out: &mut Bytes) -> Result<(), Mem>
    ensures { OnOk result (out.new ≡ out.old ++ line_end) }
{
    out.extend_from_slice(b"\r\n")
}

/// Writes a line that is this text.
pub fn write_line(out: &mut Bytes, depth: usize, text: &[u8]) -> Result<(), Mem>
    ensures { OnOk result (out.new ≡ out.old ++ at_depth depth text.now) }
{
    begin_line(out, depth)?;
    out.extend_from_slice(text)?;
    end_line(out)
}

/// Writes what stands before an item: nothing before the first one, and the separator before any other.
pub fn write_separator(out: &mut Bytes, index: usize, separator: &[u8]) -> Result<(), Mem>
    ensures { OnOk result (out.new ≡ out.old ++ (if index == 0 then [] else separator.now)) }
{
    if index == 0 {
        return Ok(());
    }
    out.extend_from_slice(separator)
}
