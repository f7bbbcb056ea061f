//! What a line says, without its indentation and its end.
ghost use Rattle.std.specs.Prelude.{◌≡◌, drop};
ghost use Rattle.net_reader.specs.FileLines.{text_of_line, without_end, without_indent};

use crate::characters::behind;

fn without_end(line: &[u8]) -> &[u8]
    ensures { result.now ≡ without_end line.now }
{
    match line.strip_suffix(b"\r\n") {
        Some(front) => front,
        None => line,
    }
}

// How many blanks stand at the front.
fn indent_length(line: &[u8]) -> usize
    ensures { drop result line.now ≡ without_indent line.now }
{
    for (at, c) in line.iter().enumerate() {
        if *c != b' ' {
            return at;
        }
    }
    line.len()
}

fn without_indent(line: &[u8]) -> &[u8]
    ensures { result.now ≡ without_indent line.now }
{
    behind(indent_length(line), line)
}

/// What a line says: what stands behind the blanks at its front and before the line feed at its end.
pub(crate) fn text_of_line(line: &[u8]) -> &[u8]
    ensures { result.now ≡ text_of_line line.now }
{
    without_indent(without_end(line))
}
