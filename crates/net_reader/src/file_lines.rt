//! The lines of a file.
ghost use Rattle.std.specs.Prelude.{◌≡◌, ◌<◌, ◌≤◌, ◌∷◌, length};
ghost use Rattle.net_reader.specs.FileLines.{file_lines, line_length};

// The length of the first line, with the line feed that ends it.
fn line_length(text: &[u8]) -> usize
    ensures count { result ≡ line_length text.now }
    ensures within { result ≤ length text.now }
{
    for (at, c) in text.iter().enumerate() {
        if *c == b'\n' {
            return at + 1;
        }
    }
    text.len()
}

/// The first line of a text that isn't empty, with the line feed that ends it, and what stands behind it.
#[tactic(auto, using(crate::proofs::LineLengths::first_line, crate::proofs::LineLengths::some_line))]
pub(crate) fn next_line(text: &[u8]) -> (&[u8], &[u8])
    requires { 0 < length text.now }
    ensures lines { file_lines text.now ≡ result.0.now ∷ file_lines result.1.now }
    ensures shorter { length result.1.now < length text.now }
{
    text.split_at(line_length(text))
}
