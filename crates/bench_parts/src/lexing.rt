//! Logical lines and tokens, counted.
use std::alloc::Global;
use up_base::decode_1252;
use vb_lexer::logical_lines;
use vb_tree::Lines;

/// The number of logical lines and of tokens of a text in Windows-1252; nothing where it has a fault.
pub(crate) fn count(alloc: Global, bytes: Vec<u8>) -> Option<String> {
    let lines = lines_of(alloc, bytes)?;
    let tokens = count_tokens(&lines);
    format!(in alloc; "lines {}, tokens {tokens}", lines.len()).ok()
}

// The logical lines of a text, which is let go of once its units are known.
fn lines_of(alloc: Global, bytes: Vec<u8>) -> Option<Lines> {
    if bytes.len() > 0xFFFF_FFFF {
        return None;
    }
    let text = decode_1252(alloc, bytes.as_slice()).ok()?;
    drop(bytes);
    logical_lines(alloc, 1, &text).ok()
}

fn count_tokens(lines: &Lines) -> usize {
    lines.as_slice().iter().fold(
        0,
        |count: usize, line| count.saturating_add(line.tokens.len()),
    )
}
