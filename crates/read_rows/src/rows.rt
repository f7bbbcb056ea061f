//! Rows, and what is printed for each.
use crate::project::{Change, SourceText};
use crate::reading::answer;
use std::alloc::Global;
use up_base::Mem;

/// Takes a line of the input: a line of a file is kept, and a row or a heading gives what is printed.
pub(crate) fn taken(
    alloc: Global,
    project: &mut SourceText,
    line: &str,
) -> Result<Option<String>, Mem> {
    if let Some(name) = line.strip_prefix("== ") {
        project.open(alloc, name)?;
        return Ok(None);
    }
    if line == "==" {
        project.close(alloc)?;
        return Ok(None);
    }
    if project.takes(line)? {
        return Ok(None);
    }
    if line.is_empty() || line.starts_with("#") {
        return Ok(Some(String::from_str(alloc, line)?));
    }
    let answer = row_answer(alloc, project, line)?;
    Ok(Some(format!(in alloc; "{line} => {answer}")?))
}

fn row_answer(alloc: Global, project: &SourceText, row: &str) -> Result<String, Mem> {
    let Some((file, line, text)) = parts(row) else {
        return Ok(String::from_str(alloc, "no row")?);
    };
    let text = repeated_pieces(alloc, text)?;
    let change = Change {
        file,
        line,
        text: text.as_str(),
    };
    match project.changed(alloc, change)? {
        Some(files) => answer(alloc, &files),
        None => Ok(String::from_str(alloc, "no file name")?),
    }
}

// The numbers of a file and of a line, and the text in its place; line 0 where the files are read as they stand.
fn parts(row: &str) -> Option<(usize, usize, &str)> {
    if row == "whole" {
        return Some((0, 0, ""));
    }
    let (place, text) = row.split_once(": ")?;
    let (file, line) = place.split_once(" ")?;
    Some((
        file.parse::<usize>().ok()?,
        line.parse::<usize>().ok()?,
        text,
    ))
}

// The text, in which a piece between back quotes, as `999 (`, is repeated so often.
fn repeated_pieces(alloc: Global, text: &str) -> Result<String, Mem> {
    let mut out = String::new(alloc);
    for (number, part) in text.split("`").enumerate() {
        match part.split_once(" ") {
            Some((count, piece)) if number % 2 == 1 => {
                for _time in 0..count.parse::<u32>().unwrap_or(0) {
                    out.push_str(piece)?;
                }
            }
            _ => out.push_str(part)?,
        }
    }
    Ok(out)
}
