//! Prints what conversions and operators give in both languages. The standard input has a row on each line, as
//! `vb6 Integer:7 + Long:5`; what is printed is the row with its answer. `rows` says how a row is written.
#![tactic(auto)]

mod rows;
mod source;
mod written;

use std::alloc::{AllocError, Global};
use std::io;

fn main(rt: HostRuntime) -> io::Result<()> {
    for line in rt.lines(rt.alloc()) {
        let line = line?;
        let text = answered(rt.alloc(), line.as_str())?;
        println!(rt; "{text}")?;
    }
    Ok(())
}

// A row with its answer, or a heading as it is.
fn answered(alloc: Global, line: &str) -> Result<String, AllocError> {
    if line.is_empty() || line.starts_with("#") {
        return String::from_str(alloc, line);
    }
    match rows::answer(alloc, line) {
        Ok(answer) => format!(in alloc; "{line} = {answer}"),
        Err(rows::RowFail::NoRow) => format!(in alloc; "{line}: no row"),
        Err(rows::RowFail::Mem) => format!(in alloc; "{line}: out of memory"),
    }
}
