//! Reads written projects back. The standard input has the files of a project, each between `== NAME` and `==`, and behind
//! them rows: `whole` reads the files as they stand, and `FILE LINE: TEXT` with a text in place of a line, each counted from
//! 0 and from 1. Further files begin another project. What is printed is each row with what comes of it: that the project is
//! read and written as it stands, or the file and line of the fault. Headings, which begin with `#`, are printed too.
#![tactic(auto)]

mod project;
mod reading;
mod rows;

use project::SourceText;
use std::io;
use up_base::Mem;

fn main(rt: HostRuntime) -> io::Result<()> {
    let mut project = SourceText::new(rt.alloc());
    for line in rt.lines(rt.alloc()) {
        let line = line?;
        match rows::taken(rt.alloc(), &mut project, line.as_str()) {
            Ok(Some(text)) => println!(rt; "{text}")?,
            Ok(None) => {}
            Err(Mem) => println!(rt; "out of memory")?,
        }
    }
    Ok(())
}
