//! Measures parts of an upgrade by themselves. `bench_parts lex` counts the logical lines and the tokens of a Visual Basic 6
//! module that stands on the standard input. `bench_parts emit LINES TIMES READS` reads the files of a written project whose
//! one procedure has so many lines, emits the project so many times, and reads its files so many times more; it prints how
//! many files and bytes were emitted, and how many bytes were read after the first time.
#![tactic(auto)]

mod emitting;
mod lexing;

use emitting::Count;
use std::alloc::Global;
use std::env::Args;
use std::io::Read;
use std::process::ExitCode;
use std::{env, io};

fn main(rt: HostRuntime) -> io::Result<ExitCode> {
    let mut words = env::args(&rt)?;
    let _program = words.next();
    let lexes = words.next().is_some_and(|word| word.as_str() == "lex");
    let answer = if lexes {
        let mut bytes = Vec::new(rt.alloc());
        rt.reader().read_to_end(&mut bytes)?;
        lexing::count(rt.alloc(), bytes)
    } else {
        emitted(rt.alloc(), &mut words)
    };
    match answer {
        Some(text) => {
            println!(rt; "{text}")?;
            Ok(ExitCode::SUCCESS)
        }
        None => {
            println!(rt; "not measured")?;
            Ok(ExitCode::from(1))
        }
    }
}

// What was emitted and read, by the numbers among the arguments.
fn emitted(alloc: Global, words: &mut Args) -> Option<String> {
    let lines = number(words);
    let times = number(words);
    let reads = number(words);
    let Count { files, bytes, read } = emitting::measure(alloc, lines, times, reads).ok()?;
    format!(in alloc; "files {files}, bytes {bytes}, read {read}").ok()
}

// The next argument, or 0 where it is no number.
fn number(words: &mut Args) -> u32 {
    match words.next() {
        Some(word) => word.parse::<u32>().unwrap_or(0),
        None => 0,
    }
}
