//! The program `vbup`: upgrades a Visual Basic 6 project in the current folder to Visual Basic .NET.
#![tactic(auto)]

mod arguments;
mod exit;

use std::env;
use std::process::ExitCode;
use std::rt::{Env, Files};
use up_base::{DirFolder, DirOutlet, OutConsole};
use wizard_cli::{Status, run};

fn main(rt: HostRuntime) -> ExitCode {
    ExitCode::from(exit::number(upgrade(&rt)))
}

// Does what the program's arguments ask for.
fn upgrade<R: Env + Files + Print + AllocGlobal>(rt: &R) -> Status {
    let words = match arguments::command_words(rt.alloc(), env::args(rt)) {
        Ok(words) => words,
        Err(status) => return status,
    };
    run(
        rt.alloc(),
        &words,
        &mut DirFolder::new(rt),
        &mut DirOutlet::new(rt),
        &mut OutConsole::new(rt),
    )
}
