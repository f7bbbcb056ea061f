//! The program's arguments as command words.
ghost use Rattle.std.specs.Prelude.{◌≡◌, IfOk, IfErr, OnOk, drop, map};
ghost use Rattle.std.specs.Vec.Iter.{into_iter_items};
ghost use Rattle.std.specs.String.{string_bytes};
ghost use Rattle.std.specs.IoError.{error_kind};
ghost use Rattle.vbup.specs.Exit.{refusal_of};

use std::alloc::Global;
use std::env::Args;
use std::io;
use std::io::ErrorKind;
use up_base::{Bytes, Mem, Sequence};
use wizard_cli::{Status, Words};

/// The command words that the program's arguments are, without its own name. Where they are none, the status that the
/// program ends with.
pub(crate) fn command_words(alloc: Global, arguments: io::Result<Args>) -> Result<Words, Status>
    ensures words { IfOk result (λ words. IfOk arguments (λ a. words ≡ map string_bytes (drop 1 (into_iter_items a)))) }
    ensures refused { IfErr arguments (λ e. result ≡ Err (refusal_of (error_kind e))) }
    ensures no_memory { OnOk arguments (IfErr result (λ status. status ≡ Status.OutOfMemory)) }
{
    match arguments {
        Ok(arguments) => match words_of(alloc, arguments) {
            Ok(words) => Ok(words),
            Err(Mem) => Err(Status::OutOfMemory),
        },
        Err(e) => Err(refusal(&e)),
    }
}

// The arguments after the first.
fn words_of(alloc: Global, mut arguments: Args) -> Result<Words, Mem>
    ensures { IfOk result (λ words. words ≡ map string_bytes (drop 1 (into_iter_items arguments))) }
{
    let _ = arguments.next();
    let mut words = Sequence::new(alloc);
    for argument in arguments {
        words.push(Bytes::from_vec(argument.into_bytes()))?;
    }
    Ok(words)
}

// The status at arguments that could not be had: they are no text, or memory was wanted.
fn refusal(error: &io::Error) -> Status
    ensures { result ≡ refusal_of (error_kind error.now) }
{
    match error.kind() {
        ErrorKind::OutOfMemory => Status::OutOfMemory,
        _ => Status::BadWords,
    }
}
