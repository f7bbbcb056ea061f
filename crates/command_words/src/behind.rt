//! The words behind a command word, as clap reads them.
ghost use Rattle.std.specs.Prelude.{◌≡◌, ◌≤◌, ℕ, [], drop, true, false, Some, IfOk, IsErrOf, Option, Ok, codes};
ghost use Rattle.std.specs.Str.{bytes_eq};
ghost use Rattle.up_base.specs.Names.{is_name};
ghost use Rattle.std.specs.Fmt.{decimal};
ghost use Rattle.std.specs.List.{list_any};
ghost use Rattle.clap.specs.Values.{kind_of};
ghost use Rattle.clap.specs.Simple.{app_of};
ghost use Rattle.command_words.specs.Asks.{Word, NameFile, NameCount, AreSettings, is_separator, is_project_file, begins_with_minus};
ghost use Rattle.command_words.specs.Commands.{seen, seen_one, are_printable, last_is_dashes, file_app, file_faults, file_found, count_app, count_faults, count_found};

use crate::asked::WordsFail;
use clap::error::ErrorKind;
use clap::{Arg, ArgAction, Command, Error};
use std::alloc::Global;
use up_base::{Bytes, Mem, Name, NameFail, write_decimal};

// The most modules of a generated project.
const COUNT_LIMIT: u32 = 200;

/// A project file, and a settings file where one is named.
#[derive(Drop)]
pub(crate) struct Request {
    pub(crate) file: Name,
    pub(crate) settings: Option<Name>,
}

// The same as they stand in the words.
#[derive(Clone, Copy)]
struct Found<'a> {
    file: Option<&'a str>,
    settings: Option<&'a str>,
}

/// The file and the settings that the words behind the first name.
pub(crate) fn files_named(alloc: Global, texts: &[&str]) -> Result<Request, WordsFail>
    ensures names { are_printable (seen texts.now) ≡ true → IfOk result (λ r. NameFile (drop 1 (seen texts.now)) r.file r.settings) }
    ensures no_form { IsErrOf result WordsFail.NoForm → (file : Word) → (settings : Option Word) → ¬ (NameFile (drop 1 (seen texts.now)) file settings) }
{
    // clap takes them behind the file, too.
    if ends_in_dashes(texts) {
        return Err(WordsFail::NoForm);
    }
    let found = found_files(alloc, texts)?;
    let file = project_file(alloc, found.file)?;
    let settings = settings_name(alloc, found.settings)?;
    Ok(Request { file, settings })
}

/// The number that the word behind the first writes.
pub(crate) fn count_named(alloc: Global, texts: &[&str]) -> Result<u32, WordsFail>
    ensures names { are_printable (seen texts.now) ≡ true → IfOk result (λ n. NameCount (drop 1 (seen texts.now)) n) }
    ensures no_form { IsErrOf result WordsFail.NoForm → (n : ℕ) → ¬ (NameCount (drop 1 (seen texts.now)) n) }
{
    if texts.len() != 2 {
        return Err(WordsFail::NoForm);
    }
    let found = found_count(alloc, texts)?;
    Ok(number(alloc, found)?)
}

// Whether the last word is two minus signs.
fn ends_in_dashes(texts: &[&str]) -> bool
    ensures { result ≡ last_is_dashes (seen texts.now) }
{
    match texts.last() {
        Some(last) => *last == "--",
        None => false,
    }
}

// What clap finds of a file and the option.
fn found_files<'a>(alloc: Global, texts: &'a [&'a str]) -> Result<Found<'a>, WordsFail>
    ensures taken { IfOk result (λ _. file_faults (seen texts.entry.now) ≡ []) }
    ensures file { IfOk result (λ found. seen_one found.file ≡ file_found (codes "FILE") (seen texts.entry.now)) }
    ensures settings { IfOk result (λ found. seen_one found.settings ≡ file_found (codes "settings") (seen texts.entry.now)) }
    ensures no_form { IsErrOf result WordsFail.NoForm → ¬ (file_faults (seen texts.entry.now) ≡ []) }
{
    let command = file_command(alloc)?;
    match command.try_get_matches_from(texts) {
        Ok(matches) => Ok(Found {
            file: matches.get_str("FILE"),
            settings: matches.get_str("settings"),
        }),
        Err(error) => Err(fail_of(&error)),
    }
}

// What clap finds of a number.
fn found_count<'a>(alloc: Global, texts: &'a [&'a str]) -> Result<Option<&'a str>, WordsFail>
    ensures taken { IfOk result (λ _. count_faults (seen texts.entry.now) ≡ []) }
    ensures count { IfOk result (λ found. seen_one found ≡ count_found (seen texts.entry.now)) }
    ensures no_form { IsErrOf result WordsFail.NoForm → ¬ (count_faults (seen texts.entry.now) ≡ []) }
{
    let command = count_command(alloc)?;
    match command.try_get_matches_from(texts) {
        Ok(matches) => Ok(matches.get_str("N")),
        Err(error) => Err(fail_of(&error)),
    }
}

// A command that takes a file and the option, and no word for help.
fn file_command<'a>(alloc: Global) -> Result<Command<'a>, Mem>
    ensures { IfOk result (λ c. app_of c ≡ file_app) }
{
    let file = Arg::new(alloc, "FILE")
        .action(ArgAction::Set)
        .required(true);
    let settings = Arg::new(alloc, "settings")
        .long("settings")
        .action(ArgAction::Set);
    let command = Command::new(alloc, "vbup")
        .disable_help_flag(true)
        .arg(file)?
        .arg(settings)?;
    Ok(command)
}

// A command that takes a number, and no word for help.
fn count_command<'a>(alloc: Global) -> Result<Command<'a>, Mem>
    ensures { IfOk result (λ c. app_of c ≡ count_app) }
{
    let count = Arg::new(alloc, "N").action(ArgAction::Set).required(true);
    let command = Command::new(alloc, "vbup")
        .disable_help_flag(true)
        .arg(count)?;
    Ok(command)
}

// Why clap refuses the words.
fn fail_of(error: &Error) -> WordsFail
    ensures { result ≡ WordsFail.NoForm → ¬ (kind_of error.now ≡ ErrorKind.OutOfMemory) }
{
    match error.kind() {
        ErrorKind::OutOfMemory => WordsFail::Mem,
        _ => WordsFail::NoForm,
    }
}

// The word as the name of a project file.
fn project_file(alloc: Global, word: Option<&str>) -> Result<Name, WordsFail>
    ensures name { IfOk result (λ name. seen_one word.entry ≡ Some name) }
    ensures project { IfOk result (λ name. is_project_file name ≡ true) }
    ensures no_form { IsErrOf result WordsFail.NoForm → (name : Word) → seen_one word.entry ≡ Some name → is_project_file name ≡ false }
{
    let Some(word) = word else {
        return Err(WordsFail::NoForm);
    };
    let name = name_of(alloc, word)?;
    if names_folder(word.as_bytes()) || !name.lower_bytes().ends_with(b".vbp") {
        return Err(WordsFail::NoForm);
    }
    Ok(name)
}

// The word as the name of a settings file, if there is one.
fn settings_name(alloc: Global, word: Option<&str>) -> Result<Option<Name>, WordsFail>
    ensures name { IfOk result (λ name. name ≡ seen_one word.entry) }
    ensures settings { IfOk result (λ name. AreSettings name) }
    ensures no_form { IsErrOf result WordsFail.NoForm → ¬ (AreSettings (seen_one word.entry)) }
{
    let Some(word) = word else {
        return Ok(None);
    };
    if begins_with_minus(word.as_bytes()) {
        return Err(WordsFail::NoForm);
    }
    Ok(Some(name_of(alloc, word)?))
}

// The word as a name.
fn name_of(alloc: Global, word: &str) -> Result<Name, WordsFail>
    ensures name { IfOk result (λ name. name ≡ word.now) }
    ensures is_name { IfOk result (λ _. is_name word.now ≡ true) }
    ensures no_form { IsErrOf result WordsFail.NoForm → is_name word.now ≡ false }
{
    match Name::make(alloc, word.as_bytes()) {
        Ok(name) => Ok(name),
        Err(NameFail::NotName) => Err(WordsFail::NoForm),
        Err(NameFail::Mem) => Err(WordsFail::Mem),
    }
}

// Whether a byte of the word parts folders.
fn names_folder(word: &[u8]) -> bool
    ensures { result ≡ list_any is_separator word.now }
{
    word.iter().any(|c| *c == b'/' || *c == b'\\')
}

// Whether the word begins with a minus sign.
fn begins_with_minus(word: &[u8]) -> bool
    ensures { result ≡ begins_with_minus word.now }
{
    match word {
        [first, ..] => *first == b'-',
        [] => false,
    }
}

// The number that the word writes.
fn number(alloc: Global, word: Option<&str>) -> Result<u32, WordsFail>
    ensures least { IfOk result (λ n. 1 ≤ n) }
    ensures most { IfOk result (λ n. n ≤ 200) }
    ensures digits { IfOk result (λ n. seen_one word.entry ≡ Some (decimal n)) }
    ensures no_form { IsErrOf result WordsFail.NoForm → (n : ℕ) → 1 ≤ n → n ≤ 200 → ¬ (seen_one word.entry ≡ Some (decimal n)) }
{
    let Some(word) = word else {
        return Err(WordsFail::NoForm);
    };
    let n = parsed(word)?;
    if n < 1 || COUNT_LIMIT < n {
        return Err(WordsFail::NoForm);
    }
    let same = is_decimal(alloc, word.as_bytes(), n)?;
    if !same {
        return Err(WordsFail::NoForm);
    }
    Ok(n)
}

// The number that digits give, whatever stands before them.
fn parsed(word: &str) -> Result<u32, WordsFail>
    ensures { (n : ℕ) → n ≤ 200 → word.now ≡ decimal n → result ≡ Ok n }
{
    match word.parse::<u32>() {
        Ok(n) => Ok(n),
        Err(_) => Err(WordsFail::NoForm),
    }
}

// Whether a word is a number in decimal digits.
fn is_decimal(alloc: Global, word: &[u8], n: u32) -> Result<bool, Mem>
    ensures { IfOk result (λ same. same ≡ bytes_eq (decimal n) word.now) }
{
    let mut digits = Bytes::new(alloc);
    write_decimal(&mut digits, n as u128)?;
    Ok(digits.as_slice() == word)
}
