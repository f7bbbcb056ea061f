//! The lines of a report.
ghost use Rattle.std.specs.Prelude.{◌≡◌, ◌<◌, ◌++◌, true, length, IsSome, OnOk};
ghost use Rattle.std.specs.Str.{IsAscii};
ghost use Rattle.up_base.specs.Names.{is_name};
ghost use Rattle.up_base.specs.LineEnd.{line_end};
ghost use Rattle.issue_report.specs.Texts.{rule_text};
ghost use Rattle.issue_report.specs.Reports.{two_digits, name_of_file, place_text, numbered_rule, issue_line, count_text, part_text, word_text, procedure_name, verdict_line};

use crate::{Part, Verdict, VerdictWord, rule_text};
use up_base::{Bytes, Issue, Mem, Names, Place, write_decimal};

/// Ends a line.
pub(crate) fn end_line(out: &mut Bytes) -> Result<(), Mem>
    ensures { OnOk result (out.new ≡ out.old ++ line_end) }
{
    out.extend_from_slice(b"\r\n")
}

/// Writes how many there are of something, after what it is.
pub(crate) fn write_count(out: &mut Bytes, label: &[u8], count: usize) -> Result<(), Mem>
    ensures { OnOk result (out.new ≡ out.old ++ count_text label.now count) }
{
    out.extend_from_slice(label)?;
    write_decimal(out, count as u128)
}

// Writes a number below 100 in two digits.
fn write_two_digits(out: &mut Bytes, n: u8) -> Result<(), Mem>
    requires { n < 100 }
    ensures { OnOk result (out.new ≡ out.old ++ two_digits n) }
{
    out.push(48 + n / 10)?;
    out.push(48 + n % 10)
}

fn write_file_name(out: &mut Bytes, names: &Names, file: u32) -> Result<(), Mem>
    requires { file < length names.now }
    ensures text { OnOk result (out.new ≡ out.old ++ name_of_file names.now file) }
    ensures named { OnOk result (is_name (name_of_file names.now file) ≡ true) }
{
    let Some(name) = names.get(file as usize) else {
        unreachable!()
    };
    out.extend_from_slice(name.as_bytes())
}

fn write_place(out: &mut Bytes, names: &Names, place: Place) -> Result<(), Mem>
    requires { place.file < length names.now }
    ensures text { OnOk result (out.new ≡ out.old ++ place_text names.now place) }
    ensures named { OnOk result (is_name (name_of_file names.now place.file) ≡ true) }
{
    write_file_name(out, names, place.file)?;
    out.push(b'(')?;
    write_decimal(out, u128::from(place.line))?;
    out.push(b')')
}

// Writes a rule's number and its text.
fn write_rule(out: &mut Bytes, rule: u8) -> Result<(), Mem>
    requires { IsSome (rule_text rule) }
    ensures { OnOk result (out.new ≡ out.old ++ numbered_rule rule) }
{
    let Some(text) = rule_text(rule) else {
        unreachable!()
    };
    out.push(b'U')?;
    write_two_digits(out, rule)?;
    out.push(b' ')?;
    out.extend_from_slice(text)
}

/// Writes the line of an issue.
pub(crate) fn write_issue(out: &mut Bytes, names: &Names, issue: Issue) -> Result<(), Mem>
    requires named { issue.place.file < length names.now }
    requires has_text { IsSome (rule_text issue.rule) }
    ensures text { OnOk result (out.new ≡ out.old ++ issue_line names.now issue) }
    ensures ascii { OnOk result (IsAscii (issue_line names.now issue)) }
{
    write_place(out, names, issue.place)?;
    out.extend_from_slice(b": ")?;
    write_rule(out, issue.rule)?;
    end_line(out)
}

// Writes which part of a property a procedure is.
fn write_part(out: &mut Bytes, part: Part) -> Result<(), Mem>
    ensures { OnOk result (out.new ≡ out.old ++ part_text part) }
{
    match part {
        Part::Plain => Ok(()),
        Part::GetPart => out.extend_from_slice(b" Get"),
        Part::LetPart => out.extend_from_slice(b" Let"),
        Part::SetPart => out.extend_from_slice(b" Set"),
    }
}

fn write_word(out: &mut Bytes, word: VerdictWord) -> Result<(), Mem>
    ensures { OnOk result (out.new ≡ out.old ++ word_text word) }
{
    match word {
        VerdictWord::Clean => out.extend_from_slice(b"clean"),
        VerdictWord::Flagged => out.extend_from_slice(b"flagged"),
        VerdictWord::Reaches => out.extend_from_slice(b"reaches"),
    }
}

// Writes a procedure's name, with the part of a property that it is.
fn write_procedure_name(out: &mut Bytes, verdict: &Verdict) -> Result<(), Mem>
    ensures text { OnOk result (out.new ≡ out.old ++ procedure_name verdict.now) }
    ensures named { OnOk result (is_name verdict.now.name ≡ true) }
{
    out.extend_from_slice(verdict.name.as_bytes())?;
    write_part(out, verdict.part)
}

/// Writes the line of a verdict.
pub(crate) fn write_verdict(out: &mut Bytes, names: &Names, verdict: &Verdict) -> Result<(), Mem>
    requires { verdict.now.file < length names.now }
    ensures text { OnOk result (out.new ≡ out.old ++ verdict_line names.now verdict.now) }
    ensures ascii { OnOk result (IsAscii (verdict_line names.now verdict.now)) }
{
    write_file_name(out, names, verdict.file)?;
    out.push(b' ')?;
    write_procedure_name(out, verdict)?;
    out.extend_from_slice(b": ")?;
    write_word(out, verdict.word)?;
    end_line(out)
}
