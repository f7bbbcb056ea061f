//! Both versions of the report.
ghost use Rattle.std.specs.Prelude.{◌≡◌, ◌<◌, ◌++◌, true, length, IsSome, IfOk, OnOk};
ghost use Rattle.std.specs.List.{All};
ghost use Rattle.std.specs.Str.{IsAscii};
ghost use Rattle.up_base.specs.Issues.{are_ascending};
ghost use Rattle.issue_report.specs.Texts.{rule_text};
ghost use Rattle.issue_report.specs.Reports.{clean_count, issue_count_line, issues_text, report_text, report2_text, verdict_count_line, verdicts_text};

use crate::lines::{end_line, write_count, write_issue, write_verdict};
use crate::{Verdict, VerdictWord};
use std::alloc::Global;
use up_base::{Bytes, Issue, Issues, Mem, Names};

/// The report of the first version: its head, a line for each issue in order and the number of issues, all in ASCII. A
/// line ends in CR LF. Want of memory is its only failure.
pub fn report(alloc: Global, issues: &Issues, names: &Names) -> Result<Bytes, Mem>
    requires named { All (λ i. i.place.file < length names.now) issues.now }
    requires have_texts { All (λ i. IsSome (rule_text i.rule)) issues.now }
    ensures text { IfOk result (λ bytes. bytes ≡ report_text issues.now names.now) }

    // The issues, and so their lines, are in strict ascending order of file, line and rule.
    ensures sorted { OnOk result (are_ascending issues.now ≡ true) }
    ensures ascii { IfOk result (λ bytes. IsAscii bytes) }
{
    let mut out = Bytes::new(alloc);
    out.extend_from_slice(b"Upgrade report 1")?;
    end_line(&mut out)?;
    write_issues(&mut out, names, issues.as_slice())?;
    Ok(out)
}

/// The report of the second version: its head, the lines of the first version after their head, a line for each
/// verdict in order, and the numbers of verdicts and of clean ones. Want of memory is its only failure.
pub fn report2(
    alloc: Global,
    issues: &Issues,
    names: &Names,
    verdicts: &[Verdict],
) -> Result<Bytes, Mem>
    requires named { All (λ i. i.place.file < length names.now) issues.now }
    requires have_texts { All (λ i. IsSome (rule_text i.rule)) issues.now }
    requires verdicts_named { All (λ v. v.file < length names.now) verdicts.now }
    ensures text { IfOk result (λ bytes. bytes ≡ report2_text issues.now names.now verdicts.now) }

    // The issues, and so their lines, are in strict ascending order of file, line and rule.
    ensures sorted { OnOk result (are_ascending issues.now ≡ true) }
    ensures ascii { IfOk result (λ bytes. IsAscii bytes) }
{
    let mut out = Bytes::new(alloc);
    out.extend_from_slice(b"Upgrade report 2")?;
    end_line(&mut out)?;
    write_issues(&mut out, names, issues.as_slice())?;
    write_verdicts(&mut out, names, verdicts)?;
    Ok(out)
}

// Writes the issues and how many they are.
fn write_issues(out: &mut Bytes, names: &Names, issues: &[Issue]) -> Result<(), Mem>
    requires named { All (λ i. i.place.file < length names.now) issues.now }
    requires have_texts { All (λ i. IsSome (rule_text i.rule)) issues.now }
    ensures text { OnOk result (out.new ≡ out.old ++ issues_text issues.now names.now) }
    ensures ascii { OnOk result (IsAscii (issues_text issues.now names.now)) }
{
    for issue in issues {
        write_issue(out, names, *issue)?;
    }
    write_issue_count(out, issues)
}

fn write_issue_count(out: &mut Bytes, issues: &[Issue]) -> Result<(), Mem>
    ensures { OnOk result (out.new ≡ out.old ++ issue_count_line issues.now) }
{
    write_count(out, b"issues: ", issues.len())?;
    end_line(out)
}

// Writes the verdicts, how many they are and how many of them are clean.
fn write_verdicts(out: &mut Bytes, names: &Names, verdicts: &[Verdict]) -> Result<(), Mem>
    requires { All (λ v. v.file < length names.now) verdicts.now }
    ensures text { OnOk result (out.new ≡ out.old ++ verdicts_text verdicts.now names.now) }
    ensures ascii { OnOk result (IsAscii (verdicts_text verdicts.now names.now)) }
{
    for verdict in verdicts {
        write_verdict(out, names, verdict)?;
    }
    write_verdict_count(out, verdicts)
}

fn write_verdict_count(out: &mut Bytes, verdicts: &[Verdict]) -> Result<(), Mem>
    ensures { OnOk result (out.new ≡ out.old ++ verdict_count_line verdicts.now) }
{
    write_count(out, b"procedures: ", verdicts.len())?;
    write_count(out, b", clean: ", clean_count(verdicts))?;
    end_line(out)
}

// How many verdicts say that the procedure is clean.
fn clean_count(verdicts: &[Verdict]) -> usize
    ensures { result ≡ clean_count verdicts.now }
{
    verdicts
        .iter()
        .filter(|v| v.word == VerdictWord::Clean)
        .count()
}
