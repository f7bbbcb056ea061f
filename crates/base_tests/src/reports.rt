//! Reports with verdicts, which no run writes yet, and the texts of all rules.
ghost use Rattle.std.specs.Prelude.{◌<◌, length, IsSome, IsTrue};
ghost use Rattle.std.specs.List.{All};
ghost use Rattle.issue_report.specs.Texts.{rule_text};

use issue_report::{Part, Verdict, VerdictWord, report2, rule_text};
use std::alloc::Global;
use std::process::Abort;
use std::test::Fail;
use up_base::{Issue, Issues, Name, Names, Place};

// A file's number, a line and a rule.
type IssueRow = (u32, u32, u8);

// A file's number, a procedure's name and what is said of it.
type VerdictRow = (u32, &'static str, Part, VerdictWord);

const ISSUES: [IssueRow; 6] = [
    (0, 0, 23),
    (1, 3, 9),
    (1, 3, 26),
    (1, 12, 1),
    (2, 4_294_967_295, 26),
    (3, 10, 7),
];

const VERDICTS: [VerdictRow; 5] = [
    (1, "Main", Part::Plain, VerdictWord::Flagged),
    (2, "Save", Part::Plain, VerdictWord::Reaches),
    (3, "Amount", Part::GetPart, VerdictWord::Clean),
    (3, "Amount", Part::LetPart, VerdictWord::Flagged),
    (3, "Owner", Part::SetPart, VerdictWord::Clean),
];

const OFFICE_LINES: &str = concat!(
    "Office.vbp(0): U23 project line not carried over\r\n",
    "Main1.bas(3): U09 array bounds not constant or not one\r\n",
    "Main1.bas(3): U26 order of effects\r\n",
    "Main1.bas(12): U01 floating or date type or literal\r\n",
    "Files.bas(4294967295): U26 order of effects\r\n",
    "InvLine.cls(10): U07 property shape\r\n",
    "issues: 6\r\n",
);

const OFFICE_VERDICTS: &str = concat!(
    "Main1.bas Main: flagged\r\n",
    "Files.bas Save: reaches\r\n",
    "InvLine.cls Amount Get: clean\r\n",
    "InvLine.cls Amount Let: flagged\r\n",
    "InvLine.cls Owner Set: clean\r\n",
    "procedures: 5, clean: 2\r\n",
);

fn names(alloc: Global) -> Result<Names, Fail> {
    let mut names = Names::new(alloc);
    for name in ["Office.vbp", "Main1.bas", "Files.bas", "InvLine.cls"] {
        names.push(Name::make(alloc, name.as_bytes())?)?;
    }
    Ok(names)
}

fn issues(rt: &impl Abort, alloc: Global, rows: &[IssueRow]) -> Result<Issues, Fail> {
    let mut issues = Issues::new(alloc);
    for (file, line, rule) in rows {
        let place = Place {
            file: *file,
            line: *line,
        };
        let issue = Issue { place, rule: *rule };
        assert!(rt; issues.is_last_before(issue));
        issues.push(issue)?;
    }
    Ok(issues)
}

fn verdicts(alloc: Global, rows: &[VerdictRow]) -> Result<Vec<Verdict>, Fail> {
    let mut verdicts = Vec::new(alloc);
    for (file, name, part, word) in rows {
        verdicts.push(Verdict {
            file: *file,
            name: Name::make(alloc, name.as_bytes())?,
            part: *part,
            word: *word,
        })?;
    }
    Ok(verdicts)
}

fn are_named(issues: &[Issue], names: &Names) -> bool
    ensures { IsTrue result → All (λ i. i.place.file < length names.now) issues.now }
{
    issues.iter().all(|i| (i.place.file as usize) < names.len())
}

fn have_texts(issues: &[Issue]) -> bool
    ensures { IsTrue result → All (λ i. IsSome (rule_text i.rule)) issues.now }
{
    issues.iter().all(|i| rule_text(i.rule).is_some())
}

fn verdicts_are_named(verdicts: &[Verdict], names: &Names) -> bool
    ensures { IsTrue result → All (λ v. v.file < length names.now) verdicts.now }
{
    verdicts.iter().all(|v| (v.file as usize) < names.len())
}

#[test]
fn writes_reports_with_verdicts(rt: HostRuntime) -> Result<(), Fail> {
    let alloc = rt.alloc();
    let names = names(alloc)?;
    let rows: [(&[IssueRow], &[VerdictRow], &str, &str); 3] = [
        (&[], &[], "issues: 0\r\n", "procedures: 0, clean: 0\r\n"),
        (
            &[],
            &[(1, "Main", Part::Plain, VerdictWord::Clean)],
            "issues: 0\r\n",
            "Main1.bas Main: clean\r\nprocedures: 1, clean: 1\r\n",
        ),
        (&ISSUES, &VERDICTS, OFFICE_LINES, OFFICE_VERDICTS),
    ];
    for (issue_rows, verdict_rows, issue_text, verdict_text) in rows {
        let issues = issues(&rt, alloc, issue_rows)?;
        let verdicts = verdicts(alloc, verdict_rows)?;
        assert!(rt; are_named(issues.as_slice(), &names));
        assert!(rt; have_texts(issues.as_slice()));
        assert!(rt; verdicts_are_named(&verdicts, &names));
        let report = report2(alloc, &issues, &names, &verdicts)?;
        let expected = format!(in alloc; "Upgrade report 2\r\n{issue_text}{verdict_text}")?;
        assert_eq!(rt; report.as_slice(), expected.as_bytes());
    }
    Ok(())
}

#[test]
fn has_a_text_for_each_rule(rt: HostRuntime) {
    let texts: [(u8, &str); 26] = [
        (1, "floating or date type or literal"),
        (2, "operator not translated"),
        (3, "name not declared"),
        (4, "statement not translated"),
        (5, "Variant value not translated"),
        (6, "member not known before the run"),
        (7, "property shape"),
        (8, "reference argument does not fit"),
        (9, "array bounds not constant or not one"),
        (10, "element may be locked"),
        (11, "array or type form not translated"),
        (12, "fixed string static, in an array or by reference"),
        (13, "Class_Terminate has no fixed time"),
        (14, "block head may raise in a resumable procedure"),
        (15, "jump not allowed"),
        (16, "member name reserved"),
        (17, "Option Compare Text"),
        (18, "argument form not translated"),
        (19, "Err member not translated"),
        (20, "name declared twice or ambiguous"),
        (21, "conversion not translated"),
        (22, "operand type not translated"),
        (23, "project line not carried over"),
        (24, "As New in an array, by reference or in With"),
        (25, "constant out of range"),
        (26, "order of effects"),
    ];
    for (rule, text) in texts {
        assert!(rt; rule_text(rule) == Some(text.as_bytes()), "U{rule:02}");
    }
    for rule in [0, 27, 99, 255] {
        assert!(rt; rule_text(rule).is_none(), "U{rule:02}");
    }
}
