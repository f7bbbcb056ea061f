//! How a run ends, and what is said of it.
ghost use Rattle.std.specs.Prelude.{◌≡◌, ◌+◌, ◌<◌, ◌≤◌, ◌^◌, [], ◌∷◌, ◌++◌, codes, length, unwrap_or};
ghost use Rattle.std.specs.Fmt.{decimal};
ghost use Rattle.wizard_cli.specs.declared.answer.Answer.TheVariants.{OutOfMemory};
ghost use Rattle.issue_report.specs.Reports.{numbered_rule};
ghost use Rattle.issue_report.specs.Texts.{rule_text};
ghost use Rattle.wizard_cli.specs.Answers.{said_of, two_digits, fault_line, numbers_line, rule_lines, answer_line, answer_text, done_status, status_of, answer_to};

use crate::message::{Message, push_number, push_text};
use issue_report::{fault_text, rule_text};
use project_loader::LoadFail;
use up_base::{Fault, Mem, Name};

/// How a run ended. The numbers of the statuses are 0 to 8, in this order.
#[derive(Clone, Copy, Debug, PartialEq, Eq)]
pub enum Status {
    /// All was done, and there is no issue.
    Done,
    /// All was done, and there are issues.
    DoneWithIssues,
    /// The command words are of no form.
    BadWords,
    /// The project has a fault.
    Refused,
    /// The folder failed.
    ReadFault,
    /// The outlet failed.
    WriteFault,
    /// The console failed.
    ConsoleFault,
    /// Memory was wanted.
    OutOfMemory,
    /// A file differs from what would be written.
    Differs,
}

/// What there is in a generated project.
#[derive(Clone, Copy, Debug, PartialEq, Eq)]
pub struct Numbers {
    pub modules: u32,
    pub procedures: usize,
    pub issues: usize,
    /// How many procedures are clean.
    pub clean: usize,
}

/// The outcome of a run before it is said.
#[derive(Drop)]
pub enum Answer {
    /// All was written, and there are so many issues.
    Done(usize),
    /// All stands there as it would be written, and there are so many issues.
    Same(usize),
    /// The first file that doesn't stand there as it would be written.
    Differs(Name),
    /// A generated project was translated.
    Made(Numbers),
    /// The rules are listed.
    Rules,
    BadWords,
    /// The settings file that is absent, too long or not of its form.
    SettingsRefused(Name),
    /// A fault, and the name of the file that it is said of.
    Refused(Name, Fault),
    /// The file that could not be read.
    ReadFault(Name),
    /// The file that could not be written.
    WriteFault(Name),
    OutOfMemory,
}

impl From<Mem> for Answer {
    ghost from_gives = { λ _ answer. answer ≡ OutOfMemory };

    fn from(_: Mem) -> Answer {
        Answer::OutOfMemory
    }
}

impl Answer {
    ghost use Rattle.wizard_cli.specs.Answers.{answer_text, status_of};

    /// The status of the outcome.
    pub(crate) fn status(&self) -> Status
        ensures { result ≡ status_of self.now }
    {
        match self {
            Answer::Done(issues) => done_status(*issues),
            Answer::Same(issues) => done_status(*issues),
            Answer::Differs(_) => Status::Differs,
            Answer::Made(numbers) => done_status(numbers.issues),
            Answer::Rules => Status::Done,
            Answer::BadWords => Status::BadWords,
            Answer::SettingsRefused(_) => Status::BadWords,
            Answer::Refused(_, _) => Status::Refused,
            Answer::ReadFault(_) => Status::ReadFault,
            Answer::WriteFault(_) => Status::WriteFault,
            Answer::OutOfMemory => Status::OutOfMemory,
        }
    }

    /// What is said of the outcome. It takes no memory.
    pub(crate) fn message(&self) -> Message
        ensures { result ≡ answer_text self.now }
    {
        let mut message = Message::new();
        push_answer(&mut message, self);
        message.push(b'\n');
        message
    }
}

// The status of a run that is done, by the number of issues.
fn done_status(issues: usize) -> Status
    ensures { result ≡ done_status issues }
{
    match issues {
        0 => Status::Done,
        _ => Status::DoneWithIssues,
    }
}

/// What is answered where a project was not loaded.
pub(crate) fn answer_to(fail: LoadFail) -> Answer
    ensures { result ≡ answer_to fail }
{
    match fail {
        LoadFail::Refused(name, fault) => Answer::Refused(name, fault),
        LoadFail::Failed(name) => Answer::ReadFault(name),
        LoadFail::Mem => Answer::OutOfMemory,
    }
}

// What is said of an outcome, without the line feed at the end.
fn push_answer(message: &mut Message, answer: &Answer)
    requires { message.old ≡ [] }
    ensures line { message.new ≡ answer_line answer.now }
    ensures short { length message.new < 1024 }
{
    match answer {
        Answer::Done(issues) => push_count(message, b"issues: ", *issues),
        Answer::Same(issues) => push_count(message, b"same, issues: ", *issues),
        Answer::Differs(name) => push_named(message, b"differs: ", name),
        Answer::Made(numbers) => push_numbers(message, *numbers),
        Answer::Rules => push_rules(message),
        Answer::BadWords => push_text(
            message,
            b"usage: vbup upgrade FILE.vbp, check FILE.vbp, make N, rules",
        ),
        Answer::SettingsRefused(name) => push_named(message, b"settings refused: ", name),
        Answer::Refused(name, fault) => push_fault(message, name, *fault),
        Answer::ReadFault(name) => push_named(message, b"cannot read ", name),
        Answer::WriteFault(name) => push_named(message, b"cannot write ", name),
        Answer::OutOfMemory => push_text(message, b"out of memory"),
    }
}

// How many issues there are, behind a text.
fn push_count(message: &mut Message, text: &[u8], issues: usize)
    requires empty { message.old ≡ [] }
    requires short_text { length text.now ≤ 18 }
    ensures line { message.new ≡ text.now ++ decimal issues }
    ensures short { length message.new < 1024 }
{
    push_text(message, text);
    push_number(message, issues as u64);
}

// What there is in a generated project.
fn push_numbers(message: &mut Message, numbers: Numbers)
    requires empty { message.old ≡ [] }
    ensures line { message.new ≡ numbers_line numbers }
    ensures short { length message.new < 1024 }
{
    push_text(message, b"modules ");
    push_number(message, numbers.modules as u64);
    push_text(message, b", procedures ");
    push_number(message, numbers.procedures as u64);
    push_text(message, b", issues ");
    push_number(message, numbers.issues as u64);
    push_text(message, b", clean ");
    push_number(message, numbers.clean as u64);
}

// All rules, each in a line of its own.
fn push_rules(message: &mut Message)
    requires empty { message.old ≡ [] }
    ensures lines { message.new ≡ rule_lines }
    ensures short { length message.new < 1024 }
{
    push_rule(message, 1);
    for k in 0..25 {
        message.push(b'\n');
        push_rule(message, k + 2);
    }
}

// The number and the text of a rule.
fn push_rule(message: &mut Message, rule: u8)
    requires number { rule ≤ 26 }
    requires room { length message.old + length (numbered_rule rule) ≤ 1024 }
    ensures rule { message.new ≡ message.old ++ numbered_rule rule }
{
    push_text(message, b"U");
    message.push(48 + rule / 10);
    message.push(48 + rule % 10);
    push_text(message, b" ");
    push_text(message, text_of_rule(rule));
}

// What is broken, by the number of a rule.
fn text_of_rule(rule: u8) -> &'static [u8]
    ensures { result.now ≡ unwrap_or (rule_text rule) [] }
{
    match rule_text(rule) {
        Some(text) => text,
        None => b"",
    }
}

fn push_named(message: &mut Message, text: &[u8], name: &Name)
    requires empty { message.old ≡ [] }
    requires short_text { length text.now ≤ 18 }
    ensures line { message.new ≡ text.now ++ name.now }
    ensures short { length message.new < 1024 }
{
    push_text(message, text);
    push_text(message, name.as_bytes());
}

// The fault in the file of this name.
fn push_fault(message: &mut Message, name: &Name, fault: Fault)
    requires { message.old ≡ [] }
    ensures line { message.new ≡ fault_line name.now fault }
    ensures short { length message.new < 1024 }
{
    push_text(message, name.as_bytes());
    push_text(message, b"(");
    push_number(message, fault.place.line as u64);
    push_text(message, b"): F");
    message.push(48 + fault.kind / 10);
    message.push(48 + fault.kind % 10);
    push_text(message, b" ");
    push_text(message, said_of(fault.kind));
}

// What is wrong, by the number of a fault.
fn said_of(kind: u8) -> &'static [u8]
    ensures text { result.now ≡ said_of kind }
    ensures short { length result.now ≤ 34 }
{
    match fault_text(kind) {
        Some(text) => text,
        None => b"",
    }
}
