//! What is said of a procedure.

use up_base::Name;

/// Which part of a property a procedure is.
#[derive(Clone, Copy, Debug, PartialEq, Eq)]
pub enum Part {
    /// None: it is a Sub or a Function.
    Plain,
    /// A Property Get.
    GetPart,
    /// A Property Let.
    LetPart,
    /// A Property Set.
    SetPart,
}

/// How a procedure stands to the rules.
#[derive(Clone, Copy, Debug, PartialEq, Eq)]
pub enum VerdictWord {
    /// No line of it breaks a rule, and it reaches no line that does.
    Clean,
    /// A line from its head to its closing line breaks a rule.
    Flagged,
    /// It reaches a line that breaks a rule, and has none itself.
    Reaches,
}

/// The verdict on one procedure.
#[derive(Drop)]
pub struct Verdict {
    /// The number of its file, as in a place.
    pub file: u32,
    pub name: Name,
    pub part: Part,
    pub word: VerdictWord,
}
