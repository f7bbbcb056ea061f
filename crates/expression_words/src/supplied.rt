//! Arguments as they stand in the source.
ghost use Rattle.std.specs.Prelude.{◌≡◌, map};
ghost use Rattle.expression_words.specs.Passing.{is_left_out, is_worded, slack, value_flaw, with_slack};
ghost use Rattle.expression_words.specs.View.{supplied_of, value_of};

use crate::{Flaw, Typed};

/// An argument of a call.
#[derive(Drop)]
pub struct Supplied {
    /// Whether a name and `:=` stand before it.
    pub named: bool,
    /// Whether `ByVal` or `#` stands before it.
    pub marked: bool,
    /// Whether the whole of it stands in parentheses.
    pub parenthesised: bool,
    /// Its value, and none where it is left out.
    pub value: Option<Typed>,
}

fn value_flaw(value: &Option<Typed>) -> Flaw
    ensures { result ≡ value_flaw (value_of value.now) }
{
    match value {
        Some(value) => value.flaw(),
        None => Flaw::new(),
    }
}

fn is_left_out(value: &Option<Typed>) -> bool
    ensures { result ≡ is_left_out (value_of value.now) }
{
    match value {
        Some(_) => false,
        None => true,
    }
}

impl Supplied {
    /// Whether a name, `ByVal` or `#` stands before it.
    pub(crate) fn is_worded(&self) -> bool
        ensures { result ≡ is_worded (supplied_of self.now) }
    {
        self.named || self.marked
    }

    /// The flaw of its value.
    pub(crate) fn value_flaw(&self) -> Flaw
        ensures { result ≡ value_flaw (supplied_of self.now).value }
    {
        value_flaw(&self.value)
    }

    /// What it breaks wherever it stands.
    pub(crate) fn slack(&self) -> Flaw
        ensures { result ≡ slack (supplied_of self.now) }
    {
        let breaks = self.is_worded() || is_left_out(&self.value);
        Flaw::breaks_if(18, breaks).together(self.value_flaw())
    }
}

/// What an expression without a type breaks beside, with these arguments.
pub(crate) fn with_slack(flaw: Flaw, args: &[Supplied]) -> Flaw
    ensures { result ≡ with_slack flaw (map supplied_of args.now) }
{
    let mut flaw = flaw;
    for arg in args {
        flaw = flaw.together(arg.slack());
    }
    flaw
}
