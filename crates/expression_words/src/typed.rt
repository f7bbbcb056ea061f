//! What binding makes of an expression: a bound expression, or none and why.
ghost use Rattle.std.specs.Prelude.{◌≡◌, ◌<◌, map, IfOk, OnOk};
ghost use Rattle.bound_tree.specs.Tree.{Exprs};
ghost use Rattle.bound_tree.specs.View.{exprs_of};
ghost use Rattle.expression_words.specs.Flaws as flaws;
ghost use Rattle.expression_words.specs.Flaws.{all_known, breaks, breaks_if, exprs_in, first_cause, flaw_of, flawed_by, flaws_of, is_known, lacks, no_flaw, together, with_known};
ghost use Rattle.expression_words.specs.View.{exprs_before, gathered_of, typed_of};

use bound_tree::{BoundExpr, Mention, RuleSet};
use std::alloc::Global;
use up_base::Mem;

/// Why an expression has no type.
#[derive(Clone, Copy, Debug, PartialEq, Eq)]
pub struct Flaw {
    /// The rules that it and its parts break.
    pub rules: RuleSet,
    /// The first declaration without a type that it uses.
    pub cause: Option<Mention>,
}

/// A bound expression, or an expression of type Unknown and why it has no type.
#[derive(Drop)]
pub enum Typed {
    Known(BoundExpr),
    Unknown(Flaw),
}

impl Flaw {
    /// None.
    pub fn new() -> Flaw
        ensures { result ≡ no_flaw }
    {
        Flaw {
            rules: RuleSet::new(),
            cause: None,
        }
    }

    /// That an expression breaks a rule.
    pub fn breaks(rule: u8) -> Flaw
        requires { rule < 32 }
        ensures { result ≡ breaks rule }
    {
        Flaw {
            rules: RuleSet::new().with(rule),
            cause: None,
        }
    }

    /// That an expression breaks a rule if a test holds.
    pub fn breaks_if(rule: u8, test: bool) -> Flaw
        requires { rule < 32 }
        ensures { result ≡ breaks_if rule test }
    {
        Flaw {
            rules: RuleSet::new().with_if(rule, test),
            cause: None,
        }
    }

    /// That an expression uses a declaration without a type.
    pub fn lacks(cause: Mention) -> Flaw
        ensures { result ≡ lacks cause }
    {
        Flaw {
            rules: RuleSet::new(),
            cause: Some(cause),
        }
    }

    /// The flaws of two parts, of which this is the first.
    pub fn together(self, other: Flaw) -> Flaw
        ensures { result ≡ together self other }
    {
        Flaw {
            rules: self.rules.union(other.rules),
            cause: first_cause(self.cause, other.cause),
        }
    }
}

fn first_cause(cause: Option<Mention>, other: Option<Mention>) -> Option<Mention>
    ensures { result ≡ first_cause cause other }
{
    match cause {
        Some(cause) => Some(cause),
        None => other,
    }
}

impl Typed {
    /// An expression that breaks a rule.
    pub fn breaks(rule: u8) -> Typed
        requires { rule < 32 }
        ensures { typed_of result ≡ flaws.unknown (breaks rule) }
    {
        Typed::Unknown(Flaw::breaks(rule))
    }

    /// Why it has no type, if it has none.
    pub fn flaw(&self) -> Flaw
        ensures { result ≡ flaw_of (typed_of self.now) }
    {
        match self {
            Typed::Known(_) => Flaw::new(),
            Typed::Unknown(flaw) => *flaw,
        }
    }

    pub fn is_known(&self) -> bool
        ensures { result ≡ is_known (typed_of self.now) }
    {
        match self {
            Typed::Known(_) => true,
            Typed::Unknown(_) => false,
        }
    }

    /// The same with a further rule, which leaves it without a type.
    pub fn flawed_by(self, rule: u8) -> Typed
        requires { rule < 32 }
        ensures { typed_of result ≡ flawed_by rule (typed_of self) }
    {
        Typed::Unknown(Flaw::breaks(rule).together(self.flaw()))
    }
}

fn all_known(items: &[Typed]) -> bool
    ensures { result ≡ all_known (map typed_of items.now) }
{
    for item in items {
        if !item.is_known() {
            return false;
        }
    }
    true
}

fn flaws_of(items: &[Typed]) -> Flaw
    ensures { result ≡ flaws_of (map typed_of items.now) }
{
    let mut flaw = Flaw::new();
    for item in items {
        flaw = flaw.together(item.flaw());
    }
    flaw
}

// Puts an expression behind others, if it has a type.
#[tactic(auto, using(crate::proofs::Pushes::expr_put))]
fn push_known(item: Typed, to: &mut Vec<BoundExpr>) -> Result<(), Mem>
    ensures { OnOk result ((more : Exprs) → exprs_before to.new.items more ≡ exprs_before to.old.items (with_known (typed_of item) more)) }
{
    match item {
        Typed::Known(e) => Ok(to.push(e)?),
        Typed::Unknown(_) => Ok(()),
    }
}

fn exprs_in(alloc: Global, items: Vec<Typed>) -> Result<Vec<BoundExpr>, Mem>
    ensures { IfOk result (λ v. exprs_of v.items ≡ exprs_in (map typed_of items.items)) }
{
    let mut exprs = Vec::new(alloc);
    for item in items {
        push_known(item, &mut exprs)?;
    }
    Ok(exprs)
}

/// The expressions, where all of them have a type, and else why some have none.
pub(crate) fn gathered(
    alloc: Global,
    items: Vec<Typed>,
) -> Result<Result<Vec<BoundExpr>, Flaw>, Mem>
    ensures { IfOk result (λ r. gathered_of r ≡ flaws.gathered (map typed_of items.items)) }
{
    if all_known(&items) {
        Ok(Ok(exprs_in(alloc, items)?))
    } else {
        Ok(Err(flaws_of(&items)))
    }
}
