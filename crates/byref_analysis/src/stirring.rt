//! Uses that are stirring.
ghost use Rattle.std.specs.Prelude.{◌≡◌};
ghost use Rattle.bound_tree.specs.View.{declarations_of, expr_of};
ghost use Rattle.bound_facts.specs.Facts.{some_is, stirs};
ghost use Rattle.reach_table.specs.Chains.{is_marked};
ghost use Rattle.byref_analysis.specs.FactsOf.{known_of};

use crate::calls::initialized;
use crate::facts::Facts;
use crate::node::asks;
use crate::numbers::{flag_at, flag_of};
use bound_facts::{NodeTest, called};
use bound_tree::{BoundExpr, Declared};

fn calls_outward(facts: &Facts, p: Option<u32>) -> bool
    ensures { result ≡ some_is (known_of facts.now).outward p }
{
    match p {
        Some(p) => flag_at(&facts.outward, p as usize),
        None => false,
    }
}

fn stirs(declared: &Declared, facts: &Facts, e: &BoundExpr) -> bool
    ensures { result ≡ stirs (declarations_of declared.now) (known_of facts.now) (expr_of e.now) }
{
    calls_outward(facts, called(e)) || flag_of(&facts.unplain, initialized(declared, e)) || asks(e)
}

/// The test whether a node is a stirring use.
#[derive(Clone, Copy)]
pub(crate) struct Stirring<'a> {
    pub declared: &'a Declared,
    pub facts: &'a Facts,
}

impl NodeTest for Stirring<'_> {
    ghost test = { λ s e. stirs (declarations_of s.declared.now) (known_of s.facts.now) e };

    fn holds(&self, e: &BoundExpr) -> bool {
        stirs(self.declared, self.facts, e)
    }
}
