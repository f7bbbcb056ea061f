//! Where something is written, with what each statement declares.
ghost use Rattle.std.specs.Prelude.{◌≡◌, ℕ, map};
ghost use Rattle.written_rows.specs.View.{facts_of, scope_of};
ghost use Rattle.written_trees.specs.Bodies.{inside_procedure};
ghost use Rattle.written_trees.specs.Facts.{constant_set, variable_set};
ghost use Rattle.written_trees.specs.Prologues.{constants_of, statement_set, union, variables_of};
ghost use Rattle.bound_tree.specs.Tree.{Constant, Variable};
ghost use Rattle.written_members.specs.Shown.{constant_shown, variable_shown};
ghost use Rattle.written_members.specs.View.{IsSite, scope_at};

use crate::statements::{ConstRef, Statements, VarRef};
use bound_tree::RuleSet;
use written_rows::{Scope, WrittenFacts};

/// Where something is written.
#[derive(Clone, Copy)]
pub struct Site<'a> {
    /// What the project declares, by statements.
    pub statements: &'a Statements<'a>,
    pub facts: &'a WrittenFacts,
    /// The file number of the module.
    pub file: u32,
    /// The procedure, where it is in one.
    pub procedure: Option<u32>,
}

impl<'a> Site<'a> {
    /// The same place without the statements.
    pub fn scope(&self) -> Scope<'a>
        ensures { scope_of result ≡ scope_at self.now }
    {
        Scope {
            declared: self.statements.declared(),
            facts: self.facts,
            file: self.file,
            procedure: self.procedure,
        }
    }

    /// The same module, in a procedure.
    pub fn inside(&self, procedure: u32) -> Site<'a>
        ensures scope { scope_at result ≡ inside_procedure (scope_at self.now) procedure }
        ensures noted { IsSite self.now → IsSite result }
    {
        Site {
            statements: self.statements,
            facts: self.facts,
            file: self.file,
            procedure: Some(procedure),
        }
    }

    /// The variables that a statement of the module declares.
    pub fn variables(&self, number: u32) -> &'a [VarRef<'a>]
        requires { IsSite self.now }
        ensures { map variable_shown result.now ≡ variables_of (scope_at self.now).declarations self.now.file number }
    {
        self.statements.variables(self.file, number)
    }

    /// The constants that a statement of the module declares.
    pub fn constants(&self, number: u32) -> &'a [ConstRef<'a>]
        requires { IsSite self.now }
        ensures { map constant_shown result.now ≡ constants_of (scope_at self.now).declarations self.now.file number }
    {
        self.statements.constants(self.file, number)
    }

    /// The rules that a statement of the module breaks, and those of what it declares.
    pub fn rules(&self, number: u32) -> RuleSet
        requires { IsSite self.now }
        ensures { result ≡ statement_set (scope_at self.now).declarations (scope_at self.now).facts self.now.file number }
    {
        let vars = variable_rules(self.facts, self.variables(number));
        let consts = constant_rules(self.facts, self.constants(number));
        self.facts
            .statement(self.file, number)
            .union(vars.union(consts))
    }
}

#[tactic(auto, using(crate::proofs::Unions::none_first))]
fn variable_rules(facts: &WrittenFacts, vars: &[VarRef]) -> RuleSet
    ensures { result ≡ union (map (λ (v : ℕ × Variable). variable_set (facts_of facts.now) v.0) (map variable_shown vars.now)) }
{
    let mut rules = RuleSet::new();
    for v in vars {
        rules = rules.union(facts.variable_set(v.number));
    }
    rules
}

#[tactic(auto, using(crate::proofs::Unions::none_first))]
fn constant_rules(facts: &WrittenFacts, consts: &[ConstRef]) -> RuleSet
    ensures { result ≡ union (map (λ (c : ℕ × Constant). constant_set (facts_of facts.now) c.0) (map constant_shown consts.now)) }
{
    let mut rules = RuleSet::new();
    for c in consts {
        rules = rules.union(facts.constant_set(c.number));
    }
    rules
}
