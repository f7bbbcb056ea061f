//! The laws.
ghost use Rattle.run_matches.specs.Upgrades.{Upgrade};
ghost use Rattle.run_statements.specs.Written.{IsWritten, SameLines, SameRuns};

/// A law: clean procedures that are covered run the same as what is written for them.
#[tactic(auto, using(crate::proofs::Composed::same_runs))]
pub fn same_runs()
    ensures { (U : Upgrade) → IsWritten U → SameRuns U U.facts.marks }
{}

/// A law: lines that are clean by themselves and covered do the same.
#[tactic(auto, using(crate::proofs::Composed::same_lines))]
pub fn same_lines()
    ensures { (U : Upgrade) → IsWritten U → SameLines U U.facts.marks }
{}
