//! The flags of quiet parameters.
ghost use Rattle.bound_facts.specs.Facts.{Known};
ghost use Rattle.bound_tree.specs.declared.facts.RefFacts.{RefFacts};
ghost use Rattle.bound_tree.specs.Tree.{Program};
ghost use Rattle.byref_analysis.specs.Rows.{AreFound};
ghost use Rattle.analysis_laws.specs.Quiet.{IsQuietRead};

/// The rule on fixed strings reads from what is found of references exactly which parameters are quiet.
pub fn quiet_is_read()
    ensures { (P : Program) (F : Known) (f : RefFacts) → AreFound P F f → IsQuietRead P F f }
{}
