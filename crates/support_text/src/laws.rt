//! Laws of the module of support functions.
ghost use Rattle.std.specs.Prelude.{List, Bool};
ghost use Rattle.net_tree.specs.Tree.{Module};
ghost use Rattle.support_text.specs.declared.row.SupportRow.{SupportRow};
ghost use Rattle.support_text.specs.Needs.{IsLeast, needed, CanBeWritten, support_module};

/// A law: the needed functions are the least set that has those that are used, and with a function those that it calls.
pub fn needed_are_the_least()
    ensures { (used : SupportRow → Bool) → IsLeast used (needed used) }
{}

/// A law: the module of the support functions of any modules can be written beside them.
#[tactic(auto, using(crate::proofs::Writable::support_can))]
pub fn support_can_be_written()
    ensures { (modules : List Module) → CanBeWritten (support_module modules) }
{}
