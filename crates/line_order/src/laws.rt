//! That the lines of modules stand in the order of their numbers.
ghost use Rattle.std.specs.Prelude.{ℕ, List};
ghost use Rattle.vb_tree.specs.declared.project.Entry.{Entry};
ghost use Rattle.vb_tree.specs.Tree.{Module, Project};
ghost use Rattle.project_loader.specs.Held.{IsOfGrammar};
ghost use Rattle.project_loader.specs.Modules.{TextIsModule};
ghost use Rattle.line_order.specs.Order.{LinesAreInOrder, AreInOrder};

/// A law: in a module that is read from a text the lines stand in the order of their numbers.
#[tactic(auto)]
pub fn ordered_module()
    ensures { (entry : Entry) (number : ℕ) (text : List ℕ) (m : Module) → TextIsModule entry number text m → LinesAreInOrder m }
{}

/// A law: so it is in each module of a project of the grammar.
#[tactic(auto, using(crate::proofs::Projects::ordered_grammar))]
pub fn ordered_grammar()
    ensures { (P : Project) → IsOfGrammar P → AreInOrder P.modules }
{}
