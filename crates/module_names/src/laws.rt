//! That names are identifiers, that comments and lines can stand in comments, and that lines are within the limits of the
//! grammar.
ghost use Rattle.std.specs.Prelude.{◌≡◌, ℕ, List, true};
ghost use Rattle.std.specs.List.{list_all};
ghost use Rattle.up_base.specs.Outside.{Files};
ghost use Rattle.vb_tree.specs.declared.project.Entry.{Entry};
ghost use Rattle.vb_tree.specs.ProjectLines.{is_module_name};
ghost use Rattle.vb_tree.specs.Tree.{Module, Project};
ghost use Rattle.project_loader.specs.Held.{HeldProject, IsOfGrammar};
ghost use Rattle.project_loader.specs.Modules.{TextIsModule};
ghost use Rattle.project_loader.specs.Texts.{decoded};
ghost use Rattle.module_names.specs.Limits.{is_shallow_module};
ghost use Rattle.module_names.specs.Named.{is_named_module};
ghost use Rattle.module_names.specs.Texts.{are_single};

/// A law: bytes stand for units that are characters by themselves.
#[tactic(auto, using(crate::proofs::Units::decoded_singly))]
pub fn decoded_singly()
    ensures { (bytes : List ℕ) → are_single (decoded bytes) ≡ true }
{}

/// A law: in a module that is read from a text of such units, for an entry with the name of a module, that name and the
/// names of Subs and of declared variables are identifiers, and the comments and the texts of lines can stand in comments.
#[tactic(auto)]
pub fn named_module()
    ensures { (entry : Entry) (number : ℕ) (text : List ℕ) (m : Module) → is_module_name entry.name ≡ true → are_single text ≡ true
        → TextIsModule entry number text m → is_named_module m ≡ true }
{}

/// A law: so it is in each module of a project that a folder holds.
#[tactic(auto)]
pub fn named_project()
    ensures { (files : Files) (name : List ℕ) (P : Project) → HeldProject files name P → list_all is_named_module P.modules ≡ true }
{}

/// A law: and in each module of a project of the grammar.
#[tactic(auto)]
pub fn named_grammar()
    ensures { (P : Project) → IsOfGrammar P → list_all is_named_module P.modules ≡ true }
{}

/// A law: in each module of a project of the grammar, the expressions of assignments and of prints are at most 64 deep, and
/// a print has at most 64 items.
#[tactic(auto)]
pub fn shallow_grammar()
    ensures { (P : Project) → IsOfGrammar P → list_all is_shallow_module P.modules ≡ true }
{}
