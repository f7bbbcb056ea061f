//! What is made of a project is what the laws on runs are said of.
ghost use Rattle.std.specs.Prelude.{◌≡◌, ℕ, ◌↔◌, Bool, true, Some, List, [], ◌∷◌, slice_get};
ghost use Rattle.std.specs.List.{Contains, list_any};
ghost use Rattle.up_base.specs.declared.issue.Issue.{Issue};
ghost use Rattle.up_base.specs.Outside.{Files};
ghost use Rattle.vb_tree.specs.BoundTree.{Ty};
ghost use Rattle.vb_tree.specs.declared.declared.VarId.{VarId};
ghost use Rattle.vb_tree.specs.Tree.{Project};
ghost use Rattle.bound_tree.specs.declared.body.Bound.{Bound};
ghost use Rattle.bound_tree.specs.declared.marks.Marks.{Marks};
ghost use Rattle.bound_tree.specs.Tree.{Line, Program, typed, variable};
ghost use Rattle.bound_tree.specs.View.{program_of};
ghost use Rattle.bound_facts.specs.Clean.{IsClean};
ghost use Rattle.bound_facts.specs.Nodes.{line_nodes};
ghost use Rattle.broken_rules.specs.Broken.{AreBroken};
ghost use Rattle.broken_rules.specs.View.{IsBoundTo};
ghost use Rattle.clean_procedures.specs.Verdicts.{IsCleanByAll};
ghost use Rattle.written_trees.specs.Facts.{Facts};
ghost use Rattle.written_facts.specs.United.{AreUnited};
ghost use Rattle.vb6_run.specs.Programs.{is_local_of, is_static_of, owned_from};
ghost use Rattle.project_loader.specs.Held.{HeldProject, IsOfGrammar};
ghost use Rattle.project_upgrade.specs.declared.upgrade.Upgraded.{Upgraded};
ghost use Rattle.project_upgrade.specs.Upgrades.{AreFactsOf, IsUpgraded};
ghost use Rattle.run_matches.specs.CleanLines.{IsCleanLine};
ghost use Rattle.run_matches.specs.CoveredVariables.{is_mention_of};
ghost use Rattle.run_matches.specs.Sites.{Site, owns_of, site_of, variable_numbers};
ghost use Rattle.run_statements.specs.Written.{HasBody, HasQuietForms, PartsStandTogether};
ghost use Rattle.upgrade_laws.specs.Mentioned.{MentionsVariables};
ghost use Rattle.upgrade_laws.specs.Ordered.{AreOrderly};
ghost use Rattle.upgrade_laws.specs.Separate.{HaveDifferentFiles};
ghost use Rattle.upgrade_laws.specs.Upgrades.{Parts, UpgradeOf};

/// A law: the lines that are bound in each procedure of a bound project are its code lines.
pub fn bodies_are_bound()
    ensures { (P : Project) (b : Bound) → IsBoundTo P b → (p : ℕ) (s : Site) → site_of (program_of b).declarations p ≡ Some s
        → HasBody (program_of b) p s }
{}

/// A law: by the facts of a program no code line of a procedure breaks a rule by its form alone.
pub fn forms_are_quiet()
    ensures { (P : Program) (ms : List Marks) (F : Facts) → AreFactsOf P ms F → HaveDifferentFiles P.declarations.project.modules
        → (p : ℕ) (s : Site) → site_of P.declarations p ≡ Some s → HasQuietForms F s }
{}

/// A law: the modules of a project that a folder holds stand in different files.
pub fn held_files_differ()
    ensures { (files : Files) (name : List ℕ) (P : Project) → HeldProject files name P → HaveDifferentFiles P.modules }
{}

/// A law: so do those of a project of the grammar.
pub fn read_files_differ()
    ensures { (P : Project) → IsOfGrammar P → HaveDifferentFiles P.modules }
{}

/// A law: a procedure is clean by the marks of passes together exactly where it is clean by those of each. There has to be a pass, since an
/// Option line breaks its rule whatever is marked.
pub fn marks_are_united()
    ensures { (P : Program) (g : Marks) (ms : List Marks) (m : Marks) → AreUnited (g ∷ ms) m → (p : ℕ) → IsCleanByAll P (g ∷ ms) p ↔ IsClean P m p }
{}

/// A law: a line is clean by the marks of passes together where it is clean by those of each.
pub fn lines_are_clean()
    ensures { (P : Program) (g : Marks) (ms : List Marks) (m : Marks) → AreUnited (g ∷ ms) m → (p number : ℕ)
        → ((x : Marks) → Contains (g ∷ ms) x → IsCleanLine P x p number) → IsCleanLine P m p number }
{}

/// A law: the parts of a property of a bound project whose modules are in order stand in the module of its first part.
pub fn parts_stand_together()
    ensures { (P : Project) (b : Bound) → IsBoundTo P b → AreOrderly P.modules → PartsStandTogether (program_of b).declarations }
{}

/// A law: what is made of a project whose modules are in order is written for its lines, and the procedures that are clean by the marks of all
/// passes together are those that are counted.
pub fn upgrade_is_written()
    ensures { (P : Project) (u : Upgraded) → IsUpgraded P u → AreOrderly P.modules → UpgradeOf P u }
{}

/// A law: so is what is made of a project of the grammar.
pub fn grammar_is_written()
    ensures { (P : Project) (u : Upgraded) → IsOfGrammar P → IsUpgraded P u → UpgradeOf P u }
{}

/// A law: what is made of a project of the grammar is written by the marks of the rules that the project breaks.
pub fn translation_parts()
    ensures { (P : Project) (u : Upgraded) → IsOfGrammar P → IsUpgraded P u → Parts P u }
{}

/// A law: the rules that a project breaks are found in a program of this project.
pub fn broken_project()
    ensures { (P : Project) (issues : List Issue) (b : AreBroken P issues) → b.program.declarations.project ≡ P }
{}

/// A law: a bound line mentions the variables in its expressions.
pub fn mentions_have_variables()
    ensures { (P : Project) (b : Bound) → IsBoundTo P b → (p n : ℕ) (lines : List Line) (l : Line) → slice_get (program_of b).bodies p ≡ Some lines
        → slice_get lines n ≡ Some l → MentionsVariables l }
{}

/// A law: so the test for them passes.
pub fn uses_are_mentioned()
    ensures { (l : Line) → MentionsVariables l → (v : VarId) (ty : Ty) (qualified : Bool) → Contains (line_nodes l) (typed ty (variable v qualified))
        → list_any (is_mention_of v) l.bindings.mentions ≡ true }
{}

/// A law: in a project whose modules are in order, a procedure without Statics owns the variables that its lines declare, and behind them those
/// that no line declares, at the lines of their first uses.
pub fn own_variables_are_declared()
    ensures { (P : Project) (b : Bound) → IsBoundTo P b → AreOrderly P.modules → (p : ℕ) (s : Site) → site_of (program_of b).declarations p ≡ Some s
        → owned_from (is_static_of p) 0 (program_of b).declarations.vars ≡ []
        → variable_numbers (owns_of (program_of b).declarations s) ≡ owned_from (is_local_of p) 0 (program_of b).declarations.vars }
{}

/// A law: the modules of a project that a folder holds are in order.
pub fn held_modules_are_orderly()
    ensures { (files : Files) (name : List ℕ) (P : Project) → HeldProject files name P → AreOrderly P.modules }
{}

/// A law: so are those of a project of the grammar.
pub fn read_modules_are_orderly()
    ensures { (P : Project) → IsOfGrammar P → AreOrderly P.modules }
{}
