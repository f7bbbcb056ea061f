//! What is kept in what is written.
ghost use Rattle.std.specs.Prelude.{◌≡◌, ℕ, suc, true, Some, slice_get};
ghost use Rattle.bound_tree.specs.Tree.{Line, Procedure};
ghost use Rattle.bound_facts.specs.Clean.{IsClean};
ghost use Rattle.run_base.specs.Machines.{nth_line};
ghost use Rattle.written_trees.specs.Bodies.{inside_procedure};
ghost use Rattle.written_trees.specs.Names.{Scope};
ghost use Rattle.run_matches.specs.CleanLines.{IsCleanLine, lines_at};
ghost use Rattle.run_matches.specs.CoveredExprs.{uses_in};
ghost use Rattle.run_matches.specs.CoveredLines.{covers_line};
ghost use Rattle.run_matches.specs.Covered.{IsCoveredLine, covers_procedure};
ghost use Rattle.run_matches.specs.Sites.{Site, site_of};
ghost use Rattle.run_matches.specs.Upgrades.{Upgrade};
ghost use Rattle.run_statements.specs.Frames.{AreReadable};
ghost use Rattle.run_statements.specs.Kept.{IsUnreplaced, NamesAreOpen, OwnsAreKept, StoresAreOwn, UsesArePlaced};
ghost use Rattle.run_statements.specs.Objects.{ClassesAreWritten};
ghost use Rattle.run_statements.specs.Written.{IsWritten, WrittenProcedure, site_scope};
ghost use Rattle.name_laws.specs.Objects.{AutosAreFound, ClassesAreFound, InitializersAreFound, NothingInitializes};

/// A law: where nothing is named as the support module or the library is, their names lead to them.
pub fn names_are_open()
    ensures { (U : Upgrade) → IsWritten U → NamesAreOpen U }
{}

/// A law: what a clean, covered procedure declares is written as it is declared.
pub fn owns_are_kept()
    ensures { (U : Upgrade) → IsWritten U → (p : ℕ) (s : Site) (x : Procedure) → site_of U.program.declarations p ≡ Some s
        → slice_get U.program.declarations.procs p ≡ Some x → (W : WrittenProcedure U p s x) → IsClean U.program U.facts.marks p
        → covers_procedure U.program p ≡ true → OwnsAreKept U p s x W }
{}

/// A law: no rule replaces a line of such a procedure.
pub fn clean_lines_are_unreplaced()
    ensures { (U : Upgrade) → IsWritten U → (p : ℕ) (s : Site) (x : Procedure) → site_of U.program.declarations p ≡ Some s
        → slice_get U.program.declarations.procs p ≡ Some x → (W : WrittenProcedure U p s x) → IsClean U.program U.facts.marks p
        → covers_procedure U.program p ≡ true → (k : ℕ) → IsUnreplaced U p s k }
{}

/// A law: nor a covered line that is clean by itself.
pub fn clean_line_is_unreplaced()
    ensures { (U : Upgrade) → IsWritten U → (p : ℕ) (s : Site) (k : ℕ) → site_of U.program.declarations p ≡ Some s
        → IsCleanLine U.program U.facts.marks p (suc k) → IsCoveredLine U.program U.facts.marks p (suc k) → IsUnreplaced U p s k }
{}

/// A law: the variables that the lines of a clean procedure use can be read.
pub fn uses_are_readable()
    ensures { (U : Upgrade) → IsWritten U → (p k : ℕ) (l : Line) → IsClean U.program U.facts.marks p → nth_line (lines_at U.program p) (suc k) ≡ Some l
        → (T : Scope) → T.facts ≡ U.facts → AreReadable U T (uses_in U.program p l.bindings.mentions) }
{}

/// A law: and those that a line uses which is clean by itself.
pub fn line_uses_are_readable()
    ensures { (U : Upgrade) → IsWritten U → (p number : ℕ) (l : Line) → IsCleanLine U.program U.facts.marks p number → nth_line (lines_at U.program p) number ≡ Some l
        → (T : Scope) → T.facts ≡ U.facts → AreReadable U T (uses_in U.program p l.bindings.mentions) }
{}

/// A law: what is written for the variables that covered lines use leads to what stands for them.
pub fn uses_are_placed()
    ensures { (U : Upgrade) → IsWritten U → (p : ℕ) (s : Site) (x : Procedure) → site_of U.program.declarations p ≡ Some s
        → slice_get U.program.declarations.procs p ≡ Some x → (W : WrittenProcedure U p s x) (l : Line)
        → AreReadable U (inside_procedure (site_scope U s) p) (uses_in U.program p l.bindings.mentions) → UsesArePlaced U p s W.code l }
{}

/// A law: a covered line of a procedure that promises to change nothing but its own stores to its own variables alone, and to those of its
/// object where it is self-made.
pub fn stores_are_own()
    ensures { (U : Upgrade) → IsWritten U → (p : ℕ) (x : Procedure) → slice_get U.program.declarations.procs p ≡ Some x → (k : ℕ) (l : Line)
        → nth_line (lines_at U.program p) (suc k) ≡ Some l → covers_line U.program p l ≡ true → StoresAreOwn U p l }
{}

/// A law: a class of which objects may be made is written with each of its variables, in their order.
pub fn fields_are_written()
    ensures { (U : Upgrade) → IsWritten U → ClassesAreWritten U }
{}

/// A law: what is written for the name of a covered class leads from every module to what is written for the class.
pub fn classes_are_found()
    ensures { (U : Upgrade) → IsWritten U → ClassesAreFound U }
{}

/// A law: so does the name of the function that makes an object of it for an As New variable.
pub fn autos_are_found()
    ensures { (U : Upgrade) → IsWritten U → AutosAreFound U }
{}

/// A law: what is written for a class begins its objects by a call of what is written for its Class_Initialize.
pub fn initializers_are_found()
    ensures { (U : Upgrade) → IsWritten U → InitializersAreFound U }
{}

/// A law: what is written for a class that has none calls nothing.
pub fn nothing_initializes()
    ensures { (U : Upgrade) → IsWritten U → NothingInitializes U }
{}
