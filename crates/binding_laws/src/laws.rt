//! Expressions without a type, and the types of those that have one.
ghost use Rattle.std.specs.Prelude.{◌≡◌, ℕ, suc, true, List, [], Option, Some, slice_get};
ghost use Rattle.vb_tree.specs.Tree.{Exp, Project};
ghost use Rattle.bound_tree.specs.declared.marks.Marks.{Marks};
ghost use Rattle.declarations.specs.Finals.{IsDeclared};
ghost use Rattle.bound_tree.specs.Tree.{Declarations, Procedure};
ghost use Rattle.expression_words.specs.Meanings.{Scope};
ghost use Rattle.bound_exprs.specs.Resolved.{resolved};
ghost use Rattle.binder.specs.Programs.{bound_program};
ghost use Rattle.run_base.specs.Machines.{enters};
ghost use Rattle.vb6_run.specs.Programs.{run6};
ghost use Rattle.vb6_run.specs.Runnables.{Runnable, declarations_of};
ghost use Rattle.vb6_run.specs.Store.{Memory, SourceGiven};
ghost use Rattle.run_matches.specs.Covered.{IsCovered};
ghost use Rattle.typing_laws.specs.Calls.{AreFlat, AreLoud, HaveResults};
ghost use Rattle.typing_laws.specs.Frames.{AreGiven, IsSound, anywhere, ground};
ghost use Rattle.typing_laws.specs.Leaving.{started};
ghost use Rattle.typing_laws.specs.Results.{IsRunResult};
ghost use Rattle.typing_laws.specs.Typed.{is_typed_procedure};
ghost use Rattle.binding_laws.specs.Causes.{AreWhole, IsCaused, is_rule};
ghost use Rattle.binding_laws.specs.Typing.{HasTypes};

/// An expression is left without a type only where it breaks a rule, uses a declaration that has none, or is in a With over what
/// breaks a rule.
pub fn untyped_has_a_cause()
    ensures { (S : Scope) → AreWhole S.declarations → is_rule S.missing ≡ true → (e : Exp) → IsCaused S e }
{}

/// Each use of a variable in a bound expression has the type of the variable, and each conversion the type to which it goes.
#[tactic(auto, using(crate::proofs::TypedWords::resolved_typed))]
pub fn uses_have_types()
    ensures { (S : Scope) (e : Exp) → HasTypes S.declarations (resolved S e) }
{}

/// The lines of each procedure of a bound project are well typed: what is called is given arguments of the types of its parameters, and bounds of
/// a ReDim are Longs.
#[tactic(auto, using(crate::proofs::TypedLines::lines_typed))]
pub fn bound_lines_are_typed()
    ensures { (D : Declarations) (procedure : ℕ) → is_typed_procedure (bound_program D) procedure ≡ true }
{}

/// Of what a project declares no procedure without a result variable has the type of a value.
pub fn declared_have_results()
    ensures { (P : Project) (D : Declarations) (M : Marks) (R : Runnable) (p : ℕ) → IsDeclared P D M → R.program ≡ bound_program D → HaveResults R p }
{}

/// So a run of a covered procedure of a bound project that is flat with all that it reaches, which is to say over scalars, arrays of scalars and
/// user types of scalars, in which no loud parameter runs as a quiet one, from any memory in which the variables of modules have values of their
/// types, writes to variables of modules, Statics, what it is given by reference and what it makes alone, keeps the types of what stands there, and
/// is outside only where one of the lines or entries that it goes over leaves.
pub fn bound_runs_leave_at_edges()
    ensures { (P : Project) (D : Declarations) (M : Marks) (R : Runnable) (p n : ℕ) (x : Procedure) (me : Option ℕ) (args : List SourceGiven)
        (inputs : List (List ℕ)) (w : Memory) → IsDeclared P D M → R.program ≡ bound_program D → IsCovered R.program p → AreFlat R p
        → AreLoud R p → slice_get (declarations_of R).procs p ≡ Some x → IsSound (ground (declarations_of R) anywhere) w
        → AreGiven (ground (declarations_of R) anywhere) w x.params args
        → IsRunResult R (suc n) x args (enters p me [] args) (started inputs n w) (run6 R p me args inputs n w) }
{}
