//! Laws on the source's meaning alone.
ghost use Rattle.std.specs.Prelude.{◌≡◌, ℕ, suc, true, List, [], Option, Some, slice_get};
ghost use Rattle.vb_tree.specs.BoundTree.{Ty};
ghost use Rattle.vb_tree.specs.declared.bound.LibCall.{LibCall};
ghost use Rattle.vb_tree.specs.declared.bound.Op6.TheVariants.{Typed};
ghost use Rattle.vb_tree.specs.declared.expression.BinOp.{BinOp};
ghost use Rattle.vb_tree.specs.declared.value.Value6.{Value6};
ghost use Rattle.vb6_meaning.specs.Answers.{outside};
ghost use Rattle.vb6_meaning.specs.Library.{call};
ghost use Rattle.vb6_meaning.specs.Values.{operate};
ghost use Rattle.bound_tree.specs.Tree.{Declarations, Procedure, Expr, Line};
ghost use Rattle.bound_tree.specs.declared.body.Mention.{Mention};
ghost use Rattle.run_base.specs.Machines.{enters};
ghost use Rattle.vb6_run.specs.Expressions.{Context, declared, scalar_value};
ghost use Rattle.vb6_run.specs.Forms.{form_does};
ghost use Rattle.run_base.specs.Outcomes.{Output, gives};
ghost use Rattle.vb6_run.specs.Programs.{empty_memory, is_module_variable, lay_module_variables, owned_from, run6};
ghost use Rattle.vb6_run.specs.Runnables.{Runnable, declarations_of};
ghost use Rattle.vb6_run.specs.Store.{Memory, SourceGiven};
ghost use Rattle.bound_facts.specs.Facts.{AreFacts};
ghost use Rattle.run_matches.specs.CoveredVariables.{covers_type};
ghost use Rattle.run_matches.specs.CoveredExprs.{covers_expr, uses_in};
ghost use Rattle.run_matches.specs.Maps.{Map, mark};
ghost use Rattle.run_matches.specs.Formed.{is_formed};
ghost use Rattle.run_matches.specs.Typed.{EndsIn, IsScalar, SourceTyped};
ghost use Rattle.run_matches.specs.Upgrades.{Upgrade, runnable_of};
ghost use Rattle.typing_laws.specs.Calls.{AreLoud, CallsAreSuited, CallsKeep, IsAt, IsReady};
ghost use Rattle.typing_laws.specs.Edges.{IsEdge, IsLibraryEdge};
ghost use Rattle.typing_laws.specs.Frames.{AreGiven, Footprint, HasOwn, IsSound, IsTypedFrame, anywhere, ground};
ghost use Rattle.typing_laws.specs.Inert.{ChangesNothing, is_inert};
ghost use Rattle.typing_laws.specs.Leaving.{RunLeaves, started};
ghost use Rattle.typing_laws.specs.Flat.{flat_uses};
ghost use Rattle.typing_laws.specs.Results.{IsLineResult, IsResult, IsRunResult};
ghost use Rattle.typing_laws.specs.Typed.{is_typed};

/// A law: at an edge of its row an operator is outside, where the second operand is a scalar of a covered type.
pub fn edges_are_outside()
    ensures { (w : Memory) (op : BinOp) (t : Ty) (x y : Value6) → covers_type t ≡ true → IsScalar w t y → IsEdge op x y
        → operate (Typed op) x y ≡ outside }
{}

/// A law: so is a call of the library at an edge of its row.
#[tactic(auto, using(crate::proofs::Library::library_edge_is_outside))]
pub fn library_edges_are_outside()
    ensures { (f : LibCall) (xs : List Value6) → IsLibraryEdge f xs → call f xs ≡ outside }
{}

/// A law: in a frame whose variables stand a covered expression over scalars, arrays of scalars and fields of user types that is well typed gives a
/// value of its type, raises an error or runs out of steps, and keeps the types of what stands, where its calls do. It is outside only where it leaves
/// the tables, where an array isn't as its ties and indexes want it, or where a run that it calls leaves.
#[tactic(auto, using(crate::proofs::Joined::expression_has_type))]
pub fn expressions_have_types()
    ensures { (C : Context) (F : Footprint) (n : ℕ) (mentions : List Mention) (e : Expr) (w : Memory) → CallsKeep C F (RunLeaves C.runnable n)
        → covers_expr (flat_uses C.runnable.program C.procedure mentions) e ≡ true → is_formed e ≡ true → is_typed (declared C) e ≡ true
        → CallsAreSuited C.runnable e → IsSound (ground (declared C) F) w → HasOwn C.runnable.program F C.procedure w C.frame
        → IsResult C F (RunLeaves C.runnable n) e w (scalar_value C e w) }
{}

/// A law: a covered expression of constants, scalar variables, operators, conversions and calls of the library but for MsgBox and InputBox puts
/// nothing out and changes nothing, in any frame.
pub fn inert_expressions_change_nothing()
    ensures { (C : Context) (mentions : List Mention) (e : Expr) (w : Memory)
        → covers_expr (uses_in C.runnable.program C.procedure mentions) e ≡ true → is_inert e ≡ true → ChangesNothing w (scalar_value C e w) }
{}

/// A law: a covered line over scalars, arrays of scalars and user types that is well typed leaves a well-typed frame well typed and keeps
/// the types of what stands, where its calls do. It is outside only where it leaves.
#[tactic(auto, using(crate::proofs::Joined::line_keeps_types))]
pub fn lines_keep_types()
    ensures { (C : Context) (F : Footprint) (n : ℕ) (l : Line) (w : Memory) → CallsKeep C F (RunLeaves C.runnable n) → IsAt C l → IsSound (ground (declared C) F) w
        → IsTypedFrame F C.runnable C.procedure w C.frame
        → IsLineResult C F (RunLeaves C.runnable n) l.source.form l.bindings.exprs w (form_does C l.source.form l.bindings.exprs w) }
{}

/// A law: by what is known of an upgraded program no parameter that is changed, or whose procedure acts, runs as a quiet one.
pub fn no_loud_is_quiet()
    ensures { (U : Upgrade) (p : ℕ) → AreFacts U.program U.known → AreLoud (runnable_of U) p }
{}

/// A law: a program starts in a memory in which the scalars, the arrays of scalars and the user types of its standard modules have values of their types.
pub fn starts_are_sound()
    ensures { (D : Declarations) (o : List Output) (w : Memory)
        → lay_module_variables D (owned_from (is_module_variable D) 0 D.vars) empty_memory ≡ gives o tt w → IsSound (ground D anywhere) w }
{}

/// A law: a run of a covered procedure that is flat, which is to say a Sub or a Function of a standard module over scalars, arrays of scalars and
/// user types of scalars, and well typed with all that it reaches, from any memory in which the variables of modules have values of their
/// types, with arguments of the types of its parameters and any number of steps, writes to variables of modules, Statics, what it is given by reference
/// and what it makes alone, keeps the types of what stands there, gives a value of its own type, and is outside only where one of the lines or entries
/// that it goes over leaves.
#[tactic(auto, using(crate::proofs::Runs::run_result))]
pub fn runs_leave_at_edges()
    ensures { (R : Runnable) (p n : ℕ) (x : Procedure) (me : Option ℕ) (args : List SourceGiven) (inputs : List (List ℕ)) (w : Memory) → IsReady R p
        → slice_get (declarations_of R).procs p ≡ Some x → IsSound (ground (declarations_of R) anywhere) w
        → AreGiven (ground (declarations_of R) anywhere) w x.params args
        → IsRunResult R (suc n) x args (enters p me [] args) (started inputs n w) (run6 R p me args inputs n w) }
{}

/// A law: so it keeps a well-typed store well typed.
#[tactic(auto, using(crate::proofs::Stores::run_keeps_types))]
pub fn runs_keep_types()
    ensures { (U : Upgrade) (p n : ℕ) (x : Procedure) (m : Map) (me : Option ℕ) (args : List SourceGiven) (inputs : List (List ℕ)) (s : Memory)
        → IsReady (runnable_of U) p → slice_get U.program.declarations.procs p ≡ Some x → IsSound (ground U.program.declarations anywhere) s
        → AreGiven (ground U.program.declarations anywhere) s x.params args → SourceTyped U m (mark s) s
        → EndsIn (SourceTyped U m (mark s)) (run6 (runnable_of U) p me args inputs n s) }
{}
