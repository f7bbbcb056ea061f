//! What becomes of variables on both sides.
ghost use Rattle.std.specs.Prelude.{ℕ, Option, List};
ghost use Rattle.vb6_run.specs.Store.{SourceFrame, SourceGiven};
ghost use Rattle.run_matches.specs.Upgrades.{Upgrade};
ghost use Rattle.run_matches.specs.Maps.{Mark, World};
ghost use Rattle.run_matches.specs.Pledges.{NetGiven};
ghost use Rattle.run_matches.specs.Frames.{frame_pledge};
ghost use Rattle.run_matches.specs.Runs.{call_pledge};
ghost use Rattle.run_statements.specs.Autos.{AutosAreSetBy};
ghost use Rattle.run_statements.specs.Members.{MembersAreFoundBy};
ghost use Rattle.run_statements.specs.Objects.{ObjectsAreMadeBy};
ghost use Rattle.memory_laws.specs.Statements.{VariablesAreReadBy, ScalarsAreWrittenBy, LocalsAreMadeBy};

/// A law: in memories that match, a variable of a covered type and what stands for it hold values that match.
pub fn variables_are_read()
    ensures { (U : Upgrade) (p : ℕ) (start : World) (f : SourceFrame) → VariablesAreReadBy U (frame_pledge U p start f) }
{}

/// A law: where values that match are written to a variable in a place or of a standard module, the memories go on to match.
pub fn scalars_are_written()
    ensures { (U : Upgrade) (p : ℕ) (start : World) (f : SourceFrame) → ScalarsAreWrittenBy U (frame_pledge U p start f) }
{}

/// A law: where a call makes a local variable of a covered type on both sides, the first values match, and the memories go on to.
pub fn locals_are_made()
    ensures { (U : Upgrade) (p : ℕ) (base : Mark) (me : Option ℕ) (xs : List SourceGiven) (ys : List NetGiven)
        → LocalsAreMadeBy U (call_pledge U p base me xs ys) }
{}

/// A law: where it is seen whether there is an object, both sides go on with a variable of it that is a scalar or an object, or raise 91.
pub fn members_are_found()
    ensures { (U : Upgrade) (p : ℕ) (start : World) (f : SourceFrame) → MembersAreFoundBy U (frame_pledge U p start f) }
{}

/// A law: a new object of a class that is written is made on both sides, with all its variables. Each of the two stands for the other, and the
/// memories go on to match.
pub fn objects_are_made()
    ensures { (U : Upgrade) (p : ℕ) (start : World) (f : SourceFrame) → ObjectsAreMadeBy U (frame_pledge U p start f) }
{}

/// A law: an object is set to an As New variable on both sides, which breaks no promise.
pub fn autos_are_set()
    ensures { (U : Upgrade) (p : ℕ) (start : World) (f : SourceFrame) → AutosAreSetBy U (frame_pledge U p start f) }
{}
