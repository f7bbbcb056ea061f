//! What lasts composes.
ghost use Rattle.std.specs.Prelude.{ℕ, Option, List};
ghost use Rattle.vb6_run.specs.Store.{SourceFrame, SourceGiven};
ghost use Rattle.run_matches.specs.Upgrades.{Upgrade};
ghost use Rattle.run_matches.specs.Maps.{Mark, World};
ghost use Rattle.run_matches.specs.Match.{MemoryMatch};
ghost use Rattle.run_matches.specs.Pledges.{Later, NetGiven};
ghost use Rattle.run_matches.specs.Frames.{frame_pledge};
ghost use Rattle.run_matches.specs.Runs.{call_pledge};
ghost use Rattle.agreeing_laws.specs.Promises.{Weaker};

/// A law: what lasts by the pledge of a frame from one world to a second, and from there to a third, lasts from the first to the
/// third.
pub fn frame_lasts()
    ensures { (U : Upgrade) (p : ℕ) (f : SourceFrame) (w w0 w1 w2 : World) → MemoryMatch U w0 → Later U (frame_pledge U p w f) w0 w1
        → Later U (frame_pledge U p w f) w1 w2 → Later U (frame_pledge U p w f) w0 w2 }
{}

/// A law: so it does where the second step is a call that promises no less than the frame does.
pub fn call_lasts()
    ensures { (U : Upgrade) (p q : ℕ) (f : SourceFrame) (base : Mark) (me : Option ℕ) (xs : List SourceGiven) (ys : List NetGiven) (w w0 w1 w2 : World)
        → MemoryMatch U w0 → Weaker w0 (frame_pledge U p w f) (call_pledge U q base me xs ys) → Later U (frame_pledge U p w f) w0 w1
        → Later U (call_pledge U q base me xs ys) w1 w2 → Later U (frame_pledge U p w f) w0 w2 }
{}
