//! The laws.
ghost use Rattle.std.specs.Prelude.{◌≡◌, ℕ, true, Option, None, List, [], ◌∷◌, ◌++◌, codes};
ghost use Rattle.bound_facts.specs.Clean.{IsClean};
ghost use Rattle.run_base.specs.Outcomes.{outputs, printed};
ghost use Rattle.vb6_run.specs.Programs.{run6};
ghost use Rattle.net_run.specs.Program.{run_net};
ghost use Rattle.run_matches.specs.Agreeing.{Agrees, ResultMatch};
ghost use Rattle.run_matches.specs.Covered.{IsCovered};
ghost use Rattle.run_matches.specs.Maps.{mark};
ghost use Rattle.run_matches.specs.Runs.{Start, call_pledge, with_inputs};
ghost use Rattle.run_matches.specs.Upgrades.{runnable_of};
ghost use Rattle.run_statements.specs.Written.{IsWritten};
ghost use Rattle.inhabited_laws.specs.Memories.{is_given, sample_source, sample_target, sample_world};
ghost use Rattle.inhabited_laws.specs.ObjectMemories.{object_source, object_target, object_world, said};
ghost use Rattle.inhabited_laws.specs.Objects.{object_sample, objects};
ghost use Rattle.inhabited_laws.specs.Sample.{program, sample};

/// A law: what is known of the program and what is written for it are as the theorem asks.
#[tactic(auto, using(crate::proofs::Written::sample_is_written))]
pub fn sample_is_written()
    ensures { IsWritten sample }
{}

/// A law: its procedures are clean.
#[tactic(auto, using(crate::proofs::Written::sample_is_clean))]
pub fn sample_is_clean()
    ensures { (p : ℕ) → IsClean program sample.facts.marks p }
{}

/// A law: Main is covered, with all that it reaches.
#[tactic(auto, using(crate::proofs::Written::main_is_covered))]
pub fn sample_is_covered()
    ensures { IsCovered program 0 }
{}

/// A law: Main may be called in memories that match under a map that moves places.
#[tactic(auto, using(crate::proofs::Stores::may_start))]
pub fn sample_may_start()
    ensures { Start sample sample_world 0 None [] [] }
{}

/// A law: so by the theorem Main and what is written for it agree, with any inputs and within any number of steps.
#[tactic(auto, using(crate::proofs::Stated::sample_runs_the_same))]
pub fn sample_runs_the_same()
    ensures { (inputs : List (List ℕ)) (n : ℕ)
        → Agrees sample (call_pledge sample 0 (mark sample_source) None [] []) sample_world (ResultMatch sample)
        (run6 (runnable_of sample) 0 None [] inputs n sample_source)
        (run_net sample.written n 0 None [] (with_inputs inputs sample_target)) }
{}

/// A law: within 60 steps Main gives its result, so that the source's run isn't outside of its meaning.
#[tactic(auto, using(crate::proofs::Stated::source_is_given))]
pub fn sample_gives()
    ensures { is_given (run6 (runnable_of sample) 0 None [] [] 60 sample_source) ≡ true }
{}

/// A law: it prints 6, 2 and 8, and then the number of the error.
#[tactic(auto, using(crate::proofs::Stated::source_prints))]
pub fn sample_prints()
    ensures { outputs (run6 (runnable_of sample) 0 None [] [] 60 sample_source) ≡ printed (codes " 6  2  8 " ++ 13 ∷ 10 ∷ []) ∷ printed (codes " 9 " ++ 13 ∷ 10 ∷ []) ∷ [] }
{}

/// A law: so does what is written for it.
#[tactic(auto, using(crate::proofs::Stated::target_prints))]
pub fn written_sample_prints()
    ensures { outputs (run_net sample.written 60 0 None [] sample_target) ≡ printed (codes " 6  2  8 " ++ 13 ∷ 10 ∷ []) ∷ printed (codes " 9 " ++ 13 ∷ 10 ∷ []) ∷ [] }
{}

/// A law: what is known of the second program, over objects, and what is written for it are as the theorem asks.
#[tactic(auto, using(crate::proofs::ObjectsWritten::objects_are_written))]
pub fn objects_are_written()
    ensures { IsWritten object_sample }
{}

/// A law: its procedures are clean.
#[tactic(auto, using(crate::proofs::ObjectsWritten::objects_are_clean))]
pub fn objects_are_clean()
    ensures { (p : ℕ) → IsClean objects object_sample.facts.marks p }
{}

/// A law: its Main is covered, with all that it reaches.
#[tactic(auto, using(crate::proofs::ObjectsWritten::objects_are_covered))]
pub fn objects_are_covered()
    ensures { IsCovered objects 0 }
{}

/// A law: its Main may be called in memories that match under a map that moves objects.
#[tactic(auto, using(crate::proofs::ObjectStores::objects_may_start))]
pub fn objects_may_start()
    ensures { Start object_sample object_world 0 None [] [] }
{}

/// A law: so by the theorem its Main and what is written for it agree, with any inputs and within any number of steps.
#[tactic(auto, using(crate::proofs::ObjectsStated::objects_run_the_same))]
pub fn objects_run_the_same()
    ensures { (inputs : List (List ℕ)) (n : ℕ)
        → Agrees object_sample (call_pledge object_sample 0 (mark object_source) None [] []) object_world (ResultMatch object_sample)
        (run6 (runnable_of object_sample) 0 None [] inputs n object_source)
        (run_net object_sample.written n 0 None [] (with_inputs inputs object_target)) }
{}

/// A law: within 120 steps its Main gives its result, so that the source's run isn't outside of its meaning.
#[tactic(auto, using(crate::proofs::ObjectsStated::source_is_given))]
pub fn objects_give()
    ensures { is_given (run6 (runnable_of object_sample) 0 None [] [] 120 object_source) ≡ true }
{}

/// A law: it prints what is said: 10, then 10 and 11, 1, 12, 2, 8, 21, 20, and the number of the error, 91.
#[tactic(auto, using(crate::proofs::ObjectsStated::source_prints))]
pub fn objects_print()
    ensures { outputs (run6 (runnable_of object_sample) 0 None [] [] 120 object_source) ≡ said }
{}

/// A law: so does what is written for it.
#[tactic(auto, using(crate::proofs::ObjectsStated::target_prints))]
pub fn written_objects_print()
    ensures { outputs (run_net object_sample.written 120 0 None [] object_target) ≡ said }
{}
