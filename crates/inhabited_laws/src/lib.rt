//! The theorem on runs speaks of something: two programs that meet all its premises, and whose runs compute.
#![tactic(auto)]

mod laws;

pub use laws::{
    objects_are_clean, objects_are_covered, objects_are_written, objects_give, objects_may_start,
    objects_print, objects_run_the_same, sample_gives, sample_is_clean, sample_is_covered,
    sample_is_written, sample_may_start, sample_prints, sample_runs_the_same,
    written_objects_print, written_sample_prints,
};
