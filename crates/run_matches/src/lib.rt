//! When stores and frames of a written project stand for those of its source, and when runs of both do the same: `SameRun` and `SameLine` of
//! `Runs`. There is no code here.
#![tactic(auto)]
