//! Both meanings of runs, computed on programs: what each puts out and how it ends was worked out by hand. Each module of the proofs is a
//! program, bound and as it is written, with what is said of its run. There is no code here.
#![tactic(auto)]
