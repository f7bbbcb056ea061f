//! Lines do the same as what is written for them: the proofs that frames go on to match, and that assignments, what is made anew and Debug.Print agree.
#![tactic(auto)]
