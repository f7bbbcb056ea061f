//! The statements of the laws that lead from values to runs, each by itself, so that laws can stand on one another's. There is no code here.
#![tactic(auto)]
