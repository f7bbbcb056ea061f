//! What is written for a project whose names are bound: for each expression, argument, line, declaration, member and module, and for the
//! project as a whole, as functions on plain trees. There is no code here; what writes is proved equal to these definitions, and the laws
//! of runs speak of them. `written_project` of `Projects` is the whole.
#![tactic(auto)]
