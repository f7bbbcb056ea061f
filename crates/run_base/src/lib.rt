//! What the meanings of both languages share: outputs, how a computation ends, where values are kept, the frame of a procedure with its
//! handling of errors, and how lines and procedures follow each other. There is no code here.
#![tactic(auto)]
