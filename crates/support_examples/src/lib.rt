//! The text of each support function, computed.
#![tactic(auto)]
