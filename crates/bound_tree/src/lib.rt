//! Bound trees: a project's declarations, and its code lines with every name replaced by what it stands for, every
//! conversion written out, and the rules that each line breaks. They are made once by the binder; the analyses and the
//! rewriter read them by reference. Beside each type of the code stands a plain tree in `specs/`, of which all definitions
//! speak, and a view from the one to the other.
#![tactic(auto)]

mod body;
mod declared;
mod expression;
mod facts;
mod lines;
mod marks;
mod rule_set;

pub use body::{Bound, BoundBody, BoundLine, Mention};
pub use declared::{
    ConstDecl, ConstId, Declared, EnumDecl, EnumId, Named, NamedEntry, ProcDecl, Scope, TypeDecl,
    VarDecl,
};
pub use expression::{BoundArg, BoundExpr, BoundNode, Origin, Root};
pub use facts::{
    AllFacts, ArrayFacts, FixedFacts, HandlerFacts, InterfaceFacts, ObjectFacts, RefFacts,
};
pub use lines::{LineRef, bound_lines};
pub use marks::Marks;
pub use rule_set::{RuleSet, all_rules};
