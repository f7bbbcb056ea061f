//! The trees of Visual Basic 6: tokens and logical lines, expressions, code lines, modules and projects; types, values and
//! declarations; what names are bound to; and the facts that analyses find.
#![tactic(auto)]

mod block;
mod bound;
mod declared;
mod expression;
mod facts;
mod flat;
mod form;
mod form_parts;
mod module;
mod project;
mod token;
mod value;

pub use block::{BlockKind, Role};
pub use bound::{Bound, BoundArg, BoundBody, BoundExpr, BoundNode, LibCall, Op6};
pub use declared::{
    ClassId, ConstDecl, Declared, Owner, ProcDecl, ProcId, ProcKind, TypeDecl, TypeId, VarDecl,
    VarId,
};
pub use expression::{Arg6, BinOp, Expr6, UnOp};
pub use facts::{AllFacts, ArrayFacts, FixedFacts, HandlerFacts, ObjectFacts, RefFacts};
pub use flat::flat_lines;
pub use form::{CodeLine, Form6};
pub use form_parts::{
    Bounds6, CaseItem6, Compare, Constant6, Counting6, Declarator6, DefWord, ExitKind, Field6,
    Label6, LetterRange, Param6, Passing, ReDimItem6, Result6, Signature6, TypeName6, VarWord,
    Visibility,
};
pub use module::{Block6, Member6, Middle6, Module6, Node6};
pub use project::{Entry, Project6, ProjectFile, ProjectKind};
pub use token::{Line, Lines, Literal6, Sign, Suffix, Token, TokenKind, Tokens};
pub use value::{Type6, Value6};
