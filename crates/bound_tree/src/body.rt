//! Procedures whose lines are bound.

use crate::{BoundExpr, ConstId, Declared, InterfaceFacts, Marks, RuleSet};
use up_base::{Issues, Sequence};
use vb_tree::{ClassId, ProcId, TypeId, VarId};

/// A declaration that a code line mentions, by an expression or otherwise: a constant that is folded and the type of a
/// ReDim leave no expression.
#[derive(Clone, Copy, Debug, PartialEq, Eq)]
pub enum Mention {
    Var(VarId),
    Const(ConstId),
    Type(TypeId),
    Proc(ProcId),
    Class(ClassId),
}

/// What is bound in a code line.
#[derive(Drop)]
pub struct BoundLine {
    /// Its expressions in source order: the target before the value; the items of a Print or a Case; the counter, the start,
    /// the limit and the step of a For; of a ReDim each array and then its bounds; a call, a condition or an array alone.
    pub exprs: Sequence<BoundExpr>,
    /// The rules that the line breaks as far as names, types and constants tell.
    pub rules: RuleSet,
    /// The declarations that it mentions. Of an expression of type Unknown that breaks no rule, one is named that leaves it
    /// without a type; what else it names isn't.
    pub mentions: Sequence<Mention>,
}

/// A procedure whose lines are bound.
#[derive(Drop)]
pub struct BoundBody {
    pub procedure: ProcId,
    /// What is bound in each of its code lines, in order.
    pub lines: Sequence<BoundLine>,
}

/// A project whose names are bound. The implicit locals stand behind the declared variables, in order of first use.
#[derive(Drop)]
pub struct Bound {
    pub declared: Declared,
    /// The procedures in project order.
    pub bodies: Sequence<BoundBody>,
    pub interfaces: InterfaceFacts,
    /// The rules that lines and declarations break as far as names, types and constants tell.
    pub marks: Marks,
    /// These as issues.
    pub issues: Issues,
}
