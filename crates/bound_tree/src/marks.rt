//! Which rules are broken where.

use crate::RuleSet;
use up_base::Sequence;

/// The rules that a pass finds broken: a set for each code line and for each declaration, each list in the order of what
/// it is about. A declaration or a line behind the end of its list breaks none.
#[derive(Drop)]
pub struct Marks {
    /// For each procedure, a set for each of its code lines.
    pub lines: Sequence<Sequence<RuleSet>>,
    /// For each procedure a set for its head.
    pub heads: Sequence<RuleSet>,
    pub vars: Sequence<RuleSet>,
    pub consts: Sequence<RuleSet>,
    /// For each user type a set for its head.
    pub types: Sequence<RuleSet>,
    /// For each Enum a set for its head.
    pub enums: Sequence<RuleSet>,
}
