//! Code lines with the rules that they break.

use bound_tree::{LineRef, RuleSet};

/// A code line with the rules that it breaks.
#[derive(Clone, Copy)]
pub(crate) struct Code<'a> {
    pub rules: RuleSet,
    pub line: LineRef<'a>,
}
