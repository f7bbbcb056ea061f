//! Sets of rules, as the bits of a number. Clauses speak of whether a set has a rule.
ghost use Rattle.std.specs.Prelude.{◌≡◌, ◌<◌, Option};
ghost use Rattle.bound_tree.specs.RuleSets.{has, none, with_rule, with_if, both, first, rule_numbers};

/// A set of rules, by their numbers from 1 to 26.
#[derive(Clone, Copy, Debug, PartialEq, Eq)]
pub struct RuleSet {
    // Bit n is set for rule n.
    bits: u32,
}

impl RuleSet {
    /// No rule.
    #[tactic(auto, unfolding(crate::specs::RuleSets::none))]
    pub fn new() -> RuleSet
        ensures { result ≡ none }
    {
        RuleSet { bits: 0 }
    }

    /// Whether a rule is in the set.
    #[tactic(auto, using(crate::proofs::RuleLaws::has_shifted, crate::proofs::RuleLaws::has_above))]
    pub fn has(self, rule: u8) -> bool
        ensures { result ≡ has self rule }
    {
        rule < 32 && (self.bits >> rule) & 1 == 1
    }

    /// The set with one more rule.
    #[tactic(auto, unfolding(crate::specs::RuleSets::with_rule), using(crate::proofs::RuleLaws::one_shifted))]
    pub fn with(self, rule: u8) -> RuleSet
        requires { rule < 32 }
        ensures { result ≡ with_rule self rule }
    {
        RuleSet {
            bits: self.bits | (1 << rule),
        }
    }

    /// The set with one more rule if a test holds.
    pub fn with_if(self, rule: u8, test: bool) -> RuleSet
        requires { rule < 32 }
        ensures { result ≡ with_if self rule test }
    {
        if test { self.with(rule) } else { self }
    }

    /// The rules of both sets.
    #[tactic(auto, unfolding(crate::specs::RuleSets::both))]
    pub fn union(self, other: RuleSet) -> RuleSet
        ensures { result ≡ both self other }
    {
        RuleSet {
            bits: self.bits | other.bits,
        }
    }

    /// The least rule of the set, and none where it has no rule.
    pub fn least(self) -> Option<u8>
        ensures { result ≡ first (has self) rule_numbers }
    {
        let rules = all_rules();
        for rule in &rules {
            if self.has(*rule) {
                return Some(*rule);
            }
        }
        None
    }
}

/// The numbers of the rules in ascending order.
pub fn all_rules() -> [u8; 26]
    ensures { result ≡ rule_numbers }
{
    [
        1, 2, 3, 4, 5, 6, 7, 8, 9, 10, 11, 12, 13, 14, 15, 16, 17, 18, 19, 20, 21, 22, 23, 24, 25,
        26,
    ]
}
