//! What the analyses tell of a program, as far as it decides what is written.
ghost use Rattle.std.specs.Prelude.{◌≡◌, Some, slice_get};
ghost use Rattle.reach_table.specs.Chains.{is_marked};
ghost use Rattle.vb_tree.specs.BoundView.{type_of};
ghost use Rattle.bound_tree.specs.RuleSets.{is_broken};
ghost use Rattle.written_trees.specs.Facts as facts;
ghost use Rattle.written_trees.specs.Facts.{list_set, set_at};
ghost use Rattle.written_rows.specs.View.{facts_of, shape_low};

use bound_tree::{Marks, RuleSet};
use up_base::Sequence;
use vb_tree::Type6;

/// The lower bounds of an array in its first and its second dimension, and its rank.
#[derive(Clone, Copy, Debug, PartialEq, Eq)]
pub struct ArrayShape {
    pub low: i32,
    /// 0 where the rank is 1.
    pub second: i32,
    pub rank: u8,
}

/// What the analyses tell of a program, as far as it decides what is written.
#[derive(Drop)]
pub struct WrittenFacts {
    /// For each variable its shape; all 0 where it is no array.
    pub shapes: Sequence<ArrayShape>,
    /// For each user type whether it holds an array, itself or in the types of its fields.
    pub holds_array: Sequence<bool>,
    /// For each user type whether it holds an array or a fixed string, itself or in the types of its fields.
    pub is_made: Sequence<bool>,
    /// The rules that code lines and declarations break, those of all passes together.
    pub marks: Marks,
    /// For each file number the rules of the statements of its module that declare nothing, by the number of the statement.
    pub statements: Sequence<Sequence<RuleSet>>,
}

impl WrittenFacts {
    /// The lower bound of an array in a dimension, both numbered from 0.
    pub fn low(&self, variable: usize, dimension: usize) -> i32
        ensures { result ≡ (facts_of self.now).low variable dimension }
    {
        low_in(self.shapes.get(variable).copied(), dimension)
    }

    /// The rank of an array; 0 where the variable is none.
    pub fn rank(&self, variable: usize) -> u8
        ensures { result ≡ (facts_of self.now).rank variable }
    {
        match self.shapes.get(variable) {
            Some(shape) => shape.rank,
            None => 0,
        }
    }

    /// Whether a user type holds an array, itself or in the types of its fields.
    pub fn holds_array(&self, user_type: u32) -> bool
        ensures { result ≡ (facts_of self.now).holds_array user_type }
    {
        is_marked(self.holds_array.as_slice(), user_type)
    }

    /// Whether a type is a user type that holds an array.
    pub fn type_holds_array(&self, ty: &Type6) -> bool
        ensures { result ≡ facts.holds_array (facts_of self.now) (type_of ty.now) }
    {
        match ty {
            Type6::User(t) => self.holds_array(*t),
            _ => false,
        }
    }

    /// Whether a user type holds an array or a fixed string, itself or in the types of its fields.
    pub fn is_made(&self, user_type: u32) -> bool
        ensures { result ≡ (facts_of self.now).is_made user_type }
    {
        is_marked(self.is_made.as_slice(), user_type)
    }

    /// The rules that a code line of a procedure breaks, both numbered from 0.
    pub fn line_set(&self, procedure: u32, line: u32) -> RuleSet
        ensures { result ≡ facts.line_set (facts_of self.now) procedure line }
    {
        set_in(&self.marks.lines, procedure, line)
    }

    /// The rules that the head of a procedure breaks.
    pub fn head_set(&self, procedure: u32) -> RuleSet
        ensures { result ≡ facts.head_set (facts_of self.now) procedure }
    {
        set_at(&self.marks.heads, procedure)
    }

    /// The rules that a variable breaks.
    pub fn variable_set(&self, v: u32) -> RuleSet
        ensures { result ≡ facts.variable_set (facts_of self.now) v }
    {
        set_at(&self.marks.vars, v)
    }

    /// The rules that a constant breaks.
    pub fn constant_set(&self, c: u32) -> RuleSet
        ensures { result ≡ facts.constant_set (facts_of self.now) c }
    {
        set_at(&self.marks.consts, c)
    }

    /// The rules that the head of a user type breaks.
    pub fn type_set(&self, user_type: u32) -> RuleSet
        ensures { result ≡ set_at (facts_of self.now).marks.types user_type }
    {
        set_at(&self.marks.types, user_type)
    }

    /// The rules that the head of an Enum breaks.
    pub fn enum_set(&self, e: u32) -> RuleSet
        ensures { result ≡ set_at (facts_of self.now).marks.enums e }
    {
        set_at(&self.marks.enums, e)
    }

    /// The rules that a statement breaks that declares nothing, by its file and its number in its module.
    pub fn statement(&self, file: u32, number: u32) -> RuleSet
        ensures { result ≡ (facts_of self.now).statement file number }
    {
        set_in(&self.statements, file, number)
    }

    /// Whether a variable breaks a rule.
    pub fn is_flagged_variable(&self, v: u32) -> bool
        ensures { result ≡ facts.is_flagged_variable (facts_of self.now) v }
    {
        is_broken(self.variable_set(v))
    }

    /// Whether a constant breaks a rule.
    pub fn is_flagged_constant(&self, c: u32) -> bool
        ensures { result ≡ facts.is_flagged_constant (facts_of self.now) c }
    {
        is_broken(self.constant_set(c))
    }
}

// The lower bound of an array of a shape in a dimension.
fn low_in(shape: Option<ArrayShape>, dimension: usize) -> i32
    ensures { result ≡ shape_low shape dimension }
{
    match shape {
        None => 0,
        Some(shape) => low_of(shape, dimension),
    }
}

#[tactic(auto, using(crate::proofs::Dimensions::first_low, crate::proofs::Dimensions::second_low, crate::proofs::Dimensions::no_low))]
fn low_of(shape: ArrayShape, dimension: usize) -> i32
    ensures { result ≡ shape_low (Some shape) dimension }
{
    if dimension == 0 {
        return shape.low;
    }
    if dimension == 1 {
        return shape.second;
    }
    0
}

// Whether a number is marked.
fn is_marked(marks: &[bool], at: u32) -> bool
    ensures { result ≡ is_marked marks.now at }
{
    match marks.get(at as usize) {
        Some(mark) => *mark,
        None => false,
    }
}

// The set of rules with a number; no rule behind the end of the list.
fn set_at(sets: &Sequence<RuleSet>, at: u32) -> RuleSet
    ensures { result ≡ set_at sets.now at }
{
    match sets.get(at as usize) {
        Some(set) => *set,
        None => RuleSet::new(),
    }
}

// That of a list with a number.
fn set_in(lists: &Sequence<Sequence<RuleSet>>, list: u32, at: u32) -> RuleSet
    ensures { result ≡ list_set (slice_get lists.now list) at }
{
    match lists.get(list as usize) {
        Some(sets) => set_at(sets, at),
        None => RuleSet::new(),
    }
}

// Whether a set has a rule at all.
fn is_broken(set: RuleSet) -> bool
    ensures { result ≡ is_broken set }
{
    set.least().is_some()
}
