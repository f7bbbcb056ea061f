//! The facts of a program, made of their parts.
ghost use Rattle.std.specs.Prelude.{◌≡◌, ◌<◌, ◌↔◌, ℕ, true, IfOk, IsTrue, length, map};
ghost use Rattle.reach_table.specs.Chains.{is_marked};
ghost use Rattle.bound_facts.specs.Node.{is_array_type};
ghost use Rattle.bound_tree.specs.View.{declarations_of, program_of};
ghost use Rattle.array_bounds.specs.Found.{AreLows, AreRanks};
ghost use Rattle.array_bounds.specs.Types as types;
ghost use Rattle.written_trees.specs.Facts.{AreFacts};
ghost use Rattle.written_rows.specs.View.{facts_of};
ghost use Rattle.written_facts.specs.Shapes.{are_exact, shape_at, shape_of};
ghost use Rattle.written_facts.specs.Statements.{form_set};
ghost use Rattle.written_facts.specs.United.{AreUnited, shown_marks};

use crate::marks::united_marks;
use crate::shapes::shapes;
use crate::statements::statement_sets;
use array_bounds::{array_holders, made_holders};
use bound_tree::{ArrayFacts, Bound, Marks};
use std::alloc::Global;
use up_base::{Mem, Sequence};
use written_rows::{ArrayShape, WrittenFacts};

// What is told of variables and user types.
#[derive(Drop)]
pub(crate) struct Arrays {
    pub shapes: Vec<ArrayShape>,
    pub holds_array: Vec<bool>,
    pub is_made: Vec<bool>,
}

fn arrays_found(alloc: Global, bound: &Bound, arrays: &ArrayFacts) -> Result<Arrays, Mem>
    ensures exact { IfOk result (λ a. are_exact arrays.now.ranks ≡ true) }
    ensures shapes { IfOk result (λ a. (v : ℕ) → v < length bound.now.declared.vars → shape_at a.shapes.items v ≡ shape_of arrays.now.lows arrays.now.ranks v) }
    ensures holds_array { IfOk result (λ a. (t : ℕ) → IsTrue (is_marked a.holds_array.items t) ↔ types.Holds (declarations_of bound.now.declared) is_array_type t) }
    ensures is_made { IfOk result (λ a. (t : ℕ) → IsTrue (is_marked a.is_made.items t) ↔ types.Holds (declarations_of bound.now.declared) types.is_made t) }
{
    let shapes = shapes(
        alloc,
        bound.declared.vars.len(),
        arrays.lows.as_slice(),
        arrays.ranks.as_slice(),
    )?;
    let holds_array = array_holders(alloc, &bound.declared)?;
    let is_made = made_holders(alloc, &bound.declared)?;
    Ok(Arrays {
        shapes,
        holds_array,
        is_made,
    })
}

/// The facts of a program, by the lower bounds and the ranks of its arrays and the marks of all passes. A rank from 255 on is answered
/// as want of memory.
pub fn written_facts(
    alloc: Global,
    bound: &Bound,
    arrays: &ArrayFacts,
    marks: &[&Marks],
) -> Result<WrittenFacts, Mem>
    requires lows { AreLows (program_of bound.now) arrays.now.lows }
    requires ranks { AreRanks (program_of bound.now) arrays.now.ranks }
    ensures facts { IfOk result (λ f. AreFacts (program_of bound.now) (facts_of f)) }
    ensures marks { IfOk result (λ f. AreUnited (map shown_marks marks.now) (facts_of f).marks) }
    ensures statements { IfOk result (λ f. (file n : ℕ) → (facts_of f).statement file n ≡ form_set (program_of bound.now).declarations.project file n) }
{
    let found = arrays_found(alloc, bound, arrays)?;
    let marks = united_marks(alloc, marks)?;
    let statements = statement_sets(alloc, bound.declared.project.modules.as_slice())?;
    Ok(WrittenFacts {
        shapes: Sequence::from_vec(found.shapes),
        holds_array: Sequence::from_vec(found.holds_array),
        is_made: Sequence::from_vec(found.is_made),
        marks,
        statements,
    })
}
