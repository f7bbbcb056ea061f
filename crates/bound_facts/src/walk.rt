//! What the lines of a project give, gathered in one walk: the nodes of each line are listed once, and let go of behind it.
ghost use Rattle.std.specs.Prelude.{◌≡◌, ◌++◌, ℕ, List, map, OnOk, IfOk};
ghost use Rattle.std.specs.List.{flat_map};
ghost use Rattle.bound_tree.specs.Lines.{lines_of};
ghost use Rattle.bound_tree.specs.Tree.{Line};
ghost use Rattle.bound_tree.specs.View.{shown, shown_line};
ghost use Rattle.bound_facts.specs.Items.{project_items};
ghost use Rattle.bound_facts.specs.Nodes.{line_nodes};

use crate::push_line_nodes;
use bound_tree::{BoundExpr, LineRef};
use std::alloc::Global;
use up_base::Mem;

/// What a line of a procedure gives.
pub trait LineItems {
    type Item;

    ghost items: { Self → ℕ → Line → List Self.Item };

    /// Appends what a line of the procedure of this number gives; all nodes of the line are at hand.
    fn push(
        &self,
        procedure: u32,
        line: &LineRef,
        nodes: &[&BoundExpr],
        to: &mut Vec<Self::Item>,
    ) -> Result<(), Mem>
        requires { map shown nodes.now ≡ line_nodes (shown_line line.now) }
        ensures { OnOk result (to.new.items ≡ to.old.items ++ items self.now procedure (shown_line line.now)) };
}

/// Appends what the lines of all procedures give, in project order.
pub fn push_items<T: LineItems>(
    alloc: Global,
    lines: &[Vec<LineRef>],
    t: &T,
    to: &mut Vec<T::Item>,
) -> Result<(), Mem>
    ensures { OnOk result (to.new.items ≡ to.old.items ++ project_items (T.items t.now) (map lines_of lines.now)) }
{
    for (i, body) in lines.iter().enumerate() {
        push_procedure(alloc, index(i)?, body, t, to)?;
    }
    Ok(())
}

// A place as a short number, or want of memory.
fn index(i: usize) -> Result<u32, Mem>
    ensures { IfOk result (λ n. n ≡ i) }
{
    if i > 4294967295 {
        return Err(Mem);
    }
    Ok(i as u32)
}

fn push_procedure<T: LineItems>(
    alloc: Global,
    i: u32,
    lines: &[LineRef],
    t: &T,
    to: &mut Vec<T::Item>,
) -> Result<(), Mem>
    ensures { OnOk result (to.new.items ≡ to.old.items ++ flat_map (T.items t.now i) (map shown_line lines.now)) }
{
    for line in lines {
        push_line(alloc, i, line, t, to)?;
    }
    Ok(())
}

fn push_line<T: LineItems>(
    alloc: Global,
    i: u32,
    line: &LineRef,
    t: &T,
    to: &mut Vec<T::Item>,
) -> Result<(), Mem>
    ensures { OnOk result (to.new.items ≡ to.old.items ++ T.items t.now i (shown_line line.now)) }
{
    let mut nodes = Vec::new(alloc);
    push_line_nodes(line, &mut nodes)?;
    t.push(i, line, &nodes, to)?;
    Ok(())
}
