//! Blocks of a procedure that are open.
ghost use Rattle.std.specs.Prelude.{◌≡◌, ◌++◌, ◌∷◌, [], OnOk, IfOk};
ghost use Rattle.vb_tree.specs.Tree.{block};
ghost use Rattle.vb_tree.specs.View.{line_of, node_of, nodes_of, middles_of};
ghost use Rattle.vb_lines.specs.Building.{branches_of, AddsNode};

use std::alloc::Global;
use up_base::Mem;
use vb_tree::{Block6, BlockKind, CodeLine, Middle6, Node6};

/// A line that parts an open block, and what stands behind it so far.
#[derive(Drop)]
pub(crate) struct Branch {
    pub(crate) line: CodeLine,
    pub(crate) body: Vec<Node6>,
}

/// A block that is open: its head, what stands behind that, and the lines that part it so far.
#[derive(Drop)]
pub(crate) struct Frame {
    pub(crate) kind: BlockKind,
    pub(crate) head: CodeLine,
    pub(crate) body: Vec<Node6>,
    pub(crate) branches: Vec<Branch>,
}

impl Frame {
    /// Puts a node behind what stands in the block.
    pub(crate) fn push(&mut self, node: Node6) -> Result<(), Mem>
        ensures { OnOk result (AddsNode (node_of node) self.old self.new) }
    {
        match self.branches.pop() {
            None => self.body.push(node)?,
            Some(mut branch) => {
                branch.body.push(node)?;
                self.branches.push(branch)?;
            }
        }
        Ok(())
    }

    /// The block, given its closing line.
    pub(crate) fn close(self, alloc: Global, close: CodeLine) -> Result<Node6, Mem>
        ensures { IfOk result (λ node. node_of node ≡ block (line_of self.head) (nodes_of self.body.items) (branches_of self.branches.items) (line_of close)) }
    {
        let Frame {
            head,
            mut body,
            branches,
            ..
        } = self;
        body.shrink_to_fit();
        let middles = middles_from(alloc, branches)?;
        let block = Block6 {
            head,
            body,
            middles,
            close,
        };
        Ok(Node6::Block(Box::new(alloc, block)?))
    }
}

fn middles_from(alloc: Global, branches: Vec<Branch>) -> Result<Vec<Middle6>, Mem>
    ensures { IfOk result (λ middles. middles_of middles.items ≡ branches_of branches.items) }
{
    let mut middles = Vec::with_capacity(alloc, branches.len())?;
    for branch in branches {
        let Branch { line, body } = branch;
        middles.push(Middle6 { line, body })?;
    }
    Ok(middles)
}
