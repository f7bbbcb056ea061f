//! The list of the nodes that were reached.
ghost use Rattle.std.specs.Prelude.{◌≡◌, ℕ, ◌<◌, ◌≤◌, [], length, drop, IfOk, OnOk, OnErr, slice_index};
ghost use Rattle.reach_table.specs.Worklists.{IsReached, has, with_node};
ghost use Rattle.reach_table.specs.Chains.{is_marked};

use std::alloc::Global;
use std::marker::Model;
use up_base::Mem;

/// The nodes that were reached, each once, in the order in which they were. Those that are still to be followed stand
/// behind those that were.
#[derive(Drop)]
pub(crate) struct Worklist {
    marks: Vec<bool>,
    nodes: Vec<u32>,
}

impl Model for Worklist {
    ghost use Rattle.std.specs.Prelude.{length};
    ghost use Rattle.reach_table.specs.Worklists.{Reached, IsMarkedList};

    ghost Value = { Reached };

    ghost view = { λ w. record { limit = length w.marks.items; nodes = w.nodes.items } };

    ghost invariant = { λ w. IsMarkedList w.marks.items w.nodes.items };
}

impl Worklist {
    /// No node yet of those below the limit.
    pub(crate) fn new(alloc: Global, limit: u32) -> Result<Worklist, Mem>
        ensures { IfOk result (λ list. list ≡ record { limit = limit; nodes = [] }) }
    {
        Ok(Worklist {
            marks: vec![in alloc; false; limit as usize]?,
            nodes: Vec::new(alloc),
        })
    }

    /// Puts a node at the end, unless it was reached before.
    pub(crate) fn insert(&mut self, node: u32) -> Result<(), Mem>
        requires { node < self.old.limit }
        ensures ok { OnOk result (self.new ≡ record self.old { nodes = with_node self.old.nodes node }) }
        ensures err { OnErr result (self.new ≡ self.old) }
    {
        if self.marks[node as usize] {
            return Ok(());
        }
        self.nodes.push(node)?;
        self.marks[node as usize] = true;
        Ok(())
    }

    /// Whether a node was reached.
    pub(crate) fn contains(&self, node: u32) -> bool
        requires { node < self.now.limit }
        ensures contains { result ≡ has self.now.nodes node }
        ensures list { IsReached self.now }
    {
        self.marks[node as usize]
    }

    /// How many nodes were reached.
    pub(crate) fn len(&self) -> usize
        ensures len { result ≡ length self.now.nodes }
        ensures list { IsReached self.now }
    {
        self.nodes.len()
    }

    /// The node at a place, counted from 0.
    pub(crate) fn at(&self, place: usize) -> u32
        requires { place < length self.now.nodes }
        ensures { result ≡ slice_index self.now.nodes place }
    {
        self.nodes[place]
    }

    /// The nodes from a place on.
    pub(crate) fn rest(&self, place: usize) -> &[u32]
        requires { place ≤ length self.now.nodes }
        ensures rest { result.now ≡ drop place self.now.nodes }
        ensures list { IsReached self.now }
    {
        &self.nodes[place..]
    }

    /// For each node below the limit, whether it was reached.
    pub(crate) fn into_marks(self) -> Vec<bool>
        ensures len { length result.items ≡ self.limit }
        ensures marks { (node : ℕ) → is_marked result.items node ≡ has self.nodes node }
    {
        let Worklist { marks, nodes: _ } = self;
        marks
    }
}
