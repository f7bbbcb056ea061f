//! Questions on the nodes of an expression or of a line.
ghost use Rattle.std.specs.Prelude.{◌≡◌, ◌++◌, Bool, filter, map, OnOk};
ghost use Rattle.std.specs.List.{list_any, list_all};
ghost use Rattle.bound_tree.specs.Tree.{Expr};
ghost use Rattle.bound_tree.specs.View.{expr_of, shown};

use bound_tree::BoundExpr;
use up_base::Mem;

/// A test on one node.
pub trait NodeTest {
    ghost test: { Self → Expr → Bool };

    /// Whether it holds at a node.
    fn holds(&self, e: &BoundExpr) -> bool
        ensures { result ≡ test self.now (expr_of e.now) };
}

/// Whether a test holds at some of the nodes.
pub fn any_of<T: NodeTest>(nodes: &[&BoundExpr], t: &T) -> bool
    ensures { result ≡ list_any (T.test t.now) (map shown nodes.now) }
{
    for e in nodes {
        if t.holds(e) {
            return true;
        }
    }
    false
}

/// Whether a test holds at all of the nodes.
pub fn all_of<T: NodeTest>(nodes: &[&BoundExpr], t: &T) -> bool
    ensures { result ≡ list_all (T.test t.now) (map shown nodes.now) }
{
    for e in nodes {
        if !t.holds(e) {
            return false;
        }
    }
    true
}

/// Appends the nodes at which a test holds.
pub fn push_those<'a, T: NodeTest>(
    nodes: &[&'a BoundExpr],
    t: &T,
    to: &mut Vec<&'a BoundExpr>,
) -> Result<(), Mem>
    ensures { OnOk result (map shown to.new.items ≡ map shown to.old.items ++ filter (T.test t.now) (map shown nodes.now)) }
{
    for e in nodes {
        if t.holds(e) {
            to.push(*e)?;
        }
    }
    Ok(())
}
