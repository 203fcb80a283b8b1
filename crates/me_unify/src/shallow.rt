//! Links that end at flat terms, by which the occurs test is spared its walk.
//!
//! A flat term is a variable, or a function of variables and constants; so no way over such a link comes
//! back to it. No memory is taken.
ghost use Rattle.std.specs.Prelude.{◌≡◌, ℕ, ◌<◌, ◌≤◌, IsTrue, true, length, slice_index};
ghost use Rattle.me_unify.specs.Linked.{IsForest, AreNodes};
ghost use Rattle.me_unify.specs.FlatEnds.{ends_at_leaf, ends_flat};

use crate::links::Links;
use crate::node::Node;

impl Links {
    /// Whether a node's links end at a variable or a constant.
    fn ends_at_leaf(&self, nodes: &[Node], x: usize) -> bool
        requires forest { IsForest self.now }
        requires nodes { length nodes.now ≡ length self.now.place.items }
        requires within { x < length nodes.now }
        ensures { result ≡ ends_at_leaf nodes.now self.now x }
    {
        match &nodes[self.find(x)] {
            Node::Var { space: _, var: _ } => true,
            Node::App { f: _, args } => args.is_empty(),
        }
    }

    /// Whether a node's links end at a flat term.
    fn ends_flat(&self, nodes: &[Node], x: usize) -> bool
        requires forest { IsForest self.now }
        requires nodes { length nodes.now ≡ length self.now.place.items }
        requires fit { AreNodes nodes.now }
        requires within { x < length nodes.now }
        ensures { IsTrue result → ends_flat nodes.now self.now x ≡ true }
    {
        let last = self.find(x);
        match &nodes[last] {
            Node::Var { space: _, var: _ } => true,
            Node::App { f: _, args } => {
                for k in 0..args.len() {
                    if !self.ends_at_leaf(nodes, args[k]) {
                        return false;
                    }
                }
                true
            }
        }
    }

    /// Whether the links from `mark` on all end at flat terms.
    pub(crate) fn are_shallow(&self, nodes: &[Node], mark: usize) -> bool
        requires forest { IsForest self.now }
        requires nodes { length nodes.now ≡ length self.now.place.items }
        requires fit { AreNodes nodes.now }
        ensures { IsTrue result → (k : ℕ) → mark ≤ k → k < length self.now.froms.items → ends_flat nodes.now self.now (slice_index self.now.froms.items k) ≡ true }
    {
        for k in mark..self.froms.len() {
            if !self.ends_flat(nodes, self.froms[k]) {
                return false;
            }
        }
        true
    }
}
