//! The occurs test: an order of the nodes in which each stands behind what its term is made of.
//!
//! One walk in depth, which comes to each node once. Where it meets a node that is still open, no terms
//! make the linked nodes equal. Links that end at flat terms need no walk.
ghost use Rattle.std.specs.Prelude.{◌≡◌, IfOk, IfSome, IsTrue, false, None, length};
ghost use Rattle.me_terms.specs.Substitutions.{Family};
ghost use Rattle.me_unify.specs.Linked.{IsForest, Respects, Colouring, IsColoured, AreNodes, AreClosed};
ghost use Rattle.me_unify.specs.Ordered.{HasOrder, HasOrderBefore, IsSequence};

use crate::links::Links;
use crate::node::Node;
use crate::walk::Walk;
use std::alloc::{AllocError, Global};

impl Links {
    /// The nodes in an order in which each stands behind all that it leads to. None where nothing makes
    /// linked nodes equal.
    pub(crate) fn ordered(
        &self,
        alloc: Global,
        nodes: &[Node],
    ) -> Result<Option<Vec<usize>>, AllocError>
        requires forest { IsForest self.now }
        requires nodes { length nodes.now ≡ length self.now.place.items }
        requires fit { AreNodes nodes.now }
        requires closed { AreClosed nodes.now self.now (length self.now.froms.items) }
        ensures some { IfOk result (λ answer. IfSome answer (λ list. IsSequence nodes.now self.now list.items)) }
        ensures none { IfOk result (λ answer. answer ≡ None → (t : Family) (h : Colouring) → IsColoured nodes.now t h → ¬ Respects self.now h) }
    {
        let mut walk = Walk::new(alloc, self, nodes)?;
        for x in 0..nodes.len() {
            if !walk.visit(self, nodes, x)? {
                return Ok(None);
            }
        }
        let mut list = walk.list;
        list.truncate(walk.count - 2);
        Ok(Some(list))
    }

    /// Whether the nodes stand in an order, as they do without the links from `mark` on. False where nothing
    /// makes linked nodes equal. It comes to those nodes alone that the links from `mark` on lead to.
    pub(crate) fn is_ordered(
        &self,
        alloc: Global,
        nodes: &[Node],
        mark: usize,
    ) -> Result<bool, AllocError>
        requires forest { IsForest self.now }
        requires nodes { length nodes.now ≡ length self.now.place.items }
        requires fit { AreNodes nodes.now }
        requires closed { AreClosed nodes.now self.now (length self.now.froms.items) }
        requires before { HasOrderBefore nodes.now self.now mark }
        ensures yes { IfOk result (λ answer. IsTrue answer → HasOrder nodes.now self.now) }
        ensures no { IfOk result (λ answer. answer ≡ false → (t : Family) (h : Colouring) → IsColoured nodes.now t h → ¬ Respects self.now h) }
    {
        if self.are_shallow(nodes, mark) {
            return Ok(true);
        }
        let mut walk = Walk::new(alloc, self, nodes)?;
        for k in mark..self.froms.len() {
            if !walk.visit(self, nodes, self.froms[k])? {
                return Ok(false);
            }
        }
        Ok(true)
    }
}
