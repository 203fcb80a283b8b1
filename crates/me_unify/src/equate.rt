//! Two nodes are made equal, by all the links that this takes, or the links stay as they were.
//!
//! The answer is exact: it is no only where no terms make the linked nodes and these two equal.
ghost use Rattle.std.specs.Prelude.{◌≡◌, ℕ, ◌<◌, ◌↔◌, OnErr, IfOk, IsTrue, false, length};
ghost use Rattle.me_terms.specs.Substitutions.{Family};
ghost use Rattle.me_unify.specs.Linked.{IsForest, Respects, Colouring, IsColoured, AreNodes, AreDirected, IsLonger, AreClosed};
ghost use Rattle.me_unify.specs.Ordered.{HasOrder};

use crate::links::Links;
use crate::node::Node;
use std::alloc::{AllocError, Global};

impl Links {
    /// Adds what makes two nodes equal, or says that nothing does. It may leave links behind where it does not answer true.
    pub(crate) fn try_equate(
        &mut self,
        alloc: Global,
        nodes: &[Node],
        x: usize,
        y: usize,
    ) -> Result<bool, AllocError>
        requires forest { IsForest self.old }
        requires nodes { length nodes.now ≡ length self.old.place.items }
        requires fit { AreNodes nodes.now }
        requires left { x < length self.old.place.items }
        requires right { y < length self.old.place.items }
        requires directed { AreDirected nodes.now self.old }
        requires closed { AreClosed nodes.now self.old (length self.old.froms.items) }
        requires order { HasOrder nodes.now self.old }
        ensures forest { IsForest self.new }
        ensures size { length self.new.place.items ≡ length self.old.place.items }
        ensures directed { AreDirected nodes.now self.new }
        ensures more { IsLonger self.old self.new }
        ensures closed { IfOk result (λ answer. IsTrue answer → AreClosed nodes.now self.new (length self.new.froms.items)) }
        ensures settled { IfOk result (λ answer. IsTrue answer → HasOrder nodes.now self.new) }
        ensures yes { IfOk result (λ answer. IsTrue answer → (t : Family) (h : Colouring) → IsColoured nodes.now t h → (Respects self.old h × (h x ≡ h y)) ↔ Respects self.new h) }
        ensures no { IfOk result (λ answer. answer ≡ false → (t : Family) (h : Colouring) → IsColoured nodes.now t h → Respects self.old h → ¬ (h x ≡ h y)) }
    {
        let mark = self.froms.len();
        self.join(nodes, x, y)?;
        if !self.close(nodes, mark)? {
            return Ok(false);
        }
        self.is_ordered(alloc, nodes, mark)
    }

    /// Adds what makes two nodes equal, or says that nothing does, and then the links are as before.
    pub(crate) fn equate(
        &mut self,
        alloc: Global,
        nodes: &[Node],
        x: usize,
        y: usize,
    ) -> Result<bool, AllocError>
        requires forest { IsForest self.old }
        requires nodes { length nodes.now ≡ length self.old.place.items }
        requires fit { AreNodes nodes.now }
        requires left { x < length self.old.place.items }
        requires right { y < length self.old.place.items }
        requires directed { AreDirected nodes.now self.old }
        requires closed { AreClosed nodes.now self.old (length self.old.froms.items) }
        requires order { HasOrder nodes.now self.old }
        ensures forest { IsForest self.new }
        ensures size { length self.new.place.items ≡ length self.old.place.items }
        ensures directed { AreDirected nodes.now self.new }
        ensures closed { AreClosed nodes.now self.new (length self.new.froms.items) }
        ensures more { IsLonger self.old self.new }
        ensures settled { IfOk result (λ answer. IsTrue answer → HasOrder nodes.now self.new) }
        ensures yes { IfOk result (λ answer. IsTrue answer → (t : Family) (h : Colouring) → IsColoured nodes.now t h → (Respects self.old h × (h x ≡ h y)) ↔ Respects self.new h) }
        ensures no { IfOk result (λ answer. answer ≡ false → (t : Family) (h : Colouring) → IsColoured nodes.now t h → Respects self.old h → ¬ (h x ≡ h y)) }
        ensures back { IfOk result (λ answer. answer ≡ false → IsLonger self.new self.old) }
        ensures err { OnErr result (IsLonger self.new self.old) }
    {
        let mark = self.froms.len();
        match self.try_equate(alloc, nodes, x, y) {
            Ok(true) => Ok(true),
            Ok(false) => {
                self.undo(mark);
                Ok(false)
            }
            Err(error) => {
                self.undo(mark);
                Err(error)
            }
        }
    }
}
