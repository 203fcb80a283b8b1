//! What links say of arguments: two functions are equal only where their symbols and arguments are.
//!
//! Each link is followed once, and what it says of the arguments is linked behind it.
ghost use Rattle.std.specs.Prelude.{◌≡◌, ℕ, ◌<◌, ◌≤◌, OnOk, IfOk, IsTrue, false, length, slice_index};
ghost use Rattle.me_terms.specs.Substitutions.{Family};
ghost use Rattle.me_unify.specs.Linked.{IsForest, Respects, Alike, Colouring, IsColoured, AreNodes, AreDirected, IsLonger, AreClosed, ArePairClosed};

use crate::links::Links;
use crate::node::Node;
use std::alloc::AllocError;

impl Links {
    /// Makes arguments equal, one by one.
    pub(crate) fn join_all(
        &mut self,
        nodes: &[Node],
        xs: &[usize],
        ys: &[usize],
    ) -> Result<(), AllocError>
        requires forest { IsForest self.old }
        requires nodes { length nodes.now ≡ length self.old.place.items }
        requires lengths { length xs.now ≡ length ys.now }
        requires left { (i : ℕ) → i < length xs.now → slice_index xs.now i < length self.old.place.items }
        requires right { (i : ℕ) → i < length ys.now → slice_index ys.now i < length self.old.place.items }
        requires directed { AreDirected nodes.now self.old }
        ensures forest { IsForest self.new }
        ensures size { length self.new.place.items ≡ length self.old.place.items }
        ensures directed { AreDirected nodes.now self.new }
        ensures more { IsLonger self.old self.new }
        ensures same { (h : Colouring) → Respects self.old h → ((i : ℕ) → i < length xs.now → h (slice_index xs.now i) ≡ h (slice_index ys.now i)) → Respects self.new h }
        ensures alike { OnOk result ((i : ℕ) → i < length xs.now → Alike self.new (slice_index xs.now i) (slice_index ys.now i)) }
    {
        for i in 0..xs.len() {
            self.join(nodes, xs[i], ys[i])?;
        }
        Ok(())
    }

    /// Makes the arguments of two nodes equal, or says that nothing does.
    pub(crate) fn step(&mut self, nodes: &[Node], a: usize, b: usize) -> Result<bool, AllocError>
        requires forest { IsForest self.old }
        requires nodes { length nodes.now ≡ length self.old.place.items }
        requires fit { AreNodes nodes.now }
        requires left { a < length self.old.place.items }
        requires right { b < length self.old.place.items }
        requires directed { AreDirected nodes.now self.old }
        ensures forest { IsForest self.new }
        ensures size { length self.new.place.items ≡ length self.old.place.items }
        ensures directed { AreDirected nodes.now self.new }
        ensures more { IsLonger self.old self.new }
        ensures same { (t : Family) (h : Colouring) → IsColoured nodes.now t h → Respects self.old h → h a ≡ h b → Respects self.new h }
        ensures yes { IfOk result (λ answer. IsTrue answer → ArePairClosed nodes.now self.new a b) }
        ensures no { IfOk result (λ answer. answer ≡ false → (t : Family) (h : Colouring) → IsColoured nodes.now t h → ¬ (h a ≡ h b)) }
    {
        match (&nodes[a], &nodes[b]) {
            (Node::App { f, args }, Node::App { f: g, args: others }) => {
                if *f != *g || args.len() != others.len() {
                    return Ok(false);
                }
                self.join_all(nodes, args, others)?;
                Ok(true)
            }
            _ => Ok(true),
        }
    }

    /// Follows the links from `start` on into the arguments, and those that come of it, or says that nothing makes the nodes equal.
    pub(crate) fn close(&mut self, nodes: &[Node], start: usize) -> Result<bool, AllocError>
        requires forest { IsForest self.old }
        requires nodes { length nodes.now ≡ length self.old.place.items }
        requires fit { AreNodes nodes.now }
        requires start { start ≤ length self.old.froms.items }
        requires closed { AreClosed nodes.now self.old start }
        requires directed { AreDirected nodes.now self.old }
        ensures forest { IsForest self.new }
        ensures size { length self.new.place.items ≡ length self.old.place.items }
        ensures directed { AreDirected nodes.now self.new }
        ensures more { IsLonger self.old self.new }
        ensures same { (t : Family) (h : Colouring) → IsColoured nodes.now t h → Respects self.old h → Respects self.new h }
        ensures yes { IfOk result (λ answer. IsTrue answer → AreClosed nodes.now self.new (length self.new.froms.items)) }
        ensures no { IfOk result (λ answer. answer ≡ false → (t : Family) (h : Colouring) → IsColoured nodes.now t h → ¬ Respects self.old h) }
    {
        let mut k = start;
        'links: while k < self.froms.len() {
            let a = self.froms[k];
            let b = self.tos[k];
            if !self.step(nodes, a, b)? {
                return Ok(false);
            }
            k += 1;
        }
        Ok(true)
    }
}
