//! A walk in depth over nodes and what they lead to, with a stack of its own.
//!
//! It comes to each node once, however deep the terms are, and gives a node its place when all that the
//! node leads to has one.
ghost use Rattle.std.specs.Prelude.{◌≡◌, ℕ, ◌∷◌, ◌++◌, [], ◌+◌, ◌*◌, ◌<◌, ◌≤◌, ◌^◌, OnOk, IfOk, IfSome, IsTrue, false, None, length, slice_index, set, eqb, count_by};
ghost use Rattle.me_terms.specs.Substitutions.{Family};
ghost use Rattle.me_unify.specs.Linked.{IsForest, Respects, Colouring, IsColoured, AreNodes};
ghost use Rattle.me_unify.specs.Ordered.{LeadsBefore};
ghost use Rattle.me_unify.specs.Walked.{IsWalk, IsAbove, AreReached, AreBefore};

use crate::links::{FREE, Links};
use crate::node::Node;
use std::alloc::{AllocError, Global};

/// How far the walk has come. `order` has 0 for a node that was not seen, 1 for one that is open, and else
/// its place, and `list` has the nodes by their places, which are below `count`. `reached` says how many
/// arguments of a node are done, and `stack` has the open nodes, each below the one before it.
#[derive(Drop)]
pub(crate) struct Walk {
    pub(crate) order: Vec<usize>,
    pub(crate) list: Vec<usize>,
    pub(crate) count: usize,
    pub(crate) reached: Vec<usize>,
    pub(crate) stack: Vec<usize>,
}

/// The first argument from a place on that is not done, or the number of arguments where all are.
fn first_waiting(order: &[usize], xs: &[usize], from: usize) -> usize
    requires within { (i : ℕ) → i < length xs.now → slice_index xs.now i < length order.now }
    requires done { (i : ℕ) → i < from → i < length xs.now → 2 ≤ slice_index order.now (slice_index xs.now i) }
    ensures done { (i : ℕ) → i < result → i < length xs.now → 2 ≤ slice_index order.now (slice_index xs.now i) }
    ensures waiting { result < length xs.now → slice_index order.now (slice_index xs.now result) < 2 }
{
    for k in from..xs.len() {
        if order[xs[k]] < 2 {
            return k;
        }
    }
    xs.len()
}

impl Links {
    /// The first that a node leads to and that is not done.
    fn waiting(
        &self,
        nodes: &[Node],
        order: &[usize],
        reached: &mut [usize],
        x: usize,
    ) -> Option<usize>
        requires forest { IsForest self.now }
        requires nodes { length nodes.now ≡ length self.now.place.items }
        requires fit { AreNodes nodes.now }
        requires within { x < length nodes.now }
        requires order { length order.now ≡ length nodes.now }
        requires sized { length reached.old ≡ length nodes.now }
        requires reached { AreReached nodes.now order.now reached.old }
        ensures reached { AreReached nodes.now order.now reached.new }
        ensures done { result ≡ None → (n : ℕ) → AreBefore order.now n → LeadsBefore nodes.now self.now order.now n x }
        ensures within { IfSome result (λ y. y < length nodes.now) }
        ensures waiting { IfSome result (λ y. slice_index order.now y < 2) }
        ensures above { IfSome result (λ y. IsAbove nodes.now self.now x y) }
    {
        let k = self.place[x];
        if k != FREE {
            let to = self.tos[k];
            return if order[to] < 2 { Some(to) } else { None };
        }
        match &nodes[x] {
            Node::Var { space: _, var: _ } => None,
            Node::App { f: _, args } => {
                let next = first_waiting(order, args, reached[x]);
                reached[x] = next;
                if next < args.len() {
                    Some(args[next])
                } else {
                    None
                }
            }
        }
    }
}

impl Walk {
    /// No node was seen.
    pub(crate) fn new(alloc: Global, links: &Links, nodes: &[Node]) -> Result<Self, AllocError>
        ensures walk { IfOk result (λ walk. IsWalk nodes.now links.now walk) }
        ensures none { IfOk result (λ walk. walk.stack.items ≡ []) }
    {
        Ok(Walk {
            order: vec![in alloc; 0; nodes.len()]?,
            list: vec![in alloc; 0; nodes.len()]?,
            count: 2,
            reached: vec![in alloc; 0; nodes.len()]?,
            stack: Vec::new(alloc),
        })
    }

    /// Opens a node.
    fn enter(&mut self, x: usize) -> Result<(), AllocError>
        requires within { x < length self.old.order.items }
        ensures order { OnOk result (self.new.order.items ≡ set self.old.order.items x 1) }
        ensures stack { OnOk result (self.new.stack.items ≡ self.old.stack.items ++ x ∷ []) }
        ensures list { self.new.list.items ≡ self.old.list.items }
        ensures count { self.new.count ≡ self.old.count }
        ensures reached { self.new.reached.items ≡ self.old.reached.items }
    {
        self.stack.push(x)?;
        self.order[x] = 1;
        Ok(())
    }

    /// Goes on from the last open node: opens what it leads to, or gives it its place. False where its term
    /// would have to stand in itself.
    fn step(&mut self, links: &Links, nodes: &[Node]) -> Result<bool, AllocError>
        requires forest { IsForest links.now }
        requires nodes { length nodes.now ≡ length links.now.place.items }
        requires fit { AreNodes nodes.now }
        requires walk { IsWalk nodes.now links.now self.old }
        requires some { 0 < length self.old.stack.items }
        ensures walk { IfOk result (λ answer. IsTrue answer → IsWalk nodes.now links.now self.new) }
        ensures seen { IfOk result (λ answer. IsTrue answer → (y : ℕ) → y < length nodes.now → 1 ≤ slice_index self.old.order.items y → 1 ≤ slice_index self.new.order.items y) }
        ensures fewer { IfOk result (λ answer. IsTrue answer → 2 * count_by (λ m. eqb m 0) self.new.order.items + length self.new.stack.items < 2 * count_by (λ m. eqb m 0) self.old.order.items + length self.old.stack.items) }
        ensures no { IfOk result (λ answer. answer ≡ false → (t : Family) (h : Colouring) → IsColoured nodes.now t h → ¬ Respects links.now h) }
    {
        let last = self.stack.len() - 1;
        let x = self.stack[last];
        let Some(y) = links.waiting(nodes, &self.order, &mut self.reached, x) else {
            self.order[x] = self.count;
            self.list[self.count - 2] = x;
            self.count += 1;
            self.stack.truncate(last);
            return Ok(true);
        };
        if self.order[y] == 1 {
            return Ok(false);
        }
        self.enter(y)?;
        Ok(true)
    }

    /// Gives places to a node and all that it leads to. False where a term would have to stand in itself.
    pub(crate) fn visit(
        &mut self,
        links: &Links,
        nodes: &[Node],
        x: usize,
    ) -> Result<bool, AllocError>
        requires forest { IsForest links.now }
        requires nodes { length nodes.now ≡ length links.now.place.items }
        requires fit { AreNodes nodes.now }
        requires walk { IsWalk nodes.now links.now self.old }
        requires none { self.old.stack.items ≡ [] }
        requires within { x < length nodes.now }
        ensures walk { IfOk result (λ answer. IsTrue answer → IsWalk nodes.now links.now self.new) }
        ensures none { IfOk result (λ answer. IsTrue answer → self.new.stack.items ≡ []) }
        ensures seen { IfOk result (λ answer. IsTrue answer → (y : ℕ) → y < length nodes.now → 1 ≤ slice_index self.old.order.items y → 1 ≤ slice_index self.new.order.items y) }
        ensures done { IfOk result (λ answer. IsTrue answer → 1 ≤ slice_index self.new.order.items x) }
        ensures no { IfOk result (λ answer. answer ≡ false → (t : Family) (h : Colouring) → IsColoured nodes.now t h → ¬ Respects links.now h) }
    {
        if self.order[x] > 0 {
            return Ok(true);
        }
        self.enter(x)?;
        'open: while !self.stack.is_empty() {
            if !self.step(links, nodes)? {
                return Ok(false);
            }
        }
        Ok(true)
    }
}
