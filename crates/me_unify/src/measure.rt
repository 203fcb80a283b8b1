//! Weight, depth and groundness of the terms of nodes, each node once, with no term written out.
//!
//! The counts stop at 2^64 - 1.
ghost use Rattle.std.specs.Prelude.{◌≡◌, ℕ, ◌<◌, ◌+◌, ◌&&◌, max, IfOk, length, slice_index};
ghost use Rattle.me_terms.specs.Terms.{AtomValue};
ghost use Rattle.me_terms.specs.Measures.{capped};
ghost use Rattle.me_unify.specs.Linked.{IsForest, Colouring, AreNodes, coloured};
ghost use Rattle.me_unify.specs.Ordered.{IsSequence};
ghost use Rattle.me_unify.specs.Measured.{IsMeasure, AreMeasured, IsAtomMeasure, IsReading, IsHeld, IsHeldBelow};

use crate::links::{FREE, Links};
use crate::node::Node;
use std::alloc::{AllocError, Global};

/// How many symbols and variables stand in an atom or a term, how deep it is, and whether no variable
/// stands in it.
#[derive(Clone, Copy)]
pub struct Measure {
    pub weight: u64,
    pub depth: u64,
    pub ground: bool,
}

/// Of a variable.
pub(crate) const VARIABLE: Measure = Measure {
    weight: 1,
    depth: 1,
    ground: false,
};

/// Of a function without arguments.
pub(crate) const CONSTANT: Measure = Measure {
    weight: 1,
    depth: 1,
    ground: true,
};

/// Of no terms.
pub(crate) const NOTHING: Measure = Measure {
    weight: 0,
    depth: 0,
    ground: true,
};

/// Of the terms that two measures are of: the sum of the weights, the greater depth, and whether both are ground.
pub(crate) fn both(one: Measure, other: Measure) -> Measure
    ensures weight { result.weight ≡ capped (one.weight + other.weight) }
    ensures depth { result.depth ≡ max one.depth other.depth }
    ensures ground { result.ground ≡ (one.ground && other.ground) }
{
    Measure {
        weight: one.weight.saturating_add(other.weight),
        depth: one.depth.max(other.depth),
        ground: one.ground && other.ground,
    }
}

/// Of an atom with such arguments.
pub(crate) fn of_atom(arguments: Measure) -> Measure
    ensures { (a : AtomValue) → AreMeasured a.args arguments → IsAtomMeasure a result }
{
    Measure {
        weight: arguments.weight.saturating_add(1),
        depth: arguments.depth,
        ground: arguments.ground,
    }
}

/// Of the terms of several nodes: the sum of their weights, the greatest depth, and whether all are ground.
pub(crate) fn measure_all(measures: &[Measure], xs: &[usize]) -> Measure
    requires within { (i : ℕ) → i < length xs.now → slice_index xs.now i < length measures.now }
    ensures { (h : Colouring) → ((i : ℕ) → i < length xs.now → IsHeld h measures.now (slice_index xs.now i)) → AreMeasured (coloured h xs.now) result }
{
    let mut all = NOTHING;
    for x in xs {
        all = both(all, measures[*x]);
    }
    all
}

impl Links {
    /// The measure of a node's term, where those of what it leads to are held.
    pub(crate) fn measure_at(&self, nodes: &[Node], measures: &[Measure], x: usize) -> Measure
        requires forest { IsForest self.now }
        requires nodes { length nodes.now ≡ length self.now.place.items }
        requires fit { AreNodes nodes.now }
        requires within { x < length nodes.now }
        requires size { length measures.now ≡ length nodes.now }
        ensures { (h : Colouring) → IsReading nodes.now self.now h → IsHeldBelow nodes.now self.now h measures.now x → IsMeasure (h x) result }
    {
        let k = self.place[x];
        if k != FREE {
            return measures[self.tos[k]];
        }
        match &nodes[x] {
            Node::Var { space: _, var: _ } => VARIABLE,
            Node::App { f: _, args } => {
                let all = measure_all(measures, args);
                Measure {
                    weight: all.weight.saturating_add(1),
                    depth: all.depth.saturating_add(1),
                    ground: all.ground,
                }
            }
        }
    }

    /// The measures of the terms of all nodes, which the list has in an order.
    pub(crate) fn measures(
        &self,
        alloc: Global,
        nodes: &[Node],
        list: &[usize],
    ) -> Result<Vec<Measure>, AllocError>
        requires sequence { IsSequence nodes.now self.now list.now }
        ensures size { IfOk result (λ measures. length measures.items ≡ length nodes.now) }
        ensures held { IfOk result (λ measures. (h : Colouring) → IsReading nodes.now self.now h → (x : ℕ) → x < length nodes.now → IsHeld h measures.items x) }
    {
        let mut measures: Vec<Measure> = vec![in alloc; VARIABLE; nodes.len()]?;
        for x in list {
            let measure = self.measure_at(nodes, &measures, *x);
            measures[*x] = measure;
        }
        Ok(measures)
    }
}
