//! What a search goes over.
ghost use Rattle.std.specs.Prelude.{◌≡◌, ◌<◌, length, slice_get, Some, IfSome, not, false, IsTrue, ◌↔◌};
ghost use Rattle.me_terms.specs.Validity.{IsValid};
ghost use Rattle.me_terms.specs.Values.{ClauseValue, EntryValue};
ghost use Rattle.me_terms.specs.Context.{StandsAt};
ghost use Rattle.me_terms.specs.Positions.{ClauseAt};
ghost use Rattle.tuple_search.specs.Partners.{ArePartners};
ghost use Rattle.clause_pairs.specs.Values.{numbers_of};
ghost use Rattle.clause_pairs.specs.Pairs.{ArePairs};
ghost use Rattle.candidate_store.specs.Searches.{HasNone, HasUnmet, IsBareAt};
ghost use Rattle.me_terms.specs.Next.{HasRoom};

use clause_pairs::Pairs;
use literal_index::Index;
use me_terms::{Bounds, Clause, Literal, Problem, View};
use std::alloc::Global;

/// Whether the list has no position.
fn is_bare(list: &Vec<u32>) -> bool
    ensures { IsTrue result ↔ (length list.now.items ≡ 0) }
{
    list.len() == 0
}

/// Whether each list has a position, but for that at place `skip`.
pub(crate) fn are_paired(lists: &[Vec<u32>], skip: usize) -> bool
    ensures { result ≡ false → HasNone (numbers_of lists.now) skip }
{
    for i in 0..lists.len() {
        if i == skip {
            continue;
        }
        if is_bare(&lists[i]) {
            return false;
        }
    }
    true
}

/// A problem and a context, what stands against what, the index of the entries, and the bounds.
pub(crate) struct Search<'a, V: View> {
    pub(crate) alloc: Global,
    pub(crate) problem: &'a Problem,
    pub(crate) bounds: &'a Bounds,
    pub(crate) pairs: &'a Pairs,
    pub(crate) entries: &'a Index,
    pub(crate) view: &'a V,
}

impl<'a, V: View> Drop for Search<'a, V> {
    fn drop(self) {
        let Search {
            alloc: _,
            problem: _,
            bounds: _,
            pairs: _,
            entries: _,
            view: _,
        } = self;
    }
}

impl<'a, V: View> Search<'a, V> {
    /// The clause at place `c` of the problem.
    pub(crate) fn clause(&self, c: u32) -> &'a Clause
        requires { c < length self.now.problem.now.clauses }
        ensures { ClauseAt self.now.problem.now c result.now }
    {
        let problem = self.problem;
        &problem.clauses.as_slice()[c as usize]
    }

    /// For each place of the clause the positions of the entries that stand against its literal.
    pub(crate) fn partners(&self, clause: u32) -> &'a [Vec<u32>]
        requires pairs { ArePairs self.now.problem.now (V.context self.now.view.now) self.now.pairs.now }
        requires clause { clause < length self.now.problem.now.clauses }
        ensures { (c : ClauseValue) → ClauseAt self.now.problem.now clause c → ArePartners (V.context self.now.view.now) c.literals result.now }
    {
        let pairs = self.pairs;
        pairs.of_clause(clause)
    }

    /// The first place of the clause against whose literal no entry stands but perhaps the pseudo-literal.
    pub(crate) fn first_bare(&self, index: u32) -> Option<u32>
        requires valid { IsValid self.now.problem.now }
        requires pairs { ArePairs self.now.problem.now (V.context self.now.view.now) self.now.pairs.now }
        requires clause { index < length self.now.problem.now.clauses }
        ensures { IfSome result (λ i. IsBareAt self.now.pairs.now.lists index i) }
    {
        let lists = self.pairs.of_clause(index);
        let clause = self.clause(index);
        let places = clause.literals.len() as u32;
        for i in 0..places {
            if is_bare(&lists[i as usize]) {
                return Some(i);
            }
        }
        None
    }

    /// Whether the pseudo-literal has the opposite sign.
    fn is_opposed(&self, literal: &Literal) -> bool
        ensures { result ≡ false → (e : EntryValue) → StandsAt (V.context self.now.view.now) 0 e → ¬ (e.positive ≡ not literal.now.positive) }
    {
        match self.view.entry(0) {
            Some(entry) => entry.positive != literal.positive,
            None => false,
        }
    }

    /// Whether some entry stands against each literal of the clause.
    pub(crate) fn are_met(&self, index: u32) -> bool
        requires pairs { ArePairs self.now.problem.now (V.context self.now.view.now) self.now.pairs.now }
        requires clause { index < length self.now.problem.now.clauses }
        ensures { result ≡ false → HasUnmet self.now.problem.now (V.context self.now.view.now) index }
    {
        let lists = self.pairs.of_clause(index);
        let clause = self.clause(index);
        let literals = clause.literals.as_slice();
        for i in 0..literals.len() {
            if !is_bare(&lists[i]) {
                continue;
            }
            if !self.is_opposed(&literals[i]) {
                return false;
            }
        }
        true
    }

    /// Whether the context may get a further entry.
    pub(crate) fn has_room(&self) -> bool
        ensures { IsTrue result ↔ HasRoom self.now.bounds.now (V.context self.now.view.now) }
    {
        let bounds = self.bounds;
        self.view.len() < bounds.literals
    }
}
