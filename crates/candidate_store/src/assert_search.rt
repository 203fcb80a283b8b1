//! The search for Asserts.
ghost use Rattle.std.specs.Prelude.{◌≡◌, ◌<◌, ◌-◌, ◌^◌, length, Some, IfOk, IfSome, IfNone, OnOk};
ghost use Rattle.me_terms.specs.Validity.{IsValid, IsLawful};
ghost use Rattle.me_terms.specs.Values.{EntryValue};
ghost use Rattle.me_terms.specs.Positions.{ClauseAt, positions_of, AreOpposite};
ghost use Rattle.me_terms.specs.Close.{HasClose};
ghost use Rattle.me_terms.specs.Assert.{IsAssert, HasAssert};
ghost use Rattle.me_terms.specs.Next.{IsNext};
ghost use Rattle.me_terms.specs.AnswerViews.{next_value};
ghost use Rattle.me_terms.specs.Order.{assert_key};
ghost use Rattle.clause_pairs.specs.Pairs.{ArePairs};
ghost use Rattle.candidate_keys.specs.Keys.{assert_code, HasCode};
ghost use Rattle.literal_index.specs.Index.{IsIndex};
ghost use Rattle.kept_asserts.specs.Held.{HoldsAsserts};
ghost use Rattle.candidate_store.specs.Searches.{HoldsAssertsIn, ByPlace, ByClause, Beside, AssertsAt, WithPivot, Keeps, index_of};

use crate::search::{Search, are_paired};
use assert_rule::{Candidate, candidate_of};
use candidate_keys::{AssertKey, Asserts};
use clause_pairs::ClausePlace;
use kept_asserts::least_assert;
use me_terms::{Again, Bound, Clause, Next, Tuple, View};
use std::alloc::{AllocError, Global};
use tuple_search::{Cursor, Limits, Pivot};

/// Where the place of a clause stands in a tuple that skips another one.
fn index_beside(place: u32, skip: u32) -> u32
    requires { ¬ (place ≡ skip) }
    ensures { result ≡ index_of skip place }
{
    if place < skip {
        return place;
    }
    place - 1
}

/// The key of the Assert that was found of the clause, place and tuple.
fn key_of(
    alloc: Global,
    candidate: &Candidate,
    clause: u32,
    place: u32,
    tuple: &Tuple,
) -> Result<AssertKey, AllocError>
    ensures { IfOk result (λ key. assert_code key ≡ assert_key clause place tuple.now.items candidate.now) }
{
    let kind = candidate.entry().kind;
    let weight = candidate.weight();
    let tuple = tuple.again(alloc)?;
    Ok(AssertKey {
        kind,
        weight,
        clause,
        place,
        tuple,
    })
}

impl<'a, V: View> Search<'a, V> {
    /// Adds the key of the Assert of the tuple, if there is one.
    fn add_assert(
        &self,
        clause: &Clause,
        index: u32,
        place: u32,
        tuple: &Tuple,
        asserts: &mut Asserts,
    ) -> Result<(), AllocError>
        requires clause_at { ClauseAt self.now.problem.now index clause.now }
        requires place { place < length clause.now.literals }
        requires opposite { AreOpposite (V.context self.now.view.now) clause.now.literals (positions_of (Some place) tuple.now.items) }
        requires few { length clause.now.literals < 2 ^ 32 - 1 }
        requires bounds { IsLawful self.now.bounds.now }
        requires index { IsIndex (V.context self.now.view.now) self.now.entries.now }
        ensures kept { OnOk result (Keeps asserts.old asserts.new) }
        ensures added { OnOk result ((e : EntryValue) → IsAssert self.now.problem.now self.now.bounds.now (V.context self.now.view.now) index place tuple.now.items e → HasCode asserts.new (assert_key index place tuple.now.items e)) }
    {
        let found = candidate_of(
            self.alloc,
            clause,
            index,
            place,
            tuple,
            self.view,
            self.entries,
            self.bounds,
        )?;
        let Some(candidate) = found else {
            return Ok(());
        };
        let key = key_of(self.alloc, &candidate, index, place, tuple)?;
        asserts.add(key)
    }

    /// Adds the keys of the Asserts by that place, of all tuples or those with that pivot.
    fn add_asserts_of_place(
        &self,
        index: u32,
        place: u32,
        pivot: Option<Pivot>,
        asserts: &mut Asserts,
    ) -> Result<(), AllocError>
        requires valid { IsValid self.now.problem.now }
        requires bounds { IsLawful self.now.bounds.now }
        requires index { IsIndex (V.context self.now.view.now) self.now.entries.now }
        requires pairs { ArePairs self.now.problem.now (V.context self.now.view.now) self.now.pairs.now }
        requires clause { index < length self.now.problem.now.clauses }
        ensures kept { OnOk result (Keeps asserts.old asserts.new) }
        ensures added { OnOk result (HoldsAssertsIn self.now.problem.now self.now.bounds.now (V.context self.now.view.now) (ByPlace index place pivot) asserts.new) }
    {
        let clause = self.clause(index);
        if place as u64 >= clause.literals.len() {
            return Ok(());
        }
        let _entries = self.view.len();
        let lists = self.pairs.of_clause(index);
        if !are_paired(lists, place as usize) {
            return Ok(());
        }
        let bounds = self.bounds;
        let limits = Limits {
            remaining: Some(0),
            weight: Some(bounds.weight),
            pivot,
        };
        let partners = self.partners(index);
        let mut cursor = Cursor::among(
            self.alloc,
            &clause.literals,
            Some(place),
            limits,
            self.view,
            partners,
        );
        while cursor.advance()? {
            self.add_assert(clause, index, place, cursor.tuple(), asserts)?;
        }
        Ok(())
    }

    /// Adds the keys of the Asserts by that place, if it is another one, whose pivot is at that position,
    /// first at the first place.
    fn add_asserts_beside(
        &self,
        at: ClausePlace,
        place: u32,
        pivot: u32,
        asserts: &mut Asserts,
    ) -> Result<(), AllocError>
        requires valid { IsValid self.now.problem.now }
        requires bounds { IsLawful self.now.bounds.now }
        requires index { IsIndex (V.context self.now.view.now) self.now.entries.now }
        requires pairs { ArePairs self.now.problem.now (V.context self.now.view.now) self.now.pairs.now }
        requires clause { at.clause < length self.now.problem.now.clauses }
        ensures kept { OnOk result (Keeps asserts.old asserts.new) }
        ensures added { OnOk result (HoldsAssertsIn self.now.problem.now self.now.bounds.now (V.context self.now.view.now) (Beside at place pivot) asserts.new) }
    {
        if place == at.place {
            return Ok(());
        }
        let pivot = Pivot {
            position: pivot,
            index: index_beside(at.place, place),
        };
        self.add_asserts_of_place(at.clause, place, Some(pivot), asserts)
    }

    /// Adds the keys of the Asserts by the clause's other places whose pivot is at that position, first at
    /// that place.
    fn add_asserts_at(
        &self,
        at: ClausePlace,
        pivot: u32,
        asserts: &mut Asserts,
    ) -> Result<(), AllocError>
        requires valid { IsValid self.now.problem.now }
        requires bounds { IsLawful self.now.bounds.now }
        requires index { IsIndex (V.context self.now.view.now) self.now.entries.now }
        requires pairs { ArePairs self.now.problem.now (V.context self.now.view.now) self.now.pairs.now }
        requires clause { at.clause < length self.now.problem.now.clauses }
        ensures kept { OnOk result (Keeps asserts.old asserts.new) }
        ensures added { OnOk result (HoldsAssertsIn self.now.problem.now self.now.bounds.now (V.context self.now.view.now) (AssertsAt at pivot) asserts.new) }
    {
        let _entries = self.view.len();
        if let Some(place) = self.first_bare(at.clause) {
            return self.add_asserts_beside(at, place, pivot, asserts);
        }
        let clause = self.clause(at.clause);
        let places = clause.literals.len() as u32;
        for place in 0..places {
            self.add_asserts_beside(at, place, pivot, asserts)?;
        }
        Ok(())
    }

    /// Adds the keys of the Asserts whose pivot is at that position.
    pub(crate) fn add_asserts_with(
        &self,
        pivot: u32,
        asserts: &mut Asserts,
    ) -> Result<(), AllocError>
        requires valid { IsValid self.now.problem.now }
        requires bounds { IsLawful self.now.bounds.now }
        requires index { IsIndex (V.context self.now.view.now) self.now.entries.now }
        requires pairs { ArePairs self.now.problem.now (V.context self.now.view.now) self.now.pairs.now }
        requires literal { 0 < pivot }
        requires within { pivot < length (V.context self.now.view.now) }
        ensures kept { OnOk result (Keeps asserts.old asserts.new) }
        ensures added { OnOk result (HoldsAssertsIn self.now.problem.now self.now.bounds.now (V.context self.now.view.now) (λ c place tuple. WithPivot pivot c tuple) asserts.new) }
    {
        let places = self.pairs.places_of(pivot);
        for at in places {
            self.add_asserts_at(*at, pivot, asserts)?;
        }
        Ok(())
    }

    /// Adds the keys of the Asserts by the clause.
    fn add_asserts_of_clause(&self, index: u32, asserts: &mut Asserts) -> Result<(), AllocError>
        requires valid { IsValid self.now.problem.now }
        requires bounds { IsLawful self.now.bounds.now }
        requires index { IsIndex (V.context self.now.view.now) self.now.entries.now }
        requires pairs { ArePairs self.now.problem.now (V.context self.now.view.now) self.now.pairs.now }
        requires clause { index < length self.now.problem.now.clauses }
        ensures kept { OnOk result (Keeps asserts.old asserts.new) }
        ensures added { OnOk result (HoldsAssertsIn self.now.problem.now self.now.bounds.now (V.context self.now.view.now) (ByClause index) asserts.new) }
    {
        let clause = self.clause(index);
        let places = clause.literals.len() as u32;
        for place in 0..places {
            self.add_asserts_of_place(index, place, None, asserts)?;
        }
        Ok(())
    }

    /// Adds the keys of all Asserts.
    pub(crate) fn add_all_asserts(&self, asserts: &mut Asserts) -> Result<(), AllocError>
        requires valid { IsValid self.now.problem.now }
        requires bounds { IsLawful self.now.bounds.now }
        requires index { IsIndex (V.context self.now.view.now) self.now.entries.now }
        requires pairs { ArePairs self.now.problem.now (V.context self.now.view.now) self.now.pairs.now }
        ensures { OnOk result (HoldsAsserts self.now.problem.now self.now.bounds.now (V.context self.now.view.now) asserts.new) }
    {
        let problem = self.problem;
        let clauses = problem.clauses.len() as u32;
        for clause in 0..clauses {
            self.add_asserts_of_clause(clause, asserts)?;
        }
        Ok(())
    }

    /// The step at a context without a Close, where it has an Assert.
    pub(crate) fn assert_step(&self, asserts: &mut Asserts) -> Result<Option<Next>, AllocError>
        requires valid { IsValid self.now.problem.now }
        requires bounds { IsLawful self.now.bounds.now }
        requires index { IsIndex (V.context self.now.view.now) self.now.entries.now }
        requires open { HasClose self.now.problem.now (V.context self.now.view.now) → ⊥ }
        requires all { HoldsAsserts self.now.problem.now self.now.bounds.now (V.context self.now.view.now) asserts.old }
        ensures some { IfOk result (λ r. IfSome r (λ next. IsNext self.now.problem.now self.now.bounds.now (V.context self.now.view.now) (next_value next))) }
        ensures none { IfOk result (λ r. IfNone r (HasAssert self.now.problem.now self.now.bounds.now (V.context self.now.view.now) → ⊥)) }
        ensures kept { OnOk result (HoldsAsserts self.now.problem.now self.now.bounds.now (V.context self.now.view.now) asserts.new) }
    {
        let least = least_assert(
            self.alloc,
            self.problem,
            asserts,
            self.view,
            self.entries,
            self.bounds,
        )?;
        let Some(entry) = least else {
            return Ok(None);
        };
        if self.has_room() {
            return Ok(Some(Next::Assert { entry }));
        }
        Ok(Some(Next::Bounded {
            bound: Bound::Literals,
        }))
    }
}
