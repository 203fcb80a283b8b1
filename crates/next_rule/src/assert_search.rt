//! The search for the least Assert.
ghost use Rattle.std.specs.Prelude.{◌≡◌, ◌<◌, ◌-◌, ◌^◌, length, Some, None, IfOk, IfSome, IfNone};
ghost use Rattle.me_terms.specs.Values.{EntryValue};
ghost use Rattle.me_terms.specs.Validity.{IsLawful};
ghost use Rattle.me_terms.specs.Positions.{ClauseAt, positions_of, AreOpposite};
ghost use Rattle.me_terms.specs.Assert.{HasAssert};
ghost use Rattle.me_terms.specs.Order.{IsLeastAssert};
ghost use Rattle.next_rule.specs.FewPlaces.{HasFewPlaces};
ghost use Rattle.next_rule.specs.AssertSearches.{AssertTuple, AssertPlace, AssertClause, AssertClauses, TakesAsserts};

use crate::assert_limits::limits_before;
use crate::search::Search;
use assert_rule::{Candidate, assert_before};
use me_terms::{Clause, Entry, Tuple, View};
use std::alloc::AllocError;
use tuple_search::Cursor;

impl<'a, V: View> Search<'a, V> {
    /// The best entry so far, or that of the Assert of the tuple where it comes before.
    fn assert_at(
        &self,
        clause: &Clause,
        index: u32,
        place: u32,
        tuple: &Tuple,
        best: Option<Candidate>,
    ) -> Result<Option<Candidate>, AllocError>
        requires clause_at { ClauseAt self.now.problem.now index clause.now }
        requires place { place < length clause.now.literals }
        requires opposite { AreOpposite (V.context self.now.view.now) clause.now.literals (positions_of (Some place) tuple.now.items) }
        requires few { length clause.now.literals < 2 ^ 32 - 1 }
        requires bounds { IsLawful self.now.bounds.now }
        ensures { IfOk result (λ better. TakesAsserts self.now.problem.now self.now.bounds.now (V.context self.now.view.now) (AssertTuple index place tuple.now.items) best better) }
    {
        let found = assert_before(
            self.alloc,
            clause,
            index,
            place,
            tuple,
            self.view,
            self.bounds,
            best.as_ref(),
        )?;
        match found {
            Some(better) => Ok(Some(better)),
            None => Ok(best),
        }
    }

    /// The best entry so far, or that of the least Assert of the place where it comes before. A tuple is left
    /// at the first positions that show that what it asserts is too heavy.
    fn asserts_of_place(
        &self,
        clause: &Clause,
        index: u32,
        place: u32,
        mut best: Option<Candidate>,
    ) -> Result<Option<Candidate>, AllocError>
        requires clause_at { ClauseAt self.now.problem.now index clause.now }
        requires place { place < length clause.now.literals }
        requires few { length clause.now.literals < 2 ^ 32 - 1 }
        requires bounds { IsLawful self.now.bounds.now }
        ensures { IfOk result (λ better. TakesAsserts self.now.problem.now self.now.bounds.now (V.context self.now.view.now) (AssertPlace index place) best better) }
    {
        let limits = limits_before(self.bounds, &best);
        let mut cursor = Cursor::new(self.alloc, &clause.literals, Some(place), limits, self.view);
        while cursor.advance()? {
            best = self.assert_at(clause, index, place, cursor.tuple(), best)?;
            cursor.limit(limits_before(self.bounds, &best))?;
        }
        Ok(best)
    }

    /// The best entry so far, or that of the least Assert of the clause where it comes before.
    fn asserts_of_clause(
        &self,
        clause: &Clause,
        index: u32,
        mut best: Option<Candidate>,
    ) -> Result<Option<Candidate>, AllocError>
        requires clause_at { ClauseAt self.now.problem.now index clause.now }
        requires few { length clause.now.literals < 2 ^ 32 - 1 }
        requires bounds { IsLawful self.now.bounds.now }
        ensures { IfOk result (λ better. TakesAsserts self.now.problem.now self.now.bounds.now (V.context self.now.view.now) (AssertClause index) best better) }
    {
        let places = clause.literals.len() as u32;
        for place in 0..places {
            best = self.asserts_of_place(clause, index, place, best)?;
        }
        Ok(best)
    }

    /// The entry of the least Assert, if there is one.
    pub(crate) fn assert(&self) -> Result<Option<Entry>, AllocError>
        requires few { HasFewPlaces self.now.problem.now }
        requires bounds { IsLawful self.now.bounds.now }
        ensures some { IfOk result (λ r. IfSome r (λ e. IsLeastAssert self.now.problem.now self.now.bounds.now (V.context self.now.view.now) e)) }
        ensures none { IfOk result (λ r. IfNone r (HasAssert self.now.problem.now self.now.bounds.now (V.context self.now.view.now) → ⊥)) }
    {
        let problem = self.problem;
        let mut best = None;
        for (c, clause) in problem.clauses.as_slice().iter().enumerate() {
            best = self.asserts_of_clause(clause, c as u32, best)?;
        }
        match best {
            Some(candidate) => Ok(Some(candidate.into_entry())),
            None => Ok(None),
        }
    }
}
