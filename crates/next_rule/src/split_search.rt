//! The search for the least Split.
//!
//! Where there is none, the first literal that is left says which bound is met.
ghost use Rattle.std.specs.Prelude.{◌≡◌, ◌<◌, ◌-◌, ◌^◌, [], length, slice_get, Some, None, IfOk};
ghost use Rattle.me_terms.specs.Substitutions.{Family};
ghost use Rattle.me_terms.specs.Validity.{IsLawful};
ghost use Rattle.me_terms.specs.Positions.{ClauseAt, positions_of, AreOpposite};
ghost use Rattle.me_terms.specs.Unifier.{unified};
ghost use Rattle.me_terms.specs.Fits.{Fits};
ghost use Rattle.me_terms.specs.Close.{HasClose};
ghost use Rattle.me_terms.specs.Next.{IsBeyond};
ghost use Rattle.me_terms.specs.declared.atom.Literal.{Literal as LiteralOf};
ghost use Rattle.me_unify.specs.Equations.{IsMostGeneral};
ghost use Rattle.split_rule.specs.SplitChoices.{IsChosen, FollowsRule};
ghost use Rattle.next_rule.specs.FewPlaces.{HasFewPlaces};
ghost use Rattle.next_rule.specs.SplitSearches.{SplitTuple, SplitClause, SplitClauses, Looks, IsUnifying, IsFirstBeyond, IsSplitResult};

use crate::search::Search;
use crate::split_state::{SplitCandidate, SplitState};
use context_unifier::is_productive;
use joint_unifiers::{Unifier, joint_unifier};
use me_terms::{Bound, Bounds, Clause, Tuple, View};
use split_rule::{SplitChoice, split_of};
use std::alloc::AllocError;
use tuple_search::Cursor;

/// The bound that the literal of that place is beyond under the unifier; depth goes before weight.
fn bound_beyond(unifier: &Unifier<'_>, place: u32, bounds: &Bounds) -> Bound
    requires place { place < length unifier.now.literals }
    requires bounds { IsLawful bounds.now }
    requires beyond { (f : Family) (l : LiteralOf) → IsMostGeneral unifier.now.equations f → slice_get unifier.now.literals place ≡ Some l → ¬ Fits bounds.now (unified f l) }
    ensures { (f : Family) (l : LiteralOf) → IsMostGeneral unifier.now.equations f → slice_get unifier.now.literals place ≡ Some l → IsBeyond result bounds.now (unified f l) }
{
    if unifier.depth(place) > u64::from(bounds.depth) {
        Bound::Depth
    } else {
        Bound::Weight
    }
}

/// The bound that the first literal of the remainder is beyond, where none of the remainder's is within.
fn first_bound(unifier: &Unifier<'_>, bounds: &Bounds) -> Bound
    requires bounds { IsLawful bounds.now }
    requires some { unifier.now.remainder ≡ [] → ⊥ }
    requires none_within { (f : Family) → IsMostGeneral unifier.now.equations f → IsChosen unifier.now.literals unifier.now.remainder bounds.now f None }
    ensures { IsFirstBeyond unifier.now bounds.now result }
{
    let Some(place) = unifier.remainder().get(0) else {
        unreachable!();
    };
    bound_beyond(unifier, *place, bounds)
}

impl<'a, V: View> Search<'a, V> {
    /// The state after a unifier, of whose remainder a literal may be split on.
    fn with_choice(
        &self,
        clause: &Clause,
        index: u32,
        unifier: &Unifier<'_>,
        choice: SplitChoice,
        state: SplitState,
    ) -> Result<SplitState, AllocError>
        requires clause_at { ClauseAt self.now.problem.now index clause.now }
        requires few { length clause.now.literals < 2 ^ 32 - 1 }
        requires unifying { IsUnifying (V.context self.now.view.now) clause.now unifier.now }
        requires place { choice.place < length unifier.now.literals }
        requires rule { FollowsRule unifier.now self.now.bounds.now (Some choice) }
        ensures { IfOk result (λ new. Looks self.now.problem.now self.now.bounds.now (V.context self.now.view.now) (SplitTuple index unifier.now.tuple) state new) }
    {
        let size = unifier.remainder().len();
        if !state.is_improved_by(size, choice.weight) {
            return Ok(state);
        }
        if !is_productive(self.alloc, clause, self.view, unifier)? {
            return Ok(state);
        }
        let literal = unifier.literal(choice.place)?;
        let best = SplitCandidate {
            size,
            weight: choice.weight,
            literal,
            kind: choice.kind,
        };
        Ok(SplitState {
            best: Some(best),
            met: state.met,
        })
    }

    /// The state after a unifier, of whose remainder no literal is within the bounds.
    fn without_choice(
        &self,
        clause: &Clause,
        index: u32,
        unifier: &Unifier<'_>,
        state: SplitState,
    ) -> Result<SplitState, AllocError>
        requires clause_at { ClauseAt self.now.problem.now index clause.now }
        requires bounds { IsLawful self.now.bounds.now }
        requires open { HasClose self.now.problem.now (V.context self.now.view.now) → ⊥ }
        requires few { length clause.now.literals < 2 ^ 32 - 1 }
        requires unifying { IsUnifying (V.context self.now.view.now) clause.now unifier.now }
        requires none_within { (f : Family) → IsMostGeneral unifier.now.equations f → IsChosen unifier.now.literals unifier.now.remainder self.now.bounds.now f None }
        requires rule { FollowsRule unifier.now self.now.bounds.now None }
        ensures { IfOk result (λ new. Looks self.now.problem.now self.now.bounds.now (V.context self.now.view.now) (SplitTuple index unifier.now.tuple) state new) }
    {
        if state.is_settled() {
            return Ok(state);
        }
        if !is_productive(self.alloc, clause, self.view, unifier)? {
            return Ok(state);
        }
        let met = first_bound(unifier, self.bounds);
        Ok(SplitState {
            best: None,
            met: Some(met),
        })
    }

    /// The state after a tuple of the clause.
    fn look_at(
        &self,
        clause: &Clause,
        index: u32,
        tuple: &Tuple,
        state: SplitState,
    ) -> Result<SplitState, AllocError>
        requires clause_at { ClauseAt self.now.problem.now index clause.now }
        requires bounds { IsLawful self.now.bounds.now }
        requires open { HasClose self.now.problem.now (V.context self.now.view.now) → ⊥ }
        requires opposite { AreOpposite (V.context self.now.view.now) clause.now.literals (positions_of None tuple.now.items) }
        requires few { length clause.now.literals < 2 ^ 32 - 1 }
        ensures { IfOk result (λ new. Looks self.now.problem.now self.now.bounds.now (V.context self.now.view.now) (SplitTuple index tuple.now.items) state new) }
    {
        let Some(unifier) = joint_unifier(self.alloc, clause, None, tuple, self.view)? else {
            return Ok(state);
        };
        match split_of(&unifier, self.bounds) {
            Some(choice) => Ok(self.with_choice(clause, index, &unifier, choice, state)?),
            None => Ok(self.without_choice(clause, index, &unifier, state)?),
        }
    }

    /// The state after all tuples of the clause. A tuple with a larger remainder than the best literal's is
    /// left at the first positions that show it.
    fn splits_of_clause(
        &self,
        clause: &Clause,
        index: u32,
        mut state: SplitState,
    ) -> Result<SplitState, AllocError>
        requires clause_at { ClauseAt self.now.problem.now index clause.now }
        requires bounds { IsLawful self.now.bounds.now }
        requires open { HasClose self.now.problem.now (V.context self.now.view.now) → ⊥ }
        requires few { length clause.now.literals < 2 ^ 32 - 1 }
        ensures { IfOk result (λ new. Looks self.now.problem.now self.now.bounds.now (V.context self.now.view.now) (SplitClause index) state new) }
    {
        let mut cursor = Cursor::new(
            self.alloc,
            &clause.literals,
            None,
            state.limits(),
            self.view,
        );
        while cursor.advance()? {
            state = self.look_at(clause, index, cursor.tuple(), state)?;
            cursor.limit(state.limits())?;
        }
        Ok(state)
    }

    /// The least Split, or the bound that is met where there is none, at a context that no clause closes.
    pub(crate) fn split(&self) -> Result<SplitState, AllocError>
        requires few { HasFewPlaces self.now.problem.now }
        requires bounds { IsLawful self.now.bounds.now }
        requires open { HasClose self.now.problem.now (V.context self.now.view.now) → ⊥ }
        ensures { IfOk result (IsSplitResult self.now.problem.now self.now.bounds.now (V.context self.now.view.now)) }
    {
        let problem = self.problem;
        let mut state = SplitState {
            best: None,
            met: None,
        };
        for (c, clause) in problem.clauses.as_slice().iter().enumerate() {
            state = self.splits_of_clause(clause, c as u32, state)?;
        }
        Ok(state)
    }
}
