//! Which of the unifiers that were found is the first that is productive still, and what it gives.
ghost use Rattle.std.specs.Prelude.{◌≡◌, ◌<◌, ℕ, List, [], ◌∷◌, length, slice_get, Some, None, IfSome, IfOk, IsTrue};
ghost use Rattle.me_terms.specs.Substitutions.{Family};
ghost use Rattle.me_terms.specs.Validity.{IsValid, IsLawful};
ghost use Rattle.me_terms.specs.Values.{ClauseValue};
ghost use Rattle.me_terms.specs.Order.{Precedes};
ghost use Rattle.me_terms.specs.Positions.{ClauseAt, positions_of, AreOpposite};
ghost use Rattle.me_terms.specs.Unifier.{unified};
ghost use Rattle.me_terms.specs.Fits.{Fits};
ghost use Rattle.me_terms.specs.Close.{HasClose};
ghost use Rattle.me_terms.specs.Assert.{HasAssert};
ghost use Rattle.me_terms.specs.Productive.{IsProductiveUnifier};
ghost use Rattle.me_terms.specs.Next.{IsBeyond, IsNext};
ghost use Rattle.me_terms.specs.AnswerViews.{next_value};
ghost use Rattle.me_terms.specs.declared.atom.Literal.{Literal as LiteralOf};
ghost use Rattle.me_unify.specs.Equations.{IsMostGeneral};
ghost use Rattle.split_rule.specs.SplitChoices.{IsChosen};
ghost use Rattle.next_rule.specs.SplitSearches.{IsFirstBeyond};
ghost use Rattle.candidate_store.specs.Firsts.{FoundValue, IsBest, IsMet, AreMet, AreAllMet, MeetsMore, HaveAll, GivesStep, IsFirstOfTwo, IsFirstFound};
ghost use Rattle.candidate_keys.specs.Keys.{unifier_code};

use crate::frame::Frame;
use crate::search::Search;
use crate::unifier_search::key_by;
use candidate_keys::UnifierKey;
use joint_unifiers::Unifier;
use kept_asserts::are_opposite;
use me_terms::{Bound, Bounds, Next, Tuple, View};
use split_rule::{SplitChoice, split_of};
use std::alloc::AllocError;
use std::marker::Model;

/// A unifier, and the step that it gives.
#[derive(Drop)]
pub(crate) struct Found {
    key: UnifierKey,
    step: Next,
}

impl Model for Found {
    ghost use Rattle.std.specs.Coded.{codes};
    ghost use Rattle.me_terms.specs.Terms.{arguments_code};
    ghost use Rattle.me_terms.specs.AnswerViews.{next_value};
    ghost use Rattle.candidate_store.specs.Firsts.{FoundValue};

    ghost Value = { FoundValue };

    ghost coded = { Prim.hlevel (codes, arguments_code) };

    ghost view = { λ f. record { key = f.key; step = next_value f.step } };
}

/// The bound that the literal of that place is beyond under the unifier; depth goes before weight.
fn bound_beyond(unifier: &Unifier<'_>, place: u32, bounds: &Bounds) -> Bound
    requires place { place < length unifier.now.literals }
    requires bounds { IsLawful bounds.now }
    requires beyond { (f : Family) (l : LiteralOf) → IsMostGeneral unifier.now.equations f → slice_get unifier.now.literals place ≡ Some l → ¬ Fits bounds.now (unified f l) }
    ensures { (f : Family) (l : LiteralOf) → IsMostGeneral unifier.now.equations f → slice_get unifier.now.literals place ≡ Some l → IsBeyond result bounds.now (unified f l) }
{
    if unifier.depth(place) > u64::from(bounds.depth) {
        Bound::Depth
    } else {
        Bound::Weight
    }
}

/// The bound that the first literal of the remainder is beyond, where none of the remainder's is within.
fn first_bound(unifier: &Unifier<'_>, bounds: &Bounds) -> Bound
    requires bounds { IsLawful bounds.now }
    requires some { unifier.now.remainder ≡ [] → ⊥ }
    requires none_within { (f : Family) → IsMostGeneral unifier.now.equations f → IsChosen unifier.now.literals unifier.now.remainder bounds.now f None }
    ensures { IsFirstBeyond unifier.now bounds.now result }
{
    let Some(place) = unifier.remainder().get(0) else {
        unreachable!();
    };
    bound_beyond(unifier, *place, bounds)
}

/// The one of two that comes first.
fn first_of_two(best: Found, next: Found) -> Found
    ensures { IsFirstOfTwo best next result }
{
    if best.key.precedes(&next.key) {
        return best;
    }
    next
}

/// The one that comes first.
fn first_found(best: Option<Found>, next: Option<Found>) -> Option<Found>
    ensures { IsFirstFound best next result }
{
    let Some(found) = next else {
        return best;
    };
    let Some(best) = best else {
        return Some(found);
    };
    Some(first_of_two(best, found))
}

/// Whether one was found that stands at or before the key.
fn is_before(best: &Option<Found>, key: &UnifierKey) -> bool
    ensures { IsTrue result → (f : FoundValue) × (best.now ≡ Some f) × Precedes (unifier_code f.key) (unifier_code key.now) }
{
    match best {
        Some(found) => found.key.precedes(key),
        None => false,
    }
}

impl<'a, V: View> Search<'a, V> {
    /// The step that a productive unifier gives, if no other comes before it, by what is chosen of its
    /// remainder.
    fn step_by(
        &self,
        unifier: &Unifier<'_>,
        choice: Option<SplitChoice>,
    ) -> Result<Next, AllocError>
        requires bounds { IsLawful self.now.bounds.now }
        requires some { unifier.now.remainder ≡ [] → ⊥ }
        requires chosen { (f : Family) → IsMostGeneral unifier.now.equations f → IsChosen unifier.now.literals unifier.now.remainder self.now.bounds.now f choice }
        requires place { IfSome choice (λ c. c.place < length unifier.now.literals) }
        ensures { IfOk result (λ next. GivesStep self.now.bounds.now (V.context self.now.view.now) unifier.now choice (next_value next)) }
    {
        let Some(choice) = choice else {
            return Ok(Next::Bounded {
                bound: first_bound(unifier, self.bounds),
            });
        };
        if !self.has_room() {
            return Ok(Next::Bounded {
                bound: Bound::Literals,
            });
        }
        Ok(Next::Split {
            literal: unifier.literal(choice.place)?,
            kind: choice.kind,
        })
    }

    /// The unifier of the clause and the tuple with its step, if it is productive.
    fn found_at(&self, index: u32, tuple: &Tuple) -> Result<Option<Found>, AllocError>
        requires valid { IsValid self.now.problem.now }
        requires bounds { IsLawful self.now.bounds.now }
        requires clause { index < length self.now.problem.now.clauses }
        requires opposite { (clause : ClauseValue) → ClauseAt self.now.problem.now index clause → AreOpposite (V.context self.now.view.now) clause.literals (positions_of None tuple.now.items) }
        requires open { HasClose self.now.problem.now (V.context self.now.view.now) → ⊥ }
        requires no_assert { HasAssert self.now.problem.now self.now.bounds.now (V.context self.now.view.now) → ⊥ }
        ensures right { IfOk result (IsBest self.now.problem.now self.now.bounds.now (V.context self.now.view.now)) }
        ensures met { IfOk result (λ found. (clause : ClauseValue) (f : Family) → IsProductiveUnifier self.now.problem.now (V.context self.now.view.now) index tuple.now.items clause f → IsMet self.now.problem.now self.now.bounds.now (V.context self.now.view.now) found index tuple.now.items) }
    {
        let Some(unifier) = self.productive(index, tuple)? else {
            return Ok(None);
        };
        let choice = split_of(&unifier, self.bounds);
        let key = key_by(self.alloc, index, &unifier, choice)?;
        let step = self.step_by(&unifier, choice)?;
        Ok(Some(Found { key, step }))
    }

    /// The unifier of that key with its step, if it is productive still.
    fn found(&self, key: &UnifierKey) -> Result<Option<Found>, AllocError>
        requires valid { IsValid self.now.problem.now }
        requires bounds { IsLawful self.now.bounds.now }
        requires open { HasClose self.now.problem.now (V.context self.now.view.now) → ⊥ }
        requires no_assert { HasAssert self.now.problem.now self.now.bounds.now (V.context self.now.view.now) → ⊥ }
        ensures right { IfOk result (IsBest self.now.problem.now self.now.bounds.now (V.context self.now.view.now)) }
        ensures met { IfOk result (λ found. (clause : ClauseValue) (f : Family) → IsProductiveUnifier self.now.problem.now (V.context self.now.view.now) key.now.clause key.now.tuple clause f → IsMet self.now.problem.now self.now.bounds.now (V.context self.now.view.now) found key.now.clause key.now.tuple) }
    {
        let problem = self.problem;
        if u64::from(key.clause) >= problem.clauses.len() {
            return Ok(None);
        }
        let clause = self.clause(key.clause);
        if !are_opposite(self.view, clause.literals.as_slice(), None, &key.tuple) {
            return Ok(None);
        }
        self.found_at(key.clause, &key.tuple)
    }

    /// The first one so far, or that of the key where it comes before.
    fn first_of(&self, key: &UnifierKey, best: Option<Found>) -> Result<Option<Found>, AllocError>
        requires valid { IsValid self.now.problem.now }
        requires bounds { IsLawful self.now.bounds.now }
        requires open { HasClose self.now.problem.now (V.context self.now.view.now) → ⊥ }
        requires no_assert { HasAssert self.now.problem.now self.now.bounds.now (V.context self.now.view.now) → ⊥ }
        requires right { IsBest self.now.problem.now self.now.bounds.now (V.context self.now.view.now) best }
        ensures right { IfOk result (IsBest self.now.problem.now self.now.bounds.now (V.context self.now.view.now)) }
        ensures more { IfOk result (MeetsMore self.now.problem.now self.now.bounds.now (V.context self.now.view.now) best) }
        ensures met { IfOk result (AreMet self.now.problem.now self.now.bounds.now (V.context self.now.view.now) (key.now ∷ [])) }
    {
        if is_before(&best, key) {
            return Ok(best);
        }
        let next = self.found(key)?;
        Ok(first_found(best, next))
    }

    /// The first one so far, or that of these keys where it comes before.
    fn first_of_keys(
        &self,
        keys: &[UnifierKey],
        mut best: Option<Found>,
    ) -> Result<Option<Found>, AllocError>
        requires valid { IsValid self.now.problem.now }
        requires bounds { IsLawful self.now.bounds.now }
        requires open { HasClose self.now.problem.now (V.context self.now.view.now) → ⊥ }
        requires no_assert { HasAssert self.now.problem.now self.now.bounds.now (V.context self.now.view.now) → ⊥ }
        requires right { IsBest self.now.problem.now self.now.bounds.now (V.context self.now.view.now) best }
        ensures right { IfOk result (IsBest self.now.problem.now self.now.bounds.now (V.context self.now.view.now)) }
        ensures more { IfOk result (MeetsMore self.now.problem.now self.now.bounds.now (V.context self.now.view.now) best) }
        ensures met { IfOk result (AreMet self.now.problem.now self.now.bounds.now (V.context self.now.view.now) keys.now) }
    {
        for key in keys {
            best = self.first_of(key, best)?;
        }
        Ok(best)
    }

    /// The first one so far, or that of the frames' keys where it comes before.
    fn first_of_frames(
        &self,
        frames: &[Frame],
        mut best: Option<Found>,
    ) -> Result<Option<Found>, AllocError>
        requires valid { IsValid self.now.problem.now }
        requires bounds { IsLawful self.now.bounds.now }
        requires open { HasClose self.now.problem.now (V.context self.now.view.now) → ⊥ }
        requires no_assert { HasAssert self.now.problem.now self.now.bounds.now (V.context self.now.view.now) → ⊥ }
        requires right { IsBest self.now.problem.now self.now.bounds.now (V.context self.now.view.now) best }
        ensures right { IfOk result (IsBest self.now.problem.now self.now.bounds.now (V.context self.now.view.now)) }
        ensures more { IfOk result (MeetsMore self.now.problem.now self.now.bounds.now (V.context self.now.view.now) best) }
        ensures met { IfOk result (AreAllMet self.now.problem.now self.now.bounds.now (V.context self.now.view.now) frames.now) }
    {
        for frame in frames {
            best = self.first_of_keys(&frame.unifiers, best)?;
        }
        Ok(best)
    }

    /// The step that the first one gives, or that nothing is left to do.
    fn step_of(&self, best: Option<Found>) -> Next
        requires open { HasClose self.now.problem.now (V.context self.now.view.now) → ⊥ }
        requires no_assert { HasAssert self.now.problem.now self.now.bounds.now (V.context self.now.view.now) → ⊥ }
        requires right { IsBest self.now.problem.now self.now.bounds.now (V.context self.now.view.now) best }
        requires met { (c : ℕ) (tuple : List ℕ) (clause : ClauseValue) (f : Family) → IsProductiveUnifier self.now.problem.now (V.context self.now.view.now) c tuple clause f → IsMet self.now.problem.now self.now.bounds.now (V.context self.now.view.now) best c tuple }
        ensures { IsNext self.now.problem.now self.now.bounds.now (V.context self.now.view.now) (next_value result) }
    {
        match best {
            Some(found) => found.step,
            None => Next::Exhausted,
        }
    }

    /// The step at a context with neither Close nor Assert, by the unifiers that were found.
    pub(crate) fn split_step(
        &self,
        frames: &[Frame],
        keys: &[UnifierKey],
    ) -> Result<Next, AllocError>
        requires valid { IsValid self.now.problem.now }
        requires bounds { IsLawful self.now.bounds.now }
        requires open { HasClose self.now.problem.now (V.context self.now.view.now) → ⊥ }
        requires no_assert { HasAssert self.now.problem.now self.now.bounds.now (V.context self.now.view.now) → ⊥ }
        requires all { HaveAll self.now.problem.now self.now.bounds.now (V.context self.now.view.now) frames.now keys.now }
        ensures { IfOk result (λ next. IsNext self.now.problem.now self.now.bounds.now (V.context self.now.view.now) (next_value next)) }
    {
        let best = self.first_of_keys(keys, None)?;
        let best = self.first_of_frames(frames, best)?;
        Ok(self.step_of(best))
    }
}
