//! The search for productive unifiers.
ghost use Rattle.std.specs.Prelude.{◌≡◌, ◌<◌, ◌≤◌, ◌-◌, ◌^◌, ℕ, length, None, IfOk, IfSome, IfNone};
ghost use Rattle.me_terms.specs.Substitutions.{Family};
ghost use Rattle.me_terms.specs.Validity.{IsValid, IsLawful};
ghost use Rattle.me_terms.specs.Values.{ClauseValue};
ghost use Rattle.me_terms.specs.Positions.{ClauseAt, positions_of, AreOpposite};
ghost use Rattle.me_terms.specs.Productive.{IsProductiveUnifier};
ghost use Rattle.clause_pairs.specs.Pairs.{ArePairs};
ghost use Rattle.candidate_store.specs.Kept.{IsKeyOf};
ghost use Rattle.candidate_store.specs.Searches.{At, WithPivot, PivotFrom, PivotWithin, Keeps, HasKeyIn, HaveUnifiersIn};
ghost use Rattle.candidate_store.specs.Firsts.{fit_of, IsProductiveOf};

use crate::search::Search;
use candidate_keys::{Fit, UnifierKey};
use clause_pairs::ClausePlace;
use context_unifier::is_productive;
use joint_unifiers::{Unifier, joint_unifier};
use me_terms::{Tuple, View};
use split_rule::{SplitChoice, split_of};
use std::alloc::{AllocError, Global};
use tuple_search::{Cursor, Limits, Pivot};

/// What is chosen of a remainder of that size, as a part of a key.
fn fit_by(size: u64, choice: Option<SplitChoice>) -> Option<Fit>
    ensures { result ≡ fit_of size choice }
{
    match choice {
        Some(choice) => Some(Fit {
            size,
            weight: choice.weight,
            place: choice.place,
        }),
        None => None,
    }
}

/// The key of a unifier of the clause at place `clause` of the problem, by what is chosen of its remainder.
pub(crate) fn key_by(
    alloc: Global,
    clause: u32,
    unifier: &Unifier<'_>,
    choice: Option<SplitChoice>,
) -> Result<UnifierKey, AllocError>
    ensures { IfOk result (λ key. key ≡ record { fit = fit_of (length unifier.now.remainder) choice; clause = clause; tuple = unifier.now.tuple }) }
{
    Ok(UnifierKey {
        fit: fit_by(unifier.remainder().len(), choice),
        clause,
        tuple: unifier.tuple().again(alloc)?,
    })
}

/// The first position from `from` on that isn't the pseudo-literal's.
fn literal_from(from: u32) -> u32
    ensures start { from ≤ result }
    ensures literal { 0 < result }
    ensures first { (p : ℕ) → from ≤ p → p < result → p < 1 }
{
    if from == 0 {
        return 1;
    }
    from
}

impl<'a, V: View> Search<'a, V> {
    /// The unifier of the clause and the tuple, if there is one and it is productive.
    pub(crate) fn productive(
        &self,
        index: u32,
        tuple: &Tuple,
    ) -> Result<Option<Unifier<'a>>, AllocError>
        requires valid { IsValid self.now.problem.now }
        requires clause { index < length self.now.problem.now.clauses }
        requires opposite { (clause : ClauseValue) → ClauseAt self.now.problem.now index clause → AreOpposite (V.context self.now.view.now) clause.literals (positions_of None tuple.now.items) }
        ensures some { IfOk result (λ r. IfSome r (λ u. IsProductiveOf self.now.problem.now (V.context self.now.view.now) index tuple.now.items u)) }
        ensures none { IfOk result (λ r. IfNone r ((clause : ClauseValue) (f : Family) → IsProductiveUnifier self.now.problem.now (V.context self.now.view.now) index tuple.now.items clause f → ⊥)) }
    {
        let clause = self.clause(index);
        let Some(unifier) = joint_unifier(self.alloc, clause, None, tuple, self.view)? else {
            return Ok(None);
        };
        if !is_productive(self.alloc, clause, self.view, &unifier)? {
            return Ok(None);
        }
        Ok(Some(unifier))
    }

    /// The key of the unifier of the tuple, if it is productive.
    fn productive_key(&self, index: u32, tuple: &Tuple) -> Result<Option<UnifierKey>, AllocError>
        requires valid { IsValid self.now.problem.now }
        requires bounds { IsLawful self.now.bounds.now }
        requires clause { index < length self.now.problem.now.clauses }
        requires opposite { (clause : ClauseValue) → ClauseAt self.now.problem.now index clause → AreOpposite (V.context self.now.view.now) clause.literals (positions_of None tuple.now.items) }
        ensures some { IfOk result (λ r. IfSome r (IsKeyOf self.now.problem.now self.now.bounds.now (V.context self.now.view.now) index tuple.now.items)) }
        ensures none { IfOk result (λ r. IfNone r ((clause : ClauseValue) (f : Family) → IsProductiveUnifier self.now.problem.now (V.context self.now.view.now) index tuple.now.items clause f → ⊥)) }
    {
        let Some(unifier) = self.productive(index, tuple)? else {
            return Ok(None);
        };
        let choice = split_of(&unifier, self.bounds);
        let key = key_by(self.alloc, index, &unifier, choice)?;
        Ok(Some(key))
    }

    /// The keys so far, and that of the unifier of the tuple, if it is productive.
    fn with_key(
        &self,
        index: u32,
        tuple: &Tuple,
        mut keys: Vec<UnifierKey>,
    ) -> Result<Vec<UnifierKey>, AllocError>
        requires valid { IsValid self.now.problem.now }
        requires bounds { IsLawful self.now.bounds.now }
        requires clause { index < length self.now.problem.now.clauses }
        requires opposite { (clause : ClauseValue) → ClauseAt self.now.problem.now index clause → AreOpposite (V.context self.now.view.now) clause.literals (positions_of None tuple.now.items) }
        ensures kept { IfOk result (λ more. Keeps keys.items more.items) }
        ensures added { IfOk result (λ more. (clause : ClauseValue) (f : Family) → IsProductiveUnifier self.now.problem.now (V.context self.now.view.now) index tuple.now.items clause f → HasKeyIn self.now.problem.now self.now.bounds.now (V.context self.now.view.now) more.items index tuple.now.items) }
    {
        let Some(key) = self.productive_key(index, tuple)? else {
            return Ok(keys);
        };
        keys.push(key)?;
        Ok(keys)
    }

    /// The keys so far, and those of the clause's productive unifiers whose pivot is at that position, first
    /// at that place.
    fn unifiers_at(
        &self,
        at: ClausePlace,
        pivot: u32,
        mut keys: Vec<UnifierKey>,
    ) -> Result<Vec<UnifierKey>, AllocError>
        requires valid { IsValid self.now.problem.now }
        requires bounds { IsLawful self.now.bounds.now }
        requires pairs { ArePairs self.now.problem.now (V.context self.now.view.now) self.now.pairs.now }
        requires clause { at.clause < length self.now.problem.now.clauses }
        ensures kept { IfOk result (λ more. Keeps keys.items more.items) }
        ensures added { IfOk result (λ more. HaveUnifiersIn self.now.problem.now self.now.bounds.now (V.context self.now.view.now) (At at pivot) more.items) }
    {
        if !self.are_met(at.clause) {
            return Ok(keys);
        }
        let clause = self.clause(at.clause);
        let limits = Limits {
            remaining: None,
            weight: None,
            pivot: Some(Pivot {
                position: pivot,
                index: at.place,
            }),
        };
        let partners = self.partners(at.clause);
        let mut cursor = Cursor::among(
            self.alloc,
            &clause.literals,
            None,
            limits,
            self.view,
            partners,
        );
        while cursor.advance()? {
            keys = self.with_key(at.clause, cursor.tuple(), keys)?;
        }
        Ok(keys)
    }

    /// The same of all places at which the pivot stands.
    fn unifiers_with(
        &self,
        pivot: u32,
        mut keys: Vec<UnifierKey>,
    ) -> Result<Vec<UnifierKey>, AllocError>
        requires valid { IsValid self.now.problem.now }
        requires bounds { IsLawful self.now.bounds.now }
        requires pairs { ArePairs self.now.problem.now (V.context self.now.view.now) self.now.pairs.now }
        requires literal { 0 < pivot }
        requires within { pivot < length (V.context self.now.view.now) }
        ensures kept { IfOk result (λ more. Keeps keys.items more.items) }
        ensures added { IfOk result (λ more. HaveUnifiersIn self.now.problem.now self.now.bounds.now (V.context self.now.view.now) (WithPivot pivot) more.items) }
    {
        let places = self.pairs.places_of(pivot);
        for at in places {
            keys = self.unifiers_at(*at, pivot, keys)?;
        }
        Ok(keys)
    }

    /// The keys of the productive unifiers of the pseudo-literal alone, but for that of the empty tuple.
    fn unifiers_of_pseudo(&self) -> Result<Vec<UnifierKey>, AllocError>
        requires valid { IsValid self.now.problem.now }
        requires bounds { IsLawful self.now.bounds.now }
        requires pairs { ArePairs self.now.problem.now (V.context self.now.view.now) self.now.pairs.now }
        ensures { IfOk result (λ keys. HaveUnifiersIn self.now.problem.now self.now.bounds.now (V.context self.now.view.now) (WithPivot 0) keys.items) }
    {
        let mut keys = Vec::new(self.alloc);
        let problem = self.problem;
        let clauses = problem.clauses.len() as u32;
        for clause in 0..clauses {
            let first = ClausePlace { clause, place: 0 };
            keys = self.unifiers_at(first, 0, keys)?;
        }
        Ok(keys)
    }

    /// The keys so far, and those of the productive unifiers whose pivot is at that position, where it is
    /// visible.
    fn unifiers_where_visible(
        &self,
        pivot: u32,
        keys: Vec<UnifierKey>,
    ) -> Result<Vec<UnifierKey>, AllocError>
        requires valid { IsValid self.now.problem.now }
        requires bounds { IsLawful self.now.bounds.now }
        requires pairs { ArePairs self.now.problem.now (V.context self.now.view.now) self.now.pairs.now }
        requires literal { 0 < pivot }
        requires within { pivot < length (V.context self.now.view.now) }
        ensures kept { IfOk result (λ more. Keeps keys.items more.items) }
        ensures added { IfOk result (λ more. HaveUnifiersIn self.now.problem.now self.now.bounds.now (V.context self.now.view.now) (WithPivot pivot) more.items) }
    {
        if !self.view.visible(pivot) {
            return Ok(keys);
        }
        self.unifiers_with(pivot, keys)
    }

    /// The keys of the productive unifiers whose pivot is the pseudo-literal's position, where that is at
    /// position `from` or later.
    fn first_unifiers(&self, from: u32) -> Result<Vec<UnifierKey>, AllocError>
        requires valid { IsValid self.now.problem.now }
        requires bounds { IsLawful self.now.bounds.now }
        requires pairs { ArePairs self.now.problem.now (V.context self.now.view.now) self.now.pairs.now }
        ensures { IfOk result (λ keys. HaveUnifiersIn self.now.problem.now self.now.bounds.now (V.context self.now.view.now) (PivotWithin from 1) keys.items) }
    {
        if from > 0 {
            return Ok(Vec::new(self.alloc));
        }
        self.unifiers_of_pseudo()
    }

    /// The keys of the productive unifiers whose pivots are at position `from` or later.
    pub(crate) fn unifiers_from(&self, from: u32) -> Result<Vec<UnifierKey>, AllocError>
        requires valid { IsValid self.now.problem.now }
        requires bounds { IsLawful self.now.bounds.now }
        requires pairs { ArePairs self.now.problem.now (V.context self.now.view.now) self.now.pairs.now }
        ensures { IfOk result (λ keys. HaveUnifiersIn self.now.problem.now self.now.bounds.now (V.context self.now.view.now) (PivotFrom from) keys.items) }
    {
        let mut keys = self.first_unifiers(from)?;
        let first = literal_from(from);
        for pivot in first..self.view.len() {
            keys = self.unifiers_where_visible(pivot, keys)?;
        }
        Ok(keys)
    }
}
