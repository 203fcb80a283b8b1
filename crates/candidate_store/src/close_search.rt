//! The search for the least Close that uses the last entry.
ghost use Rattle.std.specs.Prelude.{◌≡◌, ◌<◌, ◌∷◌, ℕ, List, length, IfOk, IfSome, IfNone, IsTrue, ◌↔◌};
ghost use Rattle.me_terms.specs.Validity.{IsValid};
ghost use Rattle.me_terms.specs.Order.{Precedes, clause_key};
ghost use Rattle.me_terms.specs.Next as step;
ghost use Rattle.me_terms.specs.AnswerViews.{next_value};
ghost use Rattle.clause_pairs.specs.Pairs.{ArePairs};
ghost use Rattle.candidate_store.specs.Searches.{At, WithPivot, FoundClose, IsFirstOfTwo, IsFirstOf};

use crate::search::{Search, are_paired};
use candidate_keys::list_precedes;
use clause_pairs::ClausePlace;
use me_terms::{Next, Tuple, View};
use std::alloc::AllocError;
use std::marker::Model;
use tuple_search::{Cursor, Limits, Pivot};

/// A clause, by its place in the problem, and a tuple of positions.
#[derive(Drop)]
pub(crate) struct Closing {
    pub(crate) clause: u32,
    pub(crate) tuple: Tuple,
}

impl Model for Closing {
    ghost use Rattle.std.specs.Coded.{codes};
    ghost use Rattle.candidate_store.specs.Searches.{ClosingValue};

    ghost Value = { ClosingValue };

    ghost coded = { Prim.hlevel (codes) };

    ghost view = { λ c. record { clause = c.clause; tuple = c.tuple.items } };
}

impl Closing {
    /// The step that closes the context.
    pub(crate) fn into_step(self) -> Next
        ensures { next_value result ≡ step.Close self.clause self.tuple }
    {
        Next::Close {
            clause: self.clause,
            tuple: self.tuple,
        }
    }

    /// Whether this one stands at or before the other one.
    fn precedes(&self, other: &Closing) -> bool
        ensures { IsTrue result ↔ Precedes (clause_key self.now.clause self.now.tuple) (clause_key other.now.clause other.now.tuple) }
    {
        if self.clause != other.clause {
            return self.clause < other.clause;
        }
        list_precedes(self.tuple.as_slice(), other.tuple.as_slice())
    }
}

/// The one of two that comes first.
fn first_of_two(best: Closing, next: Closing) -> Closing
    ensures { IsFirstOfTwo best next result }
{
    if best.precedes(&next) {
        return best;
    }
    next
}

/// The one that comes first.
fn first_of(best: Option<Closing>, next: Option<Closing>) -> Option<Closing>
    ensures { IsFirstOf best next result }
{
    let Some(found) = next else {
        return best;
    };
    let Some(best) = best else {
        return Some(found);
    };
    Some(first_of_two(best, found))
}

impl<'a, V: View> Search<'a, V> {
    /// The least Close of the clause whose pivot is at that position, first at that place.
    fn closing_at(&self, at: ClausePlace, pivot: u32) -> Result<Option<Closing>, AllocError>
        requires valid { IsValid self.now.problem.now }
        requires pairs { ArePairs self.now.problem.now (V.context self.now.view.now) self.now.pairs.now }
        requires clause { at.clause < length self.now.problem.now.clauses }
        ensures { IfOk result (λ found. FoundClose self.now.problem.now (V.context self.now.view.now) (At at pivot) found) }
    {
        let _entries = self.view.len();
        let lists = self.pairs.of_clause(at.clause);
        if !are_paired(lists, lists.len()) {
            return Ok(None);
        }
        let clause = self.clause(at.clause);
        let limits = Limits {
            remaining: Some(0),
            weight: None,
            pivot: Some(Pivot {
                position: pivot,
                index: at.place,
            }),
        };
        let partners = self.partners(at.clause);
        let mut cursor = Cursor::among(
            self.alloc,
            &clause.literals,
            None,
            limits,
            self.view,
            partners,
        );
        if !cursor.advance()? {
            return Ok(None);
        }
        let tuple = cursor.tuple().again(self.alloc)?;
        Ok(Some(Closing {
            clause: at.clause,
            tuple,
        }))
    }

    /// The least Close whose pivot is at that position.
    pub(crate) fn closing(&self, pivot: u32) -> Result<Option<Closing>, AllocError>
        requires valid { IsValid self.now.problem.now }
        requires pairs { ArePairs self.now.problem.now (V.context self.now.view.now) self.now.pairs.now }
        requires literal { 0 < pivot }
        requires within { pivot < length (V.context self.now.view.now) }
        ensures { IfOk result (λ found. FoundClose self.now.problem.now (V.context self.now.view.now) (WithPivot pivot) found) }
    {
        let mut best = None;
        let places = self.pairs.places_of(pivot);
        for at in places {
            let next = self.closing_at(*at, pivot)?;
            best = first_of(best, next);
        }
        Ok(best)
    }
}
