//! The next step of a search at a context, from scratch.
ghost use Rattle.std.specs.Prelude.{◌≡◌, IfOk, IsTrue, ◌↔◌};
ghost use Rattle.me_terms.specs.Values.{EntryValue};
ghost use Rattle.me_terms.specs.Validity.{IsLawful, IsValid};
ghost use Rattle.me_terms.specs.Close.{HasClose};
ghost use Rattle.me_terms.specs.Assert.{HasAssert};
ghost use Rattle.me_terms.specs.Order.{IsLeastAssert};
ghost use Rattle.me_terms.specs.InducedModel.{IsModel};
ghost use Rattle.me_terms.specs.Next.{HasRoom, IsNext};
ghost use Rattle.me_terms.specs.Next as step;
ghost use Rattle.me_terms.specs.AnswerViews.{next_value};
ghost use Rattle.next_rule.specs.FewPlaces.{HasFewPlaces};
ghost use Rattle.next_rule.specs.SplitSearches.{IsSplitResult};
ghost use Rattle.next_rule.specs.NextLaws.{IsAddedBy, MayBeAdded};

use crate::search::Search;
use crate::split_state::SplitState;
use me_terms::{Bound, Bounds, Entry, Next, Problem, View};
use std::alloc::{AllocError, Global};

impl<'a, V: View> Search<'a, V> {
    /// Whether the context may get a further entry.
    fn has_room(&self) -> bool
        ensures { IsTrue result ↔ HasRoom self.now.bounds.now (V.context self.now.view.now) }
    {
        let bounds = self.bounds;
        self.view.len() < bounds.literals
    }

    /// The step at a context that no clause closes, where the least Assert adds the entry.
    fn assert_step(&self, entry: Entry) -> Next
        requires not_closed { HasClose self.now.problem.now (V.context self.now.view.now) → ⊥ }
        requires least { IsLeastAssert self.now.problem.now self.now.bounds.now (V.context self.now.view.now) entry }
        ensures { IsNext self.now.problem.now self.now.bounds.now (V.context self.now.view.now) (next_value result) }
    {
        if self.has_room() {
            return Next::Assert { entry };
        }
        Next::Bounded {
            bound: Bound::Literals,
        }
    }

    /// The step at a context that no clause closes and that has no Assert, by what the search for a Split
    /// has found.
    fn split_step(&self, state: SplitState) -> Next
        requires not_closed { HasClose self.now.problem.now (V.context self.now.view.now) → ⊥ }
        requires no_assert { HasAssert self.now.problem.now self.now.bounds.now (V.context self.now.view.now) → ⊥ }
        requires found { IsSplitResult self.now.problem.now self.now.bounds.now (V.context self.now.view.now) state }
        ensures { IsNext self.now.problem.now self.now.bounds.now (V.context self.now.view.now) (next_value result) }
    {
        let SplitState { best, met } = state;
        let Some(best) = best else {
            return match met {
                Some(bound) => Next::Bounded { bound },
                None => Next::Exhausted,
            };
        };
        if self.has_room() {
            return best.into_step();
        }
        Next::Bounded {
            bound: Bound::Literals,
        }
    }

    /// The next step.
    fn next(&self) -> Result<Next, AllocError>
        requires few { HasFewPlaces self.now.problem.now }
        requires bounds { IsLawful self.now.bounds.now }
        ensures { IfOk result (λ next. IsNext self.now.problem.now self.now.bounds.now (V.context self.now.view.now) (next_value next)) }
    {
        if let Some(closing) = self.closing()? {
            return Ok(Next::Close {
                clause: closing.clause,
                tuple: closing.tuple,
            });
        }
        if let Some(entry) = self.assert()? {
            return Ok(self.assert_step(entry));
        }
        let state = self.split()?;
        Ok(self.split_step(state))
    }
}

/// What is done next at a context: the least Close; else the least Assert; else the least Split; else the
/// bound is met that the first literal left to split on is beyond; else nothing is left to do. Where an
/// Assert or a Split would add to a context that has `bounds.literals` entries, that bound is met.
///
/// What an Assert adds, and what a Split adds on either side, does not contradict the context. Where nothing
/// is left to do, the context is a model of the problem.
pub fn next_step<V: View>(
    alloc: Global,
    problem: &Problem,
    view: &V,
    bounds: &Bounds,
) -> Result<Next, AllocError>
    requires valid { IsValid problem.now }
    requires bounds { IsLawful bounds.now }
    ensures next { IfOk result (λ next. IsNext problem.now bounds.now (V.context view.now) (next_value next)) }
    ensures added { IfOk result (λ next. (e : EntryValue) → IsAddedBy (next_value next) e → MayBeAdded bounds.now (V.context view.now) e) }
    ensures model { IfOk result (λ next. next_value next ≡ step.Exhausted → IsModel problem.now (V.context view.now)) }
{
    let search = Search {
        alloc,
        problem,
        view,
        bounds,
    };
    let _entries = view.len();
    Ok(search.next()?)
}
