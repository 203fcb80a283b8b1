//! What a search for the least Split has found so far.
ghost use Rattle.std.specs.Prelude.{◌≡◌, ◌⊎◌, IsSome, IsTrue, ◌↔◌};
ghost use Rattle.me_terms.specs.Next as step;
ghost use Rattle.me_terms.specs.AnswerViews.{next_value};
ghost use Rattle.next_rule.specs.SplitSearches.{IsSmaller, split_limits};

use me_terms::{Bound, Kind, Literal, Next};
use tuple_search::Limits;

/// A literal that may be split on.
#[derive(Drop)]
pub(crate) struct SplitCandidate {
    /// The number of places of the unifier's remainder.
    pub(crate) size: u64,
    /// The literal's weight.
    pub(crate) weight: u64,
    pub(crate) literal: Literal,
    pub(crate) kind: Kind,
}

impl SplitCandidate {
    /// The step that splits on the literal.
    pub(crate) fn into_step(self) -> Next
        ensures { next_value result ≡ step.Split self.literal self.kind }
    {
        Next::Split {
            literal: self.literal,
            kind: self.kind,
        }
    }
}

/// The best literal so far. While there is none, `met` is the bound that the first literal of the
/// remainder of the first productive unifier is beyond.
#[derive(Drop)]
pub(crate) struct SplitState {
    pub(crate) best: Option<SplitCandidate>,
    pub(crate) met: Option<Bound>,
}

impl SplitState {
    /// Whether a literal of that weight, from a remainder of that size, comes before the best one so far.
    pub(crate) fn is_improved_by(&self, size: u64, weight: u64) -> bool
        ensures { IsTrue result ↔ IsSmaller size weight self.now.best }
    {
        match &self.best {
            Some(best) => size < best.size || (size == best.size && weight < best.weight),
            None => true,
        }
    }

    /// What the unifier of a better literal may have at most.
    pub(crate) fn limits(&self) -> Limits
        ensures { result ≡ split_limits self.now.best }
    {
        match &self.best {
            Some(best) => Limits::of_remainder(Some(best.size)),
            None => Limits::none(),
        }
    }

    /// Whether a literal was found, or a bound was met.
    pub(crate) fn is_settled(&self) -> bool
        ensures { IsTrue result ↔ (IsSome self.now.best ⊎ IsSome self.now.met) }
    {
        self.best.is_some() || self.met.is_some()
    }
}
