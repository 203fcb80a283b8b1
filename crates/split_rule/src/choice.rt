//! Literals that may be split on, by their places, and which of two comes first.
ghost use Rattle.std.specs.Prelude.{ℕ, List, [], ◌∷◌, IsTrue, ◌↔◌};
ghost use Rattle.me_terms.specs.Order.{Precedes};

use me_terms::Kind;

/// A literal of a unifier's remainder that may be split on.
#[derive(Clone, Copy, Debug, PartialEq, Eq)]
pub struct SplitChoice {
    /// The literal's place in the clause.
    pub place: u32,
    /// Universal where the literal is ground under the unifier.
    pub kind: Kind,
    /// The literal's weight under the unifier.
    pub weight: u64,
}

impl SplitChoice {
    /// Whether it comes at or before the other one: by weight, then place.
    pub(crate) fn precedes(&self, other: &SplitChoice) -> bool
        ensures { IsTrue result ↔ Precedes (self.now.weight ∷ self.now.place ∷ []) (other.now.weight ∷ other.now.place ∷ []) }
    {
        self.weight < other.weight || (self.weight == other.weight && self.place <= other.place)
    }
}
