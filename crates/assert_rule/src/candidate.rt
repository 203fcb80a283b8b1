//! Entries that may be asserted, with their weights at hand.
ghost use Rattle.std.specs.Prelude.{◌≡◌, ◌<◌, IsTrue, ◌↔◌};
ghost use Rattle.me_terms.specs.Measures.{literal_weight};
ghost use Rattle.me_terms.specs.Order.{pattern_weight};
ghost use Rattle.me_terms.specs.Values as pure;
ghost use Rattle.me_terms.specs.declared.atom.Pattern.TheVariants as pattern;
ghost use Rattle.assert_rule.specs.AssertOrder.{IsAssertedBefore};

use crate::ranks::rank_of;
use me_terms::{Entry, Kind, Literal, Pattern, Reason, Tuple};
use std::marker::Model;

/// An entry that may be asserted. A contract sees it as the entry.
#[derive(Drop)]
pub struct Candidate {
    entry: Entry,
    weight: u64,
}

impl Model for Candidate {
    ghost use Rattle.std.specs.Coded.{codes};
    ghost use Rattle.me_terms.specs.Terms.{arguments_code};
    ghost use Rattle.me_terms.specs.Values.{EntryValue};

    ghost Value = { EntryValue };

    ghost coded = { Prim.hlevel (codes, arguments_code) };

    ghost view = { λ c. c.entry };

    ghost use Rattle.std.specs.Prelude.{◌≡◌};
    ghost use Rattle.me_terms.specs.Order.{pattern_weight};

    ghost invariant = { λ c. c.weight ≡ pattern_weight c.entry.atom };
}

impl Candidate {
    /// The entry of the literal, which has that weight, by the clause at place `index` of the problem, a
    /// place in it, and the positions for its other places.
    pub(crate) fn new(
        literal: Literal,
        kind: Kind,
        weight: u64,
        index: u32,
        place: u32,
        tuple: Tuple,
    ) -> Self
        requires { weight ≡ literal_weight literal }
        ensures { result ≡ record { positive = literal.positive; atom = pattern.Of literal.atom; kind = kind; reason = pure.Asserted index place tuple.items } }
    {
        Candidate {
            entry: Entry {
                positive: literal.positive,
                atom: Pattern::Of(literal.atom),
                kind,
                reason: Reason::Asserted {
                    clause: index,
                    place,
                    tuple,
                },
            },
            weight,
        }
    }

    /// The entry.
    pub fn entry(&self) -> &Entry
        ensures { result.now ≡ self.now }
    {
        &self.entry
    }

    /// How many predicates, functions and variables stand in the entry's atom.
    pub fn weight(&self) -> u64
        ensures { result ≡ pattern_weight self.now.atom }
    {
        self.weight
    }

    /// The entry, to be added to a context.
    pub fn into_entry(self) -> Entry
        ensures { result ≡ self }
    {
        self.entry
    }

    /// Whether it comes after what has this kind and weight: by kind, Universal first, and then weight.
    pub(crate) fn is_after(&self, kind: Kind, weight: u64) -> bool
        ensures { IsTrue result ↔ IsAssertedBefore kind weight self.now.kind (pattern_weight self.now.atom) }
    {
        let rank = rank_of(kind);
        let own = rank_of(self.entry.kind);
        rank < own || (rank == own && weight < self.weight)
    }
}
