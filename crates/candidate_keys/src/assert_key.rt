//! Asserts by what they are ordered by.
ghost use Rattle.std.specs.Prelude.{◌≡◌, IsTrue, ◌↔◌};
ghost use Rattle.me_terms.specs.Order.{Precedes, kind_rank};
ghost use Rattle.candidate_keys.specs.Keys.{assert_code};

use crate::order::list_precedes;
use me_terms::{Kind, Tuple};
use std::marker::Model;

/// An Assert by its kind, weight, clause, place and tuple.
#[derive(Drop)]
pub struct AssertKey {
    pub kind: Kind,
    pub weight: u64,
    pub clause: u32,
    pub place: u32,
    pub tuple: Tuple,
}

impl Model for AssertKey {
    ghost use Rattle.std.specs.Coded.{codes};
    ghost use Rattle.candidate_keys.specs.Keys.{AssertKeyValue};

    ghost Value = { AssertKeyValue };

    ghost coded = { Prim.hlevel (codes) };

    ghost view = { λ k. record { kind = k.kind; weight = k.weight; clause = k.clause; place = k.place; tuple = k.tuple.items } };
}

/// The rank of a kind: Universal stands before Parametric.
fn rank_of(kind: Kind) -> u8
    ensures { result ≡ kind_rank kind }
{
    match kind {
        Kind::Universal => 0,
        Kind::Parametric => 1,
    }
}

impl AssertKey {
    /// Whether the key stands at or before the other one.
    pub fn precedes(&self, other: &AssertKey) -> bool
        ensures { IsTrue result ↔ Precedes (assert_code self.now) (assert_code other.now) }
    {
        let rank = rank_of(self.kind);
        let other_rank = rank_of(other.kind);
        if rank != other_rank {
            return rank < other_rank;
        }
        if self.weight != other.weight {
            return self.weight < other.weight;
        }
        if self.clause != other.clause {
            return self.clause < other.clause;
        }
        if self.place != other.place {
            return self.place < other.place;
        }
        list_precedes(self.tuple.as_slice(), other.tuple.as_slice())
    }
}
