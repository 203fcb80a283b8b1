//! Unifiers by what they are ordered by.
ghost use Rattle.std.specs.Prelude.{◌≡◌, ◌∷◌, ◌++◌, [], Some, None, slice_get, IsTrue, ◌↔◌};
ghost use Rattle.me_terms.specs.Order.{Precedes};
ghost use Rattle.candidate_keys.specs.Keys.{code_by, unifier_code};

use crate::order::list_precedes;
use me_terms::Tuple;
use std::marker::Model;

/// The literal of a unifier's remainder that is split on: the size of the remainder, the literal's weight and
/// its place.
#[derive(Clone, Copy, Debug, PartialEq, Eq)]
pub struct Fit {
    pub size: u64,
    pub weight: u64,
    pub place: u32,
}

/// A unifier. Those of whose remainder a literal fits come first, by the remainder's size, the literal's
/// weight, the clause, the tuple and the place; then the others, by clause and tuple.
#[derive(Drop)]
pub struct UnifierKey {
    pub fit: Option<Fit>,
    pub clause: u32,
    pub tuple: Tuple,
}

impl Model for UnifierKey {
    ghost use Rattle.std.specs.Coded.{codes};
    ghost use Rattle.candidate_keys.specs.Keys.{UnifierKeyValue};

    ghost Value = { UnifierKeyValue };

    ghost coded = { Prim.hlevel (codes) };

    ghost view = { λ k. record { fit = k.fit; clause = k.clause; tuple = k.tuple.items } };
}

/// The number at index `k` of the list with the last one behind it.
fn item(list: &[u32], last: u32, k: usize) -> Option<u32>
    ensures { result ≡ slice_get (list.now ++ last ∷ []) k }
{
    if k == list.len() {
        return Some(last);
    }
    list.get(k).copied()
}

/// Whether the first list with its last number behind it stands at or before the second one with its own.
fn longer_precedes(list: &[u32], last: u32, other: &[u32], other_last: u32) -> bool
    ensures { IsTrue result ↔ Precedes (list.now ++ last ∷ []) (other.now ++ other_last ∷ []) }
{
    for k in 0..list.len() + 1 {
        let Some(x) = item(list, last, k) else {
            unreachable!();
        };
        let Some(y) = item(other, other_last, k) else {
            return false;
        };
        if x != y {
            return x < y;
        }
    }
    true
}

impl UnifierKey {
    /// Whether the key stands at or before the other one, where a literal of both fits.
    fn fits_before(&self, fit: &Fit, other: &UnifierKey, other_fit: &Fit) -> bool
        ensures { IsTrue result ↔ Precedes (code_by (Some fit.now) self.now.clause self.now.tuple) (code_by (Some other_fit.now) other.now.clause other.now.tuple) }
    {
        if fit.size != other_fit.size {
            return fit.size < other_fit.size;
        }
        if fit.weight != other_fit.weight {
            return fit.weight < other_fit.weight;
        }
        if self.clause != other.clause {
            return self.clause < other.clause;
        }
        longer_precedes(
            self.tuple.as_slice(),
            fit.place,
            other.tuple.as_slice(),
            other_fit.place,
        )
    }

    /// The same where none of either fits.
    fn unfit_before(&self, other: &UnifierKey) -> bool
        ensures { IsTrue result ↔ Precedes (code_by None self.now.clause self.now.tuple) (code_by None other.now.clause other.now.tuple) }
    {
        if self.clause != other.clause {
            return self.clause < other.clause;
        }
        list_precedes(self.tuple.as_slice(), other.tuple.as_slice())
    }

    /// Whether the key stands at or before the other one.
    pub fn precedes(&self, other: &UnifierKey) -> bool
        ensures { IsTrue result ↔ Precedes (unifier_code self.now) (unifier_code other.now) }
    {
        match (&self.fit, &other.fit) {
            (Some(fit), Some(other_fit)) => self.fits_before(fit, other, other_fit),
            (Some(_), None) => true,
            (None, Some(_)) => false,
            (None, None) => self.unfit_before(other),
        }
    }
}
