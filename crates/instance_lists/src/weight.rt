//! The weight of instances, within a bound.
//!
//! What is left of a bound is exact, since a weight that is not counted to its end passes every bound.
ghost use Rattle.std.specs.Prelude.{◌≡◌, ◌+◌, ◌<◌, MatchOption};
ghost use Rattle.me_terms.specs.Measures.{literals_weight, list_weight, capped, GREATEST_U64};

use me_terms::{Instance, weight_of};

/// The weight of an instance, or 2^64 - 1 where it is greater.
fn instance_weight(instance: &Instance) -> u64
    ensures { result ≡ capped (literals_weight instance.now.literals) }
{
    let mut total = 0_u64;
    for literal in instance.literals.as_slice() {
        total = total.saturating_add(weight_of(literal));
    }
    total
}

/// What is left of the bound beside the weight of the list, or None where the list weighs more.
pub(crate) fn left_beside(bound: u64, list: &[Instance]) -> Option<u64>
    requires { bound < GREATEST_U64 }
    ensures { MatchOption result (bound < list_weight list.now) (λ left. left + list_weight list.now ≡ bound) }
{
    let mut left = bound;
    for instance in list {
        let weight = instance_weight(instance);
        if left < weight {
            return None;
        }
        left -= weight;
    }
    Some(left)
}
