//! What a unifier may have at most to give an Assert that comes before the best one so far.
//!
//! Nothing remains of the tuple, and what is asserted is no heavier than the bound, and lighter than a
//! Universal entry that was found before.
ghost use Rattle.std.specs.Prelude.{◌≡◌, Some};
ghost use Rattle.next_rule.specs.AssertSearches.{weight_limit, assert_limits};

use assert_rule::Candidate;
use me_terms::{Bounds, Kind};
use tuple_search::Limits;

/// The most that an entry may weigh that comes before this one.
fn weight_before(bounds: &Bounds, best: &Candidate) -> u64
    ensures { result ≡ weight_limit bounds.now (Some best.now) }
{
    match best.entry().kind {
        Kind::Universal => bounds.weight.min(best.weight().saturating_sub(1)),
        Kind::Parametric => bounds.weight,
    }
}

/// The limits of what comes before the best entry so far, if there is one.
pub(crate) fn limits_before(bounds: &Bounds, best: &Option<Candidate>) -> Limits
    ensures { result ≡ assert_limits bounds.now best.now }
{
    let weight = match best {
        Some(candidate) => weight_before(bounds, candidate),
        None => bounds.weight,
    };
    Limits {
        remaining: Some(0),
        weight: Some(weight),
        pivot: None,
    }
}
