//! The first entries that two contexts have in common.
ghost use Rattle.std.specs.Prelude.{◌≡◌, ◌↔◌, IsTrue};
ghost use Rattle.me_terms.specs.ReasonViews.{reason_value};
ghost use Rattle.common_entries.specs.Common.{AreCommon};

use me_terms::{Entry, Pattern, Reason, Tuple, View};

/// Whether the positions are equal.
fn same_tuple(one: &Tuple, other: &Tuple) -> bool
    ensures { IsTrue result ↔ (one.now.items ≡ other.now.items) }
{
    one.as_slice() == other.as_slice()
}

/// Whether the reasons are equal.
fn same_reason(one: &Reason, other: &Reason) -> bool
    ensures { IsTrue result ↔ (reason_value one.now ≡ reason_value other.now) }
{
    match (one, other) {
        (Reason::Pseudo, Reason::Pseudo) => true,
        (Reason::SplitLeft, Reason::SplitLeft) => true,
        (Reason::SplitRight, Reason::SplitRight) => true,
        (
            Reason::Asserted {
                clause,
                place,
                tuple,
            },
            Reason::Asserted {
                clause: other_clause,
                place: other_place,
                tuple: other_tuple,
            },
        ) => {
            *clause == *other_clause && *place == *other_place && same_tuple(tuple, other_tuple)
        }
        _ => false,
    }
}

/// Whether the patterns are equal.
#[tactic(auto, using(crate::proofs::Fronts::same_atoms))]
fn same_pattern(one: &Pattern, other: &Pattern) -> bool
    ensures { IsTrue result ↔ (one.now ≡ other.now) }
{
    match (one, other) {
        (Pattern::Any, Pattern::Any) => true,
        (Pattern::Of(one), Pattern::Of(other)) => one == other,
        _ => false,
    }
}

/// Whether the entries are equal.
fn same_entry(one: &Entry, other: &Entry) -> bool
    ensures { IsTrue result ↔ (one.now ≡ other.now) }
{
    if one.positive != other.positive || one.kind != other.kind {
        return false;
    }
    same_reason(&one.reason, &other.reason) && same_pattern(&one.atom, &other.atom)
}

/// How many first entries two contexts have in common.
pub fn count_common<V: View>(one: &V, other: &V) -> u32
    ensures { AreCommon result (V.context one.now) (V.context other.now) }
{
    let most = one.len().min(other.len());
    for k in 0..most {
        let (Some(first), Some(second)) = (one.entry(k), other.entry(k)) else {
            unreachable!()
        };
        if !same_entry(first, second) {
            return k;
        }
    }
    most
}
