//! Whether entries stand against the literals of a clause.
ghost use Rattle.std.specs.Prelude.{◌≡◌, ◌<◌, ◌≤◌, ℕ, length, slice_get, Some, IsTrue, ◌↔◌};
ghost use Rattle.me_terms.specs.Positions.{positions_of, AreOpposite};
ghost use Rattle.joint_unifiers.specs.ClauseUnifiers.{IsSkip};
ghost use Rattle.joint_unifiers.specs.Places.{IsPlaceOf};
ghost use Rattle.kept_asserts.specs.Held.{OpposesAt, OpposesWhere, position_count};

use me_terms::{Literal, Tuple, View};

/// Whether a visible entry of the opposite sign stands at position `k`.
fn opposes<V: View>(view: &V, k: u32, literal: &Literal) -> bool
    ensures { IsTrue result ↔ OpposesAt (V.context view.now) k literal.now }
{
    match view.entry(k) {
        Some(entry) => entry.positive != literal.positive && view.visible(k),
        None => false,
    }
}

/// The number of places at which the positions stand, or none.
fn count_of(skip: Option<u32>, positions: &[u32]) -> u64
    ensures { result ≡ position_count skip positions.now }
{
    let count = positions.len() as u64;
    match skip {
        Some(_) => count + 1,
        None => count,
    }
}

/// The position at the place of a clause, if one stands there.
fn position_at(skip: Option<u32>, positions: &[u32], place: usize) -> Option<u32>
    requires within { place < position_count skip positions.now }
    requires skip { IsPlaceOf skip (position_count skip positions.now) }
    ensures { slice_get (positions_of skip positions.now) place ≡ Some result }
{
    let Some(skip) = skip else {
        return positions.get(place).copied();
    };
    let skip = skip as usize;
    if place == skip {
        return None;
    }
    if place < skip {
        return positions.get(place).copied();
    }
    Some(positions[place - 1])
}

/// Whether the entry that stands at the place, if one does, is visible and has the sign opposite to the
/// literal's.
fn opposes_at<V: View>(
    view: &V,
    literal: &Literal,
    skip: Option<u32>,
    positions: &[u32],
    place: usize,
) -> bool
    requires within { place < position_count skip positions.now }
    requires skip { IsPlaceOf skip (position_count skip positions.now) }
    ensures { IsTrue result ↔ OpposesWhere (V.context view.now) (slice_get (positions_of skip positions.now) place) literal.now }
{
    match position_at(skip, positions, place) {
        Some(k) => opposes(view, k, literal),
        None => true,
    }
}

/// Whether the tuple has a position for each place but the skipped one, each of a visible entry of the
/// opposite sign.
pub fn are_opposite<V: View>(
    view: &V,
    literals: &[Literal],
    skip: Option<u32>,
    tuple: &Tuple,
) -> bool
    requires { IsSkip skip literals.now }
    ensures { IsTrue result ↔ AreOpposite (V.context view.now) literals.now (positions_of skip tuple.now.items) }
{
    let positions = tuple.as_slice();
    if count_of(skip, positions) != literals.len() as u64 {
        return false;
    }
    for place in 0..literals.len() {
        if !opposes_at(view, &literals[place], skip, positions, place) {
            return false;
        }
    }
    true
}
