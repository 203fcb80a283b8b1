//! The kind of an asserted entry, and the order of kinds.
ghost use Rattle.std.specs.Prelude.{◌≡◌, ◌||◌, slice_get, if◌then◌else◌};
ghost use Rattle.std.specs.List.{list_all};
ghost use Rattle.me_terms.specs.Assert.{uses_universal};
ghost use Rattle.me_terms.specs.Order.{kind_rank};
ghost use Rattle.me_terms.specs.declared.entry.Kind.TheVariants as variant;

use me_terms::{Kind, Tuple, View};

/// The rank of a kind: Universal stands before Parametric.
pub(crate) fn rank_of(kind: Kind) -> u8
    ensures { result ≡ kind_rank kind }
{
    match kind {
        Kind::Universal => 0,
        Kind::Parametric => 1,
    }
}

/// Whether the entry at that position, if there is one, is Universal.
fn is_universal_at<V: View>(view: &V, k: u32) -> bool
    ensures { result ≡ uses_universal (slice_get (V.context view.now) k) }
{
    match view.entry(k) {
        Some(entry) => entry.kind == Kind::Universal,
        None => true,
    }
}

/// Whether all entries at the tuple's positions are Universal.
fn are_universal<V: View>(view: &V, tuple: &Tuple) -> bool
    ensures { result ≡ list_all (λ k. uses_universal (slice_get (V.context view.now) k)) tuple.now.items }
{
    for k in tuple.as_slice() {
        if !is_universal_at(view, *k) {
            return false;
        }
    }
    true
}

/// The kind of the entry that is asserted by entries at these positions, by whether its literal is ground.
pub(crate) fn kind_of<V: View>(view: &V, tuple: &Tuple, ground: bool) -> Kind
    ensures { result ≡ (if list_all (λ k. uses_universal (slice_get (V.context view.now) k)) tuple.now.items || ground then variant.Universal else variant.Parametric) }
{
    if ground || are_universal(view, tuple) {
        Kind::Universal
    } else {
        Kind::Parametric
    }
}
