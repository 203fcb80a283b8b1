//! Which literals an entry produces.
//!
//! A Universal entry produces all its instances. A Parametric one produces an instance unless a Universal
//! entry, or a more specific Parametric one, makes an exception at its atom.
ghost use Rattle.std.specs.Prelude.{◌≡◌, ◌<◌, ◌⊎◌, Bool, ℕ, length, ◌↔◌, IsTrue};
ghost use Rattle.me_terms.specs.Substitutions.{IsStrictlyMoreGeneral};
ghost use Rattle.me_terms.specs.Values.{EntryValue};
ghost use Rattle.me_terms.specs.Produces.{HasException, Produces};
ghost use Rattle.induced_model.specs.Producers.{IsException, ExceptsAt, Yields, ProducesAt};

use me_terms::{Atom, Entry, Kind, Literal, Pattern, View, generalizes, matches};

/// Whether the first pattern is more general than the second, and no variant of it.
fn strictly_more_general(p: &Pattern, q: &Pattern) -> bool
    ensures { IsTrue result ↔ IsStrictlyMoreGeneral p.now q.now }
{
    generalizes(p, q) && !generalizes(q, p)
}

/// Whether `other`, where it is visible, makes an exception to `entry` at the atom.
fn is_exception(entry: &Entry, other: &Entry, atom: &Atom) -> bool
    ensures { IsTrue result ↔ IsException entry.now other.now atom.now }
{
    matches(&other.atom, atom)
        && (other.kind == Kind::Universal || strictly_more_general(&entry.atom, &other.atom))
}

/// Whether a visible entry at position `j` makes an exception to `entry` at the atom.
fn excepts<V: View>(view: &V, j: u32, entry: &Entry, atom: &Atom) -> bool
    ensures { IsTrue result ↔ ExceptsAt (V.context view.now) j entry.now atom.now }
{
    match view.entry(j) {
        Some(other) => view.visible(j) && is_exception(entry, other, atom),
        None => false,
    }
}

/// Whether some visible entry makes an exception to `entry` at the atom.
fn has_exception<V: View>(view: &V, entry: &Entry, atom: &Atom) -> bool
    ensures { IsTrue result ↔ HasException (V.context view.now) entry.now atom.now }
{
    for j in 0..view.len() {
        if excepts(view, j, entry, atom) {
            return true;
        }
    }
    false
}

/// Whether `entry`, where it is visible, produces the literal of this sign and atom.
fn yields<V: View>(view: &V, entry: &Entry, positive: bool, atom: &Atom) -> bool
    ensures { IsTrue result ↔ Yields (V.context view.now) entry.now positive atom.now }
{
    if entry.positive != positive || !matches(&entry.atom, atom) {
        return false;
    }
    match entry.kind {
        Kind::Universal => true,
        Kind::Parametric => !has_exception(view, entry, atom),
    }
}

/// Whether a visible entry at position `k` produces the literal of this sign and atom.
pub(crate) fn produces_at<V: View>(view: &V, k: u32, positive: bool, atom: &Atom) -> bool
    ensures { IsTrue result ↔ ProducesAt (V.context view.now) k positive atom.now }
{
    match view.entry(k) {
        Some(entry) => view.visible(k) && yields(view, entry, positive, atom),
        None => false,
    }
}

/// Whether the entry at position `k` is visible and produces the literal.
pub fn produces<V: View>(view: &V, k: u32, lit: &Literal) -> bool
    ensures { IsTrue result ↔ ((e : EntryValue) × Produces (V.context view.now) k e lit.now) }
{
    produces_at(view, k, lit.positive, &lit.atom)
}
