//! Which ground atoms an entry of a context fixes, told by its index.
//!
//! An entry with the very atom is listed by the atom, and the others that may generalize it by its predicate,
//! so no further entry is looked at.
ghost use Rattle.std.specs.Prelude.{◌≡◌, ℕ, IsTrue, ◌↔◌};
ghost use Rattle.me_terms.specs.Variables.{are_ground};
ghost use Rattle.me_terms.specs.TermEquality.{same_atom};
ghost use Rattle.me_terms.specs.declared.atom.Pattern.TheVariants as patterns;
ghost use Rattle.literal_index.specs.Index.{IsIndex};
ghost use Rattle.assert_rule.specs.AssertedEntries.{FixesAt, HasAtomAt, HoldsAmong};

use crate::covering::fixes_at;
use literal_index::Index;
use me_terms::{Atom, Pattern, View};

/// Whether the two atoms are written alike.
fn is_same(own: &Atom, atom: &Atom) -> bool
    ensures { result ≡ same_atom own.now atom.now }
{
    own == atom
}

/// Whether the pattern is this very atom.
fn is_of(pattern: &Pattern, atom: &Atom) -> bool
    ensures { IsTrue result ↔ (pattern.now ≡ patterns.Of atom.now) }
{
    match pattern {
        Pattern::Any => false,
        Pattern::Of(own) => is_same(own, atom),
    }
}

/// Whether an entry with this very atom stands at position `k`, hidden or not.
fn has_atom_at<V: View>(view: &V, k: u32, atom: &Atom) -> bool
    ensures { IsTrue result ↔ HasAtomAt (V.context view.now) k atom.now }
{
    match view.entry(k) {
        Some(entry) => is_of(&entry.atom, atom),
        None => false,
    }
}

/// Whether an entry with this very atom stands at one of the positions, hidden or not.
fn stands_among<V: View>(view: &V, atom: &Atom, positions: &[u32]) -> bool
    ensures { IsTrue result ↔ HoldsAmong (λ k. HasAtomAt (V.context view.now) k atom.now) positions.now }
{
    for k in positions {
        if has_atom_at(view, *k, atom) {
            return true;
        }
    }
    false
}

/// Whether a visible Universal entry at one of the positions, of either sign, generalizes the atom.
fn fixes_among<V: View>(view: &V, atom: &Atom, positions: &[u32]) -> bool
    ensures { IsTrue result ↔ HoldsAmong (λ k. FixesAt (V.context view.now) k atom.now) positions.now }
{
    for k in positions {
        if fixes_at(view, *k, atom) {
            return true;
        }
    }
    false
}

/// Whether some visible Universal entry, of either sign, generalizes the ground atom.
pub(crate) fn is_fixed_by<V: View>(view: &V, entries: &Index, atom: &Atom) -> bool
    requires ground { IsTrue (are_ground atom.now.args) }
    requires index { IsIndex (V.context view.now) entries.now }
    ensures { IsTrue result ↔ ((k : ℕ) × FixesAt (V.context view.now) k atom.now) }
{
    let _entries = view.len();
    if stands_among(view, atom, entries.of_atom(atom)) {
        return true;
    }
    fixes_among(view, atom, entries.general(atom.pred))
}
