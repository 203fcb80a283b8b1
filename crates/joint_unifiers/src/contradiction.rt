//! Which literals contradict a context.
//!
//! Of two literals of opposite signs, two Universal ones contradict each other where their atoms unify,
//! a Universal and a Parametric one where the Universal one is at least as general, and two Parametric
//! ones where they are variants.
ghost use Rattle.std.specs.Prelude.{◌≡◌, ℕ, ◌<◌, length, not, IfOk, IsTrue, ◌↔◌};
ghost use Rattle.me_terms.specs.Substitutions.{Generalizes, IsVariant};
ghost use Rattle.me_terms.specs.Values.{EntryValue};
ghost use Rattle.me_terms.specs.Context.{IsVisible};
ghost use Rattle.me_terms.specs.Contradictory.{Unifiable, Clash, IsContradictory};
ghost use Rattle.me_terms.specs.declared.atom.Pattern.TheVariants as variant;
ghost use Rattle.joint_unifiers.specs.Contradiction.{ContradictsAt};

use me_terms::{Atom, Entry, Kind, Literal, Pattern, View, is_instance, is_variant_of, matches};
use me_unify::Bindings;
use std::alloc::{AllocError, Global};

/// Whether the pattern and the atom have a common instance, the variables of each its own.
fn unifiable(alloc: Global, pattern: &Pattern, atom: &Atom) -> Result<bool, AllocError>
    ensures { IfOk result (λ answer. IsTrue answer ↔ Unifiable pattern.now (variant.Of atom.now)) }
{
    match pattern {
        Pattern::Any => Ok(true),
        Pattern::Of(other) => Bindings::new(alloc).unify(0, other, 1, atom),
    }
}

/// Whether the pattern is an instance of the atom. The pseudo-atom is none.
fn is_pattern_instance(atom: &Atom, pattern: &Pattern) -> bool
    ensures { IsTrue result ↔ Generalizes (variant.Of atom.now) pattern.now }
{
    match pattern {
        Pattern::Any => false,
        Pattern::Of(other) => is_instance(atom, other),
    }
}

/// Whether an entry contradicts a literal of the opposite sign with that atom and kind.
fn clashes(alloc: Global, entry: &Entry, atom: &Atom, kind: Kind) -> Result<bool, AllocError>
    ensures { IfOk result (λ answer. IsTrue answer ↔ Clash entry.now.kind entry.now.atom kind (variant.Of atom.now)) }
{
    match (entry.kind, kind) {
        (Kind::Universal, Kind::Universal) => unifiable(alloc, &entry.atom, atom),
        (Kind::Universal, Kind::Parametric) => Ok(matches(&entry.atom, atom)),
        (Kind::Parametric, Kind::Universal) => Ok(is_pattern_instance(atom, &entry.atom)),
        (Kind::Parametric, Kind::Parametric) => Ok(is_variant_of(&entry.atom, atom)),
    }
}

/// Whether the entry at position `k` is visible and contradicts the literal.
fn contradicts_at<V: View>(
    alloc: Global,
    view: &V,
    k: u32,
    lit: &Literal,
    kind: Kind,
) -> Result<bool, AllocError>
    ensures { IfOk result (λ answer. IsTrue answer ↔ ContradictsAt (V.context view.now) k lit.now kind) }
{
    let Some(entry) = view.entry(k) else {
        return Ok(false);
    };
    if entry.positive == lit.positive || !view.visible(k) {
        return Ok(false);
    }
    clashes(alloc, entry, &lit.atom, kind)
}

/// Whether a visible entry of the opposite sign contradicts the literal, which is of that kind.
pub fn is_contradictory<V: View>(
    alloc: Global,
    view: &V,
    lit: &Literal,
    kind: Kind,
) -> Result<bool, AllocError>
    ensures { IfOk result (λ answer. IsTrue answer ↔ IsContradictory (V.context view.now) lit.now kind) }
{
    for k in 0..view.len() {
        if contradicts_at(alloc, view, k, lit, kind)? {
            return Ok(true);
        }
    }
    Ok(false)
}
