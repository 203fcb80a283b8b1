//! Which literals a context has already, or contradicts.
//!
//! A ground literal is one of these exactly where a visible Universal entry of either sign generalizes it, so
//! it is looked up in the context's index, or matched against the entries, and nothing is unified.
ghost use Rattle.std.specs.Prelude.{◌≡◌, ℕ, ◌<◌, ◌⊎◌, length, IfOk, IfSome, IsTrue, ◌↔◌};
ghost use Rattle.me_terms.specs.Variables.{are_ground};
ghost use Rattle.me_terms.specs.Substitutions.{Generalizes, IsVariant};
ghost use Rattle.me_terms.specs.declared.entry.Kind.TheVariants as kinds;
ghost use Rattle.me_terms.specs.declared.atom.Pattern.TheVariants as pattern;
ghost use Rattle.literal_index.specs.Index.{IsIndex};
ghost use Rattle.assert_rule.specs.AssertedEntries.{MakesNeedless, CoversAt, FixesAt, MayBeAsserted};

use crate::lookup::is_fixed_by;
use joint_unifiers::is_contradictory;
use literal_index::Index;
use me_terms::{Atom, Entry, Kind, Literal, View, is_ground, is_variant_of, matches};
use std::alloc::{AllocError, Global};

/// Whether the entry, where it is visible, makes an Assert of the literal with that kind needless.
fn covers(entry: &Entry, lit: &Literal, kind: Kind) -> bool
    ensures { IsTrue result ↔ MakesNeedless entry.now lit.now kind }
{
    entry.positive == lit.positive
        && ((entry.kind == Kind::Universal && matches(&entry.atom, &lit.atom))
            || (kind == Kind::Parametric && is_variant_of(&entry.atom, &lit.atom)))
}

/// Whether a visible entry at position `k` does.
fn covers_at<V: View>(view: &V, k: u32, lit: &Literal, kind: Kind) -> bool
    ensures { IsTrue result ↔ CoversAt (V.context view.now) k lit.now kind }
{
    match view.entry(k) {
        Some(entry) => view.visible(k) && covers(entry, lit, kind),
        None => false,
    }
}

/// Whether some visible entry does.
fn is_covered<V: View>(view: &V, lit: &Literal, kind: Kind) -> bool
    ensures { IsTrue result ↔ ((k : ℕ) × CoversAt (V.context view.now) k lit.now kind) }
{
    for k in 0..view.len() {
        if covers_at(view, k, lit, kind) {
            return true;
        }
    }
    false
}

/// Whether a visible Universal entry at position `k`, of either sign, generalizes the atom.
pub(crate) fn fixes_at<V: View>(view: &V, k: u32, atom: &Atom) -> bool
    ensures { IsTrue result ↔ FixesAt (V.context view.now) k atom.now }
{
    match view.entry(k) {
        Some(entry) => {
            entry.kind == Kind::Universal && matches(&entry.atom, atom) && view.visible(k)
        }
        None => false,
    }
}

/// Whether some visible entry does.
fn is_fixed<V: View>(view: &V, atom: &Atom) -> bool
    ensures { IsTrue result ↔ ((k : ℕ) × FixesAt (V.context view.now) k atom.now) }
{
    for k in 0..view.len() {
        if fixes_at(view, k, atom) {
            return true;
        }
    }
    false
}

/// Whether some visible entry does. The index, if there is one, is asked.
fn is_ground_fixed<V: View>(view: &V, entries: Option<&Index>, atom: &Atom) -> bool
    requires ground { IsTrue (are_ground atom.now.args) }
    requires index { IfSome entries (λ index. IsIndex (V.context view.now) index.now) }
    ensures { IsTrue result ↔ ((k : ℕ) × FixesAt (V.context view.now) k atom.now) }
{
    match entries {
        Some(index) => is_fixed_by(view, index, atom),
        None => is_fixed(view, atom),
    }
}

/// Whether a ground literal, which is Universal, neither contradicts the context nor is there already.
fn is_free<V: View>(view: &V, entries: Option<&Index>, lit: &Literal) -> bool
    requires ground { IsTrue (are_ground lit.now.atom.args) }
    requires index { IfSome entries (λ index. IsIndex (V.context view.now) index.now) }
    ensures { IsTrue result ↔ MayBeAsserted (V.context view.now) lit.now kinds.Universal }
{
    let _entries = view.len();
    !is_ground_fixed(view, entries, &lit.atom)
}

/// Whether the literal, which may have variables, neither contradicts the context with that kind nor is there
/// already.
fn is_apart<V: View>(alloc: Global, view: &V, lit: &Literal, kind: Kind) -> Result<bool, AllocError>
    ensures { IfOk result (λ answer. IsTrue answer ↔ MayBeAsserted (V.context view.now) lit.now kind) }
{
    if is_contradictory(alloc, view, lit, kind)? {
        return Ok(false);
    }
    Ok(!is_covered(view, lit, kind))
}

/// Whether the literal, if it is Universal, neither contradicts the context nor is there already.
fn is_new_universal<V: View>(
    alloc: Global,
    view: &V,
    entries: Option<&Index>,
    lit: &Literal,
) -> Result<bool, AllocError>
    requires index { IfSome entries (λ index. IsIndex (V.context view.now) index.now) }
    ensures { IfOk result (λ answer. IsTrue answer ↔ MayBeAsserted (V.context view.now) lit.now kinds.Universal) }
{
    if is_ground(lit) {
        return Ok(is_free(view, entries, lit));
    }
    is_apart(alloc, view, lit, Kind::Universal)
}

/// Whether the literal neither contradicts the context with that kind nor is there already.
pub(crate) fn is_new<V: View>(
    alloc: Global,
    view: &V,
    entries: Option<&Index>,
    lit: &Literal,
    kind: Kind,
) -> Result<bool, AllocError>
    requires index { IfSome entries (λ index. IsIndex (V.context view.now) index.now) }
    ensures { IfOk result (λ answer. IsTrue answer ↔ MayBeAsserted (V.context view.now) lit.now kind) }
{
    match kind {
        Kind::Universal => is_new_universal(alloc, view, entries, lit),
        Kind::Parametric => is_apart(alloc, view, lit, Kind::Parametric),
    }
}
