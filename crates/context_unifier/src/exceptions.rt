//! Exceptions to what a Parametric entry produces, at a literal that is not written out.
//!
//! An entry is asked first whether it is stronger, which the two entries tell, and then whether the literal
//! under the equations is an instance of it, which the frozen equations tell.
ghost use Rattle.std.specs.Prelude.{◌≡◌, ◌↔◌, ◌⊎◌, IsTrue, IfOk};
ghost use Rattle.me_terms.specs.Terms.{AtomValue};
ghost use Rattle.me_terms.specs.Substitutions.{Generalizes, IsStrictlyMoreGeneral};
ghost use Rattle.me_terms.specs.Produces.{HasException};
ghost use Rattle.me_terms.specs.declared.atom.Pattern.TheVariants as pattern;
ghost use Rattle.me_terms.specs.declared.entry.Kind.TheVariants as kind;
ghost use Rattle.induced_model.specs.Producers.{ExceptsAt};
ghost use Rattle.context_unifier.specs.Frozen.{TellInstances};

use crate::frozen::Frozen;
use me_terms::{Entry, Kind, Literal, Pattern, View, strictly_more_general};
use std::alloc::AllocError;

/// Whether `other` is stronger than the Parametric `entry` where both speak of an atom.
fn is_stronger(entry: &Entry, other: &Entry) -> bool
    ensures { IsTrue result ↔ ((other.now.kind ≡ kind.Universal) ⊎ ((other.now.kind ≡ kind.Parametric) × IsStrictlyMoreGeneral entry.now.atom other.now.atom)) }
{
    match other.kind {
        Kind::Universal => true,
        Kind::Parametric => match &other.atom {
            Pattern::Any => false,
            Pattern::Of(atom) => strictly_more_general(&entry.atom, atom),
        },
    }
}

/// Whether the literal is an instance of the pattern.
fn falls_under(
    frozen: &mut Frozen,
    general: &Pattern,
    literal: &Literal,
) -> Result<bool, AllocError>
    ensures one { frozen.new.one ≡ frozen.old.one }
    ensures other { frozen.new.other ≡ frozen.old.other }
    ensures exact { IfOk result (λ b. (c : AtomValue) → TellInstances frozen.old.one frozen.old.other literal.now.atom c → IsTrue b ↔ Generalizes general.now (pattern.Of c)) }
{
    match general {
        Pattern::Any => Ok(true),
        Pattern::Of(atom) => frozen.is_instance(atom, literal),
    }
}

/// Whether a visible entry at position `j` makes an exception to `entry` at the literal.
fn excepts<V: View>(
    view: &V,
    j: u32,
    entry: &Entry,
    frozen: &mut Frozen,
    literal: &Literal,
) -> Result<bool, AllocError>
    ensures one { frozen.new.one ≡ frozen.old.one }
    ensures other { frozen.new.other ≡ frozen.old.other }
    ensures exact { IfOk result (λ b. (c : AtomValue) → TellInstances frozen.old.one frozen.old.other literal.now.atom c → IsTrue b ↔ ExceptsAt (V.context view.now) j entry.now c) }
{
    let Some(other) = view.entry(j) else {
        return Ok(false);
    };
    if !view.visible(j) || !is_stronger(entry, other) {
        return Ok(false);
    }
    falls_under(frozen, &other.atom, literal)
}

/// Whether some visible entry makes an exception to the Parametric `entry` at the literal.
pub(crate) fn has_exception<V: View>(
    view: &V,
    entry: &Entry,
    frozen: &mut Frozen,
    literal: &Literal,
) -> Result<bool, AllocError>
    ensures { IfOk result (λ b. (c : AtomValue) → TellInstances frozen.old.one frozen.old.other literal.now.atom c → IsTrue b ↔ HasException (V.context view.now) entry.now c) }
{
    for j in 0..view.len() {
        if excepts(view, j, entry, frozen, literal)? {
            return Ok(true);
        }
    }
    Ok(false)
}
