//! The truth of ground atoms.
//!
//! An atom is true where some visible entry produces it. Where none does, some entry produces its
//! complement, since a context produces each literal or its complement.
ghost use Rattle.std.specs.Prelude.{◌≡◌, ◌<◌, ℕ, ◌↔◌, IsTrue, IsNone, IfSome};
ghost use Rattle.me_terms.specs.Context.{IsContext};
ghost use Rattle.me_terms.specs.Produces.{IsInduced};
ghost use Rattle.induced_model.specs.Producers.{IsFirstProducer, ProducesAt};

use crate::production::produces_at;
use me_terms::{Atom, View};

/// An atom's truth, and the entry that gives it.
#[derive(Clone, Copy, Debug, PartialEq, Eq)]
pub struct Verdict {
    pub value: bool,
    /// The position of the first visible entry that produces the atom, or its complement where it is false.
    pub entry: u32,
}

/// The position of the first visible entry that produces the literal of this sign and atom.
fn first_producer<V: View>(view: &V, positive: bool, atom: &Atom) -> Option<u32>
    ensures is_context { IsContext (V.context view.now) }
    ensures first { IfSome result (λ k. IsFirstProducer (V.context view.now) k positive atom.now) }
    ensures none { IsNone result → (k : ℕ) → ¬ ProducesAt (V.context view.now) k positive atom.now }
{
    for k in 0..view.len() {
        if produces_at(view, k, positive, atom) {
            return Some(k);
        }
    }
    None
}

/// The truth that the context gives to the atom, which is meant for a ground atom and a context that
/// does not contradict itself.
pub fn truth_of<V: View>(view: &V, atom: &Atom) -> Verdict
    ensures value { IsTrue result.value ↔ IsInduced (V.context view.now) atom.now }
    ensures entry { IsFirstProducer (V.context view.now) result.entry result.value atom.now }
{
    if let Some(entry) = first_producer(view, true, atom) {
        return Verdict { value: true, entry };
    }
    match first_producer(view, false, atom) {
        Some(entry) => Verdict {
            value: false,
            entry,
        },
        None => unreachable!(),
    }
}
