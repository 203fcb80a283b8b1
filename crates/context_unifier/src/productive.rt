//! Which context unifiers are productive.
//!
//! An entry produces the complement of its literal under the unifier unless an exception stands in the way,
//! of which a Universal entry has none. Whether one stands in the way is asked of the literal's canonical
//! form, a variant, or where that would be heavy of the equations that the unifier solves.
ghost use Rattle.std.specs.Prelude.{◌≡◌, ◌<◌, ◌-◌, ◌^◌, ◌↔◌, ℕ, length, slice_get, Some, None, IsTrue, IfOk};
ghost use Rattle.me_terms.specs.Substitutions.{Family};
ghost use Rattle.me_terms.specs.Values.{EntryValue};
ghost use Rattle.me_terms.specs.Measures.{complement};
ghost use Rattle.me_terms.specs.Context.{StandsAt};
ghost use Rattle.me_terms.specs.Positions.{positions_of, AreOpposite};
ghost use Rattle.me_terms.specs.Unifier.{IsUnifier, unified};
ghost use Rattle.me_terms.specs.Produces.{Produces};
ghost use Rattle.me_terms.specs.Productive.{IsProductive};
ghost use Rattle.me_terms.specs.declared.atom.Literal.{Literal as LiteralOf};
ghost use Rattle.me_terms.specs.declared.entry.Kind.TheVariants as kind;
ghost use Rattle.me_unify.specs.Equations.{IsMostGeneral};
ghost use Rattle.joint_unifiers.specs.ClauseUnifiers.{IsUnifierOf};
ghost use Rattle.context_unifier.specs.Production.{IsUsed};

use crate::exceptions::has_exception;
use crate::frozen::Frozen;
use induced_model::produces;
use joint_unifiers::Unifier;
use me_terms::{Clause, Entry, Kind, Literal, View};
use std::alloc::{AllocError, Global};

/// The greatest weight of a literal that is written out.
const WRITTEN: u64 = 4096;

/// Whether the entry at position `k` produces the complement of the literal at that place under the unifier.
fn produces_place<V: View>(
    view: &V,
    u: &Unifier<'_>,
    place: u32,
    k: u32,
) -> Result<bool, AllocError>
    requires { place < length u.now.literals }
    ensures { IfOk result (λ b. (f : Family) (l : LiteralOf) → IsMostGeneral u.now.equations f → slice_get u.now.literals place ≡ Some l → IsTrue b ↔ ((e : EntryValue) × Produces (V.context view.now) k e (complement (unified f l)))) }
{
    let literal = u.literal(place)?;
    let complement = Literal {
        positive: !literal.positive,
        atom: literal.atom,
    };
    Ok(produces(view, k, &complement))
}

/// The same of a place whose Parametric entry is visible, has the opposite sign and unifies with the
/// literal. The literal is not written out.
fn produces_unwritten<V: View>(
    alloc: Global,
    literals: &[Literal],
    view: &V,
    u: &Unifier<'_>,
    place: u32,
    k: u32,
    entry: &Entry,
) -> Result<bool, AllocError>
    requires unifier { IsUnifierOf (V.context view.now) literals.now None u.now.tuple u.now }
    requires each_place { length u.now.tuple ≡ length literals.now }
    requires few { length literals.now < 2 ^ 32 - 1 }
    requires within { place < length literals.now }
    requires parametric { entry.now.kind ≡ kind.Parametric }
    ensures { IfOk result (λ b. (f : Family) (l : LiteralOf) → IsMostGeneral u.now.equations f → slice_get u.now.literals place ≡ Some l → IsUsed (V.context view.now) k entry.now f place l → IsTrue b ↔ Produces (V.context view.now) k entry.now (complement (unified f l))) }
{
    let literal = &literals[place as usize];
    match Frozen::new(alloc, literals, view, u.tuple(), literal)? {
        Some(frozen) => {
            let mut frozen = frozen;
            Ok(!has_exception(view, entry, &mut frozen, literal)?)
        }
        None => produces_place(view, u, place, k),
    }
}

/// The same, whatever the kind of the entry. A Universal entry produces all its instances.
fn is_productive_at<V: View>(
    alloc: Global,
    literals: &[Literal],
    view: &V,
    u: &Unifier<'_>,
    place: u32,
    k: u32,
) -> Result<bool, AllocError>
    requires unifier { IsUnifierOf (V.context view.now) literals.now None u.now.tuple u.now }
    requires each_place { length u.now.tuple ≡ length literals.now }
    requires few { length literals.now < 2 ^ 32 - 1 }
    requires within { place < length literals.now }
    ensures { IfOk result (λ b. (f : Family) (l : LiteralOf) (e : EntryValue) → IsMostGeneral u.now.equations f → slice_get u.now.literals place ≡ Some l → IsUsed (V.context view.now) k e f place l → IsTrue b ↔ Produces (V.context view.now) k e (complement (unified f l))) }
{
    let Some(entry) = view.entry(k) else {
        return Ok(false);
    };
    match entry.kind {
        Kind::Universal => Ok(true),
        Kind::Parametric => {
            if u.weight(place) <= WRITTEN {
                produces_place(view, u, place, k)
            } else {
                produces_unwritten(alloc, literals, view, u, place, k, entry)
            }
        }
    }
}

/// Whether the unifier is productive: at every place the entry produces the complement of the literal under it.
///
/// It is a context unifier of this clause in this view, with no place skipped.
pub fn is_productive<V: View>(
    alloc: Global,
    clause: &Clause,
    view: &V,
    u: &Unifier<'_>,
) -> Result<bool, AllocError>
    requires unifier { IsUnifierOf (V.context view.now) clause.now.literals None u.now.tuple u.now }
    requires opposite { AreOpposite (V.context view.now) clause.now.literals (positions_of None u.now.tuple) }
    requires few { length clause.now.literals < 2 ^ 32 - 1 }
    ensures { IfOk result (λ b. (f : Family) → IsUnifier (V.context view.now) clause.now.literals (positions_of None u.now.tuple) f → IsTrue b ↔ IsProductive (V.context view.now) clause.now.literals (positions_of None u.now.tuple) f) }
{
    for place in 0..clause.literals.len() {
        let Some(k) = u.tuple().get(place) else {
            unreachable!();
        };
        let literals = clause.literals.as_slice();
        if !is_productive_at(alloc, literals, view, u, place as u32, *k)? {
            return Ok(false);
        }
    }
    Ok(true)
}
