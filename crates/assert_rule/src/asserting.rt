//! The entry that a clause asserts by a place and a tuple of positions for its other places.
ghost use Rattle.std.specs.Prelude.{◌≡◌, ℕ, ◌<◌, ◌-◌, ◌^◌, length, Some, IfOk, IfSome, IfNone, IsTrue, ◌↔◌};
ghost use Rattle.std.specs.Option.{option_copied};
ghost use Rattle.me_terms.specs.Values.{ProblemValue, EntryValue};
ghost use Rattle.me_terms.specs.Positions.{ClauseAt, positions_of, AreOpposite};
ghost use Rattle.me_terms.specs.Validity.{IsLawful};
ghost use Rattle.me_terms.specs.Assert.{IsAssert};
ghost use Rattle.literal_index.specs.Index.{IsIndex};
ghost use Rattle.assert_rule.specs.AssertOrder.{IsBeforeBest, ComesBeforeBest};
ghost use Rattle.assert_rule.specs.AssertedEntries.{Asserts, AssertsBy};

use crate::candidate::Candidate;
use crate::covering::is_new;
use crate::ranks::kind_of;
use joint_unifiers::{Unifier, joint_unifier};
use literal_index::Index;
use me_terms::{Bounds, Clause, Entry, Kind, Tuple, View};
use std::alloc::{AllocError, Global};

/// Whether what has this kind and weight comes before the best one so far, if there is one.
fn is_before(kind: Kind, weight: u64, best: Option<&Candidate>) -> bool
    ensures { IsTrue result ↔ IsBeforeBest kind weight (option_copied best.entry) }
{
    match best {
        Some(candidate) => candidate.is_after(kind, weight),
        None => true,
    }
}

/// The entry that the unifier asserts for the literal of the place that it leaves out, where it comes
/// before the best one so far. Nothing of it is written out where it does not, or is beyond the bounds.
fn assert_by<V: View>(
    alloc: Global,
    unifier: &Unifier<'_>,
    index: u32,
    place: u32,
    view: &V,
    entries: Option<&Index>,
    bounds: &Bounds,
    best: Option<&Candidate>,
) -> Result<Option<Candidate>, AllocError>
    requires place { place < length unifier.now.literals }
    requires bounds { IsLawful bounds.now }
    requires index { IfSome entries (λ index. IsIndex (V.context view.now) index.now) }
    ensures some { IfOk result (λ r. IfSome r (AssertsBy unifier.now bounds.now (V.context view.now) index place)) }
    ensures before { IfOk result (λ r. IfSome r (λ e. ComesBeforeBest e (option_copied best.entry))) }
    ensures none { IfOk result (λ r. IfNone r ((e : EntryValue) → AssertsBy unifier.now bounds.now (V.context view.now) index place e → ¬ ComesBeforeBest e (option_copied best.entry))) }
{
    if !unifier.remainder().is_empty() {
        return Ok(None);
    }
    let tuple = unifier.tuple();
    let kind = kind_of(view, tuple, unifier.ground(place));
    let weight = unifier.weight(place);
    if !is_before(kind, weight, best) {
        return Ok(None);
    }
    if !unifier.fits(place, bounds) {
        return Ok(None);
    }
    let literal = unifier.literal(place)?;
    if !is_new(alloc, view, entries, &literal, kind)? {
        return Ok(None);
    }
    let tuple = tuple.again(alloc)?;
    Ok(Some(Candidate::new(literal, kind, weight, index, place, tuple)))
}

/// The entry that the clause asserts by the place and the tuple, as `assert_before` says. Where the index of
/// the view's entries is at hand, a ground literal is looked up in it.
fn assert_with<V: View>(
    alloc: Global,
    clause: &Clause,
    index: u32,
    place: u32,
    tuple: &Tuple,
    view: &V,
    entries: Option<&Index>,
    bounds: &Bounds,
    best: Option<&Candidate>,
) -> Result<Option<Candidate>, AllocError>
    requires place { place < length clause.now.literals }
    requires opposite { AreOpposite (V.context view.now) clause.now.literals (positions_of (Some place) tuple.now.items) }
    requires few { length clause.now.literals < 2 ^ 32 - 1 }
    requires bounds { IsLawful bounds.now }
    requires index { IfSome entries (λ listed. IsIndex (V.context view.now) listed.now) }
    ensures some { IfOk result (λ r. IfSome r (Asserts bounds.now (V.context view.now) clause.now index place tuple.now.items)) }
    ensures before { IfOk result (λ r. IfSome r (λ e. ComesBeforeBest e (option_copied best.entry))) }
    ensures none { IfOk result (λ r. IfNone r ((problem : ProblemValue) (e : EntryValue) → ClauseAt problem index clause.now → IsAssert problem bounds.now (V.context view.now) index place tuple.now.items e → ¬ ComesBeforeBest e (option_copied best.entry))) }
{
    match joint_unifier(alloc, clause, Some(place), tuple, view)? {
        Some(unifier) => Ok(assert_by(alloc, &unifier, index, place, view, entries, bounds, best)?),
        None => Ok(None),
    }
}

/// The entry that the clause, which stands at place `index` of a problem, asserts by the literal of that
/// place and the positions of the tuple for its other places, where it comes strictly before the best one
/// so far: by kind, Universal first, and then weight. None exactly where there is no such entry.
///
/// The tuple has one position of a visible entry of the opposite sign for each other place.
pub fn assert_before<V: View>(
    alloc: Global,
    clause: &Clause,
    index: u32,
    place: u32,
    tuple: &Tuple,
    view: &V,
    bounds: &Bounds,
    best: Option<&Candidate>,
) -> Result<Option<Candidate>, AllocError>
    requires place { place < length clause.now.literals }
    requires opposite { AreOpposite (V.context view.now) clause.now.literals (positions_of (Some place) tuple.now.items) }
    requires few { length clause.now.literals < 2 ^ 32 - 1 }
    requires bounds { IsLawful bounds.now }
    ensures some { IfOk result (λ r. IfSome r (Asserts bounds.now (V.context view.now) clause.now index place tuple.now.items)) }
    ensures before { IfOk result (λ r. IfSome r (λ e. ComesBeforeBest e (option_copied best.entry))) }
    ensures none { IfOk result (λ r. IfNone r ((problem : ProblemValue) (e : EntryValue) → ClauseAt problem index clause.now → IsAssert problem bounds.now (V.context view.now) index place tuple.now.items e → ¬ ComesBeforeBest e (option_copied best.entry))) }
{
    assert_with(alloc, clause, index, place, tuple, view, None, bounds, best)
}

/// The entry that the clause, which stands at place `index` of a problem, asserts by the literal of that
/// place and the positions of the tuple for its other places. None exactly where it asserts none.
///
/// The tuple has one position of a visible entry of the opposite sign for each other place.
pub fn assert_of<V: View>(
    alloc: Global,
    clause: &Clause,
    index: u32,
    place: u32,
    tuple: &Tuple,
    view: &V,
    bounds: &Bounds,
) -> Result<Option<Entry>, AllocError>
    requires place { place < length clause.now.literals }
    requires opposite { AreOpposite (V.context view.now) clause.now.literals (positions_of (Some place) tuple.now.items) }
    requires few { length clause.now.literals < 2 ^ 32 - 1 }
    requires bounds { IsLawful bounds.now }
    ensures some { IfOk result (λ r. IfSome r (Asserts bounds.now (V.context view.now) clause.now index place tuple.now.items)) }
    ensures none { IfOk result (λ r. IfNone r ((problem : ProblemValue) (e : EntryValue) → ClauseAt problem index clause.now → ¬ IsAssert problem bounds.now (V.context view.now) index place tuple.now.items e)) }
{
    match assert_before(alloc, clause, index, place, tuple, view, bounds, None)? {
        Some(candidate) => Ok(Some(candidate.into_entry())),
        None => Ok(None),
    }
}

/// The entry of `assert_of` with its weight. The index of the view's entries is asked whether they have a
/// ground literal already.
pub fn candidate_of<V: View>(
    alloc: Global,
    clause: &Clause,
    index: u32,
    place: u32,
    tuple: &Tuple,
    view: &V,
    entries: &Index,
    bounds: &Bounds,
) -> Result<Option<Candidate>, AllocError>
    requires place { place < length clause.now.literals }
    requires opposite { AreOpposite (V.context view.now) clause.now.literals (positions_of (Some place) tuple.now.items) }
    requires few { length clause.now.literals < 2 ^ 32 - 1 }
    requires bounds { IsLawful bounds.now }
    requires index { IsIndex (V.context view.now) entries.now }
    ensures some { IfOk result (λ r. IfSome r (Asserts bounds.now (V.context view.now) clause.now index place tuple.now.items)) }
    ensures none { IfOk result (λ r. IfNone r ((problem : ProblemValue) (e : EntryValue) → ClauseAt problem index clause.now → ¬ IsAssert problem bounds.now (V.context view.now) index place tuple.now.items e)) }
{
    assert_with(
        alloc,
        clause,
        index,
        place,
        tuple,
        view,
        Some(entries),
        bounds,
        None,
    )
}
