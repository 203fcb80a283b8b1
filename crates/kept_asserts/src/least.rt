//! The least Assert, of those whose keys are kept.
ghost use Rattle.std.specs.Prelude.{◌≡◌, ◌<◌, ◌-◌, ◌^◌, length, Some, IfOk, IfSome, IfNone, OnOk, IsTrue, ◌↔◌};
ghost use Rattle.me_terms.specs.Validity.{IsValid, IsLawful};
ghost use Rattle.me_terms.specs.Values.{EntryValue, ProblemValue};
ghost use Rattle.me_terms.specs.Assert.{IsAssert, HasAssert};
ghost use Rattle.me_terms.specs.Order.{kind_rank, IsLeastAssert};
ghost use Rattle.me_terms.specs.Positions.{ClauseAt};
ghost use Rattle.literal_index.specs.Index.{IsIndex};
ghost use Rattle.kept_asserts.specs.Held.{HoldsAsserts, IsAssertOf, HasRank};

use crate::opposing::are_opposite;
use assert_rule::{Candidate, candidate_of};
use candidate_keys::{AssertKey, Asserts};
use literal_index::Index;
use me_terms::{Bounds, Clause, Entry, Kind, Problem, Tuple, View};
use std::alloc::{AllocError, Global};

/// Whether the two kinds are the same.
fn is_same(kind: Kind, other: Kind) -> bool
    ensures { IsTrue result ↔ (kind_rank kind ≡ kind_rank other) }
{
    match kind {
        Kind::Universal => matches!(other, Kind::Universal),
        Kind::Parametric => matches!(other, Kind::Parametric),
    }
}

/// Whether the entry has the key's kind and weight.
fn has_rank(candidate: &Candidate, key: &AssertKey) -> bool
    ensures { IsTrue result ↔ HasRank key.now candidate.now }
{
    is_same(candidate.entry().kind, key.kind) && candidate.weight() == key.weight
}

/// The Assert of the clause at place `index` by that place in it and the tuple, if there is one.
fn assert_of_clause<V: View>(
    alloc: Global,
    clause: &Clause,
    index: u32,
    place: u32,
    tuple: &Tuple,
    view: &V,
    entries: &Index,
    bounds: &Bounds,
) -> Result<Option<Candidate>, AllocError>
    requires place { place < length clause.now.literals }
    requires few { length clause.now.literals < 2 ^ 32 - 1 }
    requires bounds { IsLawful bounds.now }
    requires index { IsIndex (V.context view.now) entries.now }
    ensures some { IfOk result (λ r. IfSome r (λ e. (problem : ProblemValue) → ClauseAt problem index clause.now → IsAssert problem bounds.now (V.context view.now) index place tuple.now.items e)) }
    ensures none { IfOk result (λ r. IfNone r ((problem : ProblemValue) (e : EntryValue) → ClauseAt problem index clause.now → ¬ IsAssert problem bounds.now (V.context view.now) index place tuple.now.items e)) }
{
    if !are_opposite(view, clause.literals.as_slice(), Some(place), tuple) {
        return Ok(None);
    }
    candidate_of(alloc, clause, index, place, tuple, view, entries, bounds)
}

/// The Assert of the clause, place and tuple, if there is one.
fn assert_of<V: View>(
    alloc: Global,
    problem: &Problem,
    key: &AssertKey,
    view: &V,
    entries: &Index,
    bounds: &Bounds,
) -> Result<Option<Candidate>, AllocError>
    requires valid { IsValid problem.now }
    requires bounds { IsLawful bounds.now }
    requires index { IsIndex (V.context view.now) entries.now }
    ensures some { IfOk result (λ r. IfSome r (IsAssert problem.now bounds.now (V.context view.now) key.now.clause key.now.place key.now.tuple)) }
    ensures none { IfOk result (λ r. IfNone r ((e : EntryValue) → IsAssert problem.now bounds.now (V.context view.now) key.now.clause key.now.place key.now.tuple e → ⊥)) }
{
    let Some(clause) = problem.clauses.get(u64::from(key.clause)) else {
        return Ok(None);
    };
    if u64::from(key.place) >= clause.literals.len() {
        return Ok(None);
    }
    assert_of_clause(
        alloc, clause, key.clause, key.place, &key.tuple, view, entries, bounds,
    )
}

/// The entry of the key's Assert, if it is one still.
fn entry_of<V: View>(
    alloc: Global,
    problem: &Problem,
    key: &AssertKey,
    view: &V,
    entries: &Index,
    bounds: &Bounds,
) -> Result<Option<Entry>, AllocError>
    requires valid { IsValid problem.now }
    requires bounds { IsLawful bounds.now }
    requires index { IsIndex (V.context view.now) entries.now }
    ensures some { IfOk result (λ r. IfSome r (λ e. IsAssertOf problem.now bounds.now (V.context view.now) key.now e)) }
    ensures none { IfOk result (λ r. IfNone r ((e : EntryValue) → ¬ IsAssertOf problem.now bounds.now (V.context view.now) key.now e)) }
{
    let Some(candidate) = assert_of(alloc, problem, key, view, entries, bounds)? else {
        return Ok(None);
    };
    if has_rank(&candidate, key) {
        return Ok(Some(candidate.into_entry()));
    }
    Ok(None)
}

/// The entry of the least Assert of the context, whose entries are in the index. The keys before its own are
/// taken out, since they are of no Assert any more.
pub fn least_assert<V: View>(
    alloc: Global,
    problem: &Problem,
    asserts: &mut Asserts,
    view: &V,
    entries: &Index,
    bounds: &Bounds,
) -> Result<Option<Entry>, AllocError>
    requires valid { IsValid problem.now }
    requires bounds { IsLawful bounds.now }
    requires index { IsIndex (V.context view.now) entries.now }
    requires all { HoldsAsserts problem.now bounds.now (V.context view.now) asserts.old }
    ensures some { IfOk result (λ r. IfSome r (IsLeastAssert problem.now bounds.now (V.context view.now))) }
    ensures none { IfOk result (λ r. IfNone r (HasAssert problem.now bounds.now (V.context view.now) → ⊥)) }
    ensures kept { OnOk result (HoldsAsserts problem.now bounds.now (V.context view.now) asserts.new) }
{
    'keys: while let Some(k) = asserts.least() {
        if let Some(entry) = entry_of(alloc, problem, asserts.at(k), view, entries, bounds)? {
            return Ok(Some(entry));
        }
        asserts.take(k);
    }
    Ok(None)
}
