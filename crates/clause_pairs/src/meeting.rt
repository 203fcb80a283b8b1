//! Which literals of a problem an entry stands against.
//!
//! Atoms of different predicates never unify, so only the literals that the index has of the entry's predicate
//! and the other sign are looked at; of an atom without variables those of the same atom are known, and only
//! those with variables are left. Against a literal without variables the entry stands where it generalizes the
//! atom, which matching alone tells.
ghost use Rattle.std.specs.Prelude.{◌≡◌, ◌⊎◌, not, ◌<◌, ◌-◌, ◌^◌, ℕ, [], length, Some, IfOk, IsTrue, ◌↔◌};
ghost use Rattle.std.specs.List.{Contains, position};
ghost use Rattle.me_terms.specs.Terms.{AtomValue};
ghost use Rattle.me_terms.specs.TermEquality.{same_atom};
ghost use Rattle.me_terms.specs.Contradictory.{Unifiable};
ghost use Rattle.me_terms.specs.Positions.{ClauseAt};
ghost use Rattle.me_terms.specs.Validity.{IsValid};
ghost use Rattle.me_terms.specs.declared.atom.Pattern.TheVariants as pattern;
ghost use Rattle.me_laws_increments.specs.Pairs.{IsPair};
ghost use Rattle.clause_pairs.specs.declared.clause_place.ClausePlace.{ClausePlace as Place};
ghost use Rattle.clause_pairs.specs.Index.{IsIndex};
ghost use Rattle.clause_pairs.specs.Meetings.{LiteralAt, HasLiteralAt, IsAgainst, AddsPlaces, AgainstClause};

use crate::clause_place::ClausePlace;
use crate::index::Index;
use me_terms::{Atom, Clause, Entry, Literal, Pattern, Problem, is_ground, matches};
use me_unify::Bindings;
use std::alloc::{AllocError, Global};

/// Whether the two atoms have a common instance, the variables of each its own.
fn unifies(alloc: Global, atom: &Atom, other: &Atom) -> Result<bool, AllocError>
    ensures { IfOk result (λ answer. IsTrue answer ↔ Unifiable (pattern.Of atom.now) (pattern.Of other.now)) }
{
    if atom.pred != other.pred {
        return Ok(false);
    }
    Bindings::new(alloc).unify(0, atom, 1, other)
}

/// Whether the pattern is an atom of another predicate than the literal's.
fn is_apart(atom: &Pattern, literal: &Literal) -> bool
    ensures { IsTrue result → ¬ Unifiable atom.now (pattern.Of literal.now.atom) }
{
    match atom {
        Pattern::Any => false,
        Pattern::Of(other) => other.pred != literal.atom.pred,
    }
}

/// Whether the pattern and the atom of the literal have a common instance.
fn meets(alloc: Global, atom: &Pattern, literal: &Literal) -> Result<bool, AllocError>
    ensures { IfOk result (λ answer. IsTrue answer ↔ Unifiable atom.now (pattern.Of literal.now.atom)) }
{
    if is_apart(atom, literal) {
        return Ok(false);
    }
    if is_ground(literal) {
        return Ok(matches(atom, &literal.atom));
    }
    match atom {
        Pattern::Any => Ok(true),
        Pattern::Of(other) => unifies(alloc, other, &literal.atom),
    }
}

/// Whether the entry has the opposite sign.
fn is_opposite(entry: &Entry, literal: &Literal) -> bool
    ensures { IsTrue result ↔ (entry.now.positive ≡ not literal.now.positive) }
{
    entry.positive != literal.positive
}

/// Whether the entry has the opposite sign, and its atom unifies with the literal's.
fn is_pair(alloc: Global, entry: &Entry, literal: &Literal) -> Result<bool, AllocError>
    ensures { IfOk result (λ answer. IsTrue answer ↔ IsPair entry.now literal.now) }
{
    if is_opposite(entry, literal) {
        return meets(alloc, &entry.atom, literal);
    }
    Ok(false)
}

/// The places so far, and those of the clause, which stands at place `c` of the problem.
fn add_clause(
    alloc: Global,
    entry: &Entry,
    clause: &Clause,
    c: u32,
    mut places: Vec<ClausePlace>,
) -> Result<Vec<ClausePlace>, AllocError>
    requires { length clause.now.literals < 2 ^ 32 - 1 }
    ensures { IfOk result (λ more. AddsPlaces places.items more.items (AgainstClause entry.now clause.now.literals c)) }
{
    let literals = clause.literals.as_slice();
    for (i, literal) in literals.iter().enumerate() {
        if is_pair(alloc, entry, literal)? {
            places.push(ClausePlace {
                clause: c,
                place: i as u32,
            })?;
        }
    }
    Ok(places)
}

/// The places of the problem's clauses against whose literals the entry stands.
fn places_against(
    alloc: Global,
    problem: &Problem,
    entry: &Entry,
) -> Result<Vec<ClausePlace>, AllocError>
    requires { IsValid problem.now }
    ensures { IfOk result (λ places. (q : Place) → Contains places.items q ↔ IsAgainst problem.now entry.now q) }
{
    let mut places = Vec::new(alloc);
    for (c, clause) in problem.clauses.as_slice().iter().enumerate() {
        places = add_clause(alloc, entry, clause, c as u32, places)?;
    }
    Ok(places)
}

/// The clause in which the place stands.
fn clause_of(problem: &Problem, at: ClausePlace) -> &Clause
    requires { HasLiteralAt problem.now at }
    ensures { ClauseAt problem.now at.clause result.now }
{
    &problem.clauses.as_slice()[at.clause as usize]
}

/// The literal at the place.
fn literal_at(problem: &Problem, at: ClausePlace) -> &Literal
    requires { HasLiteralAt problem.now at }
    ensures { LiteralAt problem.now at result.now }
{
    let clause = clause_of(problem, at);
    &clause.literals.as_slice()[at.place as usize]
}

/// The places so far, and those of the listed ones against whose literals the entry stands.
fn add_among(
    alloc: Global,
    problem: &Problem,
    entry: &Entry,
    listed: &[ClausePlace],
    mut places: Vec<ClausePlace>,
) -> Result<Vec<ClausePlace>, AllocError>
    requires { (q : Place) → Contains listed.now q → HasLiteralAt problem.now q }
    ensures { IfOk result (λ more. AddsPlaces places.items more.items (λ q. Contains listed.now q × IsAgainst problem.now entry.now q)) }
{
    for at in listed {
        let literal = literal_at(problem, *at);
        if is_pair(alloc, entry, literal)? {
            places.push(*at)?;
        }
    }
    Ok(places)
}

/// The places against whose literals an entry stands whose atom has no variables and that number: all of
/// literals of the same atom, and those that unify of the ones with variables.
fn ground_against(
    alloc: Global,
    problem: &Problem,
    entry: &Entry,
    predicate: u32,
    number: usize,
    index: &Index,
) -> Result<Vec<ClausePlace>, AllocError>
    requires index { IsIndex problem.now index.now }
    requires atom { (a : AtomValue) × (entry.now.atom ≡ pattern.Of a) × (a.pred ≡ predicate) × (position (same_atom a) index.now.atoms ≡ Some number) }
    ensures { IfOk result (λ places. (q : Place) → Contains places.items q ↔ IsAgainst problem.now entry.now q) }
{
    let positive = !entry.positive;
    let places = Vec::from_slice(alloc, index.of_atom(number, positive))?;
    add_among(
        alloc,
        problem,
        entry,
        index.nonground_of(predicate, positive),
        places,
    )
}

/// The places of the problem's clauses against whose literals the entry stands, by the problem's index.
pub(crate) fn indexed_against(
    alloc: Global,
    problem: &Problem,
    entry: &Entry,
    index: &Index,
) -> Result<Vec<ClausePlace>, AllocError>
    requires valid { IsValid problem.now }
    requires index { IsIndex problem.now index.now }
    ensures { IfOk result (λ places. (q : Place) → Contains places.items q ↔ IsAgainst problem.now entry.now q) }
{
    let Pattern::Of(atom) = &entry.atom else {
        return places_against(alloc, problem, entry);
    };
    match index.number_of(atom) {
        Some(number) => ground_against(alloc, problem, entry, atom.pred, number, index),
        None => {
            let listed = index.of_predicate(atom.pred, !entry.positive);
            add_among(alloc, problem, entry, listed, Vec::new(alloc))
        }
    }
}
