//! How a clause stands under the truth values that are fixed.
ghost use Rattle.std.specs.Prelude.{◌<◌, length, MatchOption};
ghost use Rattle.ground_solver.specs.Standings.{IsStanding, IsFound, IsWatched, AreOthersFalse};

use crate::signed::{Signed, Truth, truth_of};

/// How a clause without a true literal stands.
#[derive(Clone, Copy, Drop)]
pub(crate) enum Standing {
    /// All literals are false.
    Falsified,
    /// All are false but the one at this place, whose atom has no value.
    Forcing(usize),
    /// The literal at this place and a later one have no value.
    Open(usize),
}

/// How the clause stands, or None where it has a true literal.
pub(crate) fn standing_of(clause: &[Signed], values: &[Option<bool>]) -> Option<Standing>
    ensures { IsStanding values.now clause.now result }
{
    let mut first = None;
    let mut more = false;
    for k in 0..clause.len() {
        match truth_of(values, clause[k]) {
            Truth::True => return None,
            Truth::False => {}
            Truth::Unknown => match first {
                None => first = Some(k),
                Some(_) => more = true,
            },
        }
    }
    match first {
        None => Some(Standing::Falsified),
        Some(k) if more => Some(Standing::Open(k)),
        Some(k) => Some(Standing::Forcing(k)),
    }
}

/// The first clause from a place on that has no true literal, and how it stands.
pub(crate) fn first_unsatisfied(
    clauses: &[Vec<Signed>],
    values: &[Option<bool>],
    from: usize,
) -> Option<(usize, Standing)>
    ensures { IsFound clauses.now values.now from result }
{
    for k in from..clauses.len() {
        match standing_of(&clauses[k], values) {
            Some(standing) => return Some((k, standing)),
            None => {}
        }
    }
    None
}

/// What a clause with two watched literals comes to where one of them has become false.
#[derive(Clone, Copy, Drop)]
pub(crate) enum Watched {
    /// The other watched literal is true.
    Satisfied,
    /// The literal at this place is neither watched nor false.
    Replaced(usize),
    /// The other watched literal has no value, and all but it are false.
    Last,
    /// All literals are false.
    Spent,
}

/// A place of the clause, other than one, at which the literal isn't false.
fn not_false(clause: &[Signed], values: &[Option<bool>], other: usize) -> Option<usize>
    ensures { MatchOption result (AreOthersFalse values.now clause.now other) (λ k. k < length clause.now) }
{
    for k in 0..clause.len() {
        if k == other {
            continue;
        }
        match truth_of(values, clause[k]) {
            Truth::False => {}
            _ => return Some(k),
        }
    }
    None
}

/// What the clause comes to whose other watched literal stands at that place.
pub(crate) fn watch(clause: &[Signed], values: &[Option<bool>], other: usize) -> Watched
    requires { other < length clause.now }
    ensures { IsWatched values.now clause.now other result }
{
    let known = truth_of(values, clause[other]);
    if let Truth::True = known {
        return Watched::Satisfied;
    }
    match not_false(clause, values, other) {
        Some(k) => Watched::Replaced(k),
        None => match known {
            Truth::Unknown => Watched::Last,
            _ => Watched::Spent,
        },
    }
}
