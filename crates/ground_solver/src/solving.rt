//! Whether numbered clauses are satisfied by some truth values, by cases with unit propagation.
ghost use Rattle.std.specs.Prelude.{◌≡◌, ℕ, ◌<◌, ◌^◌, length, slice_index_or, Some, OnOk, IfOk};
ghost use Rattle.std.specs.declared.vec.Vec.{Vec};
ghost use Rattle.std.specs.declared.alloc.Global.{Global};
ghost use Rattle.ground_solver.specs.declared.signed.Signed.{Signed};
ghost use Rattle.ground_solver.specs.Numbered.{AreWithin};
ghost use Rattle.ground_solver.specs.Standings.{AreTrueFrom, IsStanding, IsFound};
ghost use Rattle.ground_solver.specs.Underway.{IsUnderway};
ghost use Rattle.ground_solver.specs.Turns.{IsTurn};
ghost use Rattle.ground_solver.specs.Verdicts.{IsVerdict};

use crate::propagation::Watches;
use crate::search::Search;
use crate::signed::{Signed, Step, Values};
use crate::standing::{Standing, first_unsatisfied};
use std::alloc::{AllocError, Global};

/// Truth values under which each clause has a true literal, or the nodes of a closed tree of cases.
#[derive(Drop)]
pub(crate) enum Verdict {
    Satisfied(Values),
    Closed(Vec<Step>),
}

/// What a turn came to.
#[derive(Clone, Copy, Drop)]
enum Turn {
    /// An atom got a value.
    Fixed,
    /// The clause at this place has only false literals.
    Refuted(u32),
    /// Each clause has a true literal.
    Satisfied,
}

/// The first clause from the search's place on that has no true literal, or from the first on, and how it
/// stands.
fn unsatisfied(clauses: &[Vec<Signed>], search: &Search) -> Option<(usize, Standing)>
    ensures { IsFound clauses.now search.now.values.items 0 result }
{
    match first_unsatisfied(clauses, &search.values, search.from) {
        Some(found) => Some(found),
        None => first_unsatisfied(clauses, &search.values, 0),
    }
}

/// Fixes an atom of the clause at that place, which stands so.
fn fix_at(
    clauses: &[Vec<Signed>],
    search: &mut Search,
    place: usize,
    standing: Standing,
) -> Result<Turn, AllocError>
    requires short { length clauses.now < 2 ^ 32 }
    requires place { place < length clauses.now }
    requires standing { (d : Vec Signed Global) → IsStanding search.old.values.items (slice_index_or clauses.now place d).items (Some standing) }
    requires underway { (n : ℕ) × IsUnderway clauses.now n search.old }
    ensures underway { OnOk result ((n : ℕ) → IsUnderway clauses.now n search.old → IsUnderway clauses.now n search.new) }
    ensures turn { IfOk result (λ turn. IsTurn clauses.now search.old search.new turn) }
{
    match standing {
        Standing::Falsified => Ok(Turn::Refuted(place as u32)),
        Standing::Forcing(k) => {
            search.force_last(clauses, place as u32, k)?;
            Ok(Turn::Fixed)
        }
        Standing::Open(k) => {
            search.try_at(clauses, place, k)?;
            Ok(Turn::Fixed)
        }
    }
}

/// Fixes an atom of the first clause that has no true literal.
fn advance(clauses: &[Vec<Signed>], search: &mut Search) -> Result<Turn, AllocError>
    requires short { length clauses.now < 2 ^ 32 }
    requires underway { (n : ℕ) × IsUnderway clauses.now n search.old }
    ensures underway { OnOk result ((n : ℕ) → IsUnderway clauses.now n search.old → IsUnderway clauses.now n search.new) }
    ensures turn { IfOk result (λ turn. IsTurn clauses.now search.old search.new turn) }
{
    match unsatisfied(clauses, search) {
        Some((place, standing)) => fix_at(clauses, search, place, standing),
        None => Ok(Turn::Satisfied),
    }
}

/// Propagates, and fixes an atom then.
fn take_turn(
    clauses: &[Vec<Signed>],
    search: &mut Search,
    watches: &mut Watches,
) -> Result<Turn, AllocError>
    requires short { length clauses.now < 2 ^ 32 }
    requires underway { (n : ℕ) × IsUnderway clauses.now n search.old }
    ensures underway { OnOk result ((n : ℕ) → IsUnderway clauses.now n search.old → IsUnderway clauses.now n search.new) }
    ensures turn { IfOk result (λ turn. IsTurn clauses.now search.old search.new turn) }
{
    match watches.propagate(clauses, search)? {
        Some(place) => Ok(Turn::Refuted(place)),
        None => advance(clauses, search),
    }
}

/// Whether some truth values of the atoms satisfy the clauses.
pub(crate) fn solve(
    alloc: Global,
    clauses: &[Vec<Signed>],
    atoms: u32,
) -> Result<Verdict, AllocError>
    requires short { length clauses.now < 2 ^ 32 }
    requires within { AreWithin clauses.now atoms }
    ensures { IfOk result (λ verdict. IsVerdict clauses.now atoms verdict) }
{
    let mut search = Search::new(alloc, atoms)?;
    let mut watches = Watches::new(alloc, clauses, atoms)?;
    'turns: loop {
        match take_turn(clauses, &mut search, &mut watches)? {
            Turn::Fixed => {}
            Turn::Satisfied => return Ok(Verdict::Satisfied(search.values)),
            Turn::Refuted(place) => {
                if !search.close(place)? {
                    return Ok(Verdict::Closed(search.steps));
                }
            }
        }
    }
}
