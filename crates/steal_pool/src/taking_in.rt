//! Seat 0 takes in the other workers: their seats, their records, and the works that they kept.
//!
//! The lists of seats that are taken in are appended, and so are the records, so that what fits stays so.
ghost use Rattle.std.specs.Prelude.{◌≡◌, map, ◌++◌, ◌||◌, IfSome};
ghost use Rattle.std.specs.List.{All};
ghost use Rattle.share_words.specs.Seats.{GatheredAll, with_gathered};
ghost use Rattle.steal_pool.specs.Crew.{IsKeptState, HasNumbers};
ghost use Rattle.steal_pool.specs.Ledger.{explorer_tree, IsKept};

use crate::crew::Finished;
use crate::deques::TaskRule;
use crate::explore::Explore;
use crate::worker::{Station, WorkerState};
use share_words::Words;

/// Seat 0 takes in another seat with its records, and the works that were kept at its deques.
fn take_in<W: Drop, B: TaskRule<W>>(
    words: &Words,
    lead: WorkerState<W, B>,
    other: Finished<W, B>,
) -> Option<WorkerState<W, B>>
    requires first { lead.seat.number ≡ 0 }
    requires words { (lead.seat.words ≡ words.now.id) × (other.0.seat.words ≡ words.now.id) }
    ensures seat { IfSome result (λ state. state.seat ≡ with_gathered lead.seat other.0.seat) }
    ensures records { IfSome result (λ state. state.records.items ≡ lead.records.items ++ other.1.items) }
    ensures lacks { IfSome result (λ state. state.lacks ≡ (lead.lacks || other.0.lacks)) }
{
    let (station, mut more) = other;
    let Station {
        worker: _,
        deques: their_deques,
        seat: theirs,
        lacks: lacked,
    } = station;
    let WorkerState {
        worker,
        mut deques,
        mut seat,
        mut records,
        lacks,
    } = lead;
    words.gather(&mut seat, theirs);
    deques.take_over(their_deques).ok()?;
    records.append(&mut more).ok()?;
    Some(WorkerState {
        worker,
        deques,
        seat,
        records,
        lacks: lacks || lacked,
    })
}

/// The same, where the records fit both seats.
fn take_in_kept<E: Explore, B: TaskRule<E::Work>>(
    words: &Words,
    explorer: &E,
    lead: WorkerState<E::Work, B>,
    other: Finished<E::Work, B>,
) -> Option<WorkerState<E::Work, B>>
    requires first { lead.seat.number ≡ 0 }
    requires kept { IsKeptState (explorer_tree (E.problem explorer.now) (E.bounds explorer.now) (E.share explorer.now)) words.now lead }
    requires other { IsKept (explorer_tree (E.problem explorer.now) (E.bounds explorer.now) (E.share explorer.now)) words.now other.0.lacks other.1.items other.0.seat }
    ensures seat { IfSome result (λ state. state.seat ≡ with_gathered lead.seat other.0.seat) }
    ensures kept { IfSome result (IsKeptState (explorer_tree (E.problem explorer.now) (E.bounds explorer.now) (E.share explorer.now)) words.now) }
{
    match take_in(words, lead, other) {
        Some(state) => Some(state),
        None => None,
    }
}

/// Seat 0 takes in all others.
pub(crate) fn gathered<E: Explore, B: TaskRule<E::Work>>(
    words: &Words,
    explorer: &E,
    start: WorkerState<E::Work, B>,
    mut others: Vec<Finished<E::Work, B>>,
) -> Option<WorkerState<E::Work, B>>
    requires first { start.seat.number ≡ 0 }
    requires kept { IsKeptState (explorer_tree (E.problem explorer.now) (E.bounds explorer.now) (E.share explorer.now)) words.now start }
    requires others { All (λ other. IsKept (explorer_tree (E.problem explorer.now) (E.bounds explorer.now) (E.share explorer.now)) words.now other.0.lacks other.1.items other.0.seat) others.items }
    requires numbers { HasNumbers start.seat.forks (start.seat.gathered ++ map (λ other. other.0.seat.number) others.items) }
    ensures kept { IfSome result (IsKeptState (explorer_tree (E.problem explorer.now) (E.bounds explorer.now) (E.share explorer.now)) words.now) }
    ensures gathered { IfSome result (λ state. GatheredAll state.seat) }
{
    let mut lead = start;
    while let Some(other) = others.pop() {
        lead = take_in_kept(words, explorer, lead, other)?;
    }
    others.destroy_empty();
    Some(lead)
}
