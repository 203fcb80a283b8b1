//! The stations of a pool's workers: each has deques of its own, and a seat that is forked from seat 0.
//!
//! The work of the root lies in the first worker's deque before any worker begins.
ghost use Rattle.std.specs.Prelude.{◌≡◌, ◌≤◌, ◌<◌, ◌+◌, map, length, [], ◌∷◌, ◌++◌, IfOk, IfSome};
ghost use Rattle.std.specs.List.{All};
ghost use Rattle.share_words.specs.Seats.{seat_of};
ghost use Rattle.share_words.specs.Views.{new_view};
ghost use Rattle.steal_pool.specs.Crew.{up_to};
ghost use Rattle.steal_pool.specs.Ledger.{ExplorerTree, IsKept};
ghost use Rattle.steal_pool.specs.Tasks.{IsTask};

use crate::deques::{Deques, TaskRule};
use crate::worker::Station;
use share_words::{Words, WorkerSeat};
use std::alloc::{AllocError, Global};

/// A station at these deques, with a new seat.
fn station_at<W: Drop, B: TaskRule<W>>(
    words: &Words,
    seat: &mut WorkerSeat,
    worker: u32,
    deques: Deques<W, B>,
) -> Station<W, B>
    requires words { seat.old.words ≡ words.now.id }
    requires first { seat.old.number ≡ 0 }
    requires few { seat.old.forks < 100 }
    ensures mine { seat.new ≡ record seat.old { forks = seat.old.forks + 1 } }
    ensures number { result.seat.number ≡ seat.old.forks + 1 }
    ensures fresh { (tree : ExplorerTree) → IsKept tree words.now result.lacks [] result.seat }
{
    let theirs = words.fork_seat(seat);
    Station {
        worker,
        deques,
        seat: theirs,
        lacks: false,
    }
}

fn one_more<T: Drop>(mut all: Vec<T>, one: T) -> Option<Vec<T>>
    ensures { IfSome result (λ v. v.items ≡ all.items ++ one ∷ []) }
{
    match all.push(one) {
        Ok(()) => Some(all),
        Err(_) => None,
    }
}

/// A station at each of the deques, with new seats.
pub(crate) fn stations_of<W: Drop, B: TaskRule<W>>(
    alloc: Global,
    words: &Words,
    seat: &mut WorkerSeat,
    mut all_deques: Vec<Deques<W, B>>,
) -> Option<Vec<Station<W, B>>>
    requires seat { seat.old ≡ seat_of words.now.id (new_view 0) }
    requires few { length all_deques.items < 100 }
    ensures seat { IfSome result (λ v. seat.new ≡ record seat.old { forks = length v.items }) }
    ensures fresh { IfSome result (λ v. All (λ station. (tree : ExplorerTree) → IsKept tree words.now station.lacks [] station.seat) v.items) }
    ensures numbers { IfSome result (λ v. map (λ station. station.seat.number) v.items ≡ up_to (length v.items)) }
{
    let mut stations = Vec::new(alloc);
    while let Some(deques) = all_deques.pop() {
        let station = station_at(words, seat, stations.len() as u32, deques);
        stations = one_more(stations, station)?;
    }
    all_deques.destroy_empty();
    Some(stations)
}

/// Puts the root's work where the first worker takes it.
pub(crate) fn put_root<W: Drop, B: TaskRule<W>>(
    alloc: Global,
    all_deques: &mut Vec<Deques<W, B>>,
    root: W,
) -> Result<(), AllocError>
    requires { IsTask B.is_task root }
    ensures { length all_deques.new.items ≡ length all_deques.old.items }
{
    let Some(deques) = all_deques.last_mut() else {
        return Err(AllocError);
    };
    let slot = deques.make_slot(alloc)?;
    deques.put(slot, root);
    Ok(())
}

pub(crate) fn last_deques<W: Drop, B: TaskRule<W>>(
    mut all_deques: Vec<Deques<W, B>>,
) -> Result<(Vec<Deques<W, B>>, Deques<W, B>), AllocError>
    ensures { IfOk result (λ r. length r.0.items ≤ length all_deques.items) }
{
    match all_deques.pop() {
        Some(deques) => Ok((all_deques, deques)),
        None => Err(AllocError),
    }
}
