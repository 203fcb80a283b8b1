//! The pool: as many workers as are asked for walk the tree of an explorer.
//!
//! Once all workers have stopped, seat 0 takes in all others and goes on alone until nobody is alive, which
//! shows that each path that was given away was walked.
ghost use Rattle.std.specs.Prelude.{◌≡◌, ◌≤◌, length, [], map, ◌++◌, false, IfOk, IfSome};
ghost use Rattle.branch_core.specs.Whole.{AreWholeRecords};
ghost use Rattle.share_words.specs.Lessons.{OwnLists, Learns};
ghost use Rattle.share_words.specs.Seats.{GatheredAll, seat_of};
ghost use Rattle.share_words.specs.Views.{new_view};
ghost use Rattle.steal_pool.specs.Crew.{IsKeptState};
ghost use Rattle.steal_pool.specs.Explored.{AreExplored};
ghost use Rattle.steal_pool.specs.Ledger.{explorer_tree, IsKept};
ghost use Rattle.steal_pool.specs.Tasks.{AreJobs};

use crate::crew::{run_all, work};
use crate::deques::{TaskRule, all_deques};
use crate::explore::Explore;
use crate::gate::Gate;
use crate::stations::{last_deques, put_root, stations_of};
use crate::taking_in::gathered;
use crate::worker::WorkerState;
use branch_core::Records;
use share_words::{Words, WorkerSeat};
use std::alloc::{AllocError, Global};
use std::marker::{Brand, PhantomData};
use std::sync::Wait;
use std::thread::Threads;

/// What the pool hands back: the records, the words, and seat 0, which took in all others.
#[derive(Drop)]
pub struct Explored {
    pub records: Records,
    pub words: Words,
    pub seat: WorkerSeat,
}

/// What the workers did, all taken in by seat 0, once all have stopped.
fn explored_by<R: Threads + Wait + Sync, E: Explore, G: Gate, B: TaskRule<E::Work> + Send>(
    rt: &R,
    alloc: Global,
    words: &Words,
    start: WorkerSeat,
    workers: u32,
    explorer: &E,
    gate: &G,
    _rule: PhantomData<B>,
) -> Result<WorkerState<E::Work, B>, AllocError>
    requires workers { workers ≤ 64 }
    requires seat { start ≡ seat_of words.now.id (new_view 0) }
    requires jobs { AreJobs (E.share explorer.now) (E.path_of explorer.now) (E.is_job explorer.now) B.is_task }
    requires share { (E.share explorer.now ≡ words.now.share) × (words.now.share ≤ 16) }
    ensures kept { IfOk result (IsKeptState (explorer_tree (E.problem explorer.now) (E.bounds explorer.now) (E.share explorer.now)) words.now) }
    ensures gathered { IfOk result (λ state. GatheredAll state.seat) }
{
    let root = explorer.root(alloc)?;
    let (mut rows, deques) = last_deques(all_deques(alloc, workers as usize + 1)?)?;
    put_root(alloc, &mut rows, root)?;
    let mut seat = start;
    let Some(stations) = stations_of(alloc, words, &mut seat, rows) else {
        return Err(AllocError);
    };
    let others = run_all(rt, words, explorer, gate, alloc, stations)?;
    let lead = WorkerState {
        worker: 0,
        deques,
        seat,
        records: Records::new(alloc),
        lacks: false,
    };
    match gathered(words, explorer, lead, others) {
        Some(state) => Ok(state),
        None => Err(AllocError),
    }
}

/// What is handed back, where no record lacked room.
fn told<E: Explore, B: TaskRule<E::Work>>(
    words: Words,
    explorer: &E,
    lead: WorkerState<E::Work, B>,
) -> Result<Explored, AllocError>
    requires kept { IsKeptState (explorer_tree (E.problem explorer.now) (E.bounds explorer.now) (E.share explorer.now)) words lead }
    requires gathered { GatheredAll lead.seat }
    requires lists { OwnLists lead.seat }
    requires done { Learns lead.seat 0 }
    ensures words { IfOk result (λ x. (x.words ≡ words) × (x.seat.words ≡ words.id)) }
    ensures gathered { IfOk result (λ x. GatheredAll x.seat) }
    ensures explored { IfOk result (λ x. AreExplored (E.problem explorer.now) (E.bounds explorer.now) x.records.items x.seat) }
{
    let WorkerState {
        worker: _,
        deques: _,
        seat,
        records,
        lacks,
    } = lead;
    if lacks {
        Err(AllocError)
    } else {
        Ok(Explored {
            records,
            words,
            seat,
        })
    }
}

fn explore_as<R: Threads + Wait + Sync, E: Explore, G: Gate, B: TaskRule<E::Work> + Send>(
    rt: &R,
    alloc: Global,
    workers: u32,
    share: u32,
    explorer: &E,
    gate: &G,
) -> Result<Explored, AllocError>
    requires workers { workers ≤ 64 }
    requires share { (share ≤ 16) × (share ≡ E.share explorer.now) }
    requires jobs { AreJobs (E.share explorer.now) (E.path_of explorer.now) (E.is_job explorer.now) B.is_task }
    ensures words { IfOk result (λ x. (x.words.share ≡ share) × (x.seat.words ≡ x.words.id)) }
    ensures gathered { IfOk result (λ x. GatheredAll x.seat) }
    ensures explored { IfOk result (λ x. AreExplored (E.problem explorer.now) (E.bounds explorer.now) x.records.items x.seat) }
{
    let (words, start) = Words::new(alloc, share)?;
    let rule: PhantomData<B> = PhantomData;
    let lead = explored_by(rt, alloc, &words, start, workers, explorer, gate, rule)?;
    let lead = work(rt, &words, explorer, gate, alloc, lead);
    told(words, explorer, lead)
}

/// Walks the whole tree of an explorer with so many workers, each in a thread of its own where one can be
/// made.
///
/// The records are whole over the tree, and fit the lists of seat 0, which took in all others. The only
/// other answer is want of memory, once all workers have stopped.
pub fn explore_all<R: Threads + Wait + Sync, E: Explore, G: Gate>(
    rt: &R,
    alloc: Global,
    workers: u32,
    share: u32,
    explorer: &E,
    gate: &G,
) -> Result<Explored, AllocError>
    requires workers { (1 ≤ workers) × (workers ≤ 64) }
    requires share { (share ≤ 16) × (share ≡ E.share explorer.now) }
    ensures words { IfOk result (λ x. (x.words.share ≡ share) × (x.seat.words ≡ x.words.id)) }
    ensures gathered { IfOk result (λ x. GatheredAll x.seat) }
    ensures whole { IfOk result (λ x. AreWholeRecords (E.problem explorer.now) (E.bounds explorer.now) x.records.items) }
    ensures explored { IfOk result (λ x. AreExplored (E.problem explorer.now) (E.bounds explorer.now) x.records.items x.seat) }
{
    explore_as::<R, E, G, Brand>(rt, alloc, workers, share, explorer, gate)
}
