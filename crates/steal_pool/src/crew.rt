//! The workers, each in a thread of its own where one can be made.
//!
//! A worker stops where it finds no work and the count of the living shows 0, as in the detection of
//! termination by a counter. What it leaves in its deque, others can steal.
ghost use Rattle.std.specs.Prelude.{◌≡◌, ◌≤◌, ◌<◌, ℕ, length, slice_index_or, [], IfOk};
ghost use Rattle.std.specs.List.{All};
ghost use Rattle.std.specs.Fork.{AcceptsJobs, GivesJobs};
ghost use Rattle.share_words.specs.Seats.{GatheredAll};
ghost use Rattle.share_words.specs.Lessons.{OwnLists, Learns};
ghost use Rattle.steal_pool.specs.Crew.{IsKeptState, IsFresh};
ghost use Rattle.steal_pool.specs.Ledger.{explorer_tree, IsKept, IsSameSeat};
ghost use Rattle.steal_pool.specs.Tasks.{AreJobs};

use crate::deques::TaskRule;
use crate::explore::Explore;
use crate::gate::Gate;
use crate::idle::Idle;
use crate::worker::{Station, WorkerState, turn};
use branch_core::Records;
use share_words::Words;
use std::alloc::{AllocError, Global};
use std::sync::Wait;
use std::thread;
use std::thread::Threads;

/// Works until no work is to be had and nobody is alive. Seat 0, which took in all others, learns that all
/// is done.
pub(crate) fn work<R: Wait, E: Explore, G: Gate, B: TaskRule<E::Work>>(
    rt: &R,
    words: &Words,
    explorer: &E,
    gate: &G,
    alloc: Global,
    start: WorkerState<E::Work, B>,
) -> WorkerState<E::Work, B>
    requires kept { IsKeptState (explorer_tree (E.problem explorer.now) (E.bounds explorer.now) (E.share explorer.now)) words.now start }
    requires jobs { AreJobs (E.share explorer.now) (E.path_of explorer.now) (E.is_job explorer.now) B.is_task }
    requires share { (E.share explorer.now ≡ words.now.share) × (words.now.share ≤ 16) }
    ensures kept { IsKeptState (explorer_tree (E.problem explorer.now) (E.bounds explorer.now) (E.share explorer.now)) words.now result }
    ensures same { IsSameSeat start.seat result.seat }
    ensures lists { OwnLists result.seat }
    ensures done { GatheredAll start.seat → Learns result.seat 0 }
{
    let mut state = start;
    let mut idle = Idle::new();
    for _ in rt.forever() {
        let (next, found) = turn(words, explorer, gate, alloc, state);
        state = next;
        if found {
            idle.reset();
            continue;
        }
        if words.live(&mut state.seat) == 0 {
            break;
        }
        idle.wait(rt);
    }
    state
}

/// A station and the records that were made at it.
pub(crate) type Finished<W, B> = (Station<W, B>, Records);

pub(crate) fn with_records<W, B: TaskRule<W>>(
    station: Station<W, B>,
    records: Records,
) -> WorkerState<W, B>
    ensures seat { (result.seat ≡ station.seat) × (result.lacks ≡ station.lacks) }
    ensures records { result.records.items ≡ records.items }
{
    let Station {
        worker,
        deques,
        seat,
        lacks,
    } = station;
    WorkerState {
        worker,
        deques,
        seat,
        records,
        lacks,
    }
}

fn apart<W, B: TaskRule<W>>(state: WorkerState<W, B>) -> Finished<W, B>
    ensures seat { (result.0.seat ≡ state.seat) × (result.0.lacks ≡ state.lacks) }
    ensures records { result.1.items ≡ state.records.items }
{
    let WorkerState {
        worker,
        deques,
        seat,
        records,
        lacks,
    } = state;
    (
        Station {
            worker,
            deques,
            seat,
            lacks,
        },
        records,
    )
}

/// Works at a station until all is done.
fn work_at<R: Wait, E: Explore, G: Gate, B: TaskRule<E::Work>>(
    rt: &R,
    words: &Words,
    explorer: &E,
    gate: &G,
    alloc: Global,
    station: Station<E::Work, B>,
) -> Finished<E::Work, B>
    requires fresh { IsFresh (explorer_tree (E.problem explorer.now) (E.bounds explorer.now) (E.share explorer.now)) words.now station }
    requires jobs { AreJobs (E.share explorer.now) (E.path_of explorer.now) (E.is_job explorer.now) B.is_task }
    requires share { (E.share explorer.now ≡ words.now.share) × (words.now.share ≤ 16) }
    ensures kept { IsKept (explorer_tree (E.problem explorer.now) (E.bounds explorer.now) (E.share explorer.now)) words.now result.0.lacks result.1.items result.0.seat }
    ensures number { result.0.seat.number ≡ station.seat.number }
{
    let start = with_records(station, Records::new(alloc));
    apart(work(rt, words, explorer, gate, alloc, start))
}

// Calls f at each job. In a function of few types the check finds that records may go to other threads.
fn run_pairs<R: Threads + Sync, J: Send + Drop, F: Fn(J) -> (J, Records) + Sync>(
    rt: &R,
    jobs: Vec<J>,
    f: &F,
) -> Result<Vec<(J, Records)>, AllocError>
    requires { AcceptsJobs F.Fn f.now jobs.items }
    ensures len { IfOk result (λ v. length v.items ≡ length jobs.items) }
    ensures each { IfOk result (λ v. GivesJobs F.Fn f.now jobs.items v.items) }
{
    thread::map_vec(rt, jobs, f)
}

/// The work of all workers, each in a thread of its own where one can be made.
pub(crate) fn run_all<R: Threads + Wait + Sync, E: Explore, G: Gate, B: TaskRule<E::Work> + Send>(
    rt: &R,
    words: &Words,
    explorer: &E,
    gate: &G,
    alloc: Global,
    stations: Vec<Station<E::Work, B>>,
) -> Result<Vec<Finished<E::Work, B>>, AllocError>
    requires fresh { All (λ station. IsKept (explorer_tree (E.problem explorer.now) (E.bounds explorer.now) (E.share explorer.now)) words.now station.lacks [] station.seat) stations.items }
    requires jobs { AreJobs (E.share explorer.now) (E.path_of explorer.now) (E.is_job explorer.now) B.is_task }
    requires share { (E.share explorer.now ≡ words.now.share) × (words.now.share ≤ 16) }
    ensures kept { IfOk result (λ v. All (λ other. IsKept (explorer_tree (E.problem explorer.now) (E.bounds explorer.now) (E.share explorer.now)) words.now other.0.lacks other.1.items other.0.seat) v.items) }
    ensures len { IfOk result (λ v. length v.items ≡ length stations.items) }
    ensures numbers { IfOk result (λ v. (i : ℕ) (d : _) (e : _) → i < length stations.items → (slice_index_or v.items i d).0.seat.number ≡ (slice_index_or stations.items i e).seat.number) }
{
    run_pairs(
        rt,
        stations,
        &|station: Station<E::Work, B>| -> Finished<E::Work, B>
            requires { IsKept (explorer_tree (E.problem explorer.now) (E.bounds explorer.now) (E.share explorer.now)) words.now station.lacks [] station.seat × AreJobs (E.share explorer.now) (E.path_of explorer.now) (E.is_job explorer.now) B.is_task × (E.share explorer.now ≡ words.now.share) × (words.now.share ≤ 16) }
            ensures { IsKept (explorer_tree (E.problem explorer.entry.now) (E.bounds explorer.entry.now) (E.share explorer.entry.now)) words.entry.now result.0.lacks result.1.items result.0.seat × (result.0.seat.number ≡ station.seat.number) }
        { work_at(rt, words, explorer, gate, alloc, station) },
    )
}
