//! One walk of a path by a worker: its hook is made for the walk, and taken apart after it.
//!
//! A walk may do anything to the hook that it is lent, so what is known of the seat after it the hook's own
//! type says.
ghost use Rattle.std.specs.Prelude.{◌≡◌, ◌≤◌, []};
ghost use Rattle.share_words.specs.Seats.{Holds};
ghost use Rattle.steal_pool.specs.Ledger.{explorer_tree, IsWalked};
ghost use Rattle.steal_pool.specs.Tasks.{AreJobs};

use crate::deques::{Deques, TaskRule};
use crate::explore::Explore;
use crate::gate::Gate;
use crate::hook::{PoolHook, WalkStart};
use branch_core::{Parts, Path, Record};
use share_words::{Words, WorkerSeat};
use std::alloc::Global;
use std::marker::{Brand, PhantomData};

/// What a walk hands back: its record, and the deques and the seat with which it was made.
pub(crate) struct Walked<W, B: TaskRule<W>> {
    pub(crate) record: Record,
    pub(crate) deques: Deques<W, B>,
    pub(crate) seat: WorkerSeat,
}

/// Walks the work at a path that the seat took.
pub(crate) fn walk_one<E: Explore, G: Gate, B: TaskRule<E::Work>>(
    words: &Words,
    explorer: &E,
    gate: &G,
    alloc: Global,
    worker: u32,
    path: Path,
    work: E::Work,
    room: Parts,
    deques: Deques<E::Work, B>,
    seat: WorkerSeat,
) -> Walked<E::Work, B>
    requires words { seat.words ≡ words.now.id }
    requires raised { seat.raised ≡ seat.offered }
    requires held { Holds seat path }
    requires jobs { AreJobs (E.share explorer.now) (E.path_of explorer.now) (E.is_job explorer.now) B.is_task }
    requires share { (E.share explorer.now ≡ words.now.share) × (words.now.share ≤ 16) }
    requires task { B.is_task path work }
    requires room { (room.items ≡ []) × (40 ≤ room.spare) }
    ensures { IsWalked (explorer_tree (E.problem explorer.now) (E.bounds explorer.now) (E.share explorer.now)) path result.record seat result.seat }
{
    walk_as::<E, G, B, Brand>(
        words, explorer, gate, alloc, worker, path, work, room, deques, seat,
    )
}

fn walk_as<E: Explore, G: Gate, B: TaskRule<E::Work>, S: WalkStart>(
    words: &Words,
    explorer: &E,
    gate: &G,
    alloc: Global,
    worker: u32,
    path: Path,
    work: E::Work,
    room: Parts,
    deques: Deques<E::Work, B>,
    seat: WorkerSeat,
) -> Walked<E::Work, B>
    requires start { (S.seat ≡ seat) × (S.path ≡ path) × (S.words ≡ words.now) }
    requires words { seat.words ≡ words.now.id }
    requires raised { seat.raised ≡ seat.offered }
    requires held { Holds seat path }
    requires jobs { AreJobs (E.share explorer.now) (E.path_of explorer.now) (E.is_job explorer.now) B.is_task }
    requires share { (E.share explorer.now ≡ words.now.share) × (words.now.share ≤ 16) }
    requires task { B.is_task path work }
    requires room { (room.items ≡ []) × (40 ≤ room.spare) }
    ensures { IsWalked (explorer_tree (E.problem explorer.now) (E.bounds explorer.now) (E.share explorer.now)) path result.record seat result.seat }
{
    let mut hook: PoolHook<E::Work, G, B, S> = PoolHook {
        words,
        gate,
        alloc,
        worker,
        parent: path,
        deques,
        seat,
        start: PhantomData,
    };
    let record = explorer.walk(alloc, work, room, &mut hook);
    let PoolHook {
        words: _,
        gate: _,
        alloc: _,
        worker: _,
        parent: _,
        deques,
        seat,
        start: _,
    } = hook;
    Walked {
        record,
        deques,
        seat,
    }
}
