//! A worker's state, and one turn of a worker: it takes a path, walks it and ends it.
//!
//! The room for a path's record is reserved before the path is taken. Where it is refused, the path is
//! taken and ended without a walk, so that nobody waits for it.
ghost use Rattle.std.specs.Prelude.{◌≡◌, ◌≤◌, ◌<◌, ◌++◌, ◌∷◌, [], true, length, IfSome};
ghost use Rattle.steal_pool.specs.Ledger.{ExplorerTree, explorer_tree, IsKept, IsTaking, IsSameSeat};
ghost use Rattle.steal_pool.specs.Tasks.{AreJobs, IsTask};

use crate::deques::{Deques, TaskRule};
use crate::explore::Explore;
use crate::gate::{Gate, Moment};
use crate::walking::{Walked, walk_one};
use branch_core::{Parts, Path, Record, Records, code_of};
use share_words::{Take, Words, WorkerSeat};
use std::alloc::Global;

/// A worker's number, deques and seat, the records of its walks, and whether one of them lacked room.
#[derive(Drop)]
pub(crate) struct WorkerState<W, B: TaskRule<W>> {
    pub(crate) worker: u32,
    pub(crate) deques: Deques<W, B>,
    pub(crate) seat: WorkerSeat,
    pub(crate) records: Records,
    pub(crate) lacks: bool,
}

/// The same without records.
#[derive(Drop)]
pub(crate) struct Station<W, B: TaskRule<W>> {
    pub(crate) worker: u32,
    pub(crate) deques: Deques<W, B>,
    pub(crate) seat: WorkerSeat,
    pub(crate) lacks: bool,
}

/// Room for one more record and its parts.
fn room_for(alloc: Global, records: &mut Records) -> Option<Parts>
    ensures same { records.new.items ≡ records.old.items }
    ensures parts { IfSome result (λ room. (room.items ≡ []) × (40 ≤ room.spare)) }
    ensures place { IfSome result (λ _. 0 < records.new.spare) }
{
    records.reserve(1).ok()?;
    let mut room = Parts::new(alloc);
    room.reserve(40).ok()?;
    Some(room)
}

/// Puts a record where there is room for it.
fn put_record(records: &mut Records, one: Record)
    requires { 0 < records.old.spare }
    ensures { records.new.items ≡ records.old.items ++ one ∷ [] }
{
    match records.push(one) {
        Ok(()) => {}
        Err(_) => unreachable!(),
    }
}

/// Walks a work at a path that was taken, and ends the path.
fn walked<E: Explore, G: Gate, B: TaskRule<E::Work>>(
    words: &Words,
    explorer: &E,
    gate: &G,
    alloc: Global,
    path: Path,
    work: E::Work,
    room: Parts,
    state: WorkerState<E::Work, B>,
) -> WorkerState<E::Work, B>
    requires taking { IsTaking (explorer_tree (E.problem explorer.now) (E.bounds explorer.now) (E.share explorer.now)) words.now state.lacks state.records.items path state.seat }
    requires jobs { AreJobs (E.share explorer.now) (E.path_of explorer.now) (E.is_job explorer.now) B.is_task }
    requires share { (E.share explorer.now ≡ words.now.share) × (words.now.share ≤ 16) }
    requires task { B.is_task path work }
    requires room { (room.items ≡ []) × (40 ≤ room.spare) }
    requires place { 0 < state.records.spare }
    ensures kept { IsKept (explorer_tree (E.problem explorer.now) (E.bounds explorer.now) (E.share explorer.now)) words.now result.lacks result.records.items result.seat }
    ensures same { IsSameSeat state.seat result.seat }
{
    let WorkerState {
        worker,
        deques,
        seat,
        mut records,
        lacks,
    } = state;
    let Walked {
        record,
        deques,
        mut seat,
    } = walk_one(
        words, explorer, gate, alloc, worker, path, work, room, deques, seat,
    );
    words.end(&mut seat, path);
    put_record(&mut records, record);
    WorkerState {
        worker,
        deques,
        seat,
        records,
        lacks,
    }
}

/// Ends a path that was taken, without a walk.
fn skipped<W: Drop, B: TaskRule<W>>(
    words: &Words,
    path: Path,
    state: WorkerState<W, B>,
) -> WorkerState<W, B>
    requires taking { (tree : ExplorerTree) × IsTaking tree words.now state.lacks state.records.items path state.seat }
    ensures kept { (tree : ExplorerTree) → IsKept tree words.now result.lacks result.records.items result.seat }
    ensures same { IsSameSeat state.seat result.seat }
{
    let WorkerState {
        worker,
        deques,
        mut seat,
        records,
        lacks: _,
    } = state;
    words.end(&mut seat, path);
    WorkerState {
        worker,
        deques,
        seat,
        records,
        lacks: true,
    }
}

/// Walks a work at a path that was taken, if there is room for its record, and ends the path.
fn served<E: Explore, G: Gate, B: TaskRule<E::Work>>(
    words: &Words,
    explorer: &E,
    gate: &G,
    alloc: Global,
    path: Path,
    work: E::Work,
    room: Option<Parts>,
    state: WorkerState<E::Work, B>,
) -> WorkerState<E::Work, B>
    requires taking { IsTaking (explorer_tree (E.problem explorer.now) (E.bounds explorer.now) (E.share explorer.now)) words.now state.lacks state.records.items path state.seat }
    requires jobs { AreJobs (E.share explorer.now) (E.path_of explorer.now) (E.is_job explorer.now) B.is_task }
    requires share { (E.share explorer.now ≡ words.now.share) × (words.now.share ≤ 16) }
    requires task { B.is_task path work }
    requires room { IfSome room (λ r. (r.items ≡ []) × (40 ≤ r.spare)) }
    requires place { IfSome room (λ _. 0 < state.records.spare) }
    ensures kept { IsKept (explorer_tree (E.problem explorer.now) (E.bounds explorer.now) (E.share explorer.now)) words.now result.lacks result.records.items result.seat }
    ensures same { IsSameSeat state.seat result.seat }
{
    match room {
        Some(room) => walked(words, explorer, gate, alloc, path, work, room, state),
        None => skipped(words, path, state),
    }
}

/// The same, and tells the gate of it before and after.
fn served_at_gate<E: Explore, G: Gate, B: TaskRule<E::Work>>(
    words: &Words,
    explorer: &E,
    gate: &G,
    alloc: Global,
    path: Path,
    work: E::Work,
    room: Option<Parts>,
    state: WorkerState<E::Work, B>,
) -> WorkerState<E::Work, B>
    requires taking { IsTaking (explorer_tree (E.problem explorer.now) (E.bounds explorer.now) (E.share explorer.now)) words.now state.lacks state.records.items path state.seat }
    requires jobs { AreJobs (E.share explorer.now) (E.path_of explorer.now) (E.is_job explorer.now) B.is_task }
    requires share { (E.share explorer.now ≡ words.now.share) × (words.now.share ≤ 16) }
    requires task { B.is_task path work }
    requires room { IfSome room (λ r. (r.items ≡ []) × (40 ≤ r.spare)) }
    requires place { IfSome room (λ _. 0 < state.records.spare) }
    ensures kept { IsKept (explorer_tree (E.problem explorer.now) (E.bounds explorer.now) (E.share explorer.now)) words.now result.lacks result.records.items result.seat }
    ensures same { IsSameSeat state.seat result.seat }
{
    let worker = state.worker;
    let code = code_of(path);
    gate.at(worker, Moment::Begin, code);
    let after = served(words, explorer, gate, alloc, path, work, room, state);
    gate.at(worker, Moment::Done, code);
    after
}

/// One turn of a worker. It is told whether a work was found.
pub(crate) fn turn<E: Explore, G: Gate, B: TaskRule<E::Work>>(
    words: &Words,
    explorer: &E,
    gate: &G,
    alloc: Global,
    mut state: WorkerState<E::Work, B>,
) -> (WorkerState<E::Work, B>, bool)
    requires kept { IsKept (explorer_tree (E.problem explorer.now) (E.bounds explorer.now) (E.share explorer.now)) words.now state.lacks state.records.items state.seat }
    requires jobs { AreJobs (E.share explorer.now) (E.path_of explorer.now) (E.is_job explorer.now) B.is_task }
    requires share { (E.share explorer.now ≡ words.now.share) × (words.now.share ≤ 16) }
    ensures kept { IsKept (explorer_tree (E.problem explorer.now) (E.bounds explorer.now) (E.share explorer.now)) words.now result.0.lacks result.0.records.items result.0.seat }
    ensures same { IsSameSeat state.seat result.0.seat }
{
    let Some(work) = state.deques.find_work() else {
        return (state, false);
    };
    let path = explorer.path(&work);
    let room = room_for(alloc, &mut state.records);
    match words.take(&mut state.seat, path) {
        Take::NotOpen { .. } => (state, true),
        Take::Taken => (
            served_at_gate(words, explorer, gate, alloc, path, work, room, state),
            true,
        ),
    }
}
