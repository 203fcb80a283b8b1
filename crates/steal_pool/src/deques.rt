//! The deques from which a worker takes works: its own, and those of the others.
//!
//! They are deques after Chase and Lev, over which the owner pushes and pops at one end, and thieves steal at
//! the other. A work whose push is refused for want of memory stays with its worker.
ghost use Rattle.std.specs.Prelude.{◌≡◌, ◌<◌, ◌≤◌, ◌+◌, ◌⊎◌, List, [], ◌∷◌, ◌++◌, length, IfOk, IfSome, OnOk};
ghost use Rattle.crossbeam_deque.specs.Tasks.{Admits};
ghost use Rattle.crossbeam_deque.specs.Handles.{IsPassOf, stealer_deque, worker_capacity, worker_index};
ghost use Rattle.steal_pool.specs.Tasks.{IsTask, AreTasks};

use crossbeam_deque::protocol::{Outcome, Protocol};
use crossbeam_deque::{Pass, Steal, Stealer, Worker};
use std::alloc::{AllocError, Global};
use std::marker::{Brand, PhantomData};

/// Which works may lie in the deques. It is for proofs: a call picks it.
pub(crate) trait TaskRule<W> {
    ghost use Rattle.branch_core.specs.Paths.{Turns};

    ghost is_task: { Turns → W → Type 0 };
}

impl<W> TaskRule<W> for Brand {
    ghost is_task = { λ _ _. Unit {0} };
}

/// The rule of the deques: each work in one is a task.
pub(crate) struct OnlyTasks<B> {
    of: PhantomData<B>,
}

impl<W, B: TaskRule<W>> Protocol<W, ()> for OnlyTasks<B> {
    ghost use Rattle.steal_pool.specs.Tasks.{AreTasks};

    ghost holds = { λ works _. AreTasks B.is_task works };

    ghost first = { tt };

    ghost guest = { tt };
}

impl<W, B: TaskRule<W>> Outcome<W, ()> for OnlyTasks<B> {
    ghost use Rattle.steal_pool.specs.Tasks.{AreTasks};

    ghost then = { λ _ works _. AreTasks B.is_task works };
}

pub(crate) type Own<W, B> = Worker<W, Global, (), OnlyTasks<B>>;

/// The deque of another worker, and a pass to steal from it.
#[derive(Drop)]
pub(crate) struct Victim<W, P: Protocol<W, ()>> {
    stealer: Stealer<W, Global, (), P>,
    pass: Pass<W, (), Global>,
    ghost of: { IsPassOf (stealer_deque stealer) pass },
}

/// An empty deque for one work.
#[derive(Drop)]
pub(crate) struct Slot<W, B: TaskRule<W>> {
    deque: Own<W, B>,
    ghost free: { worker_index deque < worker_capacity deque },
}

/// What a worker takes works from, and puts them to.
#[derive(Drop)]
pub(crate) struct Deques<W, B: TaskRule<W>> {
    own: Own<W, B>,
    /// A slot that was made for a work that found room in the own deque.
    spare: Option<Slot<W, B>>,
    /// Works that found no room there, each in a slot.
    kept: Vec<Own<W, B>>,
    /// The deques of the others, from the next worker on.
    others: Vec<Victim<W, OnlyTasks<B>>>,
    /// Where the last work was stolen.
    turn: usize,
}

fn new_slot<W: Drop, B: TaskRule<W>>(alloc: Global) -> Result<Slot<W, B>, AllocError> {
    let deque = Worker::lifo_as(alloc, 1)?;
    Ok(Slot { deque })
}

impl<W: Drop, B: TaskRule<W>> Slot<W, B> {
    /// The slot's deque with the work in it.
    fn filled(self, work: W) -> Own<W, B>
        requires task { IsTask B.is_task work }
        ensures { 0 < worker_index result }
    {
        let Slot { mut deque } = self;
        match deque.push_as::<OnlyTasks<B>>(work) {
            Ok(()) => {}
            Err(_) => unreachable!(),
        }
        deque
    }
}

impl<W: Drop, B: TaskRule<W>> Deques<W, B> {
    /// Makes a slot for one more work.
    pub(crate) fn make_slot(&mut self, alloc: Global) -> Result<Slot<W, B>, AllocError>
        ensures { OnOk result (length self.new.kept.items < self.new.kept.cap) }
    {
        self.kept.reserve(1)?;
        match self.spare.take() {
            Some(slot) => Ok(slot),
            None => new_slot(alloc),
        }
    }

    /// Puts a work to the own deque, or keeps it in the slot where that deque cannot grow.
    pub(crate) fn put(&mut self, slot: Slot<W, B>, work: W)
        requires task { IsTask B.is_task work }
        requires place { length self.old.kept.items < self.old.kept.cap }
        ensures lies { (worker_index self.new.own ≡ worker_index self.old.own + 1) ⊎ ((deque : _) × (self.new.kept.items ≡ self.old.kept.items ++ deque ∷ []) × (0 < worker_index deque)) }
    {
        match self.own.push_as::<OnlyTasks<B>>(work) {
            Ok(()) => self.spare = Some(slot),
            Err(back) => self.kept.push_reserved(slot.filled(back)),
        }
    }

    /// Takes over the works that another worker kept.
    pub(crate) fn take_over(&mut self, other: Self) -> Result<(), AllocError> {
        let Deques {
            own: _,
            spare: _,
            mut kept,
            others: _,
            turn: _,
        } = other;
        self.kept.append(&mut kept)
    }

    /// A work to be walked: the last of its own, or one that is stolen.
    pub(crate) fn find_work(&mut self) -> Option<W>
        ensures { IfSome result (IsTask B.is_task) }
    {
        if let Some(work) = last_of(&mut self.own) {
            return Some(work);
        }
        if let Some(mut deque) = self.kept.pop() {
            if let Some(work) = last_of(&mut deque) {
                return Some(work);
            }
        }
        let (at, work) = steal(&mut self.others, self.turn)?;
        self.turn = at;
        Some(work)
    }
}

fn last_of<W, B: TaskRule<W>>(deque: &mut Own<W, B>) -> Option<W>
    ensures { IfSome result (IsTask B.is_task) }
{
    deque.pop_as::<OnlyTasks<B>>()
}

fn steal_from<W, B: TaskRule<W>>(victim: &mut Victim<W, OnlyTasks<B>>) -> Option<W>
    ensures { IfSome result (IsTask B.is_task) }
{
    match victim.stealer.steal_as::<OnlyTasks<B>>(&mut victim.pass) {
        Steal::Success(work) => Some(work),
        Steal::Empty | Steal::Retry => None,
    }
}

/// Tries each victim once, in a rotating order from the first on, and tells whose work it is.
fn steal<W, B: TaskRule<W>>(
    victims: &mut Vec<Victim<W, OnlyTasks<B>>>,
    first: usize,
) -> Option<(usize, W)>
    ensures { IfSome result (λ r. IsTask B.is_task r.1) }
{
    let count = victims.len();
    for step in 0..count {
        let at = first.wrapping_add(step) % count;
        if let Some(victim) = victims.get_mut(at) {
            if let Some(work) = steal_from(victim) {
                return Some((at, work));
            }
        }
    }
    None
}

/// The deques of the others, from the next worker on.
fn victims_of<W: Drop, B: TaskRule<W>>(
    alloc: Global,
    owns: &Vec<Own<W, B>>,
    thief: usize,
) -> Result<Vec<Victim<W, OnlyTasks<B>>>, AllocError> {
    let mut victims = Vec::new(alloc);
    for step in 1..owns.len() {
        if let Some(own) = owns.get(thief.wrapping_add(step) % owns.len()) {
            victims.push(victim_of(own)?)?;
        }
    }
    Ok(victims)
}

fn victim_of<W: Drop, B: TaskRule<W>>(
    own: &Own<W, B>,
) -> Result<Victim<W, OnlyTasks<B>>, AllocError> {
    let stealer = own.stealer()?;
    let pass = stealer.pass();
    Ok(Victim { stealer, pass })
}

fn new_own<W: Drop, B: TaskRule<W>>(alloc: Global) -> Result<Own<W, B>, AllocError> {
    Worker::lifo_as(alloc, 4)
}

/// The deques of at most so many workers, each with those of all others; of exactly so many where memory
/// suffices.
pub(crate) fn all_deques<W: Drop, B: TaskRule<W>>(
    alloc: Global,
    count: usize,
) -> Result<Vec<Deques<W, B>>, AllocError>
    ensures { IfOk result (λ v. length v.items ≤ count) }
{
    let mut owns: Vec<Own<W, B>> = Vec::new(alloc);
    while owns.len() < count {
        owns.push(new_own(alloc)?)?;
    }
    let mut rows = Vec::new(alloc);
    for thief in 0..count {
        rows.push(victims_of(alloc, &owns, thief)?)?;
    }
    let mut all = Vec::new(alloc);
    while let Some(own) = owns.pop() {
        if let Some(others) = rows.pop() {
            all.push(Deques {
                own,
                spare: None,
                kept: Vec::new(alloc),
                others,
                turn: 0,
            })?;
        }
    }
    Ok(all)
}
