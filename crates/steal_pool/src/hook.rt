//! The hook that a worker's walk calls: it gives right children away, looks at the least key and posts.
//!
//! A path is offered and raised before its work lies in a deque, and the place for the work is made before
//! that, so a work is handed back only where nobody was told of it.
ghost use Rattle.std.specs.Prelude.{◌≡◌};
ghost use Rattle.share_words.specs.Seats.{MayGive};
ghost use Rattle.steal_pool.specs.Ledger.{history_of, IsSameSeat};
ghost use Rattle.steal_pool.specs.Tasks.{IsTask, StandsAt};

use crate::deques::{Deques, TaskRule};
use crate::gate::{Gate, Moment};
use branch_core::{Give, Hook, Path, code_of};
use share_words::{NO_KEY, Offer, Words, WorkerSeat};
use std::alloc::Global;
use std::marker::{Brand, PhantomData};

/// How the seat stood when the walk began, the path that is walked, and the words. It is for proofs: a call
/// picks it.
pub(crate) trait WalkStart {
    ghost use Rattle.branch_core.specs.Paths.{Turns};
    ghost use Rattle.share_words.specs.Seats.{WorkerSeatValue, WordsValue};

    ghost seat: { WorkerSeatValue };

    ghost path: { Turns };

    ghost words: { WordsValue };
}

impl WalkStart for Brand {
    ghost use Rattle.std.specs.Prelude.{[]};
    ghost use Rattle.share_words.specs.Seats.{seat_of};
    ghost use Rattle.share_words.specs.Views.{first_view};
    ghost use Rattle.steal_pool.specs.Tasks.{some_words};

    ghost seat = { seat_of some_words.id first_view };

    ghost path = { [] };

    ghost words = { some_words };
}

/// What a worker walks with.
pub(crate) struct PoolHook<'p, W, G, B: TaskRule<W>, S: WalkStart> {
    pub(crate) words: &'p Words,
    pub(crate) gate: &'p G,
    pub(crate) alloc: Global,
    pub(crate) worker: u32,
    pub(crate) parent: Path,
    pub(crate) deques: Deques<W, B>,
    pub(crate) seat: WorkerSeat,
    pub(crate) start: PhantomData<S>,
    ghost stands: { StandsAt S.seat S.path S.words seat parent },
    ghost words_are: { words.now ≡ S.words },
}

impl<'p, W: Drop, G: Gate, B: TaskRule<W>, S: WalkStart> Hook<W> for PoolHook<'p, W, G, B, S> {
    ghost use Rattle.steal_pool.specs.Ledger.{history_of};
    ghost use Rattle.share_words.specs.Seats.{MayGive};
    ghost use Rattle.steal_pool.specs.Tasks.{IsTask};

    ghost history = { λ d. history_of d.seat };

    ghost may_give = { λ _ path work. MayGive S.words.share S.path path × B.is_task path work };

    fn give(&mut self, path: Path, work: W) -> Give<W> {
        let Ok(slot) = self.deques.make_slot(self.alloc) else {
            return Give::NoRoom { work };
        };
        match self.words.offer(&mut self.seat, self.parent, path) {
            Offer::NotNew { word } => Give::NotNew { work, word },
            Offer::Offered => {
                self.words.raise(&mut self.seat, path);
                self.deques.put(slot, work);
                self.gate.at(self.worker, Moment::Given, code_of(path));
                Give::Away
            }
        }
    }

    fn least(&mut self) -> Option<u16> {
        let found = self.words.look(&mut self.seat);
        if found < NO_KEY {
            Some(found as u16)
        } else {
            None
        }
    }

    fn post(&mut self, key: u16) {
        self.words.post(&mut self.seat, key);
    }
}
