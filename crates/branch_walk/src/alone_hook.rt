//! What stands around a walk of the whole tree: no other worker.
//!
//! Whatever is to be given away comes back.
ghost use Rattle.std.specs.Prelude.{[]};

use crate::notes::Notes;
use branch_core::{Give, Hook, Path};
use std::mem;

/// A search around a walk that takes no right children, and knows no key.
#[derive(Drop)]
pub(crate) struct Alone {
    pub(crate) notes: Notes,
}

impl Alone {
    pub(crate) fn new() -> Self {
        Alone {
            notes: Notes::blank(),
        }
    }
}

impl<J> Hook<J> for Alone {
    ghost history = { λ a. record { given = []; told = []; posted = a.notes.keys } };

    ghost may_give = { λ _ _ _. Unit {0} };

    fn give(&mut self, _path: Path, work: J) -> Give<J> {
        Give::NoRoom { work }
    }

    fn least(&mut self) -> Option<u16> {
        None
    }

    fn post(&mut self, key: u16) {
        let notes = mem::replace(&mut self.notes, Notes::blank());
        self.notes = notes.noted(key);
    }
}
