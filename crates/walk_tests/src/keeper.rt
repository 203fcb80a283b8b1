//! A search around a walk that answers as a test wants, and keeps what it is told.
ghost use Rattle.std.specs.Prelude.{option_to_list};

use crate::notes::Notes;
use branch_core::{Give, Hook, Path};
use std::mem;

/// What becomes of gifts.
#[derive(Clone, Copy)]
pub(crate) enum Gifts {
    /// The first is taken; later ones are not new.
    Taken,
    /// None is new.
    Known,
    /// There is no memory for any.
    NoRoom,
}

/// A search that answers each gift alike, and tells one least key or none.
#[derive(Drop)]
pub(crate) struct Keeper {
    gifts: Gifts,
    least: Option<u16>,
    pub(crate) gift: Option<Path>,
    pub(crate) last_posted: Option<u16>,
    told: Notes,
    posted: Notes,
}

impl Keeper {
    pub(crate) fn new(gifts: Gifts, least: Option<u16>) -> Self {
        Keeper {
            gifts,
            least,
            gift: None,
            last_posted: None,
            told: Notes::blank(),
            posted: Notes::blank(),
        }
    }
}

impl<J: Drop> Hook<J> for Keeper {
    ghost history = { λ k. record { given = option_to_list k.gift; told = k.told.keys; posted = k.posted.keys } };

    ghost may_give = { λ _ _ _. Unit {0} };

    fn give(&mut self, path: Path, work: J) -> Give<J> {
        match self.gifts {
            Gifts::Taken => {
                if self.gift.is_some() {
                    return Give::NotNew { work, word: 1 };
                }
                self.gift = Some(path);
                Give::Away
            }
            Gifts::Known => Give::NotNew { work, word: 1 },
            Gifts::NoRoom => Give::NoRoom { work },
        }
    }

    fn least(&mut self) -> Option<u16> {
        let key = self.least?;
        let told = mem::replace(&mut self.told, Notes::blank());
        self.told = told.noted(key);
        Some(key)
    }

    fn post(&mut self, key: u16) {
        let posted = mem::replace(&mut self.posted, Notes::blank());
        self.posted = posted.noted(key);
        self.last_posted = Some(key);
    }
}
