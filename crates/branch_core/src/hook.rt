//! What the walk of a portion asks of the search around it.
//!
//! A hook takes right children that are given away, tells the least key, and takes the keys of exhausted
//! leaves.
ghost use Rattle.std.specs.Prelude.{◌≡◌};
ghost use Rattle.branch_core.specs.Paths.{Turns};
ghost use Rattle.branch_core.specs.Hooks.{History, after_gift, after_look, after_post, HandsBack, TellsWord, SameGifts};

use crate::path::Path;

/// What became of a work that was to be given away.
#[derive(Drop)]
pub enum Give<J> {
    /// It was given away, and the path with it.
    Away,
    /// There was no memory to give it away: the same work comes back.
    NoRoom { work: J },
    /// The path was given away or taken before: the same work comes back, with what stood for the path,
    /// which is not 0.
    NotNew { work: J, word: u64 },
}

/// The search around a walk. `J` is the work that goes with a path.
pub trait Hook<J> {
    /// What passed between the walk and this search.
    ghost history: { Self → History };

    /// With which paths and works `give` may be called.
    ghost may_give: { Self → Turns → J → Type 0 };

    /// Gives a path away with its work.
    fn give(&mut self, path: Path, work: J) -> Give<J>
        requires { may_give self.old path work }
        ensures history { history self.new ≡ after_gift (history self.old) path result }
        ensures back { HandsBack work result }
        ensures word { TellsWord result }
        ensures condition { SameGifts (may_give self.old) (may_give self.new) };

    /// The least key that was posted, as far as this worker knows.
    fn least(&mut self) -> Option<u16>
        ensures history { history self.new ≡ after_look (history self.old) result }
        ensures condition { SameGifts (may_give self.old) (may_give self.new) };

    /// Posts the key of an exhausted leaf.
    fn post(&mut self, key: u16)
        ensures history { history self.new ≡ after_post (history self.old) key }
        ensures condition { SameGifts (may_give self.old) (may_give self.new) };
}
