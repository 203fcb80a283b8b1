//! Events of a search that many workers share, and the state of each path.
//!
//! An event is what a worker does to the paths and the least key; whether it is legal depends on both.
ghost use Rattle.std.specs.Prelude.{◌≡◌, ◌↔◌, IsTrue};
ghost use Rattle.branch_core.specs.Core.{Held, Offered, Unknown};
ghost use Rattle.branch_core.specs.EventViews.{state_value};

use crate::part::Parts;
use crate::path::Path;

/// What the worker `by` does.
#[derive(Drop)]
pub enum Event {
    /// It gives the path away, below a path that it holds.
    Offer { by: u32, parent: Path, path: Path },
    /// It takes a path that was given away.
    Take { by: u32, path: Path },
    /// It tells the key of an exhausted leaf.
    Post { by: u32, key: u16 },
    /// It leaves a node out, since a leaf with the key `least` stands left of it.
    Cut { by: u32, node: Path, least: u16 },
    /// It hands back what it found below a path that it holds.
    End { by: u32, path: Path, parts: Parts },
}

/// How far a path has come.
#[derive(Clone, Copy)]
pub enum PathState {
    /// Nobody has spoken of it.
    Unknown,
    /// It was given away and not taken.
    Offered,
    /// The worker `by` took it.
    Held { by: u32 },
    /// Its parts were handed back.
    Ended,
}

/// An event that came where it may not, with the state that forbids it and the least key then.
#[derive(Drop)]
pub struct Illegal {
    pub event: Event,
    pub state: PathState,
    pub least: Option<u16>,
}

impl PathState {
    pub(crate) fn is_unknown(&self) -> bool
        ensures { IsTrue result ↔ (state_value self.now ≡ Unknown) }
    {
        matches!(self, PathState::Unknown)
    }

    pub(crate) fn is_offered(&self) -> bool
        ensures { IsTrue result ↔ (state_value self.now ≡ Offered) }
    {
        matches!(self, PathState::Offered)
    }

    pub(crate) fn is_held_by(&self, by: u32) -> bool
        ensures { IsTrue result ↔ (state_value self.now ≡ Held by) }
    {
        match self {
            PathState::Held { by: holder } => *holder == by,
            _ => false,
        }
    }
}
