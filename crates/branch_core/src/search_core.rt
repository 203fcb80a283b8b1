//! The core of a search that many workers share: the state of each path, the least key, and the records
//! that are kept.
//!
//! An event is a step of the core where it is legal, and changes nothing elsewhere. No step takes memory.
ghost use Rattle.std.specs.Prelude.{◌≡◌, ◌<◌, ◌≤◌, ◌↔◌, ◌⊎◌, [], ◌∷◌, ◌++◌, length, map, IfOk, IfErr, IsOk, OnOk, OnErr, IsTrue, MatchOption, Some};
ghost use Rattle.branch_core.specs.Paths.{code, key, ProperlyBegins};
ghost use Rattle.branch_core.specs.PartViews.{part_value};
ghost use Rattle.branch_core.specs.Core.{IsLegal, MayOffer, Shows, EndsRight, after, first_core, with_state, least_with};
ghost use Rattle.branch_core.specs.Core as pure;
ghost use Rattle.branch_core.specs.CoreTable.{core_value, may_end};
ghost use Rattle.branch_core.specs.EventViews.{event_value, state_value};

use crate::event::{Event, Illegal, PathState};
use crate::part::{Parts, Record};
use crate::path::{Path, code_of, ends_right, key_of, properly_begins, turn_count};
use std::alloc::{AllocError, Global};
use std::marker::Model;

/// The states of the paths, the least key that was posted, and the records of the paths that have ended.
#[derive(Drop)]
pub struct Core {
    share: u32,
    states: Vec<PathState>,
    least: Option<u16>,
    kept: Vec<Record>,
}

impl Model for Core {
    ghost use Rattle.std.specs.Coded.{codes};
    ghost use Rattle.me_terms.specs.Terms.{arguments_code};
    ghost use Rattle.branch_core.specs.CoreTable.{CoreTable};

    ghost Value = { CoreTable };

    ghost coded = { Prim.hlevel (codes, arguments_code) };

    ghost use Rattle.std.specs.Prelude.{◌-◌, map, vec_len, vec_capacity};
    ghost use Rattle.branch_core.specs.CoreTable.{HasTableRoom};
    ghost use Rattle.branch_core.specs.EventViews.{state_value};

    ghost view = { λ c. record { share = c.share; states = map state_value c.states.items; least = c.least; kept = c.kept.items } };

    ghost invariant = { λ c. HasTableRoom c.share (map state_value c.states.items) (vec_capacity c.kept - vec_len c.kept) };
}

impl Core {
    /// The core before any event: the root is offered, every other path unknown, and no key is posted.
    /// Paths of at most `share` turns can be given away.
    pub fn new(alloc: Global, share: u32) -> Result<Self, AllocError>
        requires { share ≤ 16 }
        ensures { IfOk result (λ core. core_value core ≡ first_core share) }
    {
        let paths = 1usize << (share + 1);
        let mut states = vec![in alloc; PathState::Unknown; paths]?;
        states[1] = PathState::Offered;
        let kept = Vec::with_capacity(alloc, paths)?;
        Ok(Core {
            share,
            states,
            least: None,
            kept,
        })
    }

    /// Takes a step where the event is legal, which needs no memory. Elsewhere it says which state forbids
    /// the event and changes nothing.
    pub fn step(&mut self, e: Event) -> Result<(), Illegal>
        ensures legal { IsOk result ↔ IsLegal (core_value self.old) (event_value e) }
        ensures ok { OnOk result (core_value self.new ≡ after (core_value self.old) (event_value e)) }
        ensures err { OnErr result (self.new ≡ self.old) }
        ensures event { IfErr result (λ why. why.event ≡ e) }
        ensures state { IfErr result (λ why. Shows (core_value self.old) (event_value e) (state_value why.state)) }
        ensures least { IfErr result (λ why. why.least ≡ self.old.least) }
    {
        if let Some(state) = self.refusal(&e) {
            return Err(Illegal {
                event: e,
                state,
                least: self.least,
            });
        }
        self.apply(e);
        Ok(())
    }

    /// The state that forbids the event, or None where it is legal.
    fn refusal(&self, e: &Event) -> Option<PathState>
        ensures { MatchOption result (IsLegal (core_value self.now) (event_value e.now)) (λ s. (¬ IsLegal (core_value self.now) (event_value e.now)) × Shows (core_value self.now) (event_value e.now) (state_value s)) }
    {
        match e {
            Event::Offer { by, parent, path } => self.offer_refusal(*by, *parent, *path),
            Event::Take { by: _, path } => self.take_refusal(*path),
            Event::Post { by: _, key: _ } => None,
            Event::Cut { by: _, node, least } => self.cut_refusal(*node, *least),
            Event::End { by, path, parts: _ } => self.end_refusal(*by, *path),
        }
    }

    /// The state that forbids to give the path away, or None.
    fn offer_refusal(&self, by: u32, parent: Path, path: Path) -> Option<PathState>
        ensures { MatchOption result (MayOffer (core_value self.now) by parent path) (λ s. (¬ MayOffer (core_value self.now) by parent path) × Shows (core_value self.now) (pure.Offer by parent path) (state_value s)) }
    {
        let held = self.state_of(parent);
        if !held.is_held_by(by) {
            return Some(held);
        }
        let state = self.state_of(path);
        if state.is_unknown() && self.may_give(parent, path) {
            None
        } else {
            Some(state)
        }
    }

    /// Whether the path is a right child below the parent, of few turns.
    fn may_give(&self, parent: Path, path: Path) -> bool
        ensures { IsTrue result ↔ ((ProperlyBegins parent path) × (EndsRight path) × (length path ≤ self.now.share)) }
    {
        properly_begins(parent, path)
            && ends_right(path)
            && u32::from(turn_count(path)) <= self.share
    }

    /// The state that forbids to take the path, or None.
    fn take_refusal(&self, path: Path) -> Option<PathState>
        ensures { MatchOption result ((core_value self.now).states path ≡ pure.Offered) (λ s. (¬ ((core_value self.now).states path ≡ pure.Offered)) × (state_value s ≡ (core_value self.now).states path)) }
    {
        let state = self.state_of(path);
        if state.is_offered() {
            None
        } else {
            Some(state)
        }
    }

    /// The state that a refusal to leave the node out shows, or None.
    fn cut_refusal(&self, node: Path, least: u16) -> Option<PathState>
        ensures { MatchOption result ((self.now.least ≡ Some least) × (least < key node)) (λ s. (¬ ((self.now.least ≡ Some least) × (least < key node))) × (state_value s ≡ (core_value self.now).states node)) }
    {
        if self.is_least(least) && least < key_of(node) {
            None
        } else {
            Some(self.state_of(node))
        }
    }

    /// Whether this is the least key that was posted.
    fn is_least(&self, key: u16) -> bool
        ensures { IsTrue result ↔ (self.now.least ≡ Some key) }
    {
        match self.least {
            Some(least) => least == key,
            None => false,
        }
    }

    /// The state that forbids to hand back what was found, or None.
    fn end_refusal(&self, by: u32, path: Path) -> Option<PathState>
        ensures { MatchOption result ((core_value self.now).states path ≡ pure.Held by) (λ s. (¬ ((core_value self.now).states path ≡ pure.Held by)) × (state_value s ≡ (core_value self.now).states path)) }
    {
        let state = self.state_of(path);
        if state.is_held_by(by) {
            None
        } else {
            Some(state)
        }
    }

    /// Takes the step of a legal event.
    fn apply(&mut self, e: Event)
        requires { IsLegal (core_value self.old) (event_value e) }
        ensures { core_value self.new ≡ after (core_value self.old) (event_value e) }
    {
        match e {
            Event::Offer {
                by: _,
                parent: _,
                path,
            } => self.put_state(path, PathState::Offered),
            Event::Take { by, path } => self.put_state(path, PathState::Held { by }),
            Event::Post { by: _, key } => self.post(key),
            Event::Cut {
                by: _,
                node: _,
                least: _,
            } => {}
            Event::End { by: _, path, parts } => self.keep(path, parts),
        }
    }

    /// The state of a path.
    fn state_of(&self, path: Path) -> PathState
        ensures { state_value result ≡ (core_value self.now).states path }
    {
        match self.states.get(code_of(path) as usize) {
            Some(state) => *state,
            None => PathState::Unknown,
        }
    }

    /// Changes the state of a path that has a place and has not ended.
    fn put_state(&mut self, path: Path, state: PathState)
        requires known { (length path ≤ self.old.share) ⊎ (code path < length self.old.states) }
        requires not_ended { may_end ((core_value self.old).states path) ≡ 1 }
        ensures { core_value self.new ≡ record (core_value self.old) { states = with_state (core_value self.old).states path (state_value state) } }
    {
        self.states[code_of(path) as usize] = state;
    }

    /// Makes the least key no greater than this one.
    fn post(&mut self, key: u16)
        ensures { core_value self.new ≡ record (core_value self.old) { least = Some (least_with self.old.least key) } }
    {
        self.least = Some(match self.least {
            Some(least) if least < key => least,
            _ => key,
        });
    }

    /// Ends a path that has a place and has not ended, and keeps what was found.
    fn keep(&mut self, path: Path, parts: Parts)
        requires known { code path < length self.old.states }
        requires not_ended { may_end ((core_value self.old).states path) ≡ 1 }
        ensures { core_value self.new ≡ record (core_value self.old) { states = with_state (core_value self.old).states path pure.Ended; kept = self.old.kept ++ record { path = path; parts = map part_value parts.items } ∷ [] } }
    {
        self.kept.push_reserved(Record { path, parts });
        self.states[code_of(path) as usize] = PathState::Ended;
    }
}
