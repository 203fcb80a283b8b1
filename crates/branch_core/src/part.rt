//! What the walk of a portion hands back.
//!
//! A record lists, from left to right, what was found below its path. A contract sees a record as its
//! path's turns and its parts.
ghost use Rattle.std.specs.Prelude.{map};

use crate::path::Path;
use me_terms::{Bound, Entries, Instances, Sequence};
use std::marker::Model;

/// The list of instances of closed leaves.
#[derive(Drop)]
pub enum Listed {
    /// It weighs at most the list bound.
    Whole { list: Instances },
    /// It weighs more than the list bound, and is left out.
    TooHeavy,
}

/// What a record says of a run of neighbouring leaves, or of a subtree.
#[derive(Drop)]
pub enum Part {
    /// Every leaf is closed.
    Closed { listed: Listed },
    /// No leaf is exhausted, and this is the first bound that was met.
    Bounded { bound: Bound },
    /// The context of the first exhausted leaf.
    Sat { context: Entries },
    /// The subtree at this path was given away, and has a record of its own.
    Gift { path: Path },
    /// The leaves were not walked, since an exhausted leaf with this key stands left of them.
    Cut { key: u16 },
    /// What the leaves are is not known, for want of memory.
    NoMemory,
}

pub type Parts = Sequence<Part>;

/// What was found below a path, from left to right.
#[derive(Drop)]
pub struct Record {
    pub path: Path,
    pub parts: Parts,
}

impl Model for Record {
    ghost use Rattle.std.specs.Coded.{codes};
    ghost use Rattle.me_terms.specs.Terms.{arguments_code};
    ghost use Rattle.branch_core.specs.Parts.{RecordValue};

    ghost Value = { RecordValue };

    ghost coded = { Prim.hlevel (codes, arguments_code) };

    ghost use Rattle.std.specs.Prelude.{map};
    ghost use Rattle.branch_core.specs.PartViews.{part_value};

    ghost view = { λ r. record { path = r.path; parts = map part_value r.parts.items } };
}

pub type Records = Sequence<Record>;
