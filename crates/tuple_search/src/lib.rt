//! The enumeration of the tuples of a clause's positions that have a context unifier, in tuple order.
//!
//! A `Cursor` goes from one tuple that has a unifier to the next. It keeps what its first places bind, so
//! no tuple is tried whose first positions do not unify, or are beyond its `Limits`. Where it is lent lists
//! of what unifies with each literal alone, it tries only those.
#![tactic(auto)]

mod cursor;
mod frontier;
mod limits;
mod partners;
mod targets;

pub use cursor::Cursor;
pub use limits::{Limits, Pivot};
