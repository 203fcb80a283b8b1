//! Paths in a search tree, and what the walks of its portions add up to.
//!
//! A portion hands back a record: what it found in its part of the tree, from left to right. Whole
//! records put together give the one answer, in whatever order and by however many workers they came.
#![tactic(auto)]

mod assembling;
mod deciding;
mod event;
mod gathering;
mod hook;
mod laws;
mod part;
mod path;
mod search_core;

pub use assembling::assemble;
pub use event::{Event, Illegal, PathState};
pub use hook::{Give, Hook};
pub use laws::{
    closed_runs_keep_whole, codes_are_injective, keys_order_leaves, lacking_loses,
    left_and_gift_are_whole, orderly_runs_are_right, searches_are_trees, whole_can_assemble,
    whole_cuts_follow_sat, whole_records_answer, whole_records_fill,
};
pub use part::{Listed, Part, Parts, Record, Records};
pub use path::{Path, code_of, is_right_of, key_of};
pub use search_core::Core;
