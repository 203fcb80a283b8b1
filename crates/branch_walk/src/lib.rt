//! The walk of a portion of the search tree.
//!
//! A portion is what one worker walks of the tree below a path. Its record lists what was found there, from
//! left to right, with a place for each right child that was given away.
#![tactic(auto)]

mod alone;
mod alone_hook;
mod entries;
mod job;
mod kept;
mod keys;
mod listing;
mod notes;
mod portion;
mod spine;
mod state;
mod subtree;
mod tally;
mod turning;
mod visiting;

pub use alone::walk_alone;
pub use job::Job;
pub use keys::node_key;
pub use me_terms::Next;
pub use next_rule::next_step;
pub use notes::Notes;
pub use portion::walk_portion;
pub use turning::{Search, back, grow, left_entry};
