//! What a search keeps along its branch, so that no next step is found from scratch.
//!
//! For each entry that comes only what it makes new is searched: a Close or an Assert that uses it, and where
//! there is neither, the unifiers that use an entry since the last Split. All else was found before, and is
//! asked again where it comes first. Taking the last entry off takes no memory.
#![tactic(auto)]

mod assert_search;
mod close_search;
mod frame;
mod framing;
mod notes;
mod search;
mod split_test;
mod store;
mod unifier_search;

pub use clause_pairs::{ClausePlace, Pairs};
pub use store::Store;
