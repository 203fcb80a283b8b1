//! Workers that step on the share words, as a pool's workers do, and tests of the words.
//!
//! A worker's steps take no handle, so they never wait; only who starts threads needs one.
#![tactic(auto)]

mod crew;
mod steps;
#[cfg(test)]
mod tests;
mod worker;

pub use crew::all_paths;
pub use steps::{finish, give, is_done};
pub use worker::{path_of, work_on, work_through};
