//! How many first entries two contexts have in common.
//!
//! What is kept of those entries for the one serves the other. They are compared one by one, up to the first
//! two that differ.
#![tactic(auto)]

mod common;

pub use common::count_common;
