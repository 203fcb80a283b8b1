//! Lists of instances in which each stands once.
//!
//! Two lists are joined to one, within a bound on its weight. Whether an instance stands in a list already
//! is found by its hash, so the work grows with the instances and not with their pairs.
#![tactic(auto)]

mod error;
mod merging;
mod new_instances;
mod weight;

pub use error::ListError;
pub use merging::merge;
