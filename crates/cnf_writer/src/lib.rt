//! Problems written as files.
//!
//! The text of a problem has one line for each clause, and is defined in `specs/`, byte for byte.
#![tactic(auto)]

mod problem;

pub use problem::write_problem;
