//! Problems that are made of a seed.
//!
//! `make` gives the problem of a seed: each literal is drawn by one word of a generator. Which problem
//! that is, is defined in `specs/`; it can be written as a file that means it.
#![tactic(auto)]

mod clauses;
mod limits;
mod problem;
mod word;

pub use limits::{MAX_MADE_CLAUSES, MAX_MADE_PREDICATES};
pub use problem::make;
