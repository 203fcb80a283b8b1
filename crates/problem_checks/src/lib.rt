//! Whether a problem is valid, and whether it is plain: whether it is what a file means that has its
//! clauses alone.
//!
//! Each test looks once at each part of the problem, goes down as far as its terms are deep, and takes no
//! memory.
#![tactic(auto)]

mod limits;
mod numbering;
mod plainness;
mod symbols;
mod validity;

pub use plainness::is_plain;
pub use validity::is_valid;
