//! Which entries of a context stand against which literals of a problem.
//!
//! For each place of each clause the positions of the entries are kept that have the opposite sign and whose
//! atoms unify with the literal's, hidden ones too. The last entry can be taken off with no memory.
#![tactic(auto)]

mod clause_place;
mod filed;
mod index;
mod lists;
mod meeting;
mod pairs;

pub use clause_place::ClausePlace;
pub use pairs::Pairs;
