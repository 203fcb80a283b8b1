//! Which entries follow from a clause and a context.
//!
//! An entry is asserted for the literal of one place of the clause, where the other places have a unifier
//! with no remainder. It is compared with the best one so far before anything of it is written out.
#![tactic(auto)]

mod asserting;
mod candidate;
mod covering;
mod lookup;
mod ranks;

pub use asserting::{assert_before, assert_of, candidate_of};
pub use candidate::Candidate;
