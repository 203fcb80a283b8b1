//! The truth that a context gives to every ground atom.
//!
//! `produces` is exactly production by an entry, and `truth_of` tells a ground atom's truth together with
//! the first entry that gives it. Both read any `View`, and take no memory.
#![tactic(auto)]

mod production;
mod truth;

pub use production::produces;
pub use truth::{Verdict, truth_of};
