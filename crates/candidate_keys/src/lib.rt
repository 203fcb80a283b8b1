//! Asserts and unifiers that were found, by what they are ordered by.
//!
//! A key stands for a candidate without its literal. Keys compare as the lists of numbers by which the rules
//! order candidates, so the least key is that of the candidate that is looked for, if it is one still.
#![tactic(auto)]

mod assert_key;
mod asserts;
mod order;
mod unifier_key;

pub use assert_key::AssertKey;
pub use asserts::Asserts;
pub use order::list_precedes;
pub use unifier_key::{Fit, UnifierKey};
