//! Printed answers and damaged ones, and what is read from each, as tests.
#![tactic(auto)]

mod said;
#[cfg(test)]
mod tests;

pub use said::{said_of, said_of_atom};
