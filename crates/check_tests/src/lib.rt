//! Printed answers and damaged ones, and what is said of each, as tests.
#![tactic(auto)]

#[cfg(test)]
mod tests;
