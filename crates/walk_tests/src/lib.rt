//! Examples that cross crates, as tests.
#![tactic(auto)]

#[cfg(test)]
mod core_tests;
#[cfg(test)]
mod keeper;
#[cfg(test)]
mod notes;
#[cfg(test)]
mod problems;
#[cfg(test)]
mod record_text;
#[cfg(test)]
mod rows;
#[cfg(test)]
mod walk_tests;
#[cfg(test)]
mod walking;
