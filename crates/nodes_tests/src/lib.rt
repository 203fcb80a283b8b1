//! Contexts and branches beside their copies, as tests: scripts, and what each prints.
//!
//! A script is a file of formulas whose labels are calls on the first context, on its copy, or on the first
//! before it is copied. `script` makes them, `rows` has the scripts with the texts that are due.
#![tactic(auto)]

#[cfg(test)]
mod rows;
#[cfg(test)]
mod script;
#[cfg(test)]
mod tests;
