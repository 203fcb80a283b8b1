//! Calls of the calculus by themselves, as tests: scripts, and what each prints.
//!
//! A script is a file of formulas whose labels are calls. `script` goes over its formulas, with a context and a
//! list of equations that the calls change and read, and `rows` has the scripts with the texts that are due.
#![tactic(auto)]

#[cfg(test)]
mod contexts;
#[cfg(test)]
mod enumeration;
#[cfg(test)]
mod equations;
#[cfg(test)]
mod rows;
#[cfg(test)]
mod script;
#[cfg(test)]
mod terms;
#[cfg(test)]
mod tests;
