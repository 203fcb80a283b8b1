//! Models of a given size: clauses without functions whose models are those of a problem over so many
//! elements, and the tables that are read off such a model.
//!
//! Each function becomes a relation between its arguments and its value (flattening, as in the model
//! finders of the MACE family). What the clauses and the tables are is said in `specs/`.
#![tactic(auto)]

mod clauses;
mod flattening;
mod literals;
mod naming;
mod size;
mod subterm;
mod symbols;
#[cfg(test)]
mod tests;

pub use flattening::flatten;
pub use size::{MAX_SIZE, is_small};
