//! Labels, terms, literals and clauses as text.
//!
//! Each call puts a text at the end of a vector. A text is defined in `specs/`, byte for byte, so that it
//! can be read back as what it was written for.
#![tactic(auto)]

mod clause;
mod label;
mod term;

pub use clause::{push_clause, push_signed};
pub use label::{push_label, push_number};
pub use term::push_atom;
