//! Contexts whose entries stand in one table, which only grows.
//!
//! A `Branch` is a context as a search extends it: references to its entries, and what of them is hidden.
//! Its copy copies no literal. Whatever is done to other branches, also on other threads, leaves it as it
//! is, and an entry that was read once reads the same for good.
#![tactic(auto)]

mod branch;
mod laws;
mod nodes;

pub use branch::Branch;
pub use laws::{extend_beside, pop_beside};
pub use nodes::Nodes;
