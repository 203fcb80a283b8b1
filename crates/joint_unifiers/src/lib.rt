//! Unifiers of a clause's literals with entries of a context, and which literals contradict a context.
//!
//! A unifier is exact: there is one exactly where the equations of all places have a solution. It keeps
//! what is counted of each literal under it, so that asking for that takes no memory.
#![tactic(auto)]

mod contradiction;
mod equations;
mod fits;
mod joint;
mod remainder;
mod unifier;

pub use contradiction::is_contradictory;
pub use equations::{add_entry, clause_bindings};
pub use joint::joint_unifier;
pub use remainder::is_restricted;
pub use unifier::Unifier;
