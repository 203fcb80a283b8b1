//! Whether some truth assignment makes a list of clauses true, where each atom stands for a truth value
//! of its own: the assignment, or a proof by cases that there is none.
#![tactic(auto)]

mod deciding;
mod decision;
mod laws;
mod limit;
mod numbering;
mod propagation;
mod search;
mod signed;
mod solving;
mod standing;

pub use deciding::decide;
pub use decision::{Atoms, Decision, GroundList, Split, Splits};
pub use laws::{a_closing_proof_refutes, lists_of_instances_are_clauses};
pub use limit::is_within_limit;
