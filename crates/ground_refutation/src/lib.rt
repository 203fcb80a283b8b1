//! The list of a closed leaf: ground instances of clauses that together are refuted on its branch.
//!
//! It begins with the closing instance. Each literal of an instance asks for the entry at its place, and
//! an asserted entry that is asked for at a literal for the first time adds the instance of its own clause
//! by which it holds there. Weights are counted before terms are written out.
#![tactic(auto)]

mod asked;
mod demand;
mod instance;
mod laws;
mod leaf;
mod places;
mod state;

pub use instance_lists::ListError;
pub use laws::leaf_is_refuted;
pub use leaf::instances_of;
