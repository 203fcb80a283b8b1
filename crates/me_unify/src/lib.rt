//! Unification of atoms whose variables are those of a space.
//!
//! Equations are added one by one and taken back to any earlier number of them. The answer is exact, and
//! no term is written out: a chain of terms that double costs what its nodes cost.
#![tactic(auto)]

mod apart;
mod arena;
mod bindings;
mod closure;
mod constants;
mod equate;
mod flat;
mod laws;
mod links;
mod measure;
mod node;
mod node_list;
mod order;
mod reading;
mod same;
mod shallow;
mod step;
mod variable;
mod variable_index;
mod walk;

pub use bindings::Bindings;
pub use laws::most_general_unifiers_exist;
pub use measure::Measure;
