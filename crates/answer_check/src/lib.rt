//! A printed answer is checked against the problem that stands before it.
//!
//! `run_check` says yes exactly where the answer shows what it claims: a refutation by ground instances
//! that no truth assignment satisfies, by DPLL, and a model by a context without productive unifiers.
#![tactic(auto)]

mod checking;
mod instance;
mod laws;
mod marks;
mod model;
mod own;
mod refutation;
mod top;
mod verdict;

pub use laws::{
    printed_models_are_shown, printed_refutations_are_shown, shown_models_are_models,
    shown_refutations_are_refuted, yes_is_shown,
};
pub use top::run_check;
pub use verdict::Verdict;
