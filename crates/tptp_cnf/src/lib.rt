//! The cnf part of the TPTP language, in this project's profile.
//!
//! A file is read as the problem that it means, or it is refused with the cause and the place of the
//! refused token. Which bytes are a file, what a file means, and what is refused is said in `specs/`.
#![tactic(auto)]

mod build;
mod builder;
mod error;
mod item;
mod laws;
mod numbers;
mod read;
mod symbols;

pub use error::CnfError;
pub use laws::{one_cause, one_problem, refused_is_no_file};
pub use read::read_problem;
pub use tptp_grammar::{What, Which};
