//! The texts that the prover writes.
//!
//! `print_answer` gives the text of an answer, byte for byte, `print_summary` one that tells its size, and
//! `write_refusal` writes that of a refusal with no memory. The texts are defined in `specs/`.
#![tactic(auto)]

mod answer;
mod model;
mod refusal;
mod refutation;
mod status;
mod summary;

pub use answer::{MAX_NAME_BYTES, print_answer};
pub use refusal::{Refusal, write_refusal};
pub use summary::print_summary;
