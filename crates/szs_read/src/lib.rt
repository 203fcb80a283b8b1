//! Printed answers are read back.
//!
//! What `read_answer` gives is the claim whose text the bytes are, as `szs_print` writes it; where they are
//! that of none, it gives the first line with which no answer goes on. What a line says is read from its
//! tokens without a grammar, and the line is accepted where it is the text of what was read, byte for byte.
#![tactic(auto)]

mod build;
mod claim;
mod entry;
mod error;
mod instance;
mod laws;
mod lines;
mod list;
mod literal;
mod named;
mod number;
mod read;
mod row;
mod token;

pub use claim::{Claim, EntryLine, EntryLines, InstanceLine, InstanceLines, MAX_OPEN};
pub use error::AnswerError;
pub use laws::{
    printed_bounds_are_answers, printed_models_are_answers, printed_refutations_are_answers,
};
pub use read::{read_answer, read_atom};
