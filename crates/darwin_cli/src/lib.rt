//! The program from its words to its status.
//!
//! `run` reads the words, and `run_alone` goes on from their options: it reads the source or makes a
//! problem, solves it, and writes what it found. Each status but 7 has its cause, and what was written is known.
#![tactic(auto)]

mod answer;
mod limits;
mod top;

pub use answer::{MADE_CLAUSES, MADE_PREDICATES};
pub use darwin_options::{Options, WordsError, read_words};
pub use limits::numbers;
pub use top::{run, run_alone};
