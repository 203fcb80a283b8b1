//! The lines of a file that may include files.
//!
//! `read_lines` says of each formula its name and where it stands, and of each include which file it names and which of its formulas.
//! Formulas are read by the grammar's machine itself, and what is refused is what the machine refuses, or a token inside an include.
#![tactic(auto)]

mod laws;
mod line;
mod read;
mod reader;
mod stage;

pub use laws::{one_lines, one_lines_cause, refused_is_no_lines};
pub use line::{Labels, Line, Lines};
pub use read::read_lines;
