//! The grammar of the cnf part of the TPTP language, in this project's profile.
//!
//! Tokens are read one by one, and the first with which no file of the profile goes on is refused, with
//! the cause.
#![tactic(auto)]

mod kind;
mod laws;
mod limits;
mod machine;
mod part;
mod place;
mod refusal;

pub use laws::{none_refused, one_refusal, refused_is_no_file};
pub use limits::{MAX_ARGUMENTS, MAX_BRACKETS, MAX_FORMULAS, MAX_LITERALS, MAX_VARIABLES};
pub use machine::{Machine, StepError};
pub use part::Part;
pub use refusal::{Refusal, What, Which};
