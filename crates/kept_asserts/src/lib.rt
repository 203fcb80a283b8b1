//! Which of the Asserts that were found comes first and is one still.
//!
//! What was found at an earlier context may be refused by now, or use a hidden entry. It is asked again where
//! it comes first, and taken out where it is no Assert any more, since it will never be one again.
#![tactic(auto)]

mod least;
mod opposing;

pub use least::least_assert;
pub use opposing::are_opposite;
