//! The next context unifier of a clause in tuple order, and whether one is productive.
//!
//! `next_unifier` takes the tuple from a cursor. `is_productive` asks each place for exceptions, at a literal
//! that is too heavy to be written out by frozen equations.
#![tactic(auto)]

mod exceptions;
mod freezing;
mod frozen;
mod next;
mod productive;

pub use next::next_unifier;
pub use productive::is_productive;
