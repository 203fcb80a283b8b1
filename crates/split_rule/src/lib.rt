//! Which literal of a productive context unifier a search branches on.
//!
//! Of the literals of the unifier's remainder that are within the bounds it is the lightest, and of two
//! equally heavy ones that of the lower place.
#![tactic(auto)]

mod choice;
mod split;

pub use choice::SplitChoice;
pub use split::split_of;
