//! What a search does next at a context.
//!
//! The next step is found from scratch: the least Close, else the least Assert, else the least Split;
//! else the first literal that is left to split on says which bound is met, or nothing is left to do.
#![tactic(auto)]

mod assert_limits;
mod assert_search;
mod close_search;
mod next;
mod search;
mod split_search;
mod split_state;

pub use next::next_step;
