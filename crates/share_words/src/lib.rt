//! The words that the workers of one search share: which paths were given away and taken, how many are
//! alive, and the least key of an exhausted leaf.
//!
//! Each word changes in single atomic steps, and no call waits or takes memory. A worker steps with a seat
//! of its own; a contract sees the seat as its number and the lists of what was done with it, and once
//! seat 0 took in all others, its lists tell what the words are.
#![tactic(auto)]

mod answer;
mod laws;
mod plays;
mod words;

pub use answer::{Offer, Take};
pub use laws::{lists_read, other_steps_show, seats_read, shown_is_one, words_read};
pub use words::{NO_KEY, Words, WorkerSeat};
