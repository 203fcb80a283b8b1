//! A pool of workers that walk one search tree together, by work stealing.
//!
//! Each worker has a deque of works, takes the last one of its own and steals the oldest of the others'. An
//! explorer says what a work is and how it is walked. The records that the walks hand back are whole.
#![tactic(auto)]

mod crew;
mod deques;
mod explore;
mod gate;
mod hook;
mod idle;
mod pool;
mod stations;
mod taking_in;
mod walking;
mod worker;

pub use explore::Explore;
pub use gate::{Gate, Moment, NoGate};
pub use pool::{Explored, explore_all};
