//! The answer to a problem within bounds, on one thread or by a pool of workers.
//!
//! The tree is walked as one portion, or as many by many workers, and the records alone decide the answer,
//! which is one and the same. With deepening this is done for one bound of depth after another.
#![tactic(auto)]

mod deepening;
mod exploration;
mod explorer;
mod pool;
mod solve;

pub use deepening::{deepen_alone, deepen_pool, next_depth};
pub use explorer::Explorer;
pub use pool::{explore_pool, solve_pool};
pub use solve::solve_alone;
