//! The program with many workers in threads of their own, as tests: what they write, and how they meet.
//!
//! A gate stops a worker at a moment until another one has come to some moment, so that the schedule is known
//! where it has to be. `gates` has the gates, `calls` makes a call of the program, and
//! `nodes` one of the pool.
#![tactic(auto)]

#[cfg(test)]
mod calls;
#[cfg(test)]
mod gates;
#[cfg(test)]
mod nodes;
