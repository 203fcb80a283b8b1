//! The program where memory is refused and devices fail, as tests of tables.
//!
//! Where an allocation is refused, each call ends by its own text, by that of a want of memory, or by a front of
//! its own text where the sink got no memory. No test refuses one itself: `rt try --test --fail-alloc 1..` does.
#![tactic(auto)]

#[cfg(test)]
mod calls;
#[cfg(test)]
mod devices;
#[cfg(test)]
mod memory;
