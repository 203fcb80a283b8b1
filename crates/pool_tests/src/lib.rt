//! Tests of the pool over small trees of known shapes.
//!
//! The explorer walks the real rules over contexts of its own, so a test calls the pool as a program does.
#![tactic(auto)]

#[cfg(test)]
mod codes;
#[cfg(test)]
mod explorer;
#[cfg(test)]
mod gates;
#[cfg(test)]
mod rows;
#[cfg(test)]
mod tests;
