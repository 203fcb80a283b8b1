//! Lists of clauses and what is decided of them, as tests.
#![tactic(auto)]

#[cfg(test)]
mod lists;
#[cfg(test)]
mod tests;
