//! The tests of callers of library crates: each caller once, with ample memory. What a clause says
//! is not tested.
#![tactic(auto)]

#[cfg(test)]
mod belonging;
#[cfg(test)]
mod callers;
