//! The tests of payload formats: worked values of the standards, tables of what a buffer gives, and
//! each public call that takes memory once with enough of it. What a clause says is not tested.
#![tactic(auto)]

#[cfg(test)]
mod formats;
#[cfg(test)]
mod placing;
#[cfg(test)]
mod redundancy;
#[cfg(test)]
mod reordering;
#[cfg(test)]
mod telephone;
