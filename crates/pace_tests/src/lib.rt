//! The tests of pacers, clusters of probes and estimators: worked values, tables of cases at the
//! edges of each rule, and each public call that takes memory once with enough of it. What a clause
//! says is not tested.
#![tactic(auto)]

#[cfg(test)]
mod clusters;
#[cfg(test)]
mod estimates;
#[cfg(test)]
mod pacers;
#[cfg(test)]
mod runs;
#[cfg(test)]
mod steps;
