//! The tests of compound RTCP, of transport-wide feedback and of what reports count and tell:
//! worked values of the standards, and each public call that takes memory once with enough of it.
//! What a clause says is not tested.
#![tactic(auto)]

#[cfg(test)]
mod compounds;
#[cfg(test)]
mod reporting;
#[cfg(test)]
mod transport_feedback;
