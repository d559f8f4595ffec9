//! Rounds of the benchmark on sessions, and on the queue of packets that wait to be sealed.
#![tactic(auto)]

mod end;
mod peer;
pub mod queues;
pub mod sessions;
