//! Rounds of the benchmark on the crates below sessions: what is timed, as plain values that can be
//! played so often.
#![tactic(auto)]

pub mod ciphers;
pub mod compounds;
pub mod feedback;
pub mod headers;
mod memory;
pub mod pacing;
pub mod registers;
pub mod stores;
pub mod texts;

pub use memory::answer;
