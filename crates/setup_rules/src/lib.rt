//! The rules of a setup of two media sessions, and the first one that a setup breaks.
#![tactic(auto)]

mod fault;
mod numbers;
mod rules;

pub use fault::SetupFault;
pub use numbers::named_numbers;
pub use rules::{GREATEST_WARN, LEAST_TARGET, MAX_PT, MAX_UNIX_SECS, MOST_PACKETS, check_setup};
