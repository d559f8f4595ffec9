//! Which number a redundant block of RED (RFC 2198) belongs to: it says when its frame began and
//! not in which packet it was sent, so its number is told from those that came around it.
#![tactic(auto)]

mod holes;
mod known;
mod memory;
mod numbers;

pub use memory::{ROOM, RedMemory, last_32_are_known};
pub use numbers::named_numbers;
pub use rtp_base::MAX_RED_RECOVERY_DEPTH;
