//! The register of received numbers, which tells what is missing (RFC 4585 section 6.2.1), and what
//! reception reports say of a stream (RFC 3550 section 6.4.1).
#![tactic(auto)]

mod counts;
mod gap_window;
mod jitter;
mod laws;
mod missing;
mod numbers;
mod register;
mod register_nack;
mod slots;

pub use counts::{MAX_NEGATIVE_LOSS, MAX_POSITIVE_LOSS, ReceptionCounts, expected, packets_lost};
pub use gap_window::GapWindow;
pub use jitter::TimePoint;
pub use laws::{remembered_is_not_fresh, rounds_name_the_due, taken_is_not_fresh};
pub use numbers::named_numbers;
pub use register::ReceiverRegister;
pub use register_nack::{
    DEFAULT_RTT_NANOS, GRACE_ROUND_TRIPS, MAX_ENTRIES_BEFORE_ROUND, MAX_MISORDER, MAX_NACKS,
    MAX_ROUND_ENTRIES, NACK_MIN_INTERVAL, NACK_RETRY_MARGIN_NANOS, NackRegister,
};
pub use slots::WINDOW;

/// What a round of asking is made of (RFC 4585 section 6.2.1), for every register.
pub mod rounds {
    pub use crate::missing::{Missing, pack};
    pub use crate::register_nack::{grace, later, wait};
}
