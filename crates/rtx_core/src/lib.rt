//! Repairs (RFC 4588). What an outgoing stream sends again: the packets that it keeps, those that
//! the peer asked for, the numbers of repairs, and how much of what it sends may be repairs. Which
//! repairs an incoming stream takes.
#![tactic(auto)]

mod byte_log;
mod numbers;
mod ratio_cap;
mod repair_window;
mod resend;
mod resend_queue;

pub use byte_log::COUNTING_AGE;
pub use numbers::named_numbers;
pub use ratio_cap::{READING_AGE, RatioCap};
pub use repair_window::RepairWindow;
pub use resend::{Resend, ResendError};
pub use resend_queue::{
    DEFAULT_RTX_CACHE_DURATION, DEFAULT_RTX_CACHE_PACKETS, DEFAULT_RTX_RATIO_CAP, ResendQueue,
};
