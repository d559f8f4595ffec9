//! Moments, lengths of time and the calendar, rates and what is owed at a rate, and amounts that
//! count for some time, all in whole numbers.
#![tactic(auto)]

mod history;
mod numbers;
mod rate;
mod soonest;
mod time;
mod trip;
mod wallclock;

pub use history::{Amount, HISTORY_NANOS, ValueHistory};
pub use numbers::named_numbers;
pub use rate::{Bitrate, DataSize, Debt, GREATEST_RATE};
pub use soonest::{Soonest, earlier};
pub use time::{Duration, Instant, NOT_HAPPENING_SECONDS, already_happened, not_happening};
pub use trip::calculate_rtt;
pub use wallclock::{
    Beginning, InstantExt, SECONDS_1900, SystemTime, SystemTimeExt, epoch_to_beginning,
};
