//! What reports count and tell: when a stream's reports are due, what a sender and a receiver say
//! of a stream, the moments of receivers and the round trip that an answer to one tells, the
//! widening of RTP times, and statistics (RFC 3550 section 6.4, RFC 3611 sections 4.4 and 4.5).
#![tactic(auto)]

mod clock;
mod loss;
mod moments;
mod numbers;
mod receiver;
mod rtp_clock;
mod sender;
mod sender_news;
mod stats;
mod time_line;
mod traffic;
mod trip;
mod tx_stats;

pub use clock::{ReceiverClock, ReportIntervals, SenderClock};
pub use loss::{LossLog, ReportedLoss};
pub use moments::{
    MAX_ANSWERED_MOMENTS, MAX_WAITING_MOMENTS, ReceiverMoment, ReceiverMoments, moments_stay_one,
};
pub use numbers::named_numbers;
pub use receiver::{moment_report, receiver_report};
pub use rtp_clock::{RtpClock, Written};
pub use sender::{description, sender_info, sender_report};
pub use sender_news::{LastSenderReport, SenderNews, compact_ntp, delay_in_units};
pub use stats::StreamStats;
pub use time_line::{TimeLine, pauses_move_on, times_keep_low_bits, times_widen_nearest};
pub use traffic::Traffic;
pub use trip::{
    LEAST_HELD_NANOS, TRIP_ERROR_NANOS, receiver_trip, sender_trip, trips_are_measured,
};
pub use tx_stats::StreamTxStats;
