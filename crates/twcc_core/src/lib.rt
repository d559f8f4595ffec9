//! Transport-wide congestion control: what feedback says of packets, in bytes, and the registers of
//! packets sent and received (draft-holmer-rmcat-transport-wide-cc-extensions-01).
#![tactic(auto)]

mod chunk;
mod feedback;
mod laws;
mod moments;
mod numbers;
mod receive;
mod send;
mod share;
mod size;
mod status;
mod status_list;

pub use chunk::{BIT_VECTOR_LEN, MAX_RUN, VECTOR_LEN};
pub use feedback::{BODY_LIMIT, Twcc, read_twcc, write_twcc};
pub use laws::{
    feedback_is_whole, feedback_reads_back, reports_are_none, reports_come_back,
    reports_tell_arrivals, round_trip_is_of_the_greatest,
};
pub use moments::{DELTA_NANOS, REFERENCE_NANOS, arrivals};
pub use numbers::named_numbers;
pub use receive::{LOSS_SPAN, MIN_REPORT_LEN, REPORT_SPAN, SPAN, TwccRecvRegister};
pub use send::{MAX_RECORDS, TwccSendRecord, TwccSendRegister};
pub use share::Share;
pub use size::twcc_len;
pub use status::{LARGE_DELTA_SYMBOL, NOT_RECEIVED_SYMBOL, PacketStatus, SMALL_DELTA_SYMBOL};
pub use status_list::{StatusIter, StatusList};
