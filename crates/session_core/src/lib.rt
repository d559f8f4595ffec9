//! A session: what it seals and opens, the streams that it sends and receives, and their media
//! sections (RFC 3550 section 3, RFC 3711).
#![tactic(auto)]

mod config;
mod datagram;
mod error;
mod feedback;
mod hearing;
mod mapping;
mod media;
mod news;
mod numbers;
mod receiving;
mod reporting;
mod restoring;
mod sending;
mod session;
mod types;

pub use config::{
    DATAGRAM_MTU, DATAGRAM_MTU_WARN, GREATEST_WARN, LEAST_TARGET, MAX_APPLICATION_LEN, Mtu,
    SessionConfig,
};
pub use datagram::{Datagram, DrainFault, Drained, Event, Opened};
pub use error::{AppError, RtcError};
pub use feedback::{MAX_ITEM_LEN, compounds_keep_to_target};
pub use hearing::goodbyes_change_nothing;
pub use media::Media;
pub use news::{KeyframeRequest, RembRequest, SenderFeedback};
pub use numbers::named_numbers;
pub use payload_core::MediaKind;
pub use receiving::header_numbers_fit;
pub use report_core::ReportIntervals;
pub use reporting::tick_items_fit;
pub use session::Session;
