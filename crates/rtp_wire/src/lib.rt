//! The RTP wire: headers and header extensions (RFC 3550 section 5.1, RFC 8285), and what they are
//! made of, the numbers and names of `rtp_base`.
#![tactic(auto)]

mod abs_time;
mod extension;
mod header;
mod laws;
mod numbers;
mod values;
mod writing;

pub use abs_time::{AbsCaptureTime, AbsSendTime, SEND_TIME_LIMIT, SEND_TIME_UNITS};
pub use extension::{Extension, ExtensionMap, MAP_PLACES, MAX_ID_ONE_BYTE_FORM, RESERVED_ID};
pub use header::{
    FIXED_HEADER_LEN, MAX_BLANK_PADDING_PAYLOAD_SIZE, MAX_HEADER_LEN, MAX_SOURCES,
    ORIGINAL_NUMBER_LEN, PADDING_BLOCK_LEN, RtpHeader,
};
pub use laws::{
    header_reads_own_bytes, headers_are_as_long, plain_header_is_read_again,
    written_header_is_read_again,
};
pub use numbers::named_numbers;
pub use rtp_base::{
    Direction, Frequency, Kind, MediaTime, Mid, MidRid, NackEntry, Pt, RTP_VERSION,
    ReceptionReport, ReportList, Rid, SeqNo, SeqNoWindow, SessionId, Ssrc, TwccClusterId,
    TwccPacketId, widen16, widen32, widens_to_itself,
};
pub use values::{
    ExtensionValues, MAX_DELAY_STEPS, MAX_MINUS_LEVEL, ONE_BYTE_PROFILE, TWO_BYTE_PROFILE,
    VideoOrientation,
};
pub use writing::{ELEMENTS_ROOM, EXTENSION_ROOM, MAX_ELEMENTS_LEN};
