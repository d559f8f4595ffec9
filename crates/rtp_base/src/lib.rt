//! What RTP counts and names: sequence numbers, sources and other identifiers, times in ticks of a
//! clock, the widening of numbers cut to 16 or 32 bits, and the window of repairs (RFC 3550, RFC
//! 3711); and the rows of RTCP that registers make, in lists of at most 31 (RFC 3550 section 6.4.1,
//! RFC 4585 section 6.2.1); and fields in bytes, the high byte first (RFC 3550 section 4).
#![tactic(auto)]

mod ids;
mod keyframe_request;
mod kind;
mod media_time;
mod nack_entry;
mod name;
mod number;
mod numbers;
mod reception_report;
mod report_list;
mod widen;
mod window;
pub mod wire;

pub use ids::{Direction, MidRid, SESSION_ID_LIMIT, SessionId, TwccClusterId, TwccPacketId};
pub use keyframe_request::KeyframeRequestKind;
pub use kind::{Kind, RTP_VERSION};
pub use media_time::{Frequency, MediaTime};
pub use nack_entry::{MAX_NACK_ENTRY_NUMBERS, NackEntry};
pub use name::{MAX_NAME_LEN, Mid, Rid};
pub use number::{MAX_RED_RECOVERY_DEPTH, NUMBER_LIMIT, Pt, SeqNo, Ssrc};
pub use numbers::named_numbers;
pub use reception_report::ReceptionReport;
pub use report_list::{MAX_REPORTS, ReportList};
pub use widen::{widen16, widen32, widens_to_itself};
pub use window::{SeqNoWindow, WINDOW_LEN};
