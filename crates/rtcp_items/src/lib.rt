//! What compound RTCP says of reports and of sources, as plain values without their bytes: sender
//! and receiver reports, descriptions and goodbyes (RFC 3550 sections 6.4 to 6.6), and extended
//! reports (RFC 3611).
#![tactic(auto)]

mod extended;
mod numbers;
mod report;
mod source;

pub use extended::{Dlrr, DlrrItem, ExtendedReport, ReportBlock, Rrtr};
pub use numbers::named_numbers;
pub use report::{ReceiverReport, SenderInfo, SenderReport};
pub use source::{
    CNAME_TYPE, Descriptions, EMAIL_TYPE, Goodbye, LOC_TYPE, NAME_TYPE, NOTE_TYPE, PHONE_TYPE,
    PRIV_TYPE, Sdes, SdesItem, SdesType, TOOL_TYPE,
};
