//! The RTCP wire: reports, feedback and extended reports (RFC 3550 section 6, RFC 4585 section 6,
//! RFC 5104 section 4.3.1, draft-holmer-rmcat-transport-wide-cc-extensions-01 section 3.1, RFC 3611
//! section 4), read from a datagram and written into one.
#![tactic(auto)]

mod extended;
mod feedback;
mod frame;
mod kind;
mod laws;
mod nack;
mod numbers;
mod packet;
mod remb;
mod report;
mod request;
mod row;
mod rtcp_fb;
mod source;

pub use extended::{DLRR_BLOCK_TYPE, MAX_DLRR_ITEMS, RRTR_BLOCK_TYPE};
pub use feedback::AppSpecificFeedback;
pub use laws::{frames_read_back, items_fit_by_lengths, items_read_back};
pub use nack::Nack;
pub use numbers::named_numbers;
pub use packet::{
    APPLICATION_FORMAT, EXTENDED_REPORT_TYPE, FIR_FORMAT, GOODBYE_TYPE, NACK_FORMAT,
    PAYLOAD_FEEDBACK_TYPE, PLI_FORMAT, RECEIVER_REPORT_TYPE, Rtcp, SENDER_REPORT_TYPE,
    SOURCE_DESCRIPTION_TYPE, TRANSPORT_FEEDBACK_TYPE, TWCC_FORMAT,
};
pub use remb::{MANTISSA_BITS, MANTISSA_LIMIT, REMB_IDENTIFIER, Remb};
pub use report::{RECEPTION_REPORT_LEN, SENDER_INFO_LEN};
pub use request::{Fir, FirEntry, Pli};
pub use rtcp_fb::RtcpFb;
pub use rtcp_items::{
    Descriptions, Dlrr, DlrrItem, ExtendedReport, Goodbye, ReceiverReport, ReportBlock, Rrtr, Sdes,
    SdesItem, SdesType, SenderInfo, SenderReport,
};
pub use rtp_base::{MAX_REPORTS, NackEntry, ReceptionReport, ReportList};
pub use twcc_core::{
    BODY_LIMIT, PacketStatus, Share, StatusIter, StatusList, Twcc, TwccRecvRegister,
    TwccSendRecord, TwccSendRegister,
};
