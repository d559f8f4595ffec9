//! Extended reports (RFC 3611).
use media_base::Listed;
use media_units::SystemTime;
use rtp_base::Ssrc;

/// Blocks of reports of one sender (RFC 3611 section 2).
#[derive(Debug, PartialEq, Eq, Drop)]
pub struct ExtendedReport {
    /// Who sends the report.
    pub ssrc: Ssrc,
    /// Of those read the first 31 of known types.
    pub blocks: Listed<ReportBlock>,
}

/// A block of an extended report.
#[derive(Debug, PartialEq, Eq, Drop)]
pub enum ReportBlock {
    /// The moment of a receiver.
    Rrtr(Rrtr),
    /// How long ago the moments of receivers came in.
    Dlrr(Dlrr),
}

/// When a receiver sent this (RFC 3611 section 4.4).
#[derive(Clone, Copy, Debug, PartialEq, Eq)]
pub struct Rrtr {
    /// The moment, held in nanoseconds; on the wire 64 bits of NTP.
    pub ntp_time: SystemTime,
}

/// How long ago the moments of receivers came in (RFC 3611 section 4.5).
#[derive(Debug, PartialEq, Eq, Drop)]
pub struct Dlrr {
    /// One for each receiver.
    pub items: Listed<DlrrItem>,
}

/// How long ago the moment of one receiver came in.
#[derive(Clone, Copy, Debug, PartialEq, Eq)]
pub struct DlrrItem {
    /// The receiver.
    pub ssrc: Ssrc,
    /// The middle 32 bits of the NTP time of its last moment, or 0.
    pub last_rr_time: u32,
    /// The time since it came in, in 65,536ths of a second, or 0.
    pub last_rr_delay: u32,
}
