/// The version of RTP and of RTCP (RFC 3550 sections 5.1 and 6.4.1).
pub const RTP_VERSION: u8 = 2;

/// What a datagram carries.
#[derive(Clone, Copy, Debug, PartialEq, Eq, PartialOrd, Ord, Hash)]
pub enum Kind {
    /// A packet of media (RFC 3550 section 5).
    Rtp,
    /// Reports and feedback (RFC 3550 section 6).
    Rtcp,
}
