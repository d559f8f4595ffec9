use rtp_wire::Ssrc;

/// What numbers the datagrams that a side seals under one key.
#[derive(Clone, Copy, Debug, PartialEq, Eq)]
pub enum Counter {
    /// The index of SRTCP datagrams, below 2^31 (RFC 3711 section 3.4).
    Rtcp,
    /// The number of repairs under an SSRC, below 2^48 (RFC 4588 section 4).
    Rtx(Ssrc),
}
