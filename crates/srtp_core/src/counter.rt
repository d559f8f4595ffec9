/// What numbers the datagrams that are sealed under a key. Behind its last number there is no
/// further datagram under that key.
#[derive(Clone, Copy, Debug, PartialEq, Eq)]
pub enum Counter {
    /// The index of SRTCP datagrams, below 2^31 (RFC 3711 section 3.4).
    Rtcp,
}
