/// How a key frame is asked for.
#[derive(Clone, Copy, Debug, PartialEq, Eq)]
pub enum KeyframeRequestKind {
    /// A picture was lost (RFC 4585 section 6.3.1).
    Pli,
    /// A full intra request (RFC 5104 section 4.3.1).
    Fir,
}
