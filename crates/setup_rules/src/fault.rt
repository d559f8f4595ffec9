ghost use Rattle.std.specs.Prelude.{◌≡◌};
ghost use Rattle.setup_rules.specs.FaultNames.{setup_fault_name};

use thiserror::Error;

/// The first rule that a setup breaks, in this order.
#[derive(Clone, Copy, Debug, PartialEq, Eq, Error)]
pub enum SetupFault {
    /// The key material has another length than the profile's.
    #[error("the key material has another length than that of the profile")]
    KeyLength,
    /// The target for the length of datagrams is below 900, above the length to warn of, or this
    /// one above 1,500.
    #[error("the lengths of datagrams are out of bounds or out of order")]
    Mtu,
    /// The Unix time of the moment 0 is above 2,075,000,000 s, or one of the two intervals of
    /// reports, the threshold of pauses or the age of a cache above 10^16 ns.
    #[error("a time is too great")]
    Times,
    /// An id of a header extension is outside 1 to 14, or stands twice, or an extension stands
    /// twice.
    #[error("an id of a header extension is out of bounds, or an id or an extension stands twice")]
    ExtId,
    /// A payload type, of packets, of their repairs or of their redundant data, is claimed twice,
    /// or is above 127.
    #[error("a payload type is claimed twice or above 127")]
    TypeTwice,
    /// An SSRC among the main, RTX and local ones of both sides is 0.
    #[error("an SSRC is 0")]
    SsrcZero,
    /// An SSRC stands twice among the main, RTX and local ones of both sides.
    #[error("an SSRC stands twice")]
    SsrcTwice,
    /// Two media have one mid, or two streams of one media and side one rid. A stream without a rid
    /// shares every rid.
    #[error("two media have one mid, or two streams of one media and side one rid")]
    RidTwice,
    /// A cache has no packets, or more than 32,000.
    #[error("a cache has no packets or more than 32,000")]
    CacheSize,
}

impl SetupFault {
    /// The word for it in the line that names it.
    pub fn word(self) -> &'static str
        ensures { result.now ≡ setup_fault_name self }
    {
        match self {
            SetupFault::KeyLength => "KeyLength",
            SetupFault::Mtu => "Mtu",
            SetupFault::Times => "Times",
            SetupFault::ExtId => "ExtId",
            SetupFault::TypeTwice => "TypeTwice",
            SetupFault::SsrcZero => "SsrcZero",
            SetupFault::SsrcTwice => "SsrcTwice",
            SetupFault::RidTwice => "RidTwice",
            SetupFault::CacheSize => "CacheSize",
        }
    }
}
