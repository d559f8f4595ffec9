ghost use Rattle.std.specs.Prelude.{◌≡◌};
ghost use Rattle.mapping_core.specs.Mapped.{is_new};

use crate::stream::IncomingStream;
use rtp_base::Ssrc;

/// Why a datagram is of no stream.
#[derive(Clone, Copy, Debug, PartialEq, Eq)]
pub enum Unmapped {
    /// It is a probe: it comes under SSRC 0, which is of no media section.
    Probe,
    /// Its SSRC is unknown, and it carries no mid.
    NoMid,
    /// No media section has its mid.
    UnknownMid,
    /// Neither end knows its payload type.
    UnclaimedType,
    /// It carries a rid or a repair rid that its media section does not expect.
    UnexpectedRid,
    /// It carries neither, and its media section expects certain rids.
    RidMissing,
    /// It carries repairs, and the stream that they are of is not known yet.
    NoMainStream,
}

/// The packets of a stream come under another SSRC: what is kept of their numbers, their times,
/// RED, sender information and requests begins anew, while what is kept of its repairs stays.
#[derive(Clone, Copy, Debug, PartialEq, Eq)]
pub struct MainChange {
    /// The SSRC that they had.
    pub from: Ssrc,
    /// The SSRC that they have.
    pub to: Ssrc,
}

/// The repairs of a stream come under an SSRC for the first time, or under another one: what is
/// kept of them begins anew.
#[derive(Clone, Copy, Debug, PartialEq, Eq)]
pub struct RepairsChange {
    /// The SSRC of the stream's packets.
    pub main: Ssrc,
    /// The SSRC of its repairs.
    pub rtx: Ssrc,
}

/// Of which stream a datagram is. The last four are of an SSRC that is unknown.
#[derive(Clone, Copy, Debug, PartialEq, Eq)]
pub enum Mapping {
    /// A packet of the stream of this SSRC, its own.
    Main(Ssrc),
    /// A repair of the stream whose packets have this SSRC.
    Repairs(Ssrc),
    /// A packet of a stream that is to be declared, behind the others.
    NewStream(IncomingStream),
    /// A packet of a stream that had another SSRC.
    NewMain(MainChange),
    /// A repair of a stream whose repairs had another SSRC, or none.
    NewRepairs(RepairsChange),
    /// It is of no stream.
    Nowhere(Unmapped),
}

impl Mapping {
    /// Whether an unknown SSRC maps to a stream, which is to be taken up once the datagram opened.
    pub fn is_new(&self) -> bool
        ensures { result ≡ is_new self.now }
    {
        matches!(
            self,
            Mapping::NewStream(_) | Mapping::NewMain(_) | Mapping::NewRepairs(_)
        )
    }
}
