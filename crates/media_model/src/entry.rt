ghost use Rattle.std.specs.Prelude.{◌≡◌, Some, IfOk};
ghost use Rattle.media_model.specs.Sides.{peer_of};

use crate::sources::Sources;
use media_base::Bytes;
use media_units::Instant;
use rtp_wire::{Kind, Pt, SeqNo, Ssrc};
use std::alloc::{AllocError, Global};

/// One of the two sessions of a run.
#[derive(Clone, Copy, Debug, PartialEq, Eq, PartialOrd, Ord, Hash)]
pub enum Side {
    A,
    B,
}

impl Side {
    /// The other side.
    pub fn peer(self) -> Side
        ensures { result ≡ peer_of self }
    {
        match self {
            Side::A => Side::B,
            Side::B => Side::A,
        }
    }
}

/// A packet that an application gives to its session to be sent. Its fields stand in the order that
/// takes the fewest bytes.
#[derive(Debug, PartialEq, Eq, Drop)]
pub struct Write {
    /// The extended sequence number.
    pub number: SeqNo,
    /// The stream's main SSRC.
    pub ssrc: Ssrc,
    /// In units of the stream's clock rate.
    pub rtp_time: u32,
    /// What the payload carries.
    pub pt: Pt,
    /// The marker bit of the header.
    pub marker: bool,
    /// Whether it may be sent again when it is asked for.
    pub nackable: bool,
    /// The contributing sources, at most 15 in a run.
    pub csrc: Sources,
    /// At most 1,400 bytes in a run.
    pub payload: Bytes,
}

impl Write {
    /// The same write, with a copy of its contributing sources and of its payload.
    pub fn clone(&self, alloc: Global) -> Result<Write, AllocError>
        ensures { IfOk result (λ write. write ≡ self.now) }
    {
        Ok(Write {
            ssrc: self.ssrc,
            number: self.number,
            pt: self.pt,
            rtp_time: self.rtp_time,
            marker: self.marker,
            nackable: self.nackable,
            csrc: self.csrc.clone(alloc)?,
            payload: Bytes::from_slice(alloc, self.payload.as_slice())?,
        })
    }
}

/// A packet that a session gives to its application. Its fields stand in the order that takes the
/// fewest bytes.
#[derive(Debug, PartialEq, Eq, Drop)]
pub struct Packet {
    /// The extended sequence number.
    pub number: SeqNo,
    /// The stream's main SSRC.
    pub ssrc: Ssrc,
    /// In units of the stream's clock rate.
    pub rtp_time: u32,
    /// What the payload carries.
    pub pt: Pt,
    /// The marker bit of the header.
    pub marker: bool,
    /// The contributing sources.
    pub csrc: Sources,
    /// Without padding.
    pub payload: Bytes,
}

/// A datagram that came to a side.
#[derive(Debug, PartialEq, Eq, Drop)]
pub struct Got {
    /// The side that it came to.
    pub side: Side,
    /// When it came.
    pub time: Instant,
    /// What it carries.
    pub kind: Kind,
    /// As it came.
    pub bytes: Bytes,
}

/// A datagram that a side sealed.
#[derive(Debug, PartialEq, Eq, Drop)]
pub struct Sealed {
    /// The side that sealed it.
    pub side: Side,
    /// What it carries.
    pub kind: Kind,
    /// The SSRC under which it was sealed.
    pub ssrc: Ssrc,
    /// For RTP the extended sequence number, for RTCP the SRTCP index.
    pub index: SeqNo,
    /// The datagram before it was sealed.
    pub plain: Bytes,
    /// The bytes that leave.
    pub bytes: Bytes,
}

/// A datagram that a side opened.
#[derive(Debug, PartialEq, Eq, Drop)]
pub struct Opened {
    /// The side that opened it.
    pub side: Side,
    /// What it carries.
    pub kind: Kind,
    /// The SSRC under which it was opened.
    pub ssrc: Ssrc,
    /// For RTP the extended sequence number, for RTCP the SRTCP index.
    pub index: SeqNo,
    /// The datagram before it was sealed.
    pub plain: Bytes,
}

/// What an application asks of its session beside writes.
#[derive(Clone, Copy, Debug, PartialEq, Eq)]
pub enum Call {
    /// To send feedback of the application's own (RFC 4585 section 6.4).
    Application,
    /// To ask the sender of a stream for a key frame (RFC 4585 section 6.3.1, RFC 5104 section
    /// 4.3.1).
    Ask,
    /// To tell the sender of a stream the greatest rate (draft-alvestrand-rmcat-remb).
    Remb,
}

/// What happened at one moment of a run.
#[derive(Debug, PartialEq, Eq, Drop)]
pub enum Entry {
    /// A step: the side's application wrote a packet.
    Wrote(Side, Instant, Write),
    /// A step: the side's time went on.
    Ticked(Side, Instant),
    /// A step: the side's application called its session.
    Called(Side, Instant, Call),
    /// A step: a datagram came to a side.
    Got(Got),
    /// A side sealed a datagram.
    Sealed(Sealed),
    /// A side opened the datagram that came to it last.
    Opened(Opened),
    /// The side's session gave its application a packet.
    Yielded(Side, Packet),
}
