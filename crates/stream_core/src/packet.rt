ghost use Rattle.std.specs.Prelude.{◌≡◌, IfOk};
ghost use Rattle.stream_core.specs.Repairing.{kept_as};

use crate::payload::Payload;
use crate::payload_types::PayloadTypes;
use media_units::Instant;
use rtp_base::{MediaTime, Pt, SeqNo};
use rtp_wire::RtpHeader;
use std::alloc::AllocError;

/// An RTP packet that was written, or that came (RFC 3550 section 5.1).
#[derive(Debug, PartialEq, Eq, Drop)]
pub struct RtpPacket {
    /// Its extended sequence number, of which its header has the low 16 bits.
    pub seq_no: SeqNo,
    /// Its RTP time. A packet that came has it as its stream widens it, in the clock of its payload
    /// type; one that was written in ticks of 1 s, since its clock is not known then.
    pub time: MediaTime,
    /// Its header. A packet that waits has neither the length of its header nor the values that it
    /// gets when it is sealed.
    pub header: RtpHeader,
    /// What stands behind the header.
    pub payload: Payload,
    /// When it came; of a packet that was written, the first tick after that, None before it.
    pub timestamp: Option<Instant>,
    /// Whether it is kept when it was sent, to be sent again.
    pub nackable: bool,
}

impl RtpPacket {
    /// The packet once more. The bytes of its payload are not copied.
    pub fn shared(&self) -> Result<Self, AllocError>
        ensures { IfOk result (λ p. p ≡ self.now) }
    {
        Ok(RtpPacket {
            seq_no: self.seq_no,
            time: self.time,
            header: self.header,
            payload: self.payload.shared()?,
            timestamp: self.timestamp,
            nackable: self.nackable,
        })
    }

    /// The type of its repairs, if it is kept to be sent again.
    pub(crate) fn kept_as(&self, types: &PayloadTypes) -> Option<Pt>
        ensures { result ≡ kept_as types.now self.now }
    {
        if self.nackable {
            types.rtx(self.header.payload_type)
        } else {
            None
        }
    }
}
