use crate::application::ApplicationData;
use crate::entry::{Side, Write};
use media_base::Bytes;
use media_units::{Bitrate, Instant};
use rtp_base::KeyframeRequestKind;
use rtp_wire::{Kind, Ssrc};

/// The greatest time of a step, in nanoseconds: some 115 days, a choice.
pub const LAST_TIME: u64 = 10_000_000_000_000_000;

/// A step of a script: what one side does, and when.
#[derive(Debug, PartialEq, Eq, Drop)]
pub struct Step {
    pub side: Side,
    pub time: Instant,
    pub act: Act,
}

/// What a side does at a step.
#[derive(Debug, PartialEq, Eq, Drop)]
pub enum Act {
    /// Its application writes a packet.
    Write(Write),
    /// Its time goes on.
    Tick,
    /// It gets the datagram that the other side sealed as its `datagram`-th, counted from 1.
    Deliver {
        datagram: u64,
    },
    /// It gets these bytes.
    Foreign {
        kind: Kind,
        bytes: Bytes,
    },
    /// Its application sends feedback of its own (RFC 4585 section 6.4).
    Feedback {
        /// The SSRC that the feedback is from.
        sender: Ssrc,
        /// The SSRC that it is about.
        media: Ssrc,
        payload: ApplicationData,
    },
    /// Its application asks the sender of a stream for a key frame (RFC 4585 section 6.3.1, RFC
    /// 5104 section 4.3.1).
    Ask {
        /// The main SSRC of the stream.
        ssrc: Ssrc,
        kind: KeyframeRequestKind,
    },
    /// Its application tells the sender of a stream the greatest rate at which it is to come
    /// (draft-alvestrand-rmcat-remb).
    Rate {
        /// The main SSRC of the stream.
        ssrc: Ssrc,
        rate: Bitrate,
    },
}
