//! Payload formats of RTP without any session: codecs and the payload types that name them, RED
//! (RFC 2198), telephone events (RFC 4733).
#![tactic(auto)]

mod buffer;
mod codec;
mod error;
mod numbers;
mod params;
mod payload;
mod red;
mod red_encoder;
mod red_sender;
mod red_sink;
mod simulcast;
mod telephone;

pub use buffer::{
    Arrival, Depacketized, DepacketizingBuffer, RtpMeta, events_determine_what_waits,
    frames_come_out_as_in,
};
pub use codec::{Codec, CodecSpec, FormatParams, MediaKind};
pub use error::{PacketError, TelephoneFault};
pub use numbers::named_numbers;
pub use params::{CodecConfig, ParamsOfKind, PayloadParams, TELE_EVENT_MAX};
pub use payload::{CodecDepacketizer, CodecExtra, MediaPacket, PacketSink, Payloader, VideoExtra};
pub use red::{
    RED_LEN_LIMIT, RED_OFFSET_LIMIT, RedBlock, RedDecoder, RedError, red_same_pt_blocks,
};
pub use red_encoder::{RedEncoder, written_red_is_read_again};
pub use red_sender::{RedSender, SentFrame, frames_are_sent_again};
pub use red_sink::RedSink;
pub use rtp_base::MAX_RED_RECOVERY_DEPTH;
pub use simulcast::{SdpAttribute, SdpSimulcast, SdpSimulcastLayer};
pub use telephone::{
    TELE_EVENT_LEN, TELE_VOLUME_MAX, TelephoneEvent, duration_from_units,
    telephone_events_are_read_again, units_come_back,
};
