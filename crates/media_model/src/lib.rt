//! What runs of two media sessions speak of: setups, steps, and the entries of transcripts.
#![tactic(auto)]

mod application;
mod entry;
mod first_number;
mod genuine;
mod numbers;
mod setup;
mod sources;
mod srtcp_index;
mod step;
mod transcript;

pub use application::{ApplicationData, MOST_BYTES};
pub use entry::{Call, Entry, Got, Opened, Packet, Sealed, Side, Write};
pub use first_number::FirstNumber;
pub use numbers::named_numbers;
pub use rtp_wire::Kind;
pub use setup::{
    Cache, CipherName, Codec, DEFAULT_AUDIO_NANOS, DEFAULT_CACHE_CAP, DEFAULT_CACHE_NANOS,
    DEFAULT_CACHE_PACKETS, DEFAULT_MTU_TARGET, DEFAULT_MTU_WARN, DEFAULT_PAUSE_THRESHOLD_NANOS,
    DEFAULT_VIDEO_NANOS, Key, Local, Media, MediaKind, Mtu, NamedCache, NamedExtension, NamedStart,
    PayloadType, ReportTimes, Setup, Stream,
};
pub use sources::Sources;
pub use srtcp_index::SrtcpIndex;
pub use step::{Act, LAST_TIME, Step};
pub use transcript::Transcript;
