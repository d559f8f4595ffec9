//! Of which stream a datagram is. Its SSRC is known, or the values of its header extension and its
//! payload type map it to a stream of a media section (RFC 8843 section 9.2, RFC 8852, RFC 4588
//! section 8). A mapping is found without any change, and taken up where the datagram opened. And
//! SSRCs that are in use by no stream.
#![tactic(auto)]

mod claim;
mod draw;
mod mapping;
mod numbers;
mod rids;
mod rules;
mod stream;
mod streams;

pub use claim::TypeClaim;
pub use draw::{SSRC_DRAWS, SsrcError, UsedSsrcs, new_ssrc_pair};
pub use mapping::{MainChange, Mapping, RepairsChange, Unmapped};
pub use numbers::named_numbers;
pub use rids::Rids;
pub use rules::is_early_padding;
pub use stream::IncomingStream;
pub use streams::MappedStreams;
