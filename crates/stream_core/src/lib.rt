//! The streams of a session: what is written and waits to be sealed, and the numbers that were
//! taken. Each is told by the SSRC of its packets (RFC 3550 section 3).
#![tactic(auto)]

mod known_streams;
mod numbers;
mod packet;
mod payload;
mod payload_types;
mod repairing;
mod reports;
mod requests;
mod seen;
mod send_queue;
mod ssrc_table;
mod stream_paused;
mod stream_rx;
mod stream_tx;
mod streams;
mod transport;
mod write;

pub use known_streams::KnownStreams;
pub use numbers::named_numbers;
pub use packet::RtpPacket;
pub use payload::Payload;
pub use payload_types::{PayloadTypes, TypeRow};
pub use repairing::Sent;
pub use reports::{Arrival, MAX_CNAME_LEN, RxReports, Tick, TxReports};
pub use requests::RxRequests;
pub use seen::Seen;
pub use send_queue::{SendQueue, Waiting};
pub use ssrc_table::SsrcTable;
pub use stream_paused::StreamPaused;
pub use stream_rx::{StreamRx, first_number, first_repair, first_repair_number};
pub use stream_tx::{MAX_PAYLOAD_LEN, MAX_PLAIN_LEN, PacketReceipt, StreamTx};
pub use streams::{Streams, is_among};
pub use transport::Transport;
pub use write::{RtpWrite, WriteError};
