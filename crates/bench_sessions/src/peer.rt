// One end of a connection, as rounds use it.
use media_units::Instant;
use rtp_base::MidRid;
use session_core::Datagram;
use std::alloc::{AllocError, Global};

/// What the stream of an end is for.
#[derive(Clone, Copy)]
pub enum Role {
    /// It sends.
    Sender,
    /// It sends, keeps what it sends, and sends again, under the next SSRC, as much as is asked
    /// for.
    Repairer,
    /// It receives.
    Receiver,
}

/// All that an end had to give.
#[derive(Drop)]
pub struct Given {
    /// How many events it told.
    pub events: usize,
    /// What leaves, in order.
    pub datagrams: Vec<Datagram>,
}

/// One end of a connection. A fault of it is answered as if memory had run out.
pub trait Peer: Drop {
    /// One without media sections, keys and streams.
    fn fresh(alloc: Global) -> Result<Box<Self>, AllocError>;

    /// Adds the media section.
    fn add_media(&mut self, alloc: Global, at: &MidRid) -> Result<(), AllocError>;

    /// Gives it the keys of a side.
    fn give_keys(&mut self, alloc: Global, left: bool) -> Result<(), AllocError>;

    /// Adds the stream.
    fn add_stream(&mut self, role: Role, at: &MidRid) -> Result<(), AllocError>;

    /// Writes a packet of this number and these bytes on the stream.
    fn write(&mut self, alloc: Global, number: u64, bytes: &[u8]) -> Result<(), AllocError>;

    /// Hears that the packet of number 0 is asked for.
    fn ask(&mut self, now: Instant) -> Result<(), AllocError>;

    /// Ticks.
    fn tick(&mut self, now: Instant) -> Result<(), AllocError>;

    /// Takes a datagram in; tells whether it opened.
    fn open(&mut self, bytes: &[u8]) -> Result<bool, AllocError>;

    /// Takes all that it tells and all that leaves.
    fn take(&mut self, now: Instant) -> Result<Given, AllocError>;
}

/// The moment of the packet of a number.
pub fn moment(number: u64) -> Instant {
    Instant::from_nanos(number.wrapping_mul(1_000).max(1))
}
