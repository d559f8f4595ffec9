//! How much went over a stream.
ghost use Rattle.std.specs.Prelude.{◌≡◌};
ghost use Rattle.report_core.specs.Traffic.{no_traffic, with_packet, joined};

/// Packets, and the bytes of their payloads. Each count is at most 2^64 - 1. Each call takes
/// constant time.
#[derive(Clone, Copy, Debug, Default, PartialEq, Eq)]
pub struct Traffic {
    /// How many packets.
    pub packets: u64,
    /// How many bytes of payload, without padding and without the original number of a repair.
    pub bytes: u64,
}

impl Traffic {
    /// Nothing.
    pub fn new() -> Self
        ensures { result ≡ no_traffic }
    {
        Traffic {
            packets: 0,
            bytes: 0,
        }
    }

    /// Counts a packet with so many bytes of payload.
    pub fn count(&mut self, bytes: usize)
        ensures { self.new ≡ with_packet bytes self.old }
    {
        self.packets = self.packets.saturating_add(1);
        self.bytes = self.bytes.saturating_add(bytes as u64);
    }

    /// Counts what another stream had too.
    pub fn add(&mut self, other: &Traffic)
        ensures { self.new ≡ joined self.old other.now }
    {
        self.packets = self.packets.saturating_add(other.packets);
        self.bytes = self.bytes.saturating_add(other.bytes);
    }
}
