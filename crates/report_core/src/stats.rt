//! What is counted of a stream.
ghost use Rattle.std.specs.Prelude.{◌≡◌};
ghost use Rattle.report_core.specs.Traffic.{more, no_traffic, with_packet};
ghost use Rattle.report_core.specs.Stats.{no_stats, stats_joined};

use crate::Traffic;

/// What is counted of a stream since it was made or its statistics started anew: of an outgoing one
/// what was sealed and what its receiver asked for, of an incoming one what was opened and what was
/// asked of its sender. Each count is at most 2^64 - 1. Each call takes constant time.
#[derive(Clone, Copy, Debug, Default, PartialEq, Eq)]
pub struct StreamStats {
    /// The packets, repairs among them, and the bytes of their payloads. Blanks count in neither.
    pub traffic: Traffic,
    /// NACK items for the stream (RFC 4585 section 6.2.1).
    pub nacks: u64,
    /// PLI items for the stream (RFC 4585 section 6.3.1).
    pub plis: u64,
    /// FIR entries for the stream (RFC 5104 section 4.3.1).
    pub firs: u64,
}

impl StreamStats {
    /// Nothing was counted.
    pub fn new() -> Self
        ensures { result ≡ no_stats }
    {
        StreamStats {
            traffic: Traffic::new(),
            nacks: 0,
            plis: 0,
            firs: 0,
        }
    }

    /// Counts a packet with so many bytes of payload, padding and the original number of a repair
    /// aside.
    pub fn update_packet_counts(&mut self, bytes: usize)
        ensures { self.new ≡ record self.old { traffic = with_packet bytes self.old.traffic } }
    {
        self.traffic.count(bytes);
    }

    /// Counts a NACK item.
    pub fn increase_nacks(&mut self)
        ensures { self.new ≡ record self.old { nacks = more self.old.nacks 1 } }
    {
        self.nacks = self.nacks.saturating_add(1);
    }

    /// Counts a PLI item.
    pub fn increase_plis(&mut self)
        ensures { self.new ≡ record self.old { plis = more self.old.plis 1 } }
    {
        self.plis = self.plis.saturating_add(1);
    }

    /// Counts a FIR entry.
    pub fn increase_firs(&mut self)
        ensures { self.new ≡ record self.old { firs = more self.old.firs 1 } }
    {
        self.firs = self.firs.saturating_add(1);
    }

    /// Counts what another stream had too, as of incoming streams of one mid and rid.
    pub fn add(&mut self, other: &StreamStats)
        ensures { self.new ≡ stats_joined self.old other.now }
    {
        self.traffic.add(&other.traffic);
        self.nacks = self.nacks.saturating_add(other.nacks);
        self.plis = self.plis.saturating_add(other.plis);
        self.firs = self.firs.saturating_add(other.firs);
    }
}
