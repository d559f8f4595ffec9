//! The plan of a cluster of probes: packets that are sent at a rate, to see whether it holds.
ghost use Rattle.std.specs.Prelude.{◌≡◌};
ghost use Rattle.pace_units.specs.Probe.{is_alr, new_config, bytes_of, target_bytes};

use media_units::{Bitrate, DataSize, Duration};
use rtp_base::TwccClusterId;

/// How long a cluster lasts where nothing else is set, in milliseconds: a choice.
pub const DEFAULT_DURATION_MILLIS: u64 = 15;

/// How far apart the moments are at which padding is asked for where nothing else is set, in
/// milliseconds: a choice.
pub const DEFAULT_DELTA_MILLIS: u64 = 2;

/// How many packets a cluster has at least where nothing else is set: a choice.
pub const DEFAULT_PACKETS: usize = 5;

/// Why a cluster is sent.
#[derive(Clone, Copy, Debug, PartialEq, Eq)]
pub enum ProbeKind {
    /// The first of a session.
    Initial,
    /// A greater rate, after one that held.
    Exponential,
    /// More media was asked for.
    Allocation {
        /// Whether the application sends less than it may.
        in_alr: bool,
    },
    /// The application sends less than it may, for some time.
    PeriodicAlr,
    /// The estimate fell far.
    LargeDrop,
    /// The estimate did not rise for some time.
    Stagnant,
}

impl ProbeKind {
    /// Whether it is sent while the application sends less than it may.
    pub fn is_alr(self) -> bool
        ensures { result ≡ is_alr self }
    {
        match self {
            ProbeKind::PeriodicAlr => true,
            ProbeKind::Allocation { in_alr } => in_alr,
            ProbeKind::Initial => false,
            ProbeKind::Exponential => false,
            ProbeKind::LargeDrop => false,
            ProbeKind::Stagnant => false,
        }
    }
}

/// What a cluster is to be: its number, its rate, how long it lasts, how many packets it has at
/// least, how far apart the moments are at which padding is asked for, and why it is sent.
#[derive(Clone, Copy, Debug)]
pub struct ProbeClusterConfig {
    cluster: TwccClusterId,
    target_bitrate: Bitrate,
    target_duration: Duration,
    min_packet_count: usize,
    min_probe_delta: Duration,
    kind: ProbeKind,
}

/// The whole bytes of some time at a rate, at most 2^64 - 1.
pub fn bytes_of(rate: Bitrate, time: Duration) -> DataSize
    ensures { result ≡ bytes_of rate time }
{
    (rate * time).whole_bytes()
}

impl ProbeClusterConfig {
    /// A cluster of 15 ms and at least 5 packets, with padding every 2 ms.
    pub fn new(cluster: TwccClusterId, target_bitrate: Bitrate, kind: ProbeKind) -> Self
        ensures { result ≡ new_config cluster target_bitrate kind }
    {
        ProbeClusterConfig {
            cluster,
            target_bitrate,
            target_duration: Duration::from_millis(DEFAULT_DURATION_MILLIS),
            min_packet_count: DEFAULT_PACKETS,
            min_probe_delta: Duration::from_millis(DEFAULT_DELTA_MILLIS),
            kind,
        }
    }

    /// The cluster, of another length of time.
    pub fn with_duration(self, duration: Duration) -> Self
        ensures { result ≡ record self { target_duration = duration } }
    {
        ProbeClusterConfig {
            target_duration: duration,
            ..self
        }
    }

    /// The cluster, with another least number of packets.
    pub fn with_min_packet_count(self, min_packet_count: usize) -> Self
        ensures { result ≡ record self { min_packet_count = min_packet_count } }
    {
        ProbeClusterConfig {
            min_packet_count,
            ..self
        }
    }

    /// The cluster, with padding at moments that are otherwise far apart.
    pub fn with_min_probe_delta(self, min_probe_delta: Duration) -> Self
        ensures { result ≡ record self { min_probe_delta = min_probe_delta } }
    {
        ProbeClusterConfig {
            min_probe_delta,
            ..self
        }
    }

    /// Whether it is sent while the application sends less than it may.
    pub fn is_alr_probe(&self) -> bool
        ensures { result ≡ is_alr self.now.kind }
    {
        self.kind.is_alr()
    }

    /// The number of the cluster.
    pub fn cluster(&self) -> TwccClusterId
        ensures { result ≡ self.now.cluster }
    {
        self.cluster
    }

    /// The rate at which it is sent.
    pub fn target_bitrate(&self) -> Bitrate
        ensures { result ≡ self.now.target_bitrate }
    {
        self.target_bitrate
    }

    /// The least number of packets.
    pub fn min_packet_count(&self) -> usize
        ensures { result ≡ self.now.min_packet_count }
    {
        self.min_packet_count
    }

    /// How far apart the moments are at which padding is asked for.
    pub fn min_probe_delta(&self) -> Duration
        ensures { result ≡ self.now.min_probe_delta }
    {
        self.min_probe_delta
    }

    /// The whole bytes of its length of time at its rate, at most 2^64 - 1.
    pub fn target_bytes(&self) -> DataSize
        ensures { result ≡ target_bytes self.now }
    {
        bytes_of(self.target_bitrate, self.target_duration)
    }
}
