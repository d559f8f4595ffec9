//! A cluster of probes and what was sent of it.
ghost use Rattle.std.specs.Prelude.{◌≡◌};
ghost use Rattle.pace_units.specs.Cluster.{
  new_cluster,
  next_padding_time,
  is_complete,
  next_time,
  should_send,
  next_size,
  after_ask,
  asked_size,
  recorded,
};

use crate::probe::{ProbeClusterConfig, bytes_of};
use media_units::{DataSize, Instant, already_happened, not_happening};

/// The greatest size of a packet of padding, in bytes: a choice.
pub const MAX_PADDING_PACKET_SIZE: u64 = 240;

/// A cluster, what was sent of it and how many packets, when it was started, and when padding was
/// asked for last.
#[derive(Clone, Copy, Debug)]
pub struct ProbeClusterState {
    config: ProbeClusterConfig,
    bytes_sent: DataSize,
    packets_sent: usize,
    started_at: Option<Instant>,
    last_padding_at: Instant,
}

impl ProbeClusterState {
    /// A cluster of which nothing was sent.
    pub fn new(config: ProbeClusterConfig) -> Self
        ensures { result ≡ new_cluster config }
    {
        ProbeClusterState {
            config,
            bytes_sent: DataSize::bytes(0),
            packets_sent: 0,
            started_at: None,
            last_padding_at: already_happened(),
        }
    }

    /// What the cluster is to be.
    pub fn config(&self) -> &ProbeClusterConfig
        ensures { result.now ≡ self.now.config }
    {
        &self.config
    }

    // The earliest moment of the next padding.
    fn next_padding_time(&self) -> Instant
        ensures { result ≡ next_padding_time self.now }
    {
        self.last_padding_at
            .saturating_add(self.config.min_probe_delta())
    }

    /// When the next packet is due: the later of the moment at which what was sent would have been
    /// sent at the rate, rounded up, and that of the next padding. It is at once before the cluster
    /// is started, and never at rate 0.
    pub fn next_probe_time(&self) -> Instant
        ensures { result ≡ next_time self.now }
    {
        let Some(started_at) = self.started_at else {
            return already_happened();
        };
        let rate = self.config.target_bitrate();
        if rate.is_zero() {
            return not_happening();
        }
        let sent = started_at.saturating_add(self.bytes_sent.to_debt().drain_time(rate));
        let padded = self.next_padding_time();
        if sent < padded { padded } else { sent }
    }

    /// Whether it was started and all of it was sent: its bytes and its packets, whatever the
    /// moment.
    pub fn is_complete(&self, _now: Instant) -> bool
        ensures { result ≡ is_complete self.now }
    {
        self.started_at.is_some()
            && self.config.target_bytes() <= self.bytes_sent
            && self.config.min_packet_count() <= self.packets_sent
    }

    /// Whether a packet is due.
    pub fn should_send_now(&self, now: Instant) -> bool
        ensures { result ≡ should_send self.now now }
    {
        self.next_probe_time() <= now && self.next_padding_time() <= now
    }

    // The size that is asked for next.
    fn next_size(&self) -> DataSize
        ensures { result ≡ next_size self.now }
    {
        let least = DataSize::bytes(MAX_PADDING_PACKET_SIZE);
        let left = self.config.target_bytes().saturating_sub(self.bytes_sent);
        if left.is_zero() && self.packets_sent < self.config.min_packet_count() {
            return least;
        }
        let step = bytes_of(self.config.target_bitrate(), self.config.min_probe_delta());
        let most = if step < least { least } else { step };
        if left < most { left } else { most }
    }

    /// The bytes of padding that are asked for now. None before the next packet is due or before
    /// the next padding, twice at one moment, and where no bytes are left. It starts the cluster.
    pub fn next_packet(&mut self, now: Instant) -> Option<DataSize>
        ensures size { result ≡ asked_size self.old now }
        ensures after { self.new ≡ after_ask self.old now }
    {
        if self.started_at.is_none() {
            self.started_at = Some(now);
        }
        if !self.should_send_now(now) || now <= self.last_padding_at {
            return None;
        }
        self.last_padding_at = now;
        let size = self.next_size();
        if size.is_zero() { None } else { Some(size) }
    }

    /// A packet of that size was sent, media or padding. It starts the cluster.
    pub fn record_packet(&mut self, now: Instant, size: DataSize)
        ensures { self.new ≡ recorded self.old now size }
    {
        if self.started_at.is_none() {
            self.started_at = Some(now);
        }
        self.bytes_sent = self.bytes_sent.saturating_add(size);
        self.packets_sent = self.packets_sent.saturating_add(1);
    }
}
