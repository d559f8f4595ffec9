//! What estimates the bandwidth of a link.
ghost use Rattle.std.specs.Prelude.{◌≡◌, ◌<◌, ℕ, Bool, List, Option, IsSome};

use crate::probe::ProbeClusterConfig;
use media_units::{Bitrate, DataSize, Instant};
use rtp_base::TwccClusterId;

/// What became of a packet that was sent: its transport number, its size, when it was sent, when it
/// was received, None where it was not, and the cluster of probes that it belongs to, if it is a
/// probe.
#[derive(Clone, Copy, Debug)]
pub struct SendRecord {
    /// Its transport number.
    pub number: u64,
    /// Its size.
    pub size: DataSize,
    /// When it was sent.
    pub sent: Instant,
    /// When it was received, None where it was lost.
    pub received: Option<Instant>,
    /// The cluster that it belongs to, None where it is no probe.
    pub cluster: Option<TwccClusterId>,
}

/// What estimates the bandwidth. Its meaning is a plain state and, for each call, the answer and
/// the state after it.
pub trait Estimator {
    ghost use Rattle.pace_units.specs.declared.probe.ProbeClusterConfig.{ProbeClusterConfig};
    ghost use Rattle.pace_units.specs.declared.estimator.SendRecord.{SendRecord};

    /// The plain states.
    ghost State: { Type 0 };

    /// The state that it is in.
    ghost state: { Self → State };

    /// The cluster that a timeout wants, at a moment, where probes may be sent or not.
    ghost probe_at: { State → ℕ → Bool → Option ProbeClusterConfig };

    /// After that timeout.
    ghost after_timeout: { State → ℕ → Bool → State };

    /// Whether a cluster may start.
    ghost may_start: { State → ProbeClusterConfig → Bool };

    /// After it was asked whether a cluster may start.
    ghost after_start: { State → ProbeClusterConfig → State };

    /// After a cluster ended at a moment.
    ghost after_end: { State → ℕ → ℕ → State };

    /// The estimate that a poll gives.
    ghost estimate_in: { State → Option ℕ };

    /// After a poll.
    ghost after_poll: { State → State };

    /// The estimate that was made last.
    ghost last_in: { State → Option ℕ };

    /// After feedback on packets at a moment.
    ghost after_update: { State → List SendRecord → ℕ → State };

    /// After a packet was sent at a moment, of a size, which is padding or not.
    ghost after_sent: { State → ℕ → ℕ → Bool → State };

    /// Whether more is sent than the link takes.
    ghost overuses: { State → Bool };

    /// The least rate that was asked for.
    ghost minimum_in: { State → ℕ };

    /// When it wants the next timeout.
    ghost wake_in: { State → Option ℕ };

    /// How many estimates it has at most to give before it is told anything more.
    ghost pending_in: { State → ℕ };

    /// After it was set to a least rate and one that is desired.
    ghost after_bitrate: { State → ℕ → ℕ → State };

    /// After it was made to begin anew with an estimate.
    ghost after_reset: { State → ℕ → State };

    /// Tells the moment, and whether probes may be sent. Answers the cluster that is to be sent, if
    /// any.
    fn handle_timeout(&mut self, now: Instant, can_probe: bool) -> Option<ProbeClusterConfig>
        ensures probe { result ≡ probe_at (state self.old) now can_probe }
        ensures after { state self.new ≡ after_timeout (state self.old) now can_probe };

    /// Whether the cluster may start now.
    fn start_probe(&mut self, config: ProbeClusterConfig) -> bool
        ensures starts { result ≡ may_start (state self.old) config }
        ensures after { state self.new ≡ after_start (state self.old) config };

    /// A cluster ended.
    fn end_probe(&mut self, now: Instant, cluster: TwccClusterId)
        ensures { state self.new ≡ after_end (state self.old) now cluster };

    /// The next estimate that was not given yet, if any.
    fn poll_estimate(&mut self) -> Option<Bitrate>
        ensures estimate { result ≡ estimate_in (state self.old) }
        ensures after { state self.new ≡ after_poll (state self.old) };

    /// The estimate that was made last, if any.
    fn last_estimate(&self) -> Option<Bitrate>
        ensures { result ≡ last_in (state self.now) };

    /// Tells what became of packets.
    fn update(&mut self, records: &[SendRecord], now: Instant)
        ensures { state self.new ≡ after_update (state self.old) records.now now };

    /// A packet was sent, of media or padding.
    fn on_media_sent(&mut self, now: Instant, size: DataSize, padding: bool)
        ensures { state self.new ≡ after_sent (state self.old) now size padding };

    /// Whether more is sent than the link takes.
    fn is_overusing(&self) -> bool
        ensures { result ≡ overuses (state self.now) };

    /// The least rate that was asked for.
    fn minimum_bitrate(&self) -> Bitrate
        ensures { result ≡ minimum_in (state self.now) };

    /// When it wants the next timeout, if ever.
    fn poll_timeout(&self) -> Option<Instant>
        ensures { result ≡ wake_in (state self.now) };

    /// How many estimates it has at most to give before it is told anything more.
    fn pending(&self) -> u64
        ensures { result ≡ pending_in (state self.now) };

    /// Sets the least rate that is wanted, and the one that is desired.
    fn set_bitrate(&mut self, minimum: Bitrate, desired: Bitrate)
        ensures { state self.new ≡ after_bitrate (state self.old) minimum desired };

    /// Begins anew with an estimate.
    fn reset(&mut self, init_bitrate: Bitrate)
        ensures { state self.new ≡ after_reset (state self.old) init_bitrate };

    /// Each estimate that is given lowers what is pending, so that polls come to an end.
    ghost lowers: { (s : State) → IsSome (estimate_in s) → pending_in (after_poll s) < pending_in s };
}
