//! What every pacer can do, and a pacer that is one of two kinds.
ghost use Rattle.std.specs.Prelude.{◌≡◌, ℕ, List, Option, Some, None, IfOk, OnOk, OnErr, IsOk, IsSome, true, false};
ghost use Rattle.pace_core.specs.Past.{
  Past,
  is_leaky,
  last_sent_in,
  made,
  pacing_set,
  padding_set,
  timed,
  polled,
  probe_started,
  probe_taken,
  sent,
};

use crate::leaky::LeakyBucketPacer;
use crate::null::NullPacer;
use media_units::{Bitrate, DataSize, Instant};
use pace_units::{PaddingRequest, ProbeClusterConfig, QueueState, Reason};
use rtp_base::{MidRid, TwccClusterId};
use std::alloc::{AllocError, Global};

/// What says which queue is sent from next, and when. It is told of queues at timeouts; a poll
/// gives one of them, and each packet that is sent then is registered. Its answers are read off
/// what it was told.
pub trait Pacer {
    ghost use Rattle.rtp_base.specs.declared.ids.MidRid.{MidRid};
    ghost use Rattle.pace_units.specs.declared.queue.QueueState.{QueueState};
    ghost use Rattle.pace_units.specs.declared.queue.PaddingRequest.{PaddingRequest};
    ghost use Rattle.pace_units.specs.declared.reason.Reason.{Reason};

    /// It was told this. One value may stand for several pasts.
    ghost stands_for: { Self → Past → Type 0 };

    /// The padding that a timeout asks for.
    ghost padding_at: { Past → ℕ → List QueueState → Option PaddingRequest };

    /// What a poll gives: a queue, and the cluster of probes that the packet belongs to.
    ghost queue_in: { Past → Option (MidRid × Option ℕ) };

    /// When it wants the next timeout, and why.
    ghost timeout_in: { Past → Option ℕ × Reason };

    /// Sets the rate at which packets are let out, from the next timeout on.
    fn set_pacing_rate(&mut self, pacing_bitrate: Bitrate)
        ensures { (past : Past) → stands_for self.old past → stands_for self.new (pacing_set past pacing_bitrate) };

    /// Sets the rate of padding.
    fn set_padding_rate(&mut self, padding_bitrate: Bitrate)
        ensures { (past : Past) → stands_for self.old past → stands_for self.new (padding_set past padding_bitrate) };

    /// When it wants the next timeout, if ever, and why.
    fn poll_timeout(&self) -> (Option<Instant>, Reason)
        ensures { (past : Past) → stands_for self.now past → result ≡ timeout_in past };

    /// Tells the moment and the queues. Answers the padding that is asked for, if any. Without
    /// memory nothing changes.
    fn handle_timeout(
        &mut self,
        now: Instant,
        queues: &[QueueState],
    ) -> Result<Option<PaddingRequest>, AllocError>
        ensures padding { IfOk result (λ asked. (past : Past) → stands_for self.old past → asked ≡ padding_at past now queues.now) }
        ensures ok { OnOk result ((past : Past) → stands_for self.old past → stands_for self.new (timed past now queues.now)) }
        ensures err { OnErr result ((past : Past) → stands_for self.old past → stands_for self.new past) };

    /// The queue that is sent from next, if any, and the cluster that the packet belongs to, if
    /// any.
    fn poll_queue(&mut self) -> Option<(MidRid, Option<TwccClusterId>)>
        ensures queue { (past : Past) → stands_for self.old past → result ≡ queue_in past }
        ensures polled { (past : Past) → stands_for self.old past → stands_for self.new (polled past) };

    /// A packet was sent from a queue that a poll gave. Without memory nothing changes.
    fn register_send(
        &mut self,
        now: Instant,
        packet_size: DataSize,
        from: MidRid,
    ) -> Result<(), AllocError>
        ensures ok { OnOk result ((past : Past) → stands_for self.old past → stands_for self.new (sent past now packet_size from)) }
        ensures err { OnErr result ((past : Past) → stands_for self.old past → stands_for self.new past) };
}

/// A null pacer or a leaky bucket pacer.
#[derive(Debug, Drop)]
pub enum PacerImpl {
    /// It does not pace.
    Null(NullPacer),
    /// It lets out a packet while less than a burst is owed.
    LeakyBucket(LeakyBucketPacer),
}

impl PacerImpl {
    ghost use Rattle.pace_core.specs.PacerImpl.{StandsFor as ImplStandsFor, cluster_in, complete_in};

    /// A leaky bucket pacer of this pacing rate.
    pub fn leaky_bucket(alloc: Global, rate: Bitrate) -> Self
        ensures { ImplStandsFor result (made (Some rate)) }
    {
        PacerImpl::LeakyBucket(LeakyBucketPacer::new(alloc, rate))
    }

    /// A null pacer.
    pub fn null(alloc: Global) -> Self
        ensures { ImplStandsFor result (made None) }
    {
        PacerImpl::Null(NullPacer::new(alloc))
    }

    /// Starts a cluster after those that run or wait. A null pacer sends none. Without memory
    /// nothing changes.
    pub fn start_probe(&mut self, config: ProbeClusterConfig) -> Result<(), AllocError>
        ensures ok { OnOk result ((past : Past) → ImplStandsFor self.old past → ImplStandsFor self.new (probe_started past config)) }
        ensures err { OnErr result ((past : Past) → ImplStandsFor self.old past → ImplStandsFor self.new past) }
        ensures null { (past : Past) → ImplStandsFor self.old past → is_leaky past ≡ false → IsOk result }
    {
        match self {
            PacerImpl::Null(_) => Ok(()),
            PacerImpl::LeakyBucket(pacer) => pacer.start_probe(config),
        }
    }

    /// The cluster that runs, if any.
    pub fn active_cluster(&self) -> Option<TwccClusterId>
        ensures { (past : Past) → ImplStandsFor self.now past → result ≡ cluster_in past }
    {
        match self {
            PacerImpl::Null(_) => None,
            PacerImpl::LeakyBucket(pacer) => pacer.active_cluster(),
        }
    }

    /// The cluster that ended, once, whatever the moment.
    pub fn check_probe_complete(&mut self, now: Instant) -> Option<TwccClusterId>
        ensures told { (past : Past) → ImplStandsFor self.old past → result ≡ complete_in past }
        ensures stands { (past : Past) → ImplStandsFor self.old past → ImplStandsFor self.new (probe_taken past) }
    {
        match self {
            PacerImpl::Null(_) => None,
            PacerImpl::LeakyBucket(pacer) => pacer.check_probe_complete(now),
        }
    }
}

impl Pacer for PacerImpl {
    ghost use Rattle.pace_core.specs.PacerImpl.{StandsFor as ImplStandsFor, padding_at as padding_of, queue_in as queue_of, timeout_in as timeout_of};

    ghost stands_for = { ImplStandsFor };

    ghost padding_at = { padding_of };

    ghost queue_in = { queue_of };

    ghost timeout_in = { timeout_of };

    fn set_pacing_rate(&mut self, pacing_bitrate: Bitrate) {
        match self {
            PacerImpl::Null(pacer) => pacer.set_pacing_rate(pacing_bitrate),
            PacerImpl::LeakyBucket(pacer) => pacer.set_pacing_rate(pacing_bitrate),
        }
    }

    fn set_padding_rate(&mut self, padding_bitrate: Bitrate) {
        match self {
            PacerImpl::Null(pacer) => pacer.set_padding_rate(padding_bitrate),
            PacerImpl::LeakyBucket(pacer) => pacer.set_padding_rate(padding_bitrate),
        }
    }

    fn poll_timeout(&self) -> (Option<Instant>, Reason) {
        match self {
            PacerImpl::Null(pacer) => pacer.poll_timeout(),
            PacerImpl::LeakyBucket(pacer) => pacer.poll_timeout(),
        }
    }

    /// A leaky bucket pacer takes no memory.
    fn handle_timeout(
        &mut self,
        now: Instant,
        queues: &[QueueState],
    ) -> Result<Option<PaddingRequest>, AllocError>
        ensures padding { IfOk result (λ asked. (past : Past) → ImplStandsFor self.old past → asked ≡ padding_of past now queues.now) }
        ensures ok { OnOk result ((past : Past) → ImplStandsFor self.old past → ImplStandsFor self.new (timed past now queues.now)) }
        ensures err { OnErr result ((past : Past) → ImplStandsFor self.old past → ImplStandsFor self.new past) }
        ensures leaky { (past : Past) → ImplStandsFor self.old past → is_leaky past ≡ true → IsOk result }
    {
        match self {
            PacerImpl::Null(pacer) => pacer.handle_timeout(now, queues),
            PacerImpl::LeakyBucket(pacer) => pacer.handle_timeout(now, queues),
        }
    }

    fn poll_queue(&mut self) -> Option<(MidRid, Option<TwccClusterId>)> {
        match self {
            PacerImpl::Null(pacer) => pacer.poll_queue(),
            PacerImpl::LeakyBucket(pacer) => pacer.poll_queue(),
        }
    }

    /// It takes memory only for a queue that was not sent on before, and where it is a null pacer.
    fn register_send(
        &mut self,
        now: Instant,
        packet_size: DataSize,
        from: MidRid,
    ) -> Result<(), AllocError>
        ensures ok { OnOk result ((past : Past) → ImplStandsFor self.old past → ImplStandsFor self.new (sent past now packet_size from)) }
        ensures err { OnErr result ((past : Past) → ImplStandsFor self.old past → ImplStandsFor self.new past) }
        ensures leaky { (past : Past) → ImplStandsFor self.old past → is_leaky past ≡ true → IsOk result }
        ensures known { (past : Past) → ImplStandsFor self.old past → IsSome (last_sent_in past from) → IsOk result }
    {
        match self {
            PacerImpl::Null(pacer) => pacer.register_send(now, packet_size, from),
            PacerImpl::LeakyBucket(pacer) => pacer.register_send(now, packet_size, from),
        }
    }
}
