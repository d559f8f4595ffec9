//! A leaky bucket pacer: what is sent is owed, what is owed drains at a rate, and a queue has its
//! turn where little is owed.
ghost use Rattle.pace_core.specs.Bucket.{burst};
ghost use Rattle.pace_core.specs.Past.{
  Past,
  made,
  timed,
  sent,
  rate_in,
  debt_in,
  asked_at,
  given_in,
  asked_of,
  may_ask,
  base_of,
  may_pass,
  clusters_at,
  probe_started,
  probe_taken,
  active_in,
  number_of,
  ended_in,
  key_of,
  turn_of,
  paced_turn,
  passed,
  turn_moment,
  padding_moment,
  wake_of,
  wake_in,
};
ghost use Rattle.pace_core.specs.Leaky.{StandsFor};
ghost use Rattle.std.specs.Prelude.{◌≡◌, ◌+◌, ◌-◌, ◌*◌, ◌<◌, min, max, ◌/◌, Some, IsOk, IfOk, OnOk, OnErr, option_copied, slice_get};

use crate::clusters::Clusters;
use crate::pacer::Pacer;
use crate::queues::{first_holding, held_by, longest_unpaced, padding_queue, turn};
use media_units::{Bitrate, DataSize, Debt, Duration, Instant};
use pace_units::{
    PacerReason, PaddingRequest, ProbeClusterConfig, ProbeClusterState, QueueState, Reason,
};
use rtp_base::{MidRid, TwccClusterId};
use std::alloc::{AllocError, Global};

/// What may be owed at most, as a time at the rate, in nanoseconds: a choice.
pub const MAX_DEBT_IN_TIME: u64 = 500_000_000;

/// How much padding is asked for at once, as a time at the rate, in nanoseconds: a choice.
pub const PADDING_BURST_INTERVAL: u64 = 5_000_000;

/// How long after a timeout the next one is wanted, and what may be owed when a packet is let out,
/// as a time at the rate, in nanoseconds: a choice.
pub const PACING: u64 = 40_000_000;

/// What may be owed at most when a packet is let out, in billionths of a bit: 63,000 bytes, a
/// choice.
pub const MAX_BURST_SIZE: u128 = 504_000_000_000_000;

/// How long after a timeout the next one is wanted at the earliest, in nanoseconds: a choice.
pub const MINIMAL_DELTA: u64 = 1_000;

/// How large a packet may be for the bound on what is let out, as a time at the rate, in
/// nanoseconds: with what may be owed when it is let out no more than may be owed at most.
pub const MAX_PACKET_IN_TIME: u64 = MAX_DEBT_IN_TIME - PACING;

/// A pacer that lets out a packet while less than a burst is owed.
#[derive(Debug, Drop)]
pub struct LeakyBucketPacer {
    pacing_bitrate: Bitrate,
    adjusted_bitrate: Bitrate,
    padding_bitrate: Bitrate,
    last_handle_time: Option<Instant>,
    media_debt: Debt,
    padding_debt: Debt,
    has_sent: bool,
    next_poll_queue: Option<MidRid>,
    next_poll_time: Option<(Instant, PacerReason)>,
    was_polled: bool,
    clusters: Clusters,
}

// A queue that is let out, if any, and when something is let out or padding is asked for next, if
// that can be told.
#[derive(Clone, Copy)]
struct Turn {
    queue: Option<MidRid>,
    moment: Option<(Instant, PacerReason)>,
}

// What is left of a debt after that time.
fn drained(debt: Debt, rate: Bitrate, since: Option<Instant>, now: Instant) -> Debt
    ensures { result ≡ debt - rate * passed since now }
{
    match since {
        None => debt,
        Some(before) => debt.saturating_sub(rate * now.duration_since(before)),
    }
}

// A debt with a packet, at most 500 ms at the rate.
fn charged(debt: Debt, rate: Bitrate, size: DataSize) -> Debt
    ensures { result ≡ min (debt + size * 8000000000) (rate * MAX_DEBT_IN_TIME) }
{
    let owed = debt.saturating_add(size.to_debt());
    let most = rate * Duration::from_nanos(MAX_DEBT_IN_TIME);
    if owed < most { owed } else { most }
}

// What may be owed when a packet is let out.
fn burst(rate: Bitrate) -> Debt
    ensures { result ≡ burst rate }
{
    let most = Debt::from_billionths(MAX_BURST_SIZE);
    let owed = rate * Duration::from_nanos(PACING);
    if owed < most { owed } else { most }
}

// Whether padding is asked for without a cluster.
fn may_ask(debt: Debt, padding_debt: Debt, padding: Bitrate) -> bool
    ensures { result ≡ may_ask debt padding_debt padding }
{
    debt.is_zero() && padding_debt.is_zero() && !padding.is_zero()
}

// What padding is asked of a queue.
fn asks(padding: Bitrate, midrid: MidRid) -> PaddingRequest
    ensures key { result.midrid ≡ midrid }
    ensures size { result.padding ≡ padding * PADDING_BURST_INTERVAL / 8000000000 }
{
    let size = (padding * Duration::from_nanos(PADDING_BURST_INTERVAL)).whole_bytes();
    PaddingRequest {
        midrid,
        padding: size.as_u64() as usize,
    }
}

// The rate without queues.
fn base_of(pacing: Bitrate, active: Option<&ProbeClusterState>) -> Bitrate
    ensures { result ≡ base_of pacing (option_copied active.entry) }
{
    match active {
        Some(cluster) => cluster.config().target_bitrate(),
        None => pacing,
    }
}

// Whether the queue whose turn it is is let out now.
fn may_pass(debt: Debt, rate: Bitrate, active: Option<&ProbeClusterState>, now: Instant) -> bool
    ensures { result ≡ may_pass debt rate (option_copied active.entry) now }
{
    match active {
        Some(cluster) => cluster.next_probe_time() <= now,
        None => debt < burst(rate),
    }
}

// When the queue whose turn it is is let out.
fn turn_moment(
    debt: Debt,
    rate: Bitrate,
    active: Option<&ProbeClusterState>,
    now: Instant,
) -> (Instant, PacerReason)
    requires { 0 < rate }
    ensures { result ≡ turn_moment debt rate (option_copied active.entry) now }
{
    match active {
        Some(cluster) => (cluster.next_probe_time(), PacerReason::Probe1),
        None => {
            let moment = if debt < burst(rate) {
                now
            } else {
                now.saturating_add(debt.drain_time(rate))
            };
            (moment, PacerReason::Paced)
        }
    }
}

// The key of a queue.
fn key_of(queue: Option<&QueueState>) -> Option<MidRid>
    ensures { result ≡ key_of (option_copied queue.entry) }
{
    match queue {
        Some(queue) => Some(queue.midrid),
        None => None,
    }
}

// When the next timeout is wanted, after one at `since`, and why.
fn wake(
    was_polled: bool,
    since: Option<Instant>,
    moment: Option<(Instant, PacerReason)>,
) -> (Option<Instant>, Reason)
    ensures { result ≡ wake_of was_polled since moment }
{
    let Some(since) = since else {
        return (None, Reason::NotHappening);
    };
    let regular = since.saturating_add(Duration::from_nanos(PACING));
    let soonest = if was_polled {
        let immediate = since.saturating_add(Duration::from_nanos(MINIMAL_DELTA));
        Some((immediate, PacerReason::Immediate))
    } else {
        moment
    };
    match soonest {
        Some((moment, reason)) => {
            if regular < moment {
                (Some(regular), Reason::Pacer(PacerReason::Handle))
            } else {
                (Some(moment), Reason::Pacer(reason))
            }
        }
        None => (Some(regular), Reason::Pacer(PacerReason::Handle)),
    }
}

// The longer of two lengths of time.
fn longer(one: Duration, other: Duration) -> Duration
    ensures { result ≡ max one other }
{
    if one < other { other } else { one }
}

impl LeakyBucketPacer {
    /// A pacer that was told nothing yet but its pacing rate.
    pub fn new(alloc: Global, rate: Bitrate) -> Self
        ensures { StandsFor result (made (Some rate)) }
    {
        LeakyBucketPacer {
            pacing_bitrate: rate,
            adjusted_bitrate: Bitrate::bps(0),
            padding_bitrate: Bitrate::bps(0),
            last_handle_time: None,
            media_debt: Debt::from_billionths(0),
            padding_debt: Debt::from_billionths(0),
            has_sent: false,
            next_poll_queue: None,
            next_poll_time: None,
            was_polled: false,
            clusters: Clusters::new(alloc),
        }
    }

    // Drains what is owed, sets the rate for these queues, and chooses at most one of them, which
    // is asked for padding where it is in the answer.
    fn time(&mut self, now: Instant, queues: &[QueueState]) -> Option<PaddingRequest>
        ensures asked { (past : Past) → StandsFor self.old past → result ≡ asked_at past now queues.now }
        ensures stands { (past : Past) → StandsFor self.old past → StandsFor self.new (timed past now queues.now) }
    {
        let held = held_by(queues, now);
        let is_empty = held.is_empty();
        self.media_debt = drained(
            self.media_debt,
            self.adjusted_bitrate,
            self.last_handle_time,
            now,
        );
        self.padding_debt = drained(
            self.padding_debt,
            self.padding_bitrate,
            self.last_handle_time,
            now,
        );
        self.adjusted_bitrate = held.adjusted(base_of(self.pacing_bitrate, self.clusters.active()));
        self.last_handle_time = Some(now);
        self.was_polled = false;
        let asked = self.ask(now, is_empty, queues);
        let turn = match &asked {
            Some(request) => Turn {
                queue: Some(request.midrid),
                moment: None,
            },
            None => self.next_turn(now, is_empty, queues),
        };
        self.next_poll_queue = turn.queue;
        self.next_poll_time = turn.moment;
        asked
    }

    // What padding is asked for.
    fn ask(&mut self, now: Instant, is_empty: bool, queues: &[QueueState]) -> Option<PaddingRequest>
        ensures asked { result ≡ asked_of self.old.media_debt self.old.padding_debt self.old.padding_bitrate
            (slice_get self.old.clusters.running 0) now is_empty queues.now }
        ensures probes { self.new.clusters
            ≡ record self.old.clusters { running = clusters_at self.old.clusters.running now is_empty queues.now } }
        ensures others { self.new ≡ record self.old { clusters = self.new.clusters } }
    {
        if !is_empty {
            return None;
        }
        let midrid = match padding_queue(queues) {
            Some(queue) => queue.midrid,
            None => {
                self.clusters.clear();
                return None;
            }
        };
        if self.clusters.active().is_none() {
            if may_ask(self.media_debt, self.padding_debt, self.padding_bitrate) {
                return Some(asks(self.padding_bitrate, midrid));
            }
            return None;
        }
        match self.clusters.ask(now) {
            Some(size) => Some(PaddingRequest {
                midrid,
                padding: size.as_u64() as usize,
            }),
            None => None,
        }
    }

    // When padding is asked for next, where it may be asked of a queue.
    fn padding_moment(&self, now: Instant) -> Option<(Instant, PacerReason)>
        ensures { result ≡ padding_moment self.now.media_debt self.now.padding_debt self.now.adjusted_bitrate
            self.now.padding_bitrate (slice_get self.now.clusters.running 0) now }
    {
        if let Some(cluster) = self.clusters.active() {
            return Some((cluster.next_probe_time(), PacerReason::Probe2));
        }
        if self.adjusted_bitrate.is_zero() || self.padding_bitrate.is_zero() {
            return None;
        }
        let media = self.media_debt.drain_time(self.adjusted_bitrate);
        let padding = self.padding_debt.drain_time(self.padding_bitrate);
        let wait = longer(longer(media, padding), Duration::from_nanos(MINIMAL_DELTA));
        Some((now.saturating_add(wait), PacerReason::Padding))
    }

    // The queue whose turn it is, at a rate above 0.
    fn paced_turn(&self, now: Instant, queues: &[QueueState]) -> Turn
        requires { 0 < self.now.adjusted_bitrate }
        ensures queue { result.queue ≡ (paced_turn self.now.media_debt self.now.adjusted_bitrate
            (slice_get self.now.clusters.running 0) now queues.now).queue }
        ensures moment { result.moment ≡ (paced_turn self.now.media_debt self.now.adjusted_bitrate
            (slice_get self.now.clusters.running 0) now queues.now).moment }
    {
        let active = self.clusters.active();
        let debt = self.media_debt;
        let rate = self.adjusted_bitrate;
        let queue = if may_pass(debt, rate, active, now) {
            key_of(turn(queues))
        } else {
            None
        };
        Turn {
            queue,
            moment: Some(turn_moment(debt, rate, active, now)),
        }
    }

    // The queue that is let out where no padding is asked for, and what is waited for.
    fn next_turn(&self, now: Instant, is_empty: bool, queues: &[QueueState]) -> Turn
        ensures queue { result.queue ≡ (turn_of self.now.has_sent self.now.media_debt self.now.padding_debt
            self.now.adjusted_bitrate self.now.padding_bitrate (slice_get self.now.clusters.running 0) now is_empty queues.now).queue }
        ensures moment { result.moment ≡ (turn_of self.now.has_sent self.now.media_debt self.now.padding_debt
            self.now.adjusted_bitrate self.now.padding_bitrate (slice_get self.now.clusters.running 0) now is_empty queues.now).moment }
    {
        if !self.has_sent && !is_empty {
            return Turn {
                queue: key_of(first_holding(queues)),
                moment: None,
            };
        }
        if let Some(queue) = longest_unpaced(queues) {
            return Turn {
                queue: Some(queue.midrid),
                moment: None,
            };
        }
        if !is_empty && !self.adjusted_bitrate.is_zero() {
            return self.paced_turn(now, queues);
        }
        let moment = if padding_queue(queues).is_some() {
            self.padding_moment(now)
        } else {
            None
        };
        Turn {
            queue: None,
            moment,
        }
    }

    /// Starts a cluster after those that run or wait. Without memory nothing changes.
    pub fn start_probe(&mut self, config: ProbeClusterConfig) -> Result<(), AllocError>
        ensures ok { OnOk result ((past : Past) → StandsFor self.old past → StandsFor self.new (probe_started past config)) }
        ensures err { OnErr result (self.new ≡ self.old) }
    {
        self.clusters.start(config)
    }

    /// The number of the cluster that runs.
    pub fn active_cluster(&self) -> Option<TwccClusterId>
        ensures { (past : Past) → StandsFor self.now past → result ≡ number_of (active_in past) }
    {
        self.active()
    }

    // The number of the cluster that runs.
    fn active(&self) -> Option<TwccClusterId>
        ensures { result ≡ number_of (slice_get self.now.clusters.running 0) }
    {
        let cluster = self.clusters.active()?;
        Some(cluster.config().cluster())
    }

    /// The number of the cluster that ended, once, whatever the moment.
    pub fn check_probe_complete(&mut self, now: Instant) -> Option<TwccClusterId>
        ensures told { (past : Past) → StandsFor self.old past → result ≡ ended_in past }
        ensures stands { (past : Past) → StandsFor self.old past → StandsFor self.new (probe_taken past) }
    {
        self.clusters.take_ended(now)
    }

    /// What is owed.
    pub fn debt(&self) -> Debt
        ensures { (past : Past) → StandsFor self.now past → result ≡ debt_in past }
    {
        self.media_debt
    }

    /// The rate of the last timeout.
    pub fn rate(&self) -> Bitrate
        ensures { (past : Past) → StandsFor self.now past → result ≡ rate_in past }
    {
        self.adjusted_bitrate
    }
}

impl Pacer for LeakyBucketPacer {
    ghost stands_for = { StandsFor };

    ghost padding_at = { asked_at };

    ghost queue_in = { given_in };

    ghost timeout_in = { wake_in };

    fn set_pacing_rate(&mut self, pacing_bitrate: Bitrate) {
        self.pacing_bitrate = pacing_bitrate;
    }

    fn set_padding_rate(&mut self, padding_bitrate: Bitrate) {
        self.padding_bitrate = padding_bitrate;
    }

    fn poll_timeout(&self) -> (Option<Instant>, Reason) {
        wake(self.was_polled, self.last_handle_time, self.next_poll_time)
    }

    /// It looks at each queue a few times, and takes no memory.
    fn handle_timeout(
        &mut self,
        now: Instant,
        queues: &[QueueState],
    ) -> Result<Option<PaddingRequest>, AllocError>
        ensures padding { IfOk result (λ asked. (past : Past) → StandsFor self.old past → asked ≡ asked_at past now queues.now) }
        ensures ok { OnOk result ((past : Past) → StandsFor self.old past → StandsFor self.new (timed past now queues.now)) }
        ensures err { OnErr result ((past : Past) → StandsFor self.old past → StandsFor self.new past) }
        ensures no_memory { IsOk result }
    {
        Ok(self.time(now, queues))
    }

    fn poll_queue(&mut self) -> Option<(MidRid, Option<TwccClusterId>)> {
        let cluster = self.active();
        match self.next_poll_queue.take() {
            Some(key) => {
                self.was_polled = true;
                Some((key, cluster))
            }
            None => None,
        }
    }

    /// It takes no memory.
    fn register_send(
        &mut self,
        now: Instant,
        packet_size: DataSize,
        _from: MidRid,
    ) -> Result<(), AllocError>
        ensures ok { OnOk result ((past : Past) → StandsFor self.old past → StandsFor self.new (sent past now packet_size _from)) }
        ensures err { OnErr result ((past : Past) → StandsFor self.old past → StandsFor self.new past) }
        ensures no_memory { IsOk result }
    {
        self.clusters.record(now, packet_size);
        self.has_sent = true;
        self.media_debt = charged(self.media_debt, self.adjusted_bitrate, packet_size);
        self.padding_debt = charged(self.padding_debt, self.padding_bitrate, packet_size);
        Ok(())
    }
}
