//! Runs of a pacer's calls.
ghost use Rattle.pace_core.specs.Past.{Past, made, pacing_set, padding_set, polled};
ghost use Rattle.pace_core.specs.Run.{
  told,
  past_of,
  entry_of,
  entries,
  state_of,
  states_of,
  timed_of,
  timed_with,
  sent_from,
  timeout_entry,
  poll_entry,
  send_entry,
  may_come,
  may_all_come,
  IsShort,
  IsCause,
  KeepsEnvelope,
  IsLogOf,
  IsLogUntil,
};
ghost use Rattle.pace_core.specs.Player.{Plays, may_play};
ghost use Rattle.std.specs.Prelude.{◌≡◌, ◌≤◌, [], ◌∷◌, ◌++◌, IfOk, IfErr, OnOk, OnErr, Some, IsSome, IsTrue, MatchResult, All, true, ◌↔◌};

use crate::leaky::LeakyBucketPacer;
use crate::log::{PaceEntry, PaceLog};
use crate::pacer::Pacer;
use crate::sends::Sends;
use media_base::Listed;
use media_units::{Bitrate, DataSize, Duration, Instant};
use pace_units::{PaddingRequest, QueuePriority, QueueSnapshot, QueueState};
use rtp_base::{Mid, MidRid, Rid};
use std::alloc::{AllocError, Global};
use thiserror::Error;

/// The greatest size of a packet of a run, in bytes: a choice.
pub const MAX_PACKET: u64 = 2_000;

/// A queue at a timeout of a run. It is paced, and all that it holds is media.
#[derive(Clone, Copy, Debug)]
pub struct PaceQueue {
    /// The media whose queue it is.
    pub mid: Mid,
    /// The packets that it holds.
    pub count: u32,
    /// Their bytes.
    pub bytes: DataSize,
    /// How long they waited, all together.
    pub wait: Duration,
    /// Whether padding may be asked of it.
    pub padding: bool,
}

/// A call of a pacer.
#[derive(Debug, Drop)]
pub enum PaceCall {
    /// Sets the pacing rate.
    Pacing(Bitrate),
    /// Sets the rate of padding.
    Padding(Bitrate),
    /// A timeout at a moment, with the states of the queues.
    Timeout(Instant, Listed<PaceQueue>),
    /// Asks which queue is sent from next.
    Poll,
    /// A packet of the queue that was polled last is sent at a moment, with its size.
    Send(Instant, DataSize),
}

/// Why a run ended.
#[derive(Clone, Copy, Debug, PartialEq, Eq, Error)]
pub enum PaceError {
    /// There is no memory for more.
    #[error("out of memory")]
    Memory,
    /// The call at this place, counted from 0, may not come: its moment falls, or it sends what no
    /// poll gave a queue for.
    #[error("the call at place {0} may not come")]
    Call(usize),
}

/// A run that ended early, and its log so far.
#[derive(Debug, Drop, Error)]
#[error("{error}")]
pub struct PaceFault {
    /// Why it ended.
    pub error: PaceError,
    /// What the calls before answered.
    pub sofar: PaceLog,
}

// A pacer, when each queue was sent on last, the latest moment, the queue that a poll gave last
// until it is sent from, and room for the states of the queues.
#[derive(Drop)]
struct Player {
    pacer: LeakyBucketPacer,
    sends: Sends,
    latest: Instant,
    waiting: Option<MidRid>,
    states: Vec<QueueState>,
}

// A queue, as a pacer is told of it.
fn state_of(sends: &Sends, now: Instant, queue: &PaceQueue) -> QueueState
    ensures { result ≡ state_of sends.now now queue.now }
{
    let key = MidRid(queue.mid, None);
    let last_emitted = sends.last(&key);
    QueueState {
        midrid: key,
        unpaced: false,
        use_for_padding: queue.padding,
        snapshot: QueueSnapshot {
            created_at: now,
            byte_size: queue.bytes.as_u64() as usize,
            packet_count: queue.count,
            total_queue_time_origin: queue.wait,
            last_emitted,
            first_unsent: None,
            priority: if queue.count == 0 {
                QueuePriority::Empty
            } else {
                QueuePriority::Media
            },
        },
    }
}

// The queues, as a pacer is told of them.
fn put_states(
    states: &mut Vec<QueueState>,
    sends: &Sends,
    now: Instant,
    queues: &[PaceQueue],
) -> Result<(), AllocError>
    ensures { OnOk result (states.new.items ≡ states_of sends.now now queues.now) }
{
    // The check has to meet the types that a state may hold.
    let _key: (Option<MidRid>, Option<Rid>) = (None, None);
    let _state: (
        Option<QueueSnapshot>,
        Option<QueuePriority>,
        Option<Instant>,
    ) = (None, None, None);
    states.clear();
    for queue in queues {
        states.push(state_of(sends, now, queue))?;
    }
    Ok(())
}

// The padding that is asked for, by its media.
fn timed_of(asked: &Option<PaddingRequest>) -> Option<(Mid, DataSize)>
    ensures { result ≡ timed_of asked.now }
{
    match asked {
        Some(request) => Some((request.midrid.0, DataSize::bytes(request.padding as u64))),
        None => None,
    }
}

impl Player {
    fn new(alloc: Global, rate: Bitrate) -> Self
        ensures { Plays result (made (Some rate)) }
    {
        Player {
            pacer: LeakyBucketPacer::new(alloc, rate),
            sends: Sends::new(alloc),
            latest: Instant::from_nanos(0),
            waiting: None,
            states: Vec::new(alloc),
        }
    }

    fn may_play(&self, call: &PaceCall) -> bool
        ensures now { result ≡ may_play self.now call.now }
        ensures come { (past : Past) → Plays self.now past → result ≡ may_come past call.now }
    {
        match call {
            PaceCall::Timeout(now, _) => self.latest <= *now,
            PaceCall::Send(now, _) => self.latest <= *now && self.waiting.is_some(),
            PaceCall::Pacing(_) => true,
            PaceCall::Padding(_) => true,
            PaceCall::Poll => true,
        }
    }

    fn set_pacing(&mut self, rate: Bitrate)
        ensures { (past : Past) → Plays self.old past → Plays self.new (pacing_set past rate) }
    {
        self.pacer.set_pacing_rate(rate);
    }

    fn set_padding(&mut self, rate: Bitrate)
        ensures { (past : Past) → Plays self.old past → Plays self.new (padding_set past rate) }
    {
        self.pacer.set_padding_rate(rate);
    }

    fn timeout(&mut self, now: Instant, queues: &[PaceQueue]) -> Result<PaceEntry, AllocError>
        ensures entry { IfOk result (λ entry. (past : Past) → Plays self.old past → entry ≡ timeout_entry past now queues.now) }
        ensures plays { OnOk result ((past : Past) → Plays self.old past → Plays self.new (timed_with past now queues.now)) }
    {
        put_states(&mut self.states, &self.sends, now, queues)?;
        self.latest = now;
        let asked = self.pacer.handle_timeout(now, self.states.as_slice())?;
        Ok(PaceEntry::Timed(timed_of(&asked)))
    }

    fn poll(&mut self) -> PaceEntry
        ensures entry { (past : Past) → Plays self.old past → result ≡ poll_entry past }
        ensures plays { (past : Past) → Plays self.old past → Plays self.new (polled past) }
    {
        match self.pacer.poll_queue() {
            Some((key, _)) => {
                let mid = key.0;
                self.waiting = Some(key);
                PaceEntry::Chose(mid)
            }
            None => {
                let (wake, _) = self.pacer.poll_timeout();
                PaceEntry::Idle(wake)
            }
        }
    }

    fn send(&mut self, now: Instant, size: DataSize) -> Result<PaceEntry, AllocError>
        requires short { size ≤ MAX_PACKET }
        requires waits { IsSome self.old.waiting }
        ensures entry { IfOk result (λ entry. (past : Past) → Plays self.old past → entry ≡ send_entry past now size) }
        ensures plays { OnOk result ((past : Past) → Plays self.old past → Plays self.new (sent_from past now size)) }
    {
        let key = match self.waiting.take() {
            Some(key) => key,
            None => unreachable!(),
        };
        self.pacer.register_send(now, size, key)?;
        self.sends.record(&key, now)?;
        self.latest = now;
        Ok(PaceEntry::Sent {
            bits: size.as_u64() * 8,
            debt: self.pacer.debt(),
            rate: self.pacer.rate(),
        })
    }

    fn play(&mut self, call: &PaceCall) -> Result<PaceEntry, AllocError>
        requires short { IsShort call.now }
        requires comes { may_play self.old call.now ≡ true }
        ensures entry { IfOk result (λ entry. (past : Past) → Plays self.old past → entry ≡ entry_of past call.now) }
        ensures plays { OnOk result ((past : Past) → Plays self.old past → Plays self.new (told past call.now)) }
    {
        match call {
            PaceCall::Pacing(rate) => {
                self.set_pacing(*rate);
                Ok(PaceEntry::Set)
            }
            PaceCall::Padding(rate) => {
                self.set_padding(*rate);
                Ok(PaceEntry::Set)
            }
            PaceCall::Timeout(now, queues) => self.timeout(*now, queues.as_slice()),
            PaceCall::Poll => Ok(self.poll()),
            PaceCall::Send(now, size) => self.send(*now, *size),
        }
    }

    fn play_into(&mut self, call: &PaceCall, log: &mut PaceLog) -> Result<(), AllocError>
        requires short { IsShort call.now }
        requires comes { may_play self.old call.now ≡ true }
        ensures logs { OnOk result ((past : Past) → Plays self.old past → log.new ≡ log.old ++ entry_of past call.now ∷ []) }
        ensures plays { OnOk result ((past : Past) → Plays self.old past → Plays self.new (told past call.now)) }
        ensures same { OnErr result (log.new ≡ log.old) }
    {
        // The check has to meet the types that an entry may hold.
        let _none: (Option<Mid>, Option<(Mid, DataSize)>, Option<Instant>) = (None, None, None);
        let entry = self.play(call)?;
        log.push(entry)?;
        Ok(())
    }
}

// Whether a packet has at most 2,000 bytes.
fn is_short(call: &PaceCall) -> bool
    ensures { IsTrue result ↔ IsShort call.now }
{
    match call {
        PaceCall::Send(_, size) => size.as_u64() <= MAX_PACKET,
        PaceCall::Pacing(_) => true,
        PaceCall::Padding(_) => true,
        PaceCall::Timeout(_, _) => true,
        PaceCall::Poll => true,
    }
}

/// Whether each packet has at most 2,000 bytes.
pub fn are_short(calls: &[PaceCall]) -> bool
    ensures { IsTrue result ↔ All IsShort calls.now }
{
    calls.iter().all(is_short)
}

/// Plays the calls on a new leaky bucket pacer of that rate. Each packet has at most 2,000 bytes.
///
/// The log has what each call answered. The run ends at the first call whose moment is before one
/// that was told, or which sends a packet where no poll gave a queue since the last packet, and for
/// want of memory.
///
/// What is let out keeps within an envelope: where in the log each packet answers a poll since the
/// last timeout and is at most 460 ms at its rate, the bits sent from one packet to another, both
/// included, are at most the rate times the time from the timeout before the first to the timeout
/// before the last, and the burst at the last, and the last packet.
pub fn pace_run(alloc: Global, rate: Bitrate, calls: &[PaceCall]) -> Result<PaceLog, PaceFault>
    requires { All IsShort calls.now }
    ensures played { IfOk result (λ log. log ≡ entries (made (Some rate)) calls.now) }
    ensures sofar { IfErr result (λ fault. IsLogOf rate calls.now fault.sofar) }
    ensures until { IfErr result (λ fault. IsLogUntil rate calls.now fault.error fault.sofar) }
    ensures came { IfOk result (λ log. may_all_come (made (Some rate)) calls.now ≡ true) }
    ensures cause { IfErr result (λ fault. IsCause rate calls.now fault.error) }
    ensures envelope { MatchResult result (λ log. KeepsEnvelope rate calls.now log)
        (λ fault. KeepsEnvelope rate calls.now fault.sofar) }
{
    let mut log = PaceLog::new(alloc);
    let mut player = Player::new(alloc, rate);
    for (i, call) in calls.iter().enumerate() {
        if !player.may_play(call) {
            return Err(PaceFault {
                error: PaceError::Call(i),
                sofar: log,
            });
        }
        match player.play_into(call, &mut log) {
            Ok(()) => {}
            Err(AllocError) => {
                return Err(PaceFault {
                    error: PaceError::Memory,
                    sofar: log,
                });
            }
        }
    }
    Ok(log)
}
