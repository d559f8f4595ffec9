ghost use Rattle.std.specs.Prelude.{◌≡◌, ◌==◌, ◌-◌, ◌≤◌, ◌^◌, ◌++◌, ◌∷◌, [], min, map, take, drop, length, if◌then◌else◌, IfSome, OnOk, OnErr};
ghost use Rattle.std.specs.Option.{option_copied, option_map_or};
ghost use Rattle.std.specs.VecDeque.Iter.{deque_iter_rest, deque_iter_steps};
ghost use Rattle.std.specs.Iterator.Runs.{YieldsRefsInOrder};
ghost use Rattle.stream_core.specs.declared.send_queue.Waiting.{Waiting as Kept};
ghost use Rattle.stream_core.specs.Queue.{with_stamp, stamps_of, payload_bytes, waits, earliest_of};
ghost use Rattle.stream_core.specs.Totals.{goes_on, first_stamp};

use crate::packet::RtpPacket;
use crate::stream_tx::MAX_PAYLOAD_LEN;
use media_units::{Duration, Instant, already_happened, earlier};
use pace_units::{QueuePriority, QueueSnapshot};
use std::alloc::{AllocError, Global};
use std::collections::{VecDeque, vec_deque};
use std::marker::Model;

/// A packet that waits to be sealed. Contracts see the packet.
#[derive(Debug, Drop)]
pub struct Waiting {
    packet: RtpPacket,
}

impl Model for Waiting {
    ghost use Rattle.stream_core.specs.declared.packet.RtpPacket.{RtpPacket};
    ghost use Rattle.stream_core.specs.Queue.{IsSendable};

    ghost Value = { RtpPacket };

    ghost view = { λ w. w.packet };

    ghost invariant = { λ w. IsSendable w.packet };
}

impl Waiting {
    ghost use Rattle.stream_core.specs.Queue.{IsSendable, with_stamp, unstamped};

    fn new(packet: RtpPacket) -> Self
        requires { IsSendable packet }
        ensures { result ≡ unstamped packet }
    {
        let mut packet = packet;
        packet.timestamp = None;
        Waiting { packet }
    }

    /// The packet, with its time stamp if there was a tick since it was written.
    pub fn packet(&self) -> &RtpPacket
        ensures value { result.now ≡ self.now }
        ensures sendable { IsSendable result.now }
    {
        &self.packet
    }

    /// Stamps the packet, unless it has a stamp, and answers how many bytes its payload has.
    fn stamp_at(&mut self, now: Instant) -> usize
        ensures stamp { self.new ≡ with_stamp now self.old }
        ensures bytes { result ≡ length self.old.payload }
        ensures few { result ≤ MAX_PAYLOAD_LEN }
    {
        if self.packet.timestamp.is_none() {
            self.packet.timestamp = Some(now);
        }
        self.packet.payload.len()
    }

    /// The time stamp.
    fn stamp(&self) -> Option<Instant>
        ensures { result ≡ self.now.timestamp }
    {
        self.packet.timestamp
    }

    /// The nanoseconds from the time stamp to `now`, none where it is later or there is no time
    /// stamp.
    fn wait(&self, now: Instant) -> u64
        ensures { result ≡ option_map_or (λ t. now - t) self.now.timestamp 0 }
    {
        match self.packet.timestamp {
            Some(stamp) => now.duration_since(stamp).as_nanos(),
            None => 0,
        }
    }
}

/// Packets that wait to be sealed, in the order in which they were written, and which of them were
/// written before the last tick. Contracts see the list of them.
#[derive(Debug, Drop)]
pub struct SendQueue {
    packets: VecDeque<Waiting>,
    /// So many packets from the front have a time stamp.
    stamped: usize,
    /// The bytes of their payloads.
    bytes: u128,
    /// The sum of their time stamps, in nanoseconds.
    stamps: u128,
    /// The moment of the last tick that stamped a packet.
    last_tick: Instant,
    /// Whether the time stamps are known to rise, up to that one.
    rising: bool,
}

impl Model for SendQueue {
    ghost use Rattle.std.specs.Prelude.{List};
    ghost use Rattle.stream_core.specs.declared.packet.RtpPacket.{RtpPacket};
    ghost use Rattle.stream_core.specs.Totals.{Totals};

    ghost Value = { List RtpPacket };

    ghost view = { λ q. q.packets.items };

    ghost invariant = { λ q. Totals q.packets.items q.stamped q.bytes q.stamps q.last_tick q.rising };
}

/// Stamps the packets from a place on, and answers the bytes of their payloads.
fn stamp_from(packets: &mut VecDeque<Waiting>, from: usize, now: Instant) -> u128
    requires within { from ≤ length packets.old.items }
    requires before { map (with_stamp now) (take from packets.old.items) ≡ take from packets.old.items }
    ensures stamped { packets.new.items ≡ map (with_stamp now) packets.old.items }
    ensures bytes { result ≡ payload_bytes (drop from packets.old.items) }
{
    let mut bytes: u128 = 0;
    for place in from..packets.len() {
        bytes += packets[place].stamp_at(now) as u128;
    }
    bytes
}

/// Whether the time stamps rise up to `now` once others are stamped then.
fn goes_on(stamped: usize, last_tick: Instant, now: Instant, rising: bool) -> bool
    ensures { result ≡ goes_on stamped last_tick now rising }
{
    stamped == 0 || rising && last_tick <= now
}

/// The nanoseconds from the time stamps to `now`, all together, at most 2^64 - 1, and the earliest
/// of them. It goes over all packets.
fn waits(packets: &VecDeque<Waiting>, now: Instant) -> (u64, Option<Instant>)
    ensures total { result.0 ≡ min (waits now (stamps_of packets.now.items)) (2 ^ 64 - 1) }
    ensures first { result.1 ≡ earliest_of (stamps_of packets.now.items) }
{
    let mut total: u64 = 0;
    let mut first = None;
    for place in 0..packets.len() {
        total = total.saturating_add(packets[place].wait(now));
        first = earlier(first, packets[place].stamp());
    }
    (total, first)
}

/// The time stamp of the first packet, if that has one.
fn first_stamp(packets: &VecDeque<Waiting>) -> Option<Instant>
    ensures { result ≡ first_stamp packets.now.items }
{
    packets.front()?.stamp()
}

/// What so many packets are to a pacer.
fn priority_of(stamped: usize) -> QueuePriority
    ensures { result ≡ (if stamped == 0 then QueuePriority.Empty else QueuePriority.Media) }
{
    if stamped == 0 {
        QueuePriority::Empty
    } else {
        QueuePriority::Media
    }
}

impl SendQueue {
    ghost use Rattle.stream_core.specs.Queue.{IsSendable, with_stamp, unstamped, needs_tick, next_of, rest_of, snapshot_of};

    /// No packets.
    pub fn new(alloc: Global) -> Self
        ensures { result ≡ [] }
    {
        SendQueue {
            packets: VecDeque::new(alloc),
            stamped: 0,
            bytes: 0,
            stamps: 0,
            last_tick: already_happened(),
            rising: true,
        }
    }

    /// Puts a packet behind the others, without a time stamp. Without memory nothing changes.
    pub fn push(&mut self, packet: RtpPacket) -> Result<(), AllocError>
        requires { IsSendable packet }
        ensures ok { OnOk result (self.new ≡ self.old ++ unstamped packet ∷ []) }
        ensures err { OnErr result (self.new ≡ self.old) }
    {
        self.packets.push_back(Waiting::new(packet))?;
        Ok(())
    }

    /// Stamps the packets that have no time stamp, and counts them in.
    fn stamp_fresh(&mut self, now: Instant)
        ensures { self.new ≡ map (with_stamp now) self.old }
    {
        let moment = u128::from(now.as_nanos());
        let fresh = self.packets.len() - self.stamped;
        self.bytes += stamp_from(&mut self.packets, self.stamped, now);
        self.stamps += fresh as u128 * moment;
        self.rising = goes_on(self.stamped, self.last_tick, now, self.rising);
        self.last_tick = now;
        self.stamped = self.packets.len();
    }

    /// A tick: stamps the packets that were pushed since the last one, and goes over no others.
    #[tactic(auto, using(crate::proofs::Stamps::none_to_stamp))]
    pub fn handle_timeout(&mut self, now: Instant)
        ensures { self.new ≡ map (with_stamp now) self.old }
    {
        if self.need_timeout() {
            self.stamp_fresh(now);
        }
    }

    /// Whether some packet was pushed since the last tick.
    pub fn need_timeout(&self) -> bool
        ensures { result ≡ needs_tick self.now }
    {
        self.stamped < self.packets.len()
    }

    /// The packet at the front, if there was a tick since it was pushed.
    pub fn peek(&self) -> Option<&RtpPacket>
        ensures next { option_copied result ≡ next_of self.now }
        ensures sendable { IfSome result (λ p. IsSendable p.now) }
    {
        let front = self.packets.front()?;
        if front.packet.timestamp.is_none() {
            return None;
        }
        Some(&front.packet)
    }

    /// Takes the packet at the front, if there was a tick since it was pushed.
    pub fn pop(&mut self) -> Option<RtpPacket>
        ensures next { result ≡ next_of self.old }
        ensures rest { self.new ≡ rest_of self.old }
        ensures sendable { IfSome result IsSendable }
    {
        let stamp = self.packets.front()?.packet.timestamp?;
        let front = self.packets.pop_front()?;
        self.stamped -= 1;
        self.bytes -= front.packet.payload.len() as u128;
        self.stamps -= u128::from(stamp.as_nanos());
        Some(front.packet)
    }

    /// How many packets wait.
    pub fn len(&self) -> usize
        ensures { result ≡ length self.now }
    {
        self.packets.len()
    }

    /// Whether no packet waits.
    pub fn is_empty(&self) -> bool
        ensures { result ≡ (length self.now == 0) }
    {
        self.packets.is_empty()
    }

    /// The packets that wait, in the order in which they were written.
    pub fn iter(&self) -> vec_deque::Iter<'_, Waiting>
        ensures rest { deque_iter_rest result ≡ self.now }
        ensures runs { YieldsRefsInOrder (deque_iter_steps {X = Kept}) deque_iter_rest }
    {
        self.packets.iter()
    }

    /// Drops all packets.
    pub fn clear(&mut self)
        ensures { self.new ≡ [] }
    {
        self.packets.clear();
        self.stamped = 0;
        self.bytes = 0;
        self.stamps = 0;
        self.rising = true;
    }

    /// As `waits`, at once unless time fell between ticks, or since the last one.
    fn all_waits(&self, now: Instant) -> (u64, Option<Instant>)
        ensures total { result.0 ≡ min (waits now (stamps_of self.now)) (2 ^ 64 - 1) }
        ensures first { result.1 ≡ earliest_of (stamps_of self.now) }
    {
        if !self.rising || now < self.last_tick {
            return waits(&self.packets, now);
        }
        let total = self.stamped as u128 * u128::from(now.as_nanos()) - self.stamps;
        let first = first_stamp(&self.packets);
        (total.min(u128::from(u64::MAX)) as u64, first)
    }

    /// What a pacer is told of the packets that were stamped: how many there are, the bytes of
    /// their payloads, how long they waited until `now`, and the earliest time stamp.
    /// `last_emitted` is when one was sent last. It goes over no packets, or, rarely, over all:
    /// where `now` is before the time stamp given last, and after one was given that is before
    /// another, until those are gone.
    pub fn snapshot(&self, now: Instant, last_emitted: Option<Instant>) -> QueueSnapshot
        ensures { result ≡ snapshot_of now last_emitted self.now }
    {
        let (total, first_unsent) = self.all_waits(now);
        QueueSnapshot {
            created_at: now,
            byte_size: self.bytes.min(u128::from(u64::MAX)) as usize,
            packet_count: self.stamped.min(u32::MAX as usize) as u32,
            total_queue_time_origin: Duration::from_nanos(total),
            last_emitted,
            first_unsent,
            priority: priority_of(self.stamped),
        }
    }
}
