//! The rules that choose a queue, and the rate that drains all of them in time.
ghost use Rattle.pace_core.specs.Queues.{
  packets_in,
  bytes_in,
  wait_in,
  rate_for,
  is_before,
  with_unpaced,
  unpaced_from,
  goes_first,
  with_turn,
  turn_from,
  with_padding,
  padding_from,
  first_holding,
};
ghost use Rattle.std.specs.Prelude.{◌≡◌, ◌==◌, None};
ghost use Rattle.std.specs.Option.{option_copied};

use media_units::{Bitrate, GREATEST_RATE, Instant};
use pace_units::QueueState;

/// How long a packet may wait, in nanoseconds: a choice.
pub const QUEUE_LIMIT: u128 = 2_000_000_000;

/// The shortest time in which queues are drained, in nanoseconds: a choice.
pub const SHORTEST_DRAIN: u128 = 1_000_000;

// The greatest rate, in bits a second.
const MAX_BITRATE: u128 = GREATEST_RATE as u128;

/// What queues hold together: packets, bytes, and how long the packets waited, in nanoseconds.
#[derive(Clone, Copy)]
pub struct Totals {
    packets: u128,
    bytes: u128,
    waited: u128,
}

/// What the queues hold together.
pub fn held_by(queues: &[QueueState], now: Instant) -> Totals
    ensures packets { result.packets ≡ packets_in queues.now }
    ensures bytes { result.bytes ≡ bytes_in queues.now }
    ensures waited { result.waited ≡ wait_in queues.now now }
{
    let mut packets: u128 = 0;
    let mut bytes: u128 = 0;
    let mut waited: u128 = 0;
    for queue in queues {
        packets += queue.snapshot.packet_count as u128;
        bytes += queue.snapshot.byte_size as u128;
        waited += queue.snapshot.total_queue_time(now).as_nanos() as u128;
    }
    Totals {
        packets,
        bytes,
        waited,
    }
}

impl Totals {
    /// Whether nothing is held.
    pub fn is_empty(&self) -> bool
        ensures { result ≡ (self.now.packets == 0) }
    {
        self.packets == 0
    }

    /// The rate at which all of it is drained: `base`, or a greater one that is needed so that no
    /// packet waits longer than two seconds.
    pub fn adjusted(&self, base: Bitrate) -> Bitrate
        ensures { result ≡ rate_for base self.now.packets self.now.bytes self.now.waited }
    {
        if self.packets == 0 {
            return base;
        }
        let left = QUEUE_LIMIT
            .saturating_sub(self.waited / self.packets)
            .max(SHORTEST_DRAIN);
        let needed = self.bytes.saturating_mul(8_000_000_000) / left;
        if needed > base.as_u64() as u128 {
            Bitrate::bps(needed.min(MAX_BITRATE) as u64)
        } else {
            base
        }
    }
}

/// Whether one moment is before another; none is before every moment.
pub fn is_before(one: Option<Instant>, other: Option<Instant>) -> bool
    ensures { result ≡ is_before one other }
{
    match (one, other) {
        (_, None) => false,
        (None, Some(_)) => true,
        (Some(one), Some(other)) => one < other,
    }
}

/// The first queue that holds packets.
pub fn first_holding(queues: &[QueueState]) -> Option<&QueueState>
    ensures { option_copied result ≡ first_holding queues.now }
{
    for queue in queues {
        if queue.snapshot.packet_count != 0 {
            return Some(queue);
        }
    }
    None
}

/// Of the unpaced queues that hold packets and one that was not sent, the one whose first waits
/// longest; of equals the first.
pub fn longest_unpaced(queues: &[QueueState]) -> Option<&QueueState>
    ensures { option_copied result ≡ unpaced_from None queues.now }
{
    let mut best: Option<&QueueState> = None;
    for queue in queues {
        best = with_unpaced(best, queue);
    }
    best
}

// The unpaced queue that is let out, after one more was looked at.
fn with_unpaced<'a>(best: Option<&'a QueueState>, queue: &'a QueueState) -> Option<&'a QueueState>
    ensures { option_copied result ≡ with_unpaced (option_copied best.entry) queue.now }
{
    let snapshot = &queue.snapshot;
    if snapshot.packet_count == 0 || !queue.unpaced || snapshot.first_unsent.is_none() {
        return best;
    }
    match best {
        None => Some(queue),
        Some(other) => {
            if is_before(snapshot.first_unsent, other.snapshot.first_unsent) {
                Some(queue)
            } else {
                Some(other)
            }
        }
    }
}

// Whether a queue goes before another.
fn goes_first(one: &QueueState, other: &QueueState) -> bool
    ensures { result ≡ goes_first one.now other.now }
{
    let first = one.snapshot.priority.rank();
    let second = other.snapshot.priority.rank();
    first < second
        || first == second && is_before(one.snapshot.last_emitted, other.snapshot.last_emitted)
}

// The queue whose turn it is, after one more was looked at.
fn with_turn<'a>(best: Option<&'a QueueState>, queue: &'a QueueState) -> Option<&'a QueueState>
    ensures { option_copied result ≡ with_turn (option_copied best.entry) queue.now }
{
    if queue.snapshot.packet_count == 0 {
        return best;
    }
    match best {
        None => Some(queue),
        Some(other) => {
            if goes_first(queue, other) {
                Some(queue)
            } else {
                Some(other)
            }
        }
    }
}

/// Of the queues that hold packets the one that is least by what they are and then by the last
/// packet sent; of equals the first.
pub fn turn(queues: &[QueueState]) -> Option<&QueueState>
    ensures { option_copied result ≡ turn_from None queues.now }
{
    let mut best: Option<&QueueState> = None;
    for queue in queues {
        best = with_turn(best, queue);
    }
    best
}

// The queue that padding is asked of, after one more was looked at.
fn with_padding<'a>(best: Option<&'a QueueState>, queue: &'a QueueState) -> Option<&'a QueueState>
    ensures { option_copied result ≡ with_padding (option_copied best.entry) queue.now }
{
    if !queue.use_for_padding {
        return best;
    }
    match best {
        None => Some(queue),
        Some(other) => {
            if is_before(queue.snapshot.last_emitted, other.snapshot.last_emitted) {
                Some(other)
            } else {
                Some(queue)
            }
        }
    }
}

/// Of the queues for padding the one that was sent on last; of equals the last.
pub fn padding_queue(queues: &[QueueState]) -> Option<&QueueState>
    ensures { option_copied result ≡ padding_from None queues.now }
{
    let mut best: Option<&QueueState> = None;
    for queue in queues {
        best = with_padding(best, queue);
    }
    best
}
