//! What a queue of packets holds at a moment.
ghost use Rattle.std.specs.Prelude.{◌≡◌, ◌+◌, ◌-◌, ◌*◌, ◌^◌, ◌==◌, min, if◌then◌else◌};
ghost use Rattle.pace_units.specs.Queue.{
  rank_of,
  first_of_priorities,
  earlier_of,
  later_of,
  total_wait,
  merged,
};

use media_units::{Duration, Instant, not_happening};
use rtp_base::MidRid;

/// What the most important packet of a queue is. What is less goes first.
#[derive(Clone, Copy, Debug, Default, PartialEq, Eq, PartialOrd, Ord)]
pub enum QueuePriority {
    /// The queue holds media.
    Media,
    /// The queue holds padding alone.
    Padding,
    /// The queue holds nothing.
    #[default]
    Empty,
}

impl QueuePriority {
    /// The place in the order: 0 for media, 1 for padding, 2 for nothing.
    pub fn rank(self) -> u8
        ensures { result ≡ rank_of self }
    {
        match self {
            QueuePriority::Media => 0,
            QueuePriority::Padding => 1,
            QueuePriority::Empty => 2,
        }
    }
}

/// What a queue holds at a moment.
#[derive(Clone, Copy, Debug, PartialEq, Eq)]
pub struct QueueSnapshot {
    /// When the snapshot was made.
    pub created_at: Instant,
    /// The bytes that are held.
    pub byte_size: usize,
    /// The packets that are held.
    pub packet_count: u32,
    /// How long the packets waited until then, all together.
    pub total_queue_time_origin: Duration,
    /// When a packet of the queue was sent last, None where none was.
    pub last_emitted: Option<Instant>,
    /// Since when the first of the packets waits to be sent, None where none does.
    pub first_unsent: Option<Instant>,
    /// What the most important packet is.
    pub priority: QueuePriority,
}

/// A queue that holds nothing, at a moment that never comes.
impl Default for QueueSnapshot {
    ghost use Rattle.pace_units.specs.Queue.{empty_snapshot};

    ghost is_default = { λ s. s ≡ empty_snapshot };

    fn default() -> Self {
        QueueSnapshot {
            created_at: not_happening(),
            byte_size: 0,
            packet_count: 0,
            total_queue_time_origin: Duration::ZERO,
            last_emitted: None,
            first_unsent: None,
            priority: QueuePriority::Empty,
        }
    }
}

// The priority that goes first.
fn first_of_priorities(one: QueuePriority, other: QueuePriority) -> QueuePriority
    ensures { result ≡ first_of_priorities one other }
{
    if other < one { other } else { one }
}

// The earlier of two moments that may be there.
pub(crate) fn earlier_of(one: Option<Instant>, other: Option<Instant>) -> Option<Instant>
    ensures { result ≡ earlier_of one other }
{
    match (one, other) {
        (None, None) => None,
        (None, Some(other)) => Some(other),
        (Some(one), None) => Some(one),
        (Some(one), Some(other)) => Some(if one < other { one } else { other }),
    }
}

// The later of two moments that may be there.
fn later_of(one: Option<Instant>, other: Option<Instant>) -> Option<Instant>
    ensures { result ≡ later_of one other }
{
    match (one, other) {
        (None, None) => None,
        (None, Some(other)) => Some(other),
        (Some(one), None) => Some(one),
        (Some(one), Some(other)) => Some(if one < other { other } else { one }),
    }
}

impl QueueSnapshot {
    /// Sets the priority where packets are held, and that of an empty queue where none are.
    pub fn update_priority(&mut self, priority: QueuePriority)
        ensures { self.new ≡ record self.old {
          priority = if self.old.packet_count == 0 then QueuePriority.Empty else priority;
        } }
    {
        self.priority = if self.packet_count == 0 {
            QueuePriority::Empty
        } else {
            priority
        };
    }

    /// Counts another queue in, as if both were one. Sums are at most the greatest value of their
    /// type.
    pub fn merge(&mut self, other: &Self)
        ensures { self.new ≡ merged self.old other.now }
    {
        if other.created_at < self.created_at {
            self.created_at = other.created_at;
        }
        self.byte_size = self.byte_size.saturating_add(other.byte_size);
        self.packet_count = self.packet_count.saturating_add(other.packet_count);
        self.total_queue_time_origin = self
            .total_queue_time_origin
            .saturating_add(other.total_queue_time_origin);
        self.last_emitted = later_of(self.last_emitted, other.last_emitted);
        self.first_unsent = earlier_of(self.first_unsent, other.first_unsent);
        self.priority = first_of_priorities(self.priority, other.priority);
    }

    /// How long the packets waited until `now`, all together, at most 2^64 - 1 ns. Before the
    /// snapshot was made it is what it was then.
    pub fn total_queue_time(&self, now: Instant) -> Duration
        ensures { result ≡ total_wait self.now now }
    {
        let since = now
            .duration_since(self.created_at)
            .saturating_mul(self.packet_count as u64);
        self.total_queue_time_origin.saturating_add(since)
    }
}

/// A queue of packets, as a pacer is told of it.
#[derive(Clone, Copy, Debug)]
pub struct QueueState {
    /// Which queue it is.
    pub midrid: MidRid,
    /// Whether its packets go out at once, such as audio.
    pub unpaced: bool,
    /// Whether padding may be asked of it.
    pub use_for_padding: bool,
    /// What it holds.
    pub snapshot: QueueSnapshot,
}

/// So much padding is asked of a queue.
#[derive(Clone, Copy, Debug)]
pub struct PaddingRequest {
    /// Which queue makes the padding.
    pub midrid: MidRid,
    /// The bytes of padding.
    pub padding: usize,
}
