//! What two queues hold together.
ghost use Rattle.std.specs.Prelude.{◌≡◌};
ghost use Rattle.pace_units.specs.Queue.{merged, total_wait};

use media_units::{Duration, Instant};
use pace_units::QueueSnapshot;

/// How long the packets of two queues waited until now, all together.
pub fn wait_of_both(one: &QueueSnapshot, other: &QueueSnapshot, now: Instant) -> Duration
    ensures { result ≡ total_wait (merged one.now other.now) now }
{
    let mut both = *one;
    both.merge(other);
    both.total_queue_time(now)
}
