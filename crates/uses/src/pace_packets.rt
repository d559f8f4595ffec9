//! A packet of the queue that a pacer chooses.
ghost use Rattle.std.specs.Prelude.{◌≡◌, IfOk};
ghost use Rattle.std.specs.Option.{option_map};
ghost use Rattle.pace_core.specs.Past.{Past, timed};

use media_units::{DataSize, Instant};
use pace_core::{Pacer, QueueState};
use rtp_base::Mid;
use std::alloc::AllocError;

/// Tells a pacer the queues, sends a packet of that size on the one that it chooses, if any, and
/// tells whose media that is.
pub fn send_next<P: Pacer>(
    pacer: &mut P,
    now: Instant,
    queues: &[QueueState],
    size: DataSize,
) -> Result<Option<Mid>, AllocError>
    ensures queue { IfOk result (λ chosen. (past : Past) → P.stands_for pacer.old past
        → chosen ≡ option_map (λ q. q.0.0) (P.queue_in (timed past now queues.now))) }
{
    pacer.handle_timeout(now, queues)?;
    match pacer.poll_queue() {
        Some((queue, _)) => {
            let mid = queue.0;
            pacer.register_send(now, size, queue)?;
            Ok(Some(mid))
        }
        None => Ok(None),
    }
}
