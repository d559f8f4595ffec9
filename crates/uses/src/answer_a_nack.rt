//! Packets that a receiver misses, sent again.
ghost use Rattle.std.specs.Prelude.{◌≡◌, [], OnOk};

use media_units::Instant;
use resend_core::{Cached, ResendStore};
use rtp_base::{NackEntry, SeqNo};
use rtx_core::{ResendError, ResendQueue};

/// Answers a NACK at once: adds the numbers under which packets are sent again, in order.
pub fn answer_a_nack<P: Cached, S: ResendStore<P>>(
    queue: &mut ResendQueue<P, S>,
    entries: &[NackEntry],
    now: Instant,
    numbers: &mut Vec<SeqNo>,
) -> Result<(), ResendError>
    ensures { OnOk result (queue.new.state.resends ≡ []) }
{
    queue.handle_nack(entries, now)?;
    while let Some(number) = queue.pop(now)? {
        if numbers.push(number).is_err() {
            return Err(ResendError::Memory);
        }
    }
    Ok(())
}
