//! Whether a packet waits to be sealed.
ghost use Rattle.std.specs.Prelude.{◌≡◌, ◌==◌};
ghost use Rattle.std.specs.List.{list_any};

use rtp_base::SeqNo;
use stream_core::SendQueue;

/// Whether a packet of this number waits in a queue. It goes over those that wait.
pub fn is_queued(queue: &SendQueue, number: SeqNo) -> bool
    ensures { result ≡ list_any (λ p. p.seq_no == number) queue.now }
{
    queue
        .iter()
        .any(|waiting| waiting.packet().seq_no == number)
}
