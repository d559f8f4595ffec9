//! A pacer that does not pace: what waits is let out at once, in turns.
ghost use Rattle.std.specs.Prelude.{◌≡◌, ◌<◌, None, OnOk, OnErr, IsOk, IsSome, length};
ghost use Rattle.std.specs.Option.{ForSome};
ghost use Rattle.pace_core.specs.Past.{Past, made, sent, last_sent_in};
ghost use Rattle.pace_core.specs.Null.{
  goes_first,
  least_from,
  null_queues,
  AreNoted,
  marked,
  asks_none,
  given_in,
  wake_in,
};
ghost use Rattle.pace_core.specs.NullPacer.{StandsFor};
ghost use Rattle.pace_core.specs.Sends.{last_of};

use crate::pacer::Pacer;
use crate::queues::is_before;
use crate::sends::{Sends, same_queue};
use media_units::{Bitrate, DataSize, Instant};
use pace_units::{PacerReason, PaddingRequest, QueueState, Reason};
use rtp_base::{MidRid, TwccClusterId};
use std::alloc::{AllocError, Global};
use std::mem;

// A queue at the last timeout: the packets that were not polled since, when the snapshot was made,
// and when it was sent on last.
#[derive(Clone, Copy, Debug)]
struct NullQueue {
    midrid: MidRid,
    packet_count: u32,
    created_at: Instant,
    last_sent: Option<Instant>,
}

/// A pacer that does not pace: of the queues that hold packets the least recently sent one is
/// polled.
#[derive(Debug, Drop)]
pub struct NullPacer {
    queues: Vec<NullQueue>,
    // Room for the queues of the next timeout.
    spare: Vec<NullQueue>,
    sends: Sends,
    unsent_since: Option<Instant>,
}

// A queue that is polled next, by its place, and when it was sent on last.
#[derive(Clone, Copy)]
struct Candidate {
    place: usize,
    last_sent: Option<Instant>,
}

// Whether a queue goes before the least so far.
fn goes_first(best: &Option<Candidate>, queue: &NullQueue) -> bool
    ensures { result ≡ goes_first best.now queue.now }
{
    match best {
        None => true,
        Some(least) => is_before(queue.last_sent, least.last_sent),
    }
}

// The queue that is polled next.
fn least(queues: &[NullQueue]) -> Option<Candidate>
    ensures least { result ≡ least_from None 0 queues.now }
    ensures bound { ForSome result (λ best. best.place < length queues.now) }
{
    let mut best: Option<Candidate> = None;
    for (i, queue) in queues.iter().enumerate() {
        if queue.packet_count != 0 && goes_first(&best, queue) {
            best = Some(Candidate {
                place: i,
                last_sent: queue.last_sent,
            });
        }
    }
    best
}

// A packet was sent on a queue.
fn mark(queues: &mut [NullQueue], key: &MidRid, now: Instant)
    ensures { queues.new ≡ marked key.now now queues.old }
{
    for queue in queues.iter_mut() {
        if same_queue(&queue.midrid, key) {
            queue.last_sent = Some(now);
        }
    }
}

// When a queue was sent on last: as is noted at its place, where it stands there, else as the sends
// tell.
fn last_sent(noted: &[NullQueue], place: usize, sends: &Sends, key: &MidRid) -> Option<Instant>
    ensures { AreNoted sends.now noted.now → result ≡ last_of sends.now key.now }
{
    if place < noted.len() && same_queue(&noted[place].midrid, key) {
        return noted[place].last_sent;
    }
    sends.last(key)
}

// The queues of a timeout, after those of the one before.
fn put_queues(
    all: &mut Vec<NullQueue>,
    sends: &Sends,
    noted: &[NullQueue],
    queues: &[QueueState],
) -> Result<(), AllocError>
    ensures { OnOk result (AreNoted sends.now noted.now → all.new.items ≡ null_queues sends.now queues.now) }
{
    // The check has to meet the types that a queue may hold.
    let _none: (Option<MidRid>, Option<Instant>) = (None, None);
    all.clear();
    for (i, queue) in queues.iter().enumerate() {
        all.push(NullQueue {
            midrid: queue.midrid,
            packet_count: queue.snapshot.packet_count,
            created_at: queue.snapshot.created_at,
            last_sent: last_sent(noted, i, sends, &queue.midrid),
        })?;
    }
    Ok(())
}

impl NullPacer {
    /// A pacer that was told nothing yet.
    pub fn new(alloc: Global) -> Self
        ensures { StandsFor result (made None) }
    {
        NullPacer {
            queues: Vec::new(alloc),
            spare: Vec::new(alloc),
            sends: Sends::new(alloc),
            unsent_since: None,
        }
    }
}

impl Pacer for NullPacer {
    ghost stands_for = { StandsFor };

    ghost padding_at = { asks_none };

    ghost queue_in = { given_in };

    ghost timeout_in = { wake_in };

    fn set_pacing_rate(&mut self, _pacing_bitrate: Bitrate) {}

    fn set_padding_rate(&mut self, _padding_bitrate: Bitrate) {}

    /// At once where a poll gave a queue and nothing was sent since.
    fn poll_timeout(&self) -> (Option<Instant>, Reason) {
        (self.unsent_since, Reason::Pacer(PacerReason::Handle))
    }

    /// It asks for no padding. A queue that does not stand where it did at the timeout before is
    /// looked for among those that were sent on.
    fn handle_timeout(
        &mut self,
        _now: Instant,
        queues: &[QueueState],
    ) -> Result<Option<PaddingRequest>, AllocError> {
        put_queues(&mut self.spare, &self.sends, self.queues.as_slice(), queues)?;
        mem::swap(&mut self.queues, &mut self.spare);
        self.unsent_since = None;
        Ok(None)
    }

    /// It looks at each queue once, and gives no cluster.
    fn poll_queue(&mut self) -> Option<(MidRid, Option<TwccClusterId>)> {
        let best = least(self.queues.as_slice())?;
        let queue = &mut self.queues[best.place];
        queue.packet_count = queue.packet_count.saturating_sub(1);
        self.unsent_since = Some(queue.created_at);
        Some((queue.midrid, None))
    }

    /// It looks through the queues. It takes memory for one that was not sent on before.
    fn register_send(
        &mut self,
        now: Instant,
        _packet_size: DataSize,
        from: MidRid,
    ) -> Result<(), AllocError>
        ensures ok { OnOk result ((past : Past) → StandsFor self.old past → StandsFor self.new (sent past now _packet_size from)) }
        ensures err { OnErr result ((past : Past) → StandsFor self.old past → StandsFor self.new past) }
        ensures known { (past : Past) → StandsFor self.old past → IsSome (last_sent_in past from) → IsOk result }
    {
        self.sends.record(&from, now)?;
        mark(self.queues.as_mut_slice(), &from, now);
        self.unsent_since = None;
        Ok(())
    }
}
