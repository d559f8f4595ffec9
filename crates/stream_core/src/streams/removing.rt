//! A media section's streams are taken out.
ghost use Rattle.std.specs.Prelude.{◌≡◌};
ghost use Rattle.stream_core.specs.Removing.{sent_without, without_section};
ghost use Rattle.stream_core.specs.StreamsRecord.{StreamsRecord, StandsFor};

use super::Streams;
use crate::repairing::Sent;
use repair_core::GapWindow;
use resend_core::ResendStore;
use rtp_base::Mid;

impl<W: GapWindow, S: ResendStore<Sent>> Streams<W, S> {
    /// Takes out the streams of a media section: those that send, with the packets that wait on
    /// them and those that they keep, and those that receive, with their SSRCs of repairs. The time
    /// grows with the square of the number of streams.
    pub fn remove_streams_by_mid(&mut self, mid: Mid)
        ensures removed { (r : StreamsRecord) → StandsFor W.remembers S.stands_for self.old r
            → StandsFor W.remembers S.stands_for self.new (without_section mid r) }
        ensures tx { self.new.tx ≡ sent_without mid self.old.tx }
    {
        self.next_untold = 0;
        self.known.remove_section(mid);
        self.rx.remove_section(mid);
        self.repairs.remove_sent(&self.tx, mid);
        self.tx.remove_section(mid);
    }
}
