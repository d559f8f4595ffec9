//! The RTP times of packets that come, as the streams that they are of widen them.
ghost use Rattle.std.specs.Prelude.{◌≡◌, ◌<◌, ℕ, Some, length};
ghost use Rattle.stream_core.specs.StreamsRecord.{StreamsRecord, StandsFor, taken_time_on, restored_time_on};
ghost use Rattle.stream_core.specs.Tables.{place_of};

use super::Streams;
use crate::repairing::Sent;
use crate::reports::Arrival;
use repair_core::GapWindow;
use resend_core::ResendStore;
use rtp_base::MediaTime;

impl<W: GapWindow, S: ResendStore<Sent>> Streams<W, S> {
    /// The RTP time of a packet that so comes on the stream at a place and is taken as it came
    /// (`StreamRx::taken_time`).
    pub fn taken_time_at(&self, place: usize, arrival: &Arrival) -> MediaTime
        requires { place < length self.now.rx }
        ensures { (r : StreamsRecord) (ssrc : ℕ) → StandsFor W.remembers S.stands_for self.now r → place_of ssrc self.now.rx ≡ Some place
            → Some result ≡ taken_time_on arrival.entry.now r.rx ssrc }
    {
        self.rx.at(place).taken_time(arrival)
    }

    /// The RTP time of a packet that is restored from a repair which so comes for the stream at a
    /// place (`StreamRx::restored_time`).
    pub fn restored_time_at(&self, place: usize, arrival: &Arrival) -> MediaTime
        requires { place < length self.now.rx }
        ensures { (r : StreamsRecord) (ssrc : ℕ) → StandsFor W.remembers S.stands_for self.now r → place_of ssrc self.now.rx ≡ Some place
            → Some result ≡ restored_time_on arrival.entry.now r.rx ssrc }
    {
        self.rx.at(place).restored_time(arrival)
    }
}
