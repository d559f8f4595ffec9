//! Which SSRCs the streams of a session have, and two that are drawn beside them.
ghost use Rattle.std.specs.Prelude.{◌≡◌, Some, None, IfOk, OnErr};
ghost use Rattle.mapping_core.specs.Draws.{drawn_pair, AreFree};
ghost use Rattle.stream_core.specs.InUse.{is_of, is_received, is_sent, is_used, is_in_use};
ghost use Rattle.stream_core.specs.StreamsRecord.{StreamsRecord, StandsFor};

use super::Streams;
use crate::repairing::Sent;
use crate::ssrc_table::SsrcTable;
use crate::stream_rx::StreamRx;
use crate::stream_tx::StreamTx;
use mapping_core::{SsrcError, UsedSsrcs, new_ssrc_pair};
use rand_core::Rng;
use repair_core::GapWindow;
use resend_core::ResendStore;
use rtp_base::Ssrc;

/// Whether an SSRC is that of a stream's packets, or that of its repairs.
fn is_of(ssrc: Ssrc, own: Ssrc, rtx: Option<Ssrc>) -> bool
    ensures { result ≡ is_of ssrc own rtx }
{
    match rtx {
        Some(rtx) => own == ssrc || rtx == ssrc,
        None => own == ssrc,
    }
}

/// Whether an SSRC is of a stream that is received, or one stands under it.
fn is_received<W: GapWindow>(streams: &SsrcTable<StreamRx<W>>, ssrc: Ssrc) -> bool
    ensures { result ≡ is_received ssrc streams.now }
{
    for place in 0..streams.len() {
        let stream = streams.at(place);
        if is_of(ssrc, stream.ssrc(), stream.rtx()) {
            return true;
        }
    }
    streams.place(ssrc).is_some()
}

/// Whether an SSRC is of a stream that is sent, or one stands under it.
fn is_sent(streams: &SsrcTable<StreamTx>, ssrc: Ssrc) -> bool
    ensures { result ≡ is_sent ssrc streams.now }
{
    for place in 0..streams.len() {
        let stream = streams.at(place);
        if is_of(ssrc, stream.ssrc(), stream.rtx()) {
            return true;
        }
    }
    streams.place(ssrc).is_some()
}

impl<W: GapWindow, S: ResendStore<Sent>> UsedSsrcs for Streams<W, S> {
    ghost uses = { is_used };

    /// Whether an SSRC is of a stream that is received or sent, for its packets or for their
    /// repairs. The time grows with the number of streams.
    fn is_used(&self, ssrc: Ssrc) -> bool {
        if is_received(&self.rx, ssrc) {
            return true;
        }
        is_sent(&self.tx, ssrc)
    }
}

impl<W: GapWindow, S: ResendStore<Sent>> Streams<W, S> {
    /// Draws an SSRC for the packets of a stream and one for their repairs (RFC 3550 section 8.1,
    /// RFC 4588 section 4): each is the next 32 bits of the generator that are not 0, not in use,
    /// and not the other one. In use is each SSRC of a stream that is received or sent, and that of
    /// its repairs. `NoFreeSsrc` after 64 draws for one of the two. The time of a draw grows with
    /// the number of streams.
    pub fn new_ssrc_pair<R: Rng>(&self, rng: &mut R) -> Result<(Ssrc, Ssrc), SsrcError>
        ensures drawn { IfOk result (λ p. (r : StreamsRecord) → StandsFor W.remembers S.stands_for self.now r
            → drawn_pair (is_in_use r) (R.stream rng.old) ≡ (Some p, R.stream rng.new)) }
        ensures free { IfOk result (λ p. (r : StreamsRecord) → StandsFor W.remembers S.stands_for self.now r → AreFree (is_in_use r) p.0 p.1) }
        ensures none { OnErr result ((r : StreamsRecord) → StandsFor W.remembers S.stands_for self.now r
            → drawn_pair (is_in_use r) (R.stream rng.old) ≡ (None, R.stream rng.new)) }
    {
        new_ssrc_pair(self, rng)
    }
}
