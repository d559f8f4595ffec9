//! A packet that the peer misses, sent again under the SSRC of repairs.
ghost use Rattle.std.specs.Prelude.{◌≡◌, [], Some, is_some, if◌then◌else◌, IfOk, IfSome, OnOk, OnErr};
ghost use Rattle.stream_core.specs.StreamsRecord.{StreamsRecord, StandsFor};
ghost use Rattle.stream_core.specs.Tables.{value_under};
ghost use Rattle.stream_core.specs.Sealing.{after_packet};
ghost use Rattle.stream_core.specs.TxRecord.{TxRecord};
ghost use Rattle.uses.specs.SendingAgain.{with_kept, SendsAgain};

use media_units::{Duration, Instant};
use repair_core::GapWindow;
use resend_core::ResendStore;
use rtp_base::{MidRid, NackEntry, SeqNo, Ssrc};
use rtx_core::ResendError;
use std::alloc::AllocError;
use stream_core::{PacketReceipt, PayloadTypes, Sent, Streams, Transport};

/// Declares a stream that keeps 100 packets of the last 3 s, and sends them again under the SSRC
/// `rtx` and numbers from 1 on.
pub fn declare<W: GapWindow, S: ResendStore<Sent>>(
    streams: &mut Streams<W, S>,
    ssrc: Ssrc,
    rtx: Ssrc,
    at: MidRid,
) -> Result<(), AllocError>
    ensures { OnOk result ((r : StreamsRecord) → StandsFor W.remembers S.stands_for streams.old r
        → StandsFor W.remembers S.stands_for streams.new (with_kept ssrc rtx at.0 at.1 r)) }
{
    streams.declare_stream_tx(ssrc, Some((rtx, SeqNo::from(1))), at)?;
    streams.set_rtx_cache(ssrc, 100, Duration::from_secs(3), None)?;
    Ok(())
}

/// Takes in a NACK for packets of a stream, and gives what is to be sealed next on it: where no
/// packet waits, nothing but a repair.
pub fn send_again<W: GapWindow, S: ResendStore<Sent>>(
    streams: &mut Streams<W, S>,
    ssrc: Ssrc,
    entries: &[NackEntry],
    now: Instant,
    transport: &mut Transport,
    types: &PayloadTypes,
) -> Result<Option<PacketReceipt>, ResendError>
    ensures polled { IfOk result (λ o. (r : StreamsRecord) → StandsFor W.remembers S.stands_for streams.old r
        → (after : StreamsRecord) × SendsAgain types.now transport.old now ssrc entries.now r after o
        × StandsFor W.remembers S.stands_for streams.new after) }
    ensures repair { IfOk result (λ o. IfSome o (λ p. (r : StreamsRecord) (x : TxRecord)
        → StandsFor W.remembers S.stands_for streams.old r → value_under ssrc r.tx ≡ Some x → x.queue ≡ []
        → x.rtx ≡ Some p.header.ssrc)) }
    ensures counted { IfOk result (λ o. transport.new
        ≡ (if is_some o then after_packet transport.old else transport.old)) }
    ensures uncounted { OnErr result (transport.new ≡ transport.old) }
{
    let Some(place) = streams.tx_place(ssrc) else {
        return Ok(None);
    };
    streams.handle_nack(ssrc, entries, now)?;
    let receipt = streams.poll_packet(place, now, transport, types)?;
    Ok(receipt)
}
